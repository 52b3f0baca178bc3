//! The forms of the program, as the rows of a table: the word of each, and the options that it takes.

ghost use Rattle.std.specs.Prelude.{◌≡◌};
ghost use Rattle.view_cli.specs.Words.{form_in, forms, option_in, options_of as options_taken, text_of_option, word_of};

/// What the program shows of a report.
#[derive(Clone, Copy, Debug)]
pub enum Form {
    /// `refused`: the calls that were refused, one a line.
    Refused,
    /// `text`: what each domain did, in words.
    Text,
    /// `expect FILE`: whether the answers are those that a scenario file expects.
    Expect,
    /// `sequence`: what the domains did, as a sequence diagram.
    Sequence,
    /// `lanes`: where the buffers of each lane are, as a chart.
    Lanes,
    /// `trace`: what the domains did, as a trace for a trace viewer.
    Trace,
}

/// An option of a form.
#[derive(Clone, Copy, Debug)]
pub enum OptionName {
    /// `--domain D`: the calls of a domain.
    Domain,
    /// `--channel D N`: the calls with a frame of the channel that domain D numbers N.
    Channel,
    /// `--line K`: the call of a line of the report.
    Line,
    /// `--refused`: the calls that were refused.
    Refused,
    /// `--together`: all domains in one order.
    Together,
    /// `--check`: nothing is shown of a report that is not right.
    Check,
    /// `--from K`: the events from this number in their order on.
    From,
    /// `--to K`: the events up to this number in their order.
    To,
}

/// Returns the word of a form.
fn form_word(form: Form) -> &'static [u8]
    ensures { result.now ≡ word_of form }
{
    match form {
        Form::Refused => b"refused",
        Form::Text => b"text",
        Form::Expect => b"expect",
        Form::Sequence => b"sequence",
        Form::Lanes => b"lanes",
        Form::Trace => b"trace",
    }
}

fn all_forms() -> &'static [Form]
    ensures { result.now ≡ forms }
{
    &[
        Form::Refused,
        Form::Text,
        Form::Expect,
        Form::Sequence,
        Form::Lanes,
        Form::Trace,
    ]
}

/// Returns the options that a form takes.
fn options_of(form: Form) -> &'static [OptionName]
    ensures { result.now ≡ options_taken form }
{
    match form {
        Form::Refused | Form::Expect | Form::Lanes | Form::Trace => &[OptionName::Check],
        Form::Sequence => &[OptionName::From, OptionName::To, OptionName::Check],
        Form::Text => &[
            OptionName::Domain,
            OptionName::Channel,
            OptionName::Line,
            OptionName::Refused,
            OptionName::Together,
            OptionName::Check,
        ],
    }
}

/// Returns the word of an option.
fn option_word(option: OptionName) -> &'static [u8]
    ensures { result.now ≡ text_of_option option }
{
    match option {
        OptionName::Domain => b"--domain",
        OptionName::Channel => b"--channel",
        OptionName::Line => b"--line",
        OptionName::Refused => b"--refused",
        OptionName::Together => b"--together",
        OptionName::Check => b"--check",
        OptionName::From => b"--from",
        OptionName::To => b"--to",
    }
}

/// Returns the form of a word, or `None` where it is that of no form.
pub fn form_named(word: &[u8]) -> Option<Form>
    ensures { result ≡ form_in word.now }
{
    all_forms()
        .iter()
        .copied()
        .find(|form| form_word(*form) == word)
}

/// Returns the option of a word, or `None` where the form takes no option of this word.
pub fn option_named(form: Form, word: &[u8]) -> Option<OptionName>
    ensures { result ≡ option_in form word.now }
{
    options_of(form)
        .iter()
        .copied()
        .find(|option| option_word(*option) == word)
}

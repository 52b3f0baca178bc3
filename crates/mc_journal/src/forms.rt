//! The forms of a line, each with the word that it begins with. Writing and reading share them.

ghost use Rattle.std.specs.Prelude.{◌≡◌};
ghost use Rattle.mc_journal.specs.LineForms.{form_in, form_text, forms};

/// What a line of a journal begins with.
#[derive(Clone, Copy)]
pub enum Form {
    Idle,
    Again,
    Spin,
    Turn,
    Back,
    Put,
    See,
    Take,
    Wait,
    Call,
}

/// Returns the word of a form.
#[inline(always)]
pub fn form_word(form: Form) -> &'static [u8]
    ensures { result.now ≡ form_text form }
{
    match form {
        Form::Idle => b"idle",
        Form::Again => b"again",
        Form::Spin => b"spin",
        Form::Turn => b"turn",
        Form::Back => b"back",
        Form::Put => b"put",
        Form::See => b"see",
        Form::Take => b"take",
        Form::Wait => b"wait",
        Form::Call => b"call",
    }
}

/// All forms, the most frequent first.
fn all_forms() -> &'static [Form]
    ensures { result.now ≡ forms }
{
    &[
        Form::Take,
        Form::Put,
        Form::Call,
        Form::See,
        Form::Back,
        Form::Turn,
        Form::Idle,
        Form::Spin,
        Form::Again,
        Form::Wait,
    ]
}

/// Returns the form of a word, or `None` where no line begins with it.
pub fn form_of(word: &[u8]) -> Option<Form>
    ensures { result ≡ form_in word.now }
{
    all_forms()
        .iter()
        .copied()
        .find(|form| form_word(*form) == word)
}

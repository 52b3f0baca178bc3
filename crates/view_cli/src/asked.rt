//! What the words of the program ask for.

ghost use Rattle.std.specs.Prelude.{◌≡◌, Some};
ghost use Rattle.mc_base.specs.Limits.{last_domain};
ghost use Rattle.view_cli.specs.Asked.{asked_by, behind_option, first_awaited, number_to as number_in, of_channel, of_domain, of_number, reading as reading_of, unasked, whole as whole_of, word_as, words_read};
ghost use Rattle.view_cli.specs.Words.{words_of};
ghost use Rattle.view_cli.specs.declared.asked.Awaited.TheVariants as awaited;
ghost use Rattle.view_cli.specs.declared.form.OptionName.TheVariants as named;

use crate::form::{Form, OptionName, form_named, option_named};
use board_model::number_to;
use mc_base::MAX_DOMAINS;
use report_view::Channel;
use view_text::Filter;

/// The highest number of a domain.
const LAST_DOMAIN: u64 = MAX_DOMAINS as u64 - 1;

/// A form, and which calls of a report it is to show.
#[derive(Clone, Copy, Debug)]
pub struct Asked {
    pub form: Form,
    pub filter: Filter,
    /// All domains are shown in one order, and not one after the other.
    pub together: bool,
    /// Nothing is shown of a report that is not right.
    pub check: bool,
    /// The number of the first event that is drawn, counted from 1.
    pub from: Option<u32>,
    /// The number of the last event that is drawn.
    pub to: Option<u32>,
}

/// What the next word is to be.
#[derive(Clone, Copy, Debug)]
enum Awaited {
    /// An option, where one follows.
    Option,
    /// The name of a file.
    File,
    /// The number of a domain.
    Domain,
    /// A number.
    Number { counted: Counted },
    /// The number of a domain, and behind it that of a channel.
    Channel,
    /// The number of a channel of this domain.
    ChannelOf { domain: u8 },
}

/// What a number counts.
#[derive(Clone, Copy, Debug)]
enum Counted {
    /// The lines of the report.
    Line,
    /// The events, of which it is the first that is drawn.
    From,
    /// The events, of which it is the last that is drawn.
    To,
}

/// What is asked for by some words, and what the next one is to be.
#[derive(Clone, Copy, Debug)]
struct Reading {
    asked: Asked,
    awaited: Awaited,
}

/// What follows the word of a form.
fn awaited_behind(form: Form) -> Awaited
    ensures { result ≡ first_awaited form }
{
    match form {
        Form::Expect => Awaited::File,
        Form::Refused | Form::Text | Form::Sequence | Form::Lanes | Form::Trace => Awaited::Option,
    }
}

/// What a form shows where no option is given.
fn start(form: Form) -> Reading
    ensures { result ≡ unasked form }
{
    let filter = Filter {
        domain: None,
        channel: None,
        line: None,
        refused: false,
    };
    Reading {
        asked: Asked {
            form,
            filter,
            together: false,
            check: false,
            from: None,
            to: None,
        },
        awaited: awaited_behind(form),
    }
}

/// Returns the number that a word writes, if it is at most this one.
fn number(most: u32, word: &[u8]) -> Option<u32>
    ensures { result ≡ number_in most word.now }
{
    match number_to(u64::from(most), word) {
        Some(number) => Some(number as u32),
        None => None,
    }
}

/// Returns the number of a domain that a word writes.
fn domain_number(word: &[u8]) -> Option<u8>
    ensures { result ≡ number_in last_domain word.now }
{
    match number_to(LAST_DOMAIN, word) {
        Some(number) => Some(number as u8),
        None => None,
    }
}

/// This is asked for, and an option may follow.
fn asking(asked: Asked) -> Reading
    ensures { result ≡ reading_of asked awaited.Option }
{
    Reading {
        asked,
        awaited: Awaited::Option,
    }
}

/// Keeps the calls of a domain.
fn with_domain(asked: Asked, domain: u8) -> Reading
    ensures { result ≡ of_domain asked domain }
{
    let filter = Filter {
        domain: Some(domain),
        ..asked.filter
    };
    asking(Asked { filter, ..asked })
}

/// Keeps the calls with a frame of a channel.
fn with_channel(asked: Asked, domain: u8, number: u32) -> Reading
    ensures { result ≡ of_channel asked domain number }
{
    let filter = Filter {
        channel: Some(Channel { domain, number }),
        ..asked.filter
    };
    asking(Asked { filter, ..asked })
}

/// Keeps the call of a line, or draws the events from this number on or up to it.
fn with_number(counted: Counted, asked: Asked, number: u32) -> Reading
    ensures { result ≡ of_number counted asked number }
{
    match counted {
        Counted::Line => {
            let filter = Filter {
                line: Some(number),
                ..asked.filter
            };
            asking(Asked { filter, ..asked })
        }
        Counted::From => asking(Asked {
            from: Some(number),
            ..asked
        }),
        Counted::To => asking(Asked {
            to: Some(number),
            ..asked
        }),
    }
}

/// Keeps the calls that were refused.
fn with_refused(asked: Asked) -> Reading
    ensures { result ≡ behind_option asked named.Refused }
{
    let filter = Filter {
        refused: true,
        ..asked.filter
    };
    asking(Asked { filter, ..asked })
}

/// Waits for what follows an option.
fn awaiting(asked: Asked, awaited: Awaited) -> Reading
    ensures { result ≡ reading_of asked awaited }
{
    Reading { asked, awaited }
}

/// Begins an option, or adds it where nothing is to follow it.
fn with_option(asked: Asked, option: OptionName) -> Reading
    ensures { result ≡ behind_option asked option }
{
    match option {
        OptionName::Domain => awaiting(asked, Awaited::Domain),
        OptionName::Channel => awaiting(asked, Awaited::Channel),
        OptionName::Line => awaiting(
            asked,
            Awaited::Number {
                counted: Counted::Line,
            },
        ),
        OptionName::From => awaiting(
            asked,
            Awaited::Number {
                counted: Counted::From,
            },
        ),
        OptionName::To => awaiting(
            asked,
            Awaited::Number {
                counted: Counted::To,
            },
        ),
        OptionName::Refused => with_refused(asked),
        OptionName::Check => asking(Asked {
            check: true,
            ..asked
        }),
        OptionName::Together => asking(Asked {
            together: true,
            ..asked
        }),
    }
}

/// Reads the word of an option.
fn read_option(asked: Asked, word: &[u8]) -> Option<Reading>
    ensures { result ≡ word_as awaited.Option asked word.now }
{
    match option_named(asked.form, word) {
        Some(option) => Some(with_option(asked, option)),
        None => None,
    }
}

/// Reads a word that is to be a number.
fn read_domain(asked: Asked, word: &[u8]) -> Option<Reading>
    ensures { result ≡ word_as awaited.Domain asked word.now }
{
    match domain_number(word) {
        Some(domain) => Some(with_domain(asked, domain)),
        None => None,
    }
}

fn read_number(counted: Counted, asked: Asked, word: &[u8]) -> Option<Reading>
    ensures { result ≡ word_as (awaited.Number counted) asked word.now }
{
    match number(u32::MAX, word) {
        Some(number) => Some(with_number(counted, asked, number)),
        None => None,
    }
}

fn read_channel(asked: Asked, word: &[u8]) -> Option<Reading>
    ensures { result ≡ word_as awaited.Channel asked word.now }
{
    match domain_number(word) {
        Some(domain) => Some(Reading {
            asked,
            awaited: Awaited::ChannelOf { domain },
        }),
        None => None,
    }
}

fn read_channel_of(domain: u8, asked: Asked, word: &[u8]) -> Option<Reading>
    ensures { result ≡ word_as (awaited.ChannelOf domain) asked word.now }
{
    match number(u32::MAX, word) {
        Some(number) => Some(with_channel(asked, domain, number)),
        None => None,
    }
}

/// Reads a word. Returns `None` where it is not what it is to be.
fn read_word(reading: Reading, word: &[u8]) -> Option<Reading>
    ensures { result ≡ word_as reading.awaited reading.asked word.now }
{
    let asked = reading.asked;
    match reading.awaited {
        Awaited::Option => read_option(asked, word),
        Awaited::File => Some(Reading {
            asked,
            awaited: Awaited::Option,
        }),
        Awaited::Domain => read_domain(asked, word),
        Awaited::Number { counted } => read_number(counted, asked, word),
        Awaited::Channel => read_channel(asked, word),
        Awaited::ChannelOf { domain } => read_channel_of(domain, asked, word),
    }
}

/// Reads words behind others.
fn read_words(before: Reading, words: &[String]) -> Option<Reading>
    ensures { result ≡ words_read (Some before) (words_of words.now) }
{
    let mut reading = before;
    let mut rest = words;
    while let [word, after @ ..] = rest {
        reading = read_word(reading, word.as_bytes())?;
        rest = after;
    }
    Some(reading)
}

/// What is asked for, unless a number is still to follow.
fn whole(reading: Reading) -> Option<Asked>
    ensures { result ≡ whole_of (Some reading) }
{
    match reading.awaited {
        Awaited::Option => Some(reading.asked),
        _ => None,
    }
}

/// Returns what the words of the program ask for, or `None` where they are those of no form.
pub fn read_asked(words: &[String]) -> Option<Asked>
    ensures { result ≡ asked_by (words_of words.now) }
{
    let [first, rest @ ..] = words else {
        return None;
    };
    let form = form_named(first.as_bytes())?;
    whole(read_words(start(form), rest)?)
}

/// Returns the name of the file that the words of the program name, if they do.
pub fn file_asked(words: &[String]) -> Option<&String> {
    match read_asked(words)?.form {
        Form::Expect => words.get(1),
        Form::Refused | Form::Text | Form::Sequence | Form::Lanes | Form::Trace => None,
    }
}

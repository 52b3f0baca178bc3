use mc_base::{NoMemory, Reason, Refusal};
use mc_journal::{Answer, Entry, Journal, Told, may_cross_threads};
use std::alloc::{AllocError, Global};
use std::process::Abort;
use std::test::Fail;

/// An entry that may be joined to those before it, or one that stands between.
#[derive(Clone, Copy)]
enum Noted {
    Idle,
    Again(Refusal),
    Put,
}

use Noted::{Again, Idle, Put};

fn note(journal: &mut Journal, noted: Noted) -> Result<(), NoMemory> {
    journal.reserve(1, 1)?;
    match noted {
        Idle => journal.note(Entry::Idle { turns: 1 }),
        Again(word) => journal.note(Entry::Again { word }),
        Put => journal.note(Entry::Put {
            peer: 3,
            frame: b"f",
        }),
    }
    Ok(())
}

fn note_all(journal: &mut Journal, lines: &[Noted]) -> Result<(), NoMemory> {
    for line in lines {
        note(journal, *line)?;
    }
    Ok(())
}

/// Whether an entry is shown so.
fn is_shown(alloc: Global, journal: &Journal, at: usize, line: &str) -> Result<bool, AllocError> {
    match journal.entry(at) {
        Some(entry) => Ok(format!(in alloc; "{entry:?}")?.as_str() == line),
        None => Ok(false),
    }
}

/// Asserts that the journal's entries are shown so, and that there are no more.
fn assert_shown(
    rt: &impl Abort,
    alloc: Global,
    journal: &Journal,
    lines: &[&str],
) -> Result<(), Fail> {
    for (i, line) in lines.iter().enumerate() {
        assert!(rt; is_shown(alloc, journal, i, line)?, "line {i}");
    }
    assert!(rt; journal.len() == lines.len() && journal.entry(lines.len()).is_none());
    Ok(())
}

/// A call that is made again first of all, after two idle turns, after one, twice; with another word, after another entry, and
/// after no idle turn.
const TRIES: [Noted; 14] = [
    Again(Refusal::Empty),
    Idle,
    Idle,
    Again(Refusal::Empty),
    Idle,
    Again(Refusal::Empty),
    Idle,
    Again(Refusal::Empty),
    Idle,
    Again(Refusal::NoBuffer),
    Put,
    Idle,
    Again(Refusal::NoBuffer),
    Again(Refusal::NoBuffer),
];

const JOINED_TRIES: [&str; 8] = [
    "Again { word: Empty }",
    "Idle { turns: 2 }",
    "Again { word: Empty }",
    "Spin { times: 2, word: Empty }",
    "Spin { times: 1, word: NoBuffer }",
    "Put { peer: 3, frame: [102] }",
    "Spin { times: 1, word: NoBuffer }",
    "Again { word: NoBuffer }",
];

#[test]
fn tries_after_one_idle_turn_are_joined(rt: HostRuntime) -> Result<(), Fail> {
    may_cross_threads();
    let mut journal = Journal::new(rt.alloc())?;
    note_all(&mut journal, &TRIES)?;
    assert_shown(&rt, rt.alloc(), &journal, &JOINED_TRIES)
}

const ANSWERS: [Answer<'static>; 10] = [
    Answer::Refused(Refusal::Empty),
    Answer::Ok,
    Answer::Number(1024),
    Answer::Channel {
        request: 5,
        channel: 65_535,
    },
    Answer::Bytes {
        size: 5,
        bytes: b"he",
    },
    Answer::Done {
        place: None,
        result: Told::Address(1030),
    },
    Answer::Done {
        place: None,
        result: Told::Accepted,
    },
    Answer::Done {
        place: None,
        result: Told::Rejected(Reason::Busy),
    },
    Answer::Done {
        place: None,
        result: Told::Bytes {
            size: 9,
            bytes: b"hello",
        },
    },
    Answer::Done {
        place: None,
        result: Told::Ended(Refusal::ChanClosed),
    },
];

const NOTED_ANSWERS: [&str; 10] = [
    "Called { number: 1, answer: Refused(Empty) }",
    "Called { number: 1, answer: Ok }",
    "Called { number: 1, answer: Number(1024) }",
    "Called { number: 1, answer: Channel { request: 5, channel: 65535 } }",
    "Called { number: 1, answer: Bytes { size: 5, bytes: [104, 101] } }",
    "Called { number: 1, answer: Done { place: None, result: Address(1030) } }",
    "Called { number: 1, answer: Done { place: None, result: Accepted } }",
    "Called { number: 1, answer: Done { place: None, result: Rejected(Busy) } }",
    "Called { number: 1, answer: Done { place: None, result: Bytes { size: 9, bytes: [104, 101, 108, 108, 111] } } }",
    "Called { number: 1, answer: Done { place: None, result: Ended(ChanClosed) } }",
];

fn note_answers(journal: &mut Journal) -> Result<(), NoMemory> {
    for answer in &ANSWERS {
        journal.reserve(1, 488)?;
        journal.note(Entry::Called {
            number: 1,
            answer: *answer,
        });
    }
    Ok(())
}

#[test]
fn answers_are_noted(rt: HostRuntime) -> Result<(), Fail> {
    let mut journal = Journal::new(rt.alloc())?;
    note_answers(&mut journal)?;
    assert_shown(&rt, rt.alloc(), &journal, &NOTED_ANSWERS)
}

#[test]
fn a_cleared_journal_is_used_again(rt: HostRuntime) -> Result<(), Fail> {
    let mut journal = Journal::new(rt.alloc())?;
    note_answers(&mut journal)?;
    journal.clear();
    assert!(rt; journal.len() == 0 && journal.entry(0).is_none());
    note_answers(&mut journal)?;
    assert_shown(&rt, rt.alloc(), &journal, &NOTED_ANSWERS)
}

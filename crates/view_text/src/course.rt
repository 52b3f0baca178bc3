//! How far the journals of a report have been put.

ghost use Rattle.std.specs.Prelude.{◌≤◌, length};
ghost use Rattle.report_text.specs.Texts.{longest_line};

use crate::filter::{Filter, is_shown};
use board_model::{Call, Scenario};
use mc_journal::Entry;
use report_view::{DomainView, next_group};

/// The lines of a journal that are for a call, as far as they are left.
#[derive(Clone, Copy)]
pub struct CallLines {
    pub left: u32,
    /// The number of the first of them in the report, counted from 1.
    pub first: u32,
    /// The number of the call's line in the script, counted from 1, or `None` where the journal ends before a call.
    pub call: Option<u32>,
    pub refused: bool,
    pub shown: bool,
    /// Its answer may bring bytes.
    pub brings: bool,
    /// How many turns its wait has made, where one has begun.
    pub turns: Option<u64>,
}

impl CallLines {
    /// None are left.
    fn none() -> CallLines {
        CallLines {
            left: 0,
            first: 0,
            call: None,
            refused: false,
            shown: false,
            brings: false,
            turns: None,
        }
    }

    /// Those of the next call, at the front of a text, whose first line has this number in the report.
    pub fn next(
        scenario: &Scenario,
        filter: Filter,
        domain: &DomainView<'_>,
        first: u32,
        text: &[u8],
        room: &mut [u8],
    ) -> Option<CallLines>
        requires { longest_line text.now ≤ length room.old }
    {
        let group = next_group(text)?;
        Some(CallLines {
            left: group.lines,
            first,
            call: group.call,
            refused: group.refused,
            shown: is_shown(filter, domain, group, text, room),
            brings: brings_bytes(scenario, domain, group.call),
            turns: None,
        })
    }

    /// Passes over one, which has this entry.
    pub fn pass(&mut self, entry: Entry<'_>) {
        self.left = self.left.saturating_sub(1);
        self.turns = with_turns(self.turns, entry);
    }
}

/// Whether a call may bring bytes. Where it may not, its answer may have the same text as one that does: `ok 1 66` is also the request and the
/// channel of a connect, and `done 1 66` an address at a place.
fn brings_bytes(scenario: &Scenario, domain: &DomainView<'_>, call: Option<u32>) -> bool {
    let Some(number) = call else {
        return false;
    };
    match scenario
        .calls
        .as_slice()
        .get(domain.line_numbered(number).call)
    {
        Some(line) => !matches!(line.call, Call::Connect { .. } | Call::WaitAny { .. }),
        None => false,
    }
}

/// Adds the turns of an entry to those of a wait, where one has begun.
fn with_turns(turns: Option<u64>, entry: Entry<'_>) -> Option<u64> {
    match entry {
        Entry::WaitStart { .. } => Some(0),
        Entry::Turn => Some(turns?.saturating_add(1)),
        Entry::Idle { turns: more } => Some(turns?.saturating_add(more)),
        _ => turns,
    }
}

/// How far the journal of a domain has been put.
#[derive(Clone, Copy)]
pub struct Course {
    /// Where its next line begins in its text, in bytes.
    pub place: u32,
    /// The number of that line in the report, counted from 1.
    pub line: u32,
    pub lines: CallLines,
}

impl Course {
    /// Nothing has been put of a journal whose first line has this number in the report.
    fn new(line: u32) -> Course {
        Course {
            place: 0,
            line,
            lines: CallLines::none(),
        }
    }
}

/// How far the journal of each domain has been put, and the first line of the call that was headed last.
#[derive(Clone, Copy)]
pub struct Progress {
    courses: [Course; 8],
    pub headed: Option<u32>,
}

impl Progress {
    /// Nothing has been put of the journals of these domains.
    pub fn new(domains: &[DomainView<'_>]) -> Progress {
        let mut progress = Progress {
            courses: [Course::new(0); 8],
            headed: None,
        };
        for domain in domains {
            progress.keep(domain.journal.domain, Course::new(domain.journal.number));
        }
        progress
    }

    /// How far that of a domain has been put.
    pub fn of(&self, domain: u8) -> Course {
        self.courses[usize::from(domain % 8)]
    }

    /// Keeps how far that of a domain has been put.
    pub fn keep(&mut self, domain: u8, course: Course) {
        self.courses[usize::from(domain % 8)] = course;
    }
}

//! Where each event of a sequence diagram is drawn.

ghost use Rattle.std.specs.Prelude.{◌≡◌, ◌≤◌, IfOk, length, min};
ghost use Rattle.report_text.specs.Texts.{longest_line};
ghost use Rattle.report_sequence.specs.Shown.{part_of};

use crate::pairs::{Pairs, pairs_of};
use event_order::{Event, What};
use mc_base::NoMemory;
use report_pictures::{FrameKind, Subject, frame_in, kind_of};
use std::alloc::Global;

/// From how many announcements on they are folded.
const MANY: u32 = 12;

/// How an event is drawn: in which row, as which kind of frame, and whether it has words.
#[derive(Clone, Copy, Debug)]
pub struct Row {
    pub row: u32,
    pub kind: FrameKind,
    pub has_words: bool,
    /// The put of the call that is answered next, which is drawn a little below the row of the answer.
    pub of_call: bool,
}

/// A plan of a sequence diagram: the events from one place in their order to before another, each with its row, how many rows there are, and whether
/// announcements are folded.
#[derive(Drop)]
pub struct Plan<'a> {
    pub events: &'a [Event],
    pub from: u32,
    pub rows: Vec<Row>,
    pub pairs: Pairs,
    pub height: u32,
    pub folds: bool,
}

/// The events from one place in their order to before another.
fn events_in<'a>(events: &'a [Event], from: u32, to: u32) -> &'a [Event]
    ensures { result.now ≡ part_of from to events.now }
{
    let (_, after) = events.split_at((from as usize).min(events.len()));
    let count = to.saturating_sub(from) as usize;
    let (part, _) = after.split_at(count.min(after.len()));
    part
}

/// The kind of an event's frame.
fn kind_at(subject: Subject<'_>, event: &Event, room: &mut [u8]) -> FrameKind
    requires { longest_line subject.report.now ≤ length room.old }
{
    match event.what {
        What::Put { .. } | What::Take { .. } => kind_of(frame_in(subject.text_of(event), room)),
        _ => FrameKind::Data,
    }
}

/// Whether announcements are folded: where there are many of them.
fn folds(subject: Subject<'_>, events: &[Event], room: &mut [u8]) -> bool
    requires { longest_line subject.report.now ≤ length room.old }
{
    let mut count: u32 = 0;
    for event in events {
        if kind_at(subject, event, room) == FrameKind::Name {
            count = count.saturating_add(1);
        }
    }
    count > MANY
}

/// Whether a put is that of the call which the next event answers. No call puts an announcement.
fn is_of_call(event: &Event, next: Option<&Event>) -> bool {
    let Some(next) = next else {
        return false;
    };
    let is_put = matches!(event.what, What::Put { .. });
    let answers = matches!(next.what, What::Answer { refused: false, .. });
    is_put && answers && event.domain == next.domain
}

/// How an event is drawn in the next row.
fn row_of(row: u32, event: &Event, next: Option<&Event>, kind: FrameKind, folds: bool) -> Row {
    let folded = folds && kind == FrameKind::Name;
    let of_call = kind != FrameKind::Name && is_of_call(event, next);
    Row {
        row,
        kind,
        has_words: !folded && !of_call,
        of_call,
    }
}

/// Whether an event has a row to itself. Puts of calls and announcements that are folded are drawn in the row of the next event.
fn has_row(event: &Event, row: Row) -> bool {
    match event.what {
        What::Give { .. } | What::Back { .. } => false,
        What::Put { .. } | What::Take { .. } => row.has_words,
        _ => true,
    }
}

/// Adds a row.
fn add(rows: &mut Vec<Row>, row: Row) -> Result<(), NoMemory> {
    if rows.push(row).is_err() {
        return Err(NoMemory);
    }
    Ok(())
}

/// Plans the sequence diagram of the events of a report from one place in their order to before another. `room` is as long as the longest line of
/// the report.
///
/// # Errors
///
/// `NoMemory` where an allocation fails.
pub fn plan_of<'a>(
    alloc: Global,
    subject: Subject<'a>,
    from: u32,
    to: u32,
    room: &mut [u8],
) -> Result<Plan<'a>, NoMemory>
    requires { longest_line subject.report.now ≤ length room.old }
    ensures { IfOk result (λ plan. plan.events.now ≡ part_of from to subject.entry.events.now) }
{
    let events = events_in(subject.events, from, to);
    let pairs = pairs_of(alloc, subject.events)?;
    let folds = folds(subject, events, room);
    let mut rows = Vec::new(alloc);
    let height = add_rows(&mut rows, subject, events, folds, room)?;
    Ok(Plan {
        events,
        from,
        rows,
        pairs,
        height,
        folds,
    })
}

/// Adds the rows of events. Returns how many rows there are.
fn add_rows(
    rows: &mut Vec<Row>,
    subject: Subject<'_>,
    events: &[Event],
    folds: bool,
    room: &mut [u8],
) -> Result<u32, NoMemory>
    requires { longest_line subject.report.now ≤ length room.old }
{
    let mut height: u32 = 0;
    let mut rest = events;
    while let [event, after @ ..] = rest {
        let kind = kind_at(subject, event, room);
        let row = row_of(height, event, after.first(), kind, folds);
        add(rows, row)?;
        if has_row(event, row) {
            height = height.saturating_add(1);
        }
        rest = after;
    }
    Ok(height)
}

//! Pictures of reports, by the public calls.

ghost use Rattle.std.specs.Prelude.{◌≤◌, length};
ghost use Rattle.report_text.specs.Texts.{longest_line as length_of_longest};

use outer_io::{MemSink, Writer};
use report_events::events_of;
use report_pictures::{LaneBuffers, Subject, put_lanes, put_trace};
use report_sequence::{plan_of, put_sequence};
use report_text::longest_line;
use report_view::{View, read_view};
use std::alloc::{AllocError, Global};

/// A picture. A sequence diagram has the events from one place in their order to before another.
#[derive(Clone, Copy)]
pub enum Form {
    Trace,
    Lanes,
    Sequence { from: u32, to: u32 },
}

/// Puts a picture. Returns whether it could be planned.
fn is_put(
    alloc: Global,
    out: &mut Writer<'_, MemSink>,
    subject: Subject<'_>,
    form: Form,
    room: &mut [u8],
) -> bool
    requires { length_of_longest subject.report.now ≤ length room.old }
{
    match form {
        Form::Trace => put_trace(out, subject, room),
        Form::Lanes => put_lanes(out, subject),
        Form::Sequence { from, to } => {
            let Ok(plan) = plan_of(alloc, subject, from, to, room) else {
                return false;
            };
            put_sequence(out, subject, &plan, room);
        }
    }
    true
}

/// Returns a picture of a report, or no bytes where it has none.
pub fn drawn(alloc: Global, report: &str, form: Form) -> Result<Vec<u8>, AllocError> {
    let text = report.as_bytes();
    if text.len() > 100_000 {
        return Ok(Vec::new(alloc));
    }
    match read_view(alloc, text) {
        Ok(view) => drawn_of(alloc, text, &view, form),
        Err(_) => Ok(Vec::new(alloc)),
    }
}

fn drawn_of(
    alloc: Global,
    report: &[u8],
    view: &View<'_>,
    form: Form,
) -> Result<Vec<u8>, AllocError> {
    let Ok(events) = events_of(alloc, report, view) else {
        return Ok(Vec::new(alloc));
    };
    let Ok(lanes) = LaneBuffers::new(alloc, &view.told.scenario) else {
        return Err(AllocError);
    };
    let mut room = vec![in alloc; 0u8; longest_line(report)]?;
    let subject = Subject {
        report,
        view,
        events: &events,
        lanes: &lanes,
    };
    let Ok(mut sink) = MemSink::new(alloc, Vec::new(alloc), 4096, 1_000_000) else {
        return Err(AllocError);
    };
    let mut out = Writer::new(&mut sink);
    let is_drawn = is_put(alloc, &mut out, subject, form, room.as_mut_slice());
    let ended = out.finish();
    if !is_drawn || ended.is_err() {
        return Ok(Vec::new(alloc));
    }
    Vec::from_slice(alloc, sink.written())
}

/// How often some bytes are in a text.
pub fn count_of(text: &[u8], piece: &[u8]) -> usize {
    let Some(first) = piece.first() else {
        return 0;
    };
    let mut count: usize = 0;
    for place in 0..text.len() {
        if text[place] == *first && text[place..].starts_with(piece) {
            count = count.saturating_add(1);
        }
    }
    count
}

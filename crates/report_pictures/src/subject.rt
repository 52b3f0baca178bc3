//! What a picture shows: a report with its events.

ghost use Rattle.std.specs.Prelude.{◌≤◌, length};
ghost use Rattle.report_text.specs.Texts.{longest_line};

use crate::buffers::LaneBuffers;
use event_order::Event;
use mc_journal::Entry;
use report_text::next_entry;
use report_view::{ScriptLine, View};

/// A report with its events in one order, and its lanes at the opening.
#[derive(Clone, Copy)]
pub struct Subject<'a> {
    pub report: &'a [u8],
    pub view: &'a View<'a>,
    pub events: &'a [Event],
    pub lanes: &'a LaneBuffers,
}

/// The text of a report from the line that says an event.
fn text_at<'a>(report: &'a [u8], event: &Event) -> &'a [u8]
    ensures { longest_line result.now ≤ longest_line report.now }
{
    let (_, text) = report.split_at(report.len().min(event.place as usize));
    text
}

impl<'a> Subject<'a> {
    /// The text of the report from the line that says an event.
    pub fn text_of(&self, event: &Event) -> &'a [u8]
        ensures { longest_line result.now ≤ longest_line self.now.report.now }
    {
        text_at(self.report, event)
    }

    /// The line of its script that a domain was at, by its number there.
    pub fn script_line(&self, domain: u8, number: u32) -> ScriptLine<'a> {
        for found in &self.view.domains {
            if found.journal.domain == domain {
                return found.line_numbered(number);
            }
        }
        ScriptLine {
            number: 0,
            text: b"",
            call: usize::MAX,
        }
    }
}

/// The entry at the front of a text. `room` is as long as the longest line.
pub fn entry_in<'r>(text: &[u8], room: &'r mut [u8]) -> Option<Entry<'r>>
    requires { longest_line text.now ≤ length room.old }
{
    let (entry, _) = next_entry(text, room)?;
    Some(entry)
}

/// The frame in the line at the front of a text, or no bytes where the line has none.
pub fn frame_in<'r>(text: &[u8], room: &'r mut [u8]) -> &'r [u8]
    requires { longest_line text.now ≤ length room.old }
{
    match entry_in(text, room) {
        Some(Entry::Put { frame, .. }) | Some(Entry::Take { frame, .. }) => frame,
        _ => &[],
    }
}

/// The number of the call in the line at the front of a text, or 0 where it is no call.
pub fn number_in(text: &[u8], room: &mut [u8]) -> u32
    requires { longest_line text.now ≤ length room.old }
{
    match entry_in(text, room) {
        Some(Entry::Called { number, .. }) => number,
        _ => 0,
    }
}

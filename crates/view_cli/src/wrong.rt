//! The line of a wrong report.

ghost use Rattle.std.specs.Prelude.{◌<◌};
ghost use Rattle.report_view.specs.Texts.{PutsText, WritesText};
ghost use Rattle.view_cli.specs.Statuses.{Shows};

use crate::status::{self, after_write};
use outer_io::{Failed, Sink, Writer};
use report_check::CheckReason;
use report_events::EventFault;

/// Returns the word for why a line is wrong.
pub fn reason_word(reason: CheckReason) -> &'static [u8] {
    match reason {
        CheckReason::Text => b"text",
        CheckReason::Step => b"step",
        CheckReason::Script => b"script",
        CheckReason::Link => b"link",
        CheckReason::Total => b"total",
    }
}

/// Writes the first wrong line of an input, and why it is wrong, as `mcrun check` does.
///
/// # Errors
///
/// `Failed` where a write failed.
pub fn write_wrong<K: Sink>(line: u32, reason: &[u8], output: &mut K) -> Result<(), Failed>
    ensures { WritesText K.Sink output.old output.new result }
{
    let mut out = Writer::new(output);
    put_wrong(&mut out, line, reason);
    out.finish()
}

#[tactic(auto, using(report_view::proofs::TextSteps::text_steps))]
fn put_wrong<K: Sink>(out: &mut Writer<'_, K>, line: u32, reason: &[u8])
    ensures { PutsText K.Sink out.old out.new }
{
    out.put(b"wrong ");
    out.put_number(u64::from(line));
    out.put(b" ");
    out.put(reason);
    out.put(b"\n");
}

/// Writes why a report has no picture, or is not shown in one order. Returns the status.
pub fn refuse<K: Sink>(fault: EventFault, output: &mut K) -> u8
    ensures shows { Shows K.Sink result output.old output.new }
    ensures other { 0 < result }
{
    match fault {
        EventFault::NoCause { line } => {
            after_write(write_wrong(line, b"order", output), status::NO_REPORT)
        }
        EventFault::NoMemory => status::NO_MEMORY,
    }
}

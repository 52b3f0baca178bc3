//! The form `check`: the report of a run in, whether it is right or its first wrong line out.

ghost use Rattle.std.specs.Prelude.{◌≡◌, ◌≤◌, length};
ghost use Rattle.scenario_cli.specs.declared.form.Form.TheVariants.{Check};
ghost use Rattle.scenario_cli.specs.Words.{report_limit};
ghost use Rattle.scenario_cli.specs.VerdictText.{check_reason_text};
ghost use Rattle.scenario_cli.specs.Answers.{Tells};

use crate::status::{self, after_write};
use crate::wrong::write_wrong;
use mc_base::NoMemory;
use outer_io::{Sink, write_all};
use report_check::{CheckReason, Verdict, check};
use std::alloc::Global;

/// Writes whether a report is right, or its first wrong line and why it is wrong. Returns the status.
pub fn tell_report<K: Sink>(alloc: Global, report: &[u8], output: &mut K) -> u8
    requires { length report.now ≤ report_limit }
    ensures { Tells K.Sink Check report.now result output.old output.new }
{
    match check(alloc, report) {
        Ok(Verdict::Right) => after_write(write_all(output, b"right\n"), status::DONE),
        Ok(Verdict::Wrong { line, reason }) => {
            let written = write_wrong(line as usize, reason_word(reason), output);
            after_write(written, status::WRONG)
        }
        Err(NoMemory) => status::NO_MEMORY,
    }
}

/// Returns the word for why a line is wrong.
fn reason_word(reason: CheckReason) -> &'static [u8]
    ensures { result.now ≡ check_reason_text reason }
{
    match reason {
        CheckReason::Text => b"text",
        CheckReason::Step => b"step",
        CheckReason::Script => b"script",
        CheckReason::Link => b"link",
        CheckReason::Total => b"total",
    }
}

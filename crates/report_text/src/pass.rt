//! The first pass over a report: what its text tells, or its first wrong line.

ghost use Rattle.std.specs.Prelude.{◌≡◌, ◌+◌, ◌<◌, ◌≤◌, IfOk, Ok, Err, length};
ghost use Rattle.report_text.specs.TextPass.{told_by_text};
ghost use Rattle.report_text.specs.TextRead.{IfWrong, text_seen, told_of};
ghost use Rattle.report_text.specs.Texts.{longest_line as length_of_longest};
ghost use Rattle.report_text.specs.declared.verdict.CheckReason.TheVariants as of;
ghost use Rattle.report_text.specs.declared.verdict.Verdict.TheVariants as verdicts;
ghost use Rattle.report_text.specs.Verdicts.{verdict_on};

use crate::fault::TextFault;
use crate::lines::{Unread, cut};
use crate::mode::Mode;
use crate::report_lines::read_heading;
use crate::scenario::read_told;
use crate::text::read_board;
use board_model::Scenario;
use mc_base::NoMemory;
use std::alloc::Global;

/// What the text of a report tells: how the board was run, its scenario, and the text behind that, with the number of its first line. There
/// stand the journals and the lines of numbers, each line in a form that its place allows.
#[derive(Drop)]
pub struct ReportText<'a> {
    pub mode: Mode,
    pub scenario: Scenario,
    pub line: u32,
    pub behind: &'a [u8],
}

/// Counts the bytes of the longest line of a text.
pub fn longest_line(text: &[u8]) -> usize
    ensures { length_of_longest text.now ≤ result }
{
    let mut longest = 0usize;
    let mut rest = text;
    while let Some((line, after)) = cut(b'\n', rest) {
        longest = longest.max(line.len() + 1);
        rest = after;
    }
    longest.max(rest.len())
}

/// Reads what the text of a report tells, where each line has its form. Else returns the number of the first wrong line.
#[tactic(auto, using(crate::proofs::Reached::behind_past, crate::proofs::Reached::behind_behind))]
fn text_told(alloc: Global, report: &[u8]) -> Result<Result<ReportText<'_>, u32>, NoMemory>
    requires { length report.now < 4_294_967_295 }
    ensures told { IfOk result (λ r. text_seen r ≡ told_by_text report.now) }
    ensures counted { IfOk result (λ r. IfOk r (λ t. t.line + length t.behind.now ≤ length report.now + 1)) }
{
    let start = Unread {
        number: 1,
        text: report,
    };
    let (mode, heading) = match read_heading(start) {
        Ok(headed) => headed,
        Err(number) => return Ok(Err(number)),
    };
    let (scenario, unread) = match read_told(alloc, heading)? {
        Ok(told) => told,
        Err(number) => return Ok(Err(number)),
    };
    match read_board(alloc, mode, &scenario, unread)? {
        Ok(_) => Ok(Ok(ReportText {
            mode,
            scenario,
            line: unread.number,
            behind: unread.text,
        })),
        Err(number) => Ok(Err(number)),
    }
}

/// Reads the text of a report: the first of the four passes over it. The scenario is read, and each line is compared with the forms
/// that its place allows; whether the journals are those of a run is not asked.
///
/// # Errors
///
/// `Wrong` with the first line that the format does not allow at its place. The verdict on the report is this line, with the reason
/// `Text`. `NoMemory` where an allocation fails, which may happen at any time.
pub fn read_text(alloc: Global, report: &[u8]) -> Result<ReportText<'_>, TextFault>
    requires { length report.now < 4_294_967_295 }
    ensures told { IfOk result (λ t. told_by_text report.now ≡ Ok (told_of t)) }
    ensures counted { IfOk result (λ t. t.line + length t.behind.now ≤ length report.now + 1) }
    ensures wrong { IfWrong result (λ line. told_by_text report.now ≡ Err line) }
    ensures verdict { IfWrong result (λ line. verdict_on report.now ≡ verdicts.Wrong line of.Text) }
{
    match text_told(alloc, report)? {
        Ok(told) => Ok(told),
        Err(line) => Err(TextFault::Wrong { line }),
    }
}

//! A report checked: whether it is that of a whole run of its board.

ghost use Rattle.std.specs.Prelude.{◌≡◌, ◌+◌, ◌-◌, ◌^◌, ◌<◌, ◌≤◌, ℕ, IfErr, IfOk, List, None, Ok, Some, length, map};
ghost use Rattle.std.specs.List.{AllByRecursion};
ghost use Rattle.report_text.specs.LinkPass.{journal_told};
ghost use Rattle.report_text.specs.Modes.{mode_of};
ghost use Rattle.report_text.specs.ScenarioPart.{Told};
ghost use Rattle.report_text.specs.TextPass.{told_by_text};
ghost use Rattle.report_text.specs.TextRead.{told_of};
ghost use Rattle.report_text.specs.TotalPass.{rings_due, wrong_ring_back};
ghost use Rattle.report_text.specs.Verdicts.{by_told, verdict_on};
ghost use Rattle.report_totals.specs.PassedReports.{IsPassed};
ghost use Rattle.report_totals.specs.WholeLines.{AreWholeLines};
ghost use Rattle.report_totals.specs.ToldRings.{texts_of};
ghost use Rattle.report_check.specs.Walks.{AreAllWalked, AreReady, IsTextOf, wrong_link_of, wrong_total_of};

use crate::given::note_given;
use crate::walks::Walks;
use board_model::Scenario;
use mc_base::NoMemory;
use report_text::{
    CheckReason, Mode, ReportText, TextFault, Verdict, lanes_of, longest_line, read_text,
    rising_domains, wrong_lanes,
};
use report_totals::{NumbersText, ring_lines, wrong_number};
use std::alloc::Global;

/// Checks a report that comes from elsewhere: whether it is the report of a whole run of the board that it names, in which every message and
/// every item arrived once and in order and no buffer was lost. Else the verdict has the first wrong line, by four passes over the report, and
/// why it is wrong (docs/FORMATS.md, "How a report is checked").
///
/// # Errors
///
/// `NoMemory` where an allocation fails, which may happen at any time.
pub fn check(alloc: Global, report: &[u8]) -> Result<Verdict, NoMemory>
    requires { length report.now < 4_294_967_295 }
    ensures { IfOk result (λ verdict. verdict ≡ verdict_on report.now) }
{
    match read_text(alloc, report) {
        Ok(told) => check_told(alloc, report, &told),
        Err(TextFault::Wrong { line }) => Ok(Verdict::Wrong {
            line,
            reason: CheckReason::Text,
        }),
        Err(TextFault::NoMemory) => Err(NoMemory),
    }
}

/// Checks a report whose text was read.
fn check_told(alloc: Global, _report: &[u8], told: &ReportText<'_>) -> Result<Verdict, NoMemory>
    requires { IsTextOf _report.now told.now }
    ensures { IfOk result (λ verdict. verdict ≡ verdict_on _report.now) }
{
    let lines = rising_domains(alloc, told.scenario.domains.as_slice())?;
    let Ok(mut room) = vec![in alloc; 0u8; longest_line(told.behind)] else {
        return Err(NoMemory);
    };
    let mut walks = Walks {
        journals: Vec::new(alloc),
        states: Vec::new(alloc),
        given: Vec::new(alloc),
        line: told.line,
        behind: told.behind,
    };
    match walks.walk_on(alloc, &told.scenario, &lines, &mut room)? {
        Some(verdict) => Ok(verdict),
        None => check_walked(alloc, _report, told, &walks, &mut room),
    }
}

/// Checks a report in which the steps of each domain are right, and its script is run whole.
fn check_walked(
    alloc: Global,
    _report: &[u8],
    told: &ReportText<'_>,
    walks: &Walks<'_>,
    room: &mut [u8],
) -> Result<Verdict, NoMemory>
    requires text { IsTextOf _report.now told.now }
    requires walked { AreAllWalked (told_of told.now) walks.now }
    requires ready { AreReady (length room.old) (2 ^ 32 - 1) walks.now }
    ensures { IfOk result (λ verdict. verdict ≡ verdict_on _report.now) }
{
    if let Some(line) = wrong_link(alloc, _report, told, walks, room)? {
        return Ok(Verdict::Wrong {
            line,
            reason: CheckReason::Link,
        });
    }
    match wrong_total(alloc, told, walks)? {
        Some(line) => Ok(Verdict::Wrong {
            line,
            reason: CheckReason::Total,
        }),
        None => Ok(Verdict::Right),
    }
}

/// The third pass: the number of the first line that does not fit what the domain at the other end of its lane did.
fn wrong_link(
    alloc: Global,
    _report: &[u8],
    told: &ReportText<'_>,
    walks: &Walks<'_>,
    room: &mut [u8],
) -> Result<Option<u32>, NoMemory>
    requires text { IsTextOf _report.now told.now }
    requires walked { AreAllWalked (told_of told.now) walks.now }
    requires ready { AreReady (length room.old) (2 ^ 32 - 1) walks.now }
    ensures { IfOk result (λ line. line ≡ wrong_link_of (told_of told.now)) }
{
    let journals = lanes_of(alloc, &walks.journals, room)?;
    let mut given = [[0; 8]; 8];
    note_given(&journals, &walks.states, &mut given);
    wrong_lanes(alloc, &journals, &given, room)
}

/// The fourth pass: the number of the first line that the journals do not come to. That is a line by which a buffer came back before its frame was
/// put, where the board ran on threads, or one behind the journals.
fn wrong_total(
    alloc: Global,
    told: &ReportText<'_>,
    walks: &Walks<'_>,
) -> Result<Option<u32>, NoMemory>
    requires passed { IsPassed (told_of told.now) }
    requires walked { AreAllWalked (told_of told.now) walks.now }
    requires count { walks.now.line + length walks.now.behind.now < 2 ^ 32 }
    requires few { AllByRecursion (λ c. c.number + length c.text.now < 2 ^ 32) walks.now.journals.items }
    ensures { IfOk result (λ n. n ≡ wrong_total_of (told_of told.now)) }
{
    let rings = match due_rings(alloc, told, walks)? {
        Ok(rings) => rings,
        Err(line) => return Ok(Some(line)),
    };
    let numbers = NumbersText {
        line: walks.line,
        text: walks.behind,
        rings: &rings,
    };
    wrong_number(alloc, told, &walks.journals, &walks.states, numbers)
}

/// The lines of rings that are due, or the number of the first line by which a buffer came back before its frame was put. Neither is asked of a
/// serial run.
fn due_rings(
    alloc: Global,
    told: &ReportText<'_>,
    walks: &Walks<'_>,
) -> Result<Result<Vec<u8>, u32>, NoMemory>
    requires passed { IsPassed (told_of told.now) }
    requires walked { AreAllWalked (told_of told.now) walks.now }
    requires few { AllByRecursion (λ c. c.number + length c.text.now < 2 ^ 32) walks.now.journals.items }
    ensures wrong { IfOk result (λ r. IfErr r (λ line. wrong_ring_back (mode_of told.now.mode) told.now.scenario (texts_of (told_of told.now)) ≡ Some line)) }
    ensures none { IfOk result (λ r. IfOk r (λ _. wrong_ring_back (mode_of told.now.mode) told.now.scenario (texts_of (told_of told.now)) ≡ None)) }
    ensures rings { IfOk result (λ r. IfOk r (λ text. AreWholeLines text.items (rings_due (mode_of told.now.mode) told.now.scenario (map (journal_told told.now.scenario) (texts_of (told_of told.now)))))) }
{
    match told.mode {
        Mode::Serial => Ok(Ok(Vec::new(alloc))),
        Mode::Threads => ring_lines(alloc, told, &walks.journals, &walks.given),
    }
}

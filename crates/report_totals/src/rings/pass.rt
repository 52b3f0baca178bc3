//! What the fourth pass over a report asks of rings.

ghost use Rattle.std.specs.Prelude.{◌≡◌, ◌+◌, ◌<◌, ◌^◌, List, None, Some, IfErr, IfOk, length};
ghost use Rattle.std.specs.List.{AllByRecursion, flat_map};
ghost use Rattle.report_text.specs.TextRead.{told_of};
ghost use Rattle.report_totals.specs.PassedReports.{IsPassed};
ghost use Rattle.report_totals.specs.WholeLines.{AreWholeLines};
ghost use Rattle.report_totals.specs.SenderLanes.{AreJournals};
ghost use Rattle.report_totals.specs.ToldRings.{ring_texts_of, texts_of, wrong_back_of};

use crate::rings::images::ReadJournals;
use crate::rings::lines::text_of_rings;
use crate::rings::walk::walk_journals;
use mc_base::NoMemory;
use report_replay::FrameNames;
use report_text::{JournalLines, ReportText};
use std::alloc::Global;

/// The lines of rings that are due in the report of a run on threads: for each link in order, queue 0 and then queue 1, the image that the journals
/// come to. Or else the number of the first line, in the first journal that has one, by which a buffer comes back before its frame was put; no
/// order of steps leads to such a journal.
///
/// The first three passes have found no wrong line, and `told` is what the first has read. `given` has what each journal's domain gives back.
///
/// # Errors
///
/// `NoMemory` where an allocation fails, which may happen at any time.
pub fn ring_lines(
    alloc: Global,
    told: &ReportText<'_>,
    journals: &[JournalLines<'_>],
    given: &[FrameNames],
) -> Result<Result<Vec<u8>, u32>, NoMemory>
    requires passed { IsPassed (told_of told.now) }
    requires journals { AreJournals told.now.scenario (texts_of (told_of told.now)) journals.now given.now }
    requires few { AllByRecursion (λ c. c.number + length c.text.now < 2 ^ 32) journals.now }
    ensures wrong { IfOk result (λ r. IfErr r (λ line. wrong_back_of (told_of told.now) ≡ Some line)) }
    ensures none { IfOk result (λ r. IfOk r (λ _. wrong_back_of (told_of told.now) ≡ None)) }
    ensures lines { IfOk result (λ r. IfOk r (λ text. AreWholeLines text.items (ring_texts_of (told_of told.now)))) }
    ensures text { IfOk result (λ r. IfOk r (λ text. text.items ≡ flat_map (λ line. line) (ring_texts_of (told_of told.now)))) }
{
    let lanes = match walk_journals(alloc, &told.scenario, journals, given, journals)? {
        Ok(lanes) => lanes,
        Err(line) => return Ok(Err(line)),
    };
    let read = ReadJournals {
        journals,
        given,
        lanes: &lanes,
    };
    Ok(Ok(text_of_rings(alloc, read, told.scenario.links.as_slice())?))
}

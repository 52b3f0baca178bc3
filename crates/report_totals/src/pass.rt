//! The fourth pass over a report: the first line of its numbers that is not the one due.

ghost use Rattle.std.specs.Prelude.{◌≡◌, ℕ, ◌+◌, ◌<◌, ◌^◌, IfOk, List, length, map};
ghost use Rattle.std.specs.List.{AllByRecursion};
ghost use Rattle.board_model.specs.Language.{IsLawfulBoard};
ghost use Rattle.board_model.specs.Scenario.{rising};
ghost use Rattle.board_model.specs.SerialRun.{Station, journal_left};
ghost use Rattle.report_text.specs.JournalRead.{behind_journals, journals_at};
ghost use Rattle.report_text.specs.LaneLeft.{AreTold};
ghost use Rattle.report_text.specs.LinkPass.{journal_told};
ghost use Rattle.report_text.specs.Modes.{mode_of};
ghost use Rattle.report_text.specs.ScenarioPart.{rest};
ghost use Rattle.report_text.specs.TextLines.{first_other, lines_in, moved};
ghost use Rattle.report_text.specs.TextRead.{told_of};
ghost use Rattle.report_text.specs.TotalPass.{number_texts, rings_due, wrong_number as wrong_number_among};
ghost use Rattle.report_totals.specs.EndedJournals.{AreLeftBehind, CountsAsTold};
ghost use Rattle.report_totals.specs.JournalTallies.{EndRun, EndSomeRun};
ghost use Rattle.report_totals.specs.PassedReports.{IsPassed};
ghost use Rattle.report_totals.specs.WholeLines.{AreWholeLines};

use crate::due_text::due_text;
use crate::ended_journal::{EndedJournal, ended_journals};
use crate::tallies::count_journals;
use board_model::Scenario;
use board_numbers::{channels_of, places_of, totals_of};
use mc_base::NoMemory;
use report_replay::State;
use report_text::{JournalLines, ReportText, other_line};
use std::alloc::Global;

/// The text behind the journals of a report, with the number of its first line, and the lines of rings that are due in it.
#[derive(Clone, Copy)]
pub struct NumbersText<'a> {
    pub line: u32,
    pub text: &'a [u8],
    pub rings: &'a [u8],
}

/// The text of the lines that are due behind the journals of these domains, with these of rings.
fn due_numbers(
    alloc: Global,
    scenario: &Scenario,
    domains: &[EndedJournal<'_, '_>],
    rings: &[u8],
) -> Result<Vec<u8>, NoMemory>
    requires lawful { IsLawfulBoard scenario.now }
    requires told { AllByRecursion CountsAsTold domains.now }
    requires run { EndSomeRun scenario.now domains.now }
    ensures { IfOk result (λ text. (ts : List Station) (ls : List (List ℕ)) → EndRun scenario.now ts domains.now → AreWholeLines rings.now ls → lines_in text.items ≡ number_texts scenario.now (map journal_left ts) ls) }
{
    let counted = count_journals(alloc, domains)?;
    let channels = channels_of(alloc, scenario, domains, &counted.items)?;
    let places = places_of(alloc, scenario, &counted.tallies)?;
    let messages = totals_of(scenario, &counted.tallies);
    due_text(
        alloc,
        channels.as_slice(),
        &messages,
        places.as_slice(),
        rings,
    )
}

/// The number of the first line of a text that is another than the one due, where the text's lines are counted from `line`.
fn number_of_other(line: u32, text: &[u8], due: &[u8]) -> Option<u32>
    requires few { line + length text.now < 2 ^ 32 }
    ensures { result ≡ moved line (first_other (lines_in text.now) (lines_in due.now)) }
{
    let place = other_line(text, due)?;
    Some(line + place)
}

/// The fourth pass over a report: the number of the first line, among those behind the journals, that is not the one due. Due are a line for
/// each channel, one for the messages and one for each lane, by what the journals come to, the lines of rings, and `end`.
///
/// The first three passes have found no wrong line, and `told` is what the first has read. `states` has the state in which each journal leaves
/// its domain, and `numbers` has what stands behind the journals.
///
/// # Errors
///
/// `NoMemory` where an allocation fails, which may happen at any time.
pub fn wrong_number<'a>(
    alloc: Global,
    told: &'a ReportText<'_>,
    journals: &[JournalLines<'_>],
    states: &'a [State],
    numbers: NumbersText<'_>,
) -> Result<Option<u32>, NoMemory>
    requires passed { IsPassed (told_of told.now) }
    requires journals { AreTold (journals_at (rising told.now.scenario) (told_of told.now).behind) journals.now }
    requires states { AreLeftBehind told.now.scenario (journals_at (rising told.now.scenario) (told_of told.now).behind) states.now }
    requires numbers { rest numbers.line (lines_in numbers.text.now) ≡ behind_journals (rising told.now.scenario) (told_of told.now).behind }
    requires rings { AreWholeLines numbers.rings.now (rings_due (mode_of told.now.mode) told.now.scenario (map (journal_told told.now.scenario) (journals_at (rising told.now.scenario) (told_of told.now).behind))) }
    requires few { numbers.line + length numbers.text.now < 2 ^ 32 }
    ensures { IfOk result (λ n. n ≡ wrong_number_among (mode_of told.now.mode) told.now.scenario (map (journal_told told.now.scenario) (journals_at (rising told.now.scenario) (told_of told.now).behind)) (behind_journals (rising told.now.scenario) (told_of told.now).behind)) }
{
    let domains = ended_journals(alloc, &told.scenario, journals, states)?;
    let due = due_numbers(alloc, &told.scenario, &domains, numbers.rings)?;
    Ok(number_of_other(numbers.line, numbers.text, &due))
}

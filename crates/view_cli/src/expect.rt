//! The form `expect`: whether the answers of a report are those that a scenario file expects.

ghost use Rattle.std.specs.Prelude.{◌≡◌, ◌≤◌, IfOk, List, Ok, if◌then◌else◌, length, map};
ghost use Rattle.board_model.specs.Language.{told_by};
ghost use Rattle.report_view.specs.Texts.{PutsText, WritesText};
ghost use Rattle.view_cli.specs.ExpectedAnswers.{ShowsAnswers, ShowsOutcomes};
ghost use Rattle.view_cli.specs.Statuses.{Shows};
ghost use Rattle.view_expect.specs.Answers.{answers_of};
ghost use Rattle.view_expect.specs.Expected.{bare, expected_in};
ghost use Rattle.view_expect.specs.Outcomes.{are_met as all_met, verdict_of, verdict_on};

use crate::status::{self, after_write};
use crate::wrong::write_wrong;
use board_model::{LineReason, Scenario};
use mc_base::NoMemory;
use outer_io::{Failed, Sink, Writer};
use report_view::View;
use scenario_lang::{ScenarioFault, read_scenario};
use std::alloc::Global;
use view_expect::{
    Outcome, are_met, bare_text, compare, expectations_of, other_scenario, write_outcomes,
};

/// Writes that a line of a scenario file is refused, and why.
fn write_refused<K: Sink>(line: u32, reason: &[u8], output: &mut K) -> Result<(), Failed>
    ensures { WritesText K.Sink output.old output.new result }
{
    let mut out = Writer::new(output);
    put_refused(&mut out, line, reason);
    out.finish()
}

#[tactic(auto, using(report_view::proofs::TextSteps::text_steps))]
fn put_refused<K: Sink>(out: &mut Writer<'_, K>, line: u32, reason: &[u8])
    ensures { PutsText K.Sink out.old out.new }
{
    out.put(b"refused ");
    out.put_number(u64::from(line));
    out.put(b": ");
    out.put(reason);
    out.put(b"\n");
}

/// Says why a line of a scenario file is refused. Returns the status.
fn refuse<K: Sink>(alloc: Global, line: u32, reason: LineReason, output: &mut K) -> u8
    ensures shows { Shows K.Sink result output.old output.new }
    ensures refused { 2 ≤ result }
{
    let Ok(text) = format!(in alloc; "{reason}") else {
        return status::NO_MEMORY;
    };
    after_write(
        write_refused(line, text.as_bytes(), output),
        status::NO_REPORT,
    )
}

/// Returns what became of the answers that a file expects.
fn outcomes_of<'o>(
    alloc: Global,
    file: &'o [u8],
    view: &View<'o>,
) -> Result<Vec<Outcome<'o>>, NoMemory>
    ensures { IfOk result (λ v. map verdict_of v.items ≡ map (verdict_on (map answers_of view.now.domains.items)) (expected_in file.now)) }
{
    let expectations = expectations_of(alloc, file)?;
    compare(alloc, view, &expectations)
}

/// The status, by whether all expectations are met.
fn status_of(outcomes: &[Outcome<'_>]) -> u8
    ensures { result ≡ (if all_met outcomes.now then 0 else 1) }
{
    if are_met(outcomes) {
        status::DONE
    } else {
        status::FOUND
    }
}

/// Writes what became of the answers that a file expects. Returns the status: whether all of them are those of the report.
fn tell_outcomes<K: Sink>(alloc: Global, file: &[u8], view: &View<'_>, output: &mut K) -> u8
    ensures shows { Shows K.Sink result output.old output.new }
    ensures outcomes { result ≤ 1 → ShowsOutcomes file.now view.now result (K.written output.old) (K.written output.new) }
{
    let Ok(outcomes) = outcomes_of(alloc, file, view) else {
        return status::NO_MEMORY;
    };
    after_write(write_outcomes(&outcomes, output), status_of(&outcomes))
}

/// Writes what became of the answers that a file expects, which has this scenario, or that the report is of another scenario. Returns the
/// status.
fn tell_on<K: Sink>(
    alloc: Global,
    file: &[u8],
    scenario: &Scenario,
    view: &View<'_>,
    output: &mut K,
) -> u8
    ensures shows { Shows K.Sink result output.old output.new }
    ensures answers { told_by (bare file.now) ≡ Ok scenario.now → result ≤ 1 → ShowsAnswers file.now view.now result (K.written output.old) (K.written output.new) }
{
    match other_scenario(alloc, scenario, &view.told.scenario) {
        Ok(None) => tell_outcomes(alloc, file, view, output),
        Ok(Some(lines)) => {
            // The scenario follows the heading of the report.
            let line = lines.saturating_add(2);
            after_write(write_wrong(line, b"scenario", output), status::NO_REPORT)
        }
        Err(NoMemory) => status::NO_MEMORY,
    }
}

/// Writes what became of the answers that a scenario file expects, or why the file is no scenario or that of another report. Returns the
/// status.
pub fn tell_expected<K: Sink>(alloc: Global, file: &[u8], view: &View<'_>, output: &mut K) -> u8
    requires { length file.now ≤ 8388608 }
    ensures shows { Shows K.Sink result output.old output.new }
    ensures answers { result ≤ 1 → ShowsAnswers file.now view.now result (K.written output.old) (K.written output.new) }
{
    let Ok(text) = bare_text(alloc, file) else {
        return status::NO_MEMORY;
    };
    match read_scenario(alloc, &text) {
        Ok(scenario) => tell_on(alloc, file, &scenario, view, output),
        Err(ScenarioFault::Refused { line, reason }) => refuse(alloc, line, reason, output),
        Err(ScenarioFault::NoMemory) => status::NO_MEMORY,
    }
}

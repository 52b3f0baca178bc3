//! The forms `run`, `run --bells` and `run --serial`: a scenario in, the report of a run of its board or the refusal out.

ghost use Rattle.std.specs.Prelude.{◌≤◌, ℕ, List, length, IfOk};
ghost use Rattle.board_model.specs.Language.{IsLawfulBoard};
ghost use Rattle.board_model.specs.Report.{Mode};
ghost use Rattle.board_runner.specs.Mode.{mode_of};
ghost use Rattle.scenario_cli.specs.declared.form.Form.TheVariants.{Run};
ghost use Rattle.scenario_cli.specs.Words.{input_limit, run_in};
ghost use Rattle.scenario_cli.specs.Due.{IsScenario, IsFaultOf};
ghost use Rattle.scenario_cli.specs.Left.{IsLeft};
ghost use Rattle.scenario_cli.specs.Answers.{Tells};

use crate::refused::{line_reason_word, write_refusal};
use crate::status::{self, after_write};
use board_model::Scenario;
use board_runner::{NoGate, Outcome, run_bells, run_serial, run_threads, write_report};
use mc_base::NoMemory;
use outer_io::Sink;
use scenario_lang::{ScenarioFault, read_scenario};
use std::alloc::Global;
use std::sync::Wait;
use std::thread::Threads;

/// Runs the scenario of a text, on threads or by turns on one thread, and writes its report, or the refusal where the text is
/// no scenario. Returns the status.
pub fn run_text<T: Threads + Sync, K: Sink>(
    rt: &T,
    alloc: Global,
    threads: bool,
    text: &[u8],
    output: &mut K,
) -> u8
    requires { length text.now ≤ input_limit }
    ensures { Tells K.Sink (run_in (mode_of threads)) text.now result output.old output.new }
{
    match read_scenario(alloc, text) {
        Ok(scenario) => {
            let ran = run_board(rt, alloc, threads, &scenario);
            tell_run(&scenario, ran, threads, output)
        }
        Err(fault) => tell_fault(fault, output),
    }
}

/// Does the same on threads that sleep where they wait without end.
pub fn run_text_with_bells<T: Threads + Wait + Sync, K: Sink>(
    rt: &T,
    alloc: Global,
    text: &[u8],
    output: &mut K,
) -> u8
    requires { length text.now ≤ input_limit }
    ensures { Tells K.Sink Run text.now result output.old output.new }
{
    match read_scenario(alloc, text) {
        Ok(scenario) => {
            let ran = run_bells(rt, alloc, &scenario, &NoGate);
            tell_run(&scenario, ran, true, output)
        }
        Err(fault) => tell_fault(fault, output),
    }
}

/// Runs the board of a scenario.
fn run_board<T: Threads + Sync>(
    rt: &T,
    alloc: Global,
    threads: bool,
    scenario: &Scenario,
) -> Result<Outcome, NoMemory>
    requires { IsLawfulBoard scenario.now }
    ensures { IfOk result (IsLeft (mode_of threads) scenario.now) }
{
    if threads {
        run_threads(rt, alloc, scenario, &NoGate)
    } else {
        run_serial(alloc, scenario)
    }
}

/// Writes the report of what a run of the board left. Returns the status.
fn tell_run<K: Sink>(
    scenario: &Scenario,
    ran: Result<Outcome, NoMemory>,
    threads: bool,
    output: &mut K,
) -> u8
    requires lawful { IsLawfulBoard scenario.now }
    requires left { IfOk ran (IsLeft (mode_of threads) scenario.now) }
    ensures { (text : List ℕ) → IsScenario text scenario.now → Tells K.Sink (run_in (mode_of threads)) text result output.old output.new }
{
    match ran {
        Ok(outcome) => after_write(
            write_report(scenario, &outcome, threads, output),
            status::DONE,
        ),
        Err(NoMemory) => status::NO_MEMORY,
    }
}

/// Writes the refusal of a text that is no scenario, where memory for reading it was found. Returns the status.
fn tell_fault<K: Sink>(fault: ScenarioFault, output: &mut K) -> u8
    ensures { (mode : Mode) (text : List ℕ) → IsFaultOf text fault → Tells K.Sink (run_in mode) text result output.old output.new }
{
    match fault {
        ScenarioFault::Refused { line, reason } => {
            let written = write_refusal(line, line_reason_word(reason), output);
            after_write(written, status::REFUSED)
        }
        ScenarioFault::NoMemory => status::NO_MEMORY,
    }
}

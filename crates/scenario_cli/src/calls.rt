//! The form `calls`: numbered calls in, the report of the run of their board and what became of them, or the refusal, out.

ghost use Rattle.std.specs.Prelude.{◌≡◌, ◌≤◌, ℕ, length, IsOk, OnErr};
ghost use Rattle.outer_io.specs.Faults.{HasCause};
ghost use Rattle.outer_io.specs.Puts.{Puts};
ghost use Rattle.outer_io.specs.Writes.{Writes, WritesStop};
ghost use Rattle.board_model.specs.Report.{threads};
ghost use Rattle.board_numbers.specs.Told.{IsToldByText};
ghost use Rattle.board_runner.specs.RingLines.{HasRingsFor};
ghost use Rattle.call_report.specs.CallsText.{gots_text};
ghost use Rattle.scenario_cli.specs.declared.form.Form.TheVariants.{Calls};
ghost use Rattle.scenario_cli.specs.ActorLines.{AreOfCalls, actor_lines, calls_report, gots_at};
ghost use Rattle.scenario_cli.specs.Words.{input_limit};
ghost use Rattle.scenario_cli.specs.Answers.{Tells};

use crate::input_fault::tell_input_fault;
use crate::status::{self, after_write};
use actor_lang::read_calls;
use board_model::Scenario;
use board_runner::{Outcome, put_report};
use call_actor::{CallActor, run_calls};
use call_report::{put_carried, put_cells, put_gots};
use mc_base::NoMemory;
use outer_io::{Failed, Sink, Writer};
use std::alloc::Global;
use std::thread::Threads;

/// Runs the board of the numbered calls of a text on threads, and writes its report and the lines of the calls, or the refusal where the text
/// tells no calls. Returns the status.
pub fn calls_text<T: Threads + Sync, K: Sink>(
    rt: &T,
    alloc: Global,
    text: &[u8],
    output: &mut K,
) -> u8
    requires { length text.now ≤ input_limit }
    ensures { Tells K.Sink Calls text.now result output.old output.new }
{
    match read_calls(alloc, text) {
        Ok(asked) => match run_calls(
            rt,
            alloc,
            asked.clients,
            asked.size,
            asked.repeat,
            &asked.calls,
        ) {
            Ok((scenario, outcome, actors)) => after_write(
                write_calls(asked.clients, &scenario, &outcome, &actors, output),
                status::DONE,
            ),
            Err(NoMemory) => status::NO_MEMORY,
        },
        Err(fault) => tell_input_fault(fault, output),
    }
}

/// Writes the report of what a run of the calls left, and behind it the lines of the calls.
///
/// # Errors
///
/// `Failed` where a write failed.
fn write_calls<K: Sink>(
    clients: u8,
    scenario: &Scenario,
    outcome: &Outcome,
    actors: &[CallActor],
    output: &mut K,
) -> Result<(), Failed>
    requires told { IsToldByText scenario.now }
    requires one_each { length outcome.now.journals ≡ length scenario.now.domains }
    requires rings { HasRingsFor threads scenario.now.links outcome.now.rings }
    requires actors { AreOfCalls clients actors.now }
    ensures bytes { Writes (K.written output.old) (K.written output.new) result (calls_report clients scenario.now outcome.now actors.now) }
    ensures cause { HasCause (K.faults output.old) (K.faults output.new) result }
    ensures room { (n : ℕ) → K.takes output.old n → length (calls_report clients scenario.now outcome.now actors.now) ≤ n → IsOk result }
    ensures few_writes_at_err { OnErr result (WritesStop (K.written output.old) (K.written output.new) (K.calls output.old) (K.calls output.new) (calls_report clients scenario.now outcome.now actors.now)) }
{
    let mut out = Writer::new(output);
    put_report(&mut out, scenario, outcome, true);
    put_calls(&mut out, clients, actors);
    out.finish()
}

/// Puts the lines of the calls: what the server carried out, what each client got, and the cells.
fn put_calls<K: Sink>(out: &mut Writer<'_, K>, clients: u8, actors: &[CallActor])
    requires { AreOfCalls clients actors.now }
    ensures { Puts K.Sink out.old out.new (actor_lines clients actors.now) }
{
    let service = actors[0].service().unwrap();
    put_carried(out, clients, service);
    put_each_gots(out, clients, actors);
    put_cells(out, service);
}

/// Puts what each client got, in rising number.
fn put_each_gots<K: Sink>(out: &mut Writer<'_, K>, clients: u8, actors: &[CallActor])
    requires { AreOfCalls clients actors.now }
    ensures { Puts K.Sink out.old out.new (gots_text clients (gots_at actors.now)) }
{
    for before in 0..clients {
        let client = before + 1;
        put_gots(out, client, actors[client as usize].gots());
    }
}

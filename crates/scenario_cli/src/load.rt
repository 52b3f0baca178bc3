//! The words that ask for no input: the serial run of a load board, of which the totals alone are written, and words of no form.

ghost use Rattle.std.specs.Prelude.{◌≡◌, ◌≢◌, ◌≤◌, ℕ, length, IfOk, IsOk, OnErr};
ghost use Rattle.board_model.specs.LoadBoard.{load_board, load_limit};
ghost use Rattle.board_model.specs.SerialRun.{serial_run};
ghost use Rattle.board_runner.specs.Outcome.{IsOutcome};
ghost use Rattle.outer_io.specs.Faults.{HasCause};
ghost use Rattle.outer_io.specs.Writes.{Writes, WritesStop};
ghost use Rattle.outer_io.specs.Puts.{Puts};
ghost use Rattle.scenario_cli.specs.Words.{words_of, IsNoLoad, usage_text};
ghost use Rattle.scenario_cli.specs.LoadText.{IsLoad, load_report};
ghost use Rattle.scenario_cli.specs.Answers.{Writes as WritesWhole, WritesAtOnce, Unread};

use crate::form::load_of;
use crate::status::{self, after_write};
use board_runner::{Outcome, put_summary, run_serial};
use mc_base::NoMemory;
use outer_io::{Failed, Sink, Writer, write_all};
use scenario_lang::load_scenario;
use std::alloc::Global;

/// What is written where the words are none of the forms.
const USAGE: &[u8] =
    b"usage: mcrun run | run --serial | check | frame | ring | load N | run --bells | relay | calls\n";

/// Does what words say that are of no form with an input: runs a load board, or writes the usage. Returns the status.
pub fn without_input<K: Sink>(alloc: Global, words: &[String], output: &mut K) -> u8
    ensures unread { Unread K.Sink result output.old output.new }
    ensures load { (packets : ℕ) → IsLoad packets (words_of words.now) → WritesWhole K.Sink (load_report packets) 0 result output.old output.new }
    ensures usage { IsNoLoad (words_of words.now) → WritesAtOnce K.Sink usage_text 2 result output.old output.new }
    ensures usage_words { result ≡ 2 → IsNoLoad (words_of words.now) }
{
    match load_of(words) {
        Some(packets) => run_load(alloc, packets, output),
        None => after_write(write_all(output, USAGE), status::USAGE),
    }
}

/// Runs the load board of so many packets by turns on one thread, and writes what became of them. Returns the status.
fn run_load<K: Sink>(alloc: Global, packets: u32, output: &mut K) -> u8
    requires some { 1 ≤ packets }
    requires few { packets ≤ load_limit }
    ensures unread { Unread K.Sink result output.old output.new }
    ensures load { WritesWhole K.Sink (load_report packets) 0 result output.old output.new }
    ensures not_usage { result ≢ 2 }
{
    match load_outcome(alloc, packets) {
        Ok(outcome) => after_write(write_load(packets, &outcome, output), status::DONE),
        Err(NoMemory) => status::NO_MEMORY,
    }
}

/// What the serial run of the board leaves.
fn load_outcome(alloc: Global, packets: u32) -> Result<Outcome, NoMemory>
    requires some { 1 ≤ packets }
    requires few { packets ≤ load_limit }
    ensures { IfOk result (λ o. IsOutcome (load_board packets) o (serial_run (load_board packets))) }
{
    let board = load_scenario(alloc, packets)?;
    let outcome = run_serial(alloc, &board)?;
    Ok(outcome)
}

/// Writes what a run of the board left.
///
/// # Errors
///
/// `Failed` where a write failed.
fn write_load<K: Sink>(packets: u32, outcome: &Outcome, output: &mut K) -> Result<(), Failed>
    requires { IsOutcome (load_board packets) outcome.now (serial_run (load_board packets)) }
    ensures bytes { Writes (K.written output.old) (K.written output.new) result (load_report packets) }
    ensures cause { HasCause (K.faults output.old) (K.faults output.new) result }
    ensures room { (n : ℕ) → K.takes output.old n → length (load_report packets) ≤ n → IsOk result }
    ensures few_writes_at_err { OnErr result (WritesStop (K.written output.old) (K.written output.new) (K.calls output.old) (K.calls output.new) (load_report packets)) }
{
    let mut out = Writer::new(output);
    put_load(&mut out, packets, outcome);
    out.finish()
}

fn put_load<K: Sink>(out: &mut Writer<'_, K>, packets: u32, outcome: &Outcome)
    requires { IsOutcome (load_board packets) outcome.now (serial_run (load_board packets)) }
    ensures { Puts K.Sink out.old out.new (load_report packets) }
{
    out.put(b"load ");
    out.put_number(packets as u64);
    out.put(b"\n");
    put_summary(out, outcome);
    out.put(b"end\n");
}

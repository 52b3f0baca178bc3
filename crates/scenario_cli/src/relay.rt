//! The form `relay`: hops and packets in, the report of the run of their relay or the refusal out.

ghost use Rattle.std.specs.Prelude.{◌≤◌, length};
ghost use Rattle.scenario_cli.specs.declared.form.Form.TheVariants.{Relay};
ghost use Rattle.scenario_cli.specs.Words.{input_limit};
ghost use Rattle.scenario_cli.specs.Answers.{Tells};

use crate::input_fault::tell_input_fault;
use crate::status::{self, after_write};
use actor_lang::read_relay;
use board_runner::write_report;
use hop_relay::run_relay;
use mc_base::NoMemory;
use outer_io::Sink;
use std::alloc::Global;
use std::thread::Threads;

/// Runs the relay of a text on threads, and writes its report, or the refusal where the text tells no relay. Returns the status.
pub fn relay_text<T: Threads + Sync, K: Sink>(
    rt: &T,
    alloc: Global,
    text: &[u8],
    output: &mut K,
) -> u8
    requires { length text.now ≤ input_limit }
    ensures { Tells K.Sink Relay text.now result output.old output.new }
{
    match read_relay(alloc, text) {
        Ok(relay) => match run_relay(rt, alloc, relay.hops, relay.size, relay.packets) {
            Ok((scenario, outcome)) => after_write(
                write_report(&scenario, &outcome, true, output),
                status::DONE,
            ),
            Err(NoMemory) => status::NO_MEMORY,
        },
        Err(fault) => tell_input_fault(fault, output),
    }
}

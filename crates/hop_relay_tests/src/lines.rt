//! The lines of an actor.

ghost use Rattle.std.specs.Prelude.{◌≡◌, None};
ghost use Rattle.hop_relay.specs.RelayActors.{line_asked};

use crate::far_side::FarSide;
use board_model::{Scenario, Seq};
use board_numbers::add;
use board_runner::Actor;
use hop_relay::RelayActor;
use mc_base::NoMemory;
use scenario_lang::write_scenario;
use std::alloc::Global;

/// The text of the lines that an actor gives.
fn lines_of(alloc: Global, mut actor: RelayActor, mut far: FarSide) -> Result<Vec<u8>, NoMemory>
    requires { line_asked actor ≡ None }
{
    let mut calls = Seq::new(Vec::new(alloc));
    let mut next = actor.next(None)?;
    for _ in 0..40 {
        let Some(line) = next else {
            break;
        };
        let answer = far.answer(&line.call);
        add(&mut calls, line)?;
        next = actor.next(Some(&answer))?;
    }
    let scenario = Scenario {
        domains: Seq::new(Vec::new(alloc)),
        links: Seq::new(Vec::new(alloc)),
        calls,
    };
    write_scenario(alloc, &scenario)
}

/// Whether an actor gives these lines where so many calls succeed, and it receives two packets.
pub fn gives(alloc: Global, actor: RelayActor, calls: u32, lines: &str) -> Result<bool, NoMemory>
    requires { line_asked actor ≡ None }
{
    let text = lines_of(alloc, actor, FarSide { calls, packets: 2 })?;
    Ok(text.as_slice() == lines.as_bytes())
}

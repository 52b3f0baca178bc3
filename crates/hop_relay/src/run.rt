//! The run of a relay.

ghost use Rattle.std.specs.Prelude.{◌≡◌, ◌≤◌, ◌+◌, IfOk, length, true};
ghost use Rattle.std.specs.List.{All};
ghost use Rattle.board_model.specs.LineReasons.{is_link_size};
ghost use Rattle.mc_base.specs.Limits.{item_size};
ghost use Rattle.hop_relay.specs.NextLines.{contents};
ghost use Rattle.hop_relay.specs.RelayActors.{AreNew};
ghost use Rattle.hop_relay.specs.RelayBoard.{numbers_below};
ghost use Rattle.hop_relay.specs.RelayRun.{IsRelayOutcome};
ghost use Rattle.hop_relay.specs.Steps.{packet_limit as most_packets};

use crate::board::relay_board;
use crate::relay_actor::RelayActor;
use board_model::Scenario;
use board_numbers::append;
use board_runner::{Outcome, run_actors};
use mc_base::NoMemory;
use std::alloc::Global;
use std::thread::Threads;

/// The most packets of a relay.
const PACKET_LIMIT: u32 = 100_000;

/// Runs a relay of these packets over so many hops, from 1 to 7, each domain on a thread of its own (docs/PROFILE.md, "Relays"). The rings
/// have `size` buffers, a power of two from 2 to 256. There are at most 100,000 packets, each of at most 8,192 bytes.
///
/// Returns the scenario that the domains made, and the outcome of its run. Each domain followed its role to its end; not all packets need
/// arrive. A packet that needs more buffers than a ring has ends the sender, and the others receive until their tries run out, which takes
/// very long.
///
/// # Errors
///
/// `NoMemory` where an allocation fails, in any of the domains. All threads are joined then.
pub fn run_relay<T: Threads + Sync>(
    rt: &T,
    alloc: Global,
    hops: u8,
    size: u32,
    packets: Vec<Vec<u8>>,
) -> Result<(Scenario, Outcome), NoMemory>
    requires some { 1 ≤ hops }
    requires hops { hops ≤ 7 }
    requires size { is_link_size size ≡ true }
    requires few { length packets.items ≤ most_packets }
    requires sizes { All (λ p. length p.items ≤ item_size) packets.items }
    ensures { IfOk result (λ r. IsRelayOutcome (contents packets.items) hops size r.0 r.1) }
{
    let board = relay_board(alloc, hops, size)?;
    let actors = relay_actors(alloc, hops, packets)?;
    let (scenario, outcome, _actors) = run_actors(rt, alloc, &board, actors)?;
    Ok((scenario, outcome))
}

/// An actor for each domain of a relay, in rising number.
fn relay_actors(alloc: Global, hops: u8, packets: Vec<Vec<u8>>) -> Result<Vec<RelayActor>, NoMemory>
    requires some { 1 ≤ hops }
    requires hops { hops ≤ 7 }
    requires few { length packets.items ≤ most_packets }
    requires sizes { All (λ p. length p.items ≤ item_size) packets.items }
    ensures { IfOk result (λ v. AreNew (contents packets.items) hops (numbers_below (hops + 1)) v.items) }
{
    let mut actors = Vec::new(alloc);
    append(&mut actors, RelayActor::first(alloc, packets)?)?;
    for domain in 1..hops {
        append(
            &mut actors,
            RelayActor::middle(alloc, domain, PACKET_LIMIT)?,
        )?;
    }
    append(&mut actors, RelayActor::last(alloc, hops, PACKET_LIMIT)?)?;
    Ok(actors)
}

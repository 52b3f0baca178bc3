//! The rings of a board, finished once its domains have run.

ghost use Rattle.std.specs.Prelude.{◌≡◌, ◌≢◌, ℕ, IfOk};
ghost use Rattle.board_runner.specs.Ended.{ended_at};
ghost use Rattle.board_runner.specs.Finishing.{FinishesLink, FinishesRings, IsOfLink, MayFinish, MayFinishLink};

use crate::ended::{EndedLink, take_ended};
use crate::rings::LinkRings;
use board_model::{LinkLine, Seq};
use board_numbers::add;
use lane_end::{finish_lane, halves_stay_of_one_ring, queue_1_returns_are_empty};
use mc_base::NoMemory;
use split_ring::Closed;
use std::alloc::Global;

/// Finishes the rings of all links from what is left of their ends, in the order of the links: of each link queue 0 and then
/// queue 1.
///
/// # Errors
///
/// `NoMemory` where the list cannot grow.
pub(crate) fn finish_rings(
    alloc: Global,
    links: &[LinkLine],
    rings: Vec<LinkRings>,
    mut ended: Vec<EndedLink>,
) -> Result<Seq<Closed>, NoMemory>
    requires { MayFinish links.now rings.items ended.items }
    ensures { IfOk result (FinishesRings links.now rings.items ended.items) }
{
    let mut closed = Seq::new(Vec::new(alloc));
    let mut at = 0;
    for two in rings {
        let Some(line) = links.get(at) else {
            unreachable!()
        };
        let (zero, one) = finish_link(*line, two, &mut ended);
        add(&mut closed, zero)?;
        add(&mut closed, one)?;
        at += 1;
    }
    Ok(closed)
}

/// Finishes the two rings of a link.
fn finish_link(line: LinkLine, rings: LinkRings, ended: &mut Vec<EndedLink>) -> (Closed, Closed)
    requires { MayFinishLink line rings ended.old.items }
    ensures finished { FinishesLink line rings ended.old.items result.0 result.1 }
    ensures others { (a b : ℕ) → (IsOfLink line a b → ⊥) → ended_at ended.new.items a b ≡ ended_at ended.old.items a b }
{
    let Some(there) = take_ended(ended, line.driver, line.device) else {
        unreachable!()
    };
    let Some(back) = take_ended(ended, line.device, line.driver) else {
        unreachable!()
    };
    halves_stay_of_one_ring();
    queue_1_returns_are_empty();
    let zero = finish_lane(rings.queue0, back.send, there.recv);
    let one = finish_lane(rings.queue1, there.send, back.recv);
    (zero, one)
}

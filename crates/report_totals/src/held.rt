//! What a domain holds at its journal's end.

ghost use Rattle.std.specs.Prelude.{◌≡◌, ◌≤◌, min};
ghost use Rattle.board_model.specs.State.{lent_from, queued_from};
ghost use Rattle.board_model.specs.Unnamed.{unnamed};
ghost use Rattle.board_numbers.specs.Tallied.{AreHeld};
ghost use Rattle.report_totals.specs.SmallRuns.{HoldsFew};

use board_numbers::HeldBuffers;
use buffer_book::Places;
use report_replay::State;

/// A count in 32 bits, which stops at the greatest.
fn capped(count: u64) -> u32
    ensures { result ≡ min count 4294967295 }
{
    count.min(u64::from(u32::MAX)) as u32
}

/// Where a domain holds the buffers of the lane from a peer.
fn places_from(state: &State, peer: u8) -> Places
    ensures queue { result.queue ≡ min (queued_from peer state.now) 4294967295 }
    ensures lent { result.lent ≡ min (lent_from peer state.now) 4294967295 }
{
    Places {
        queue: capped(state.queued_from(peer)),
        lent: capped(state.lent_from(peer)),
    }
}

/// How many messages are queued in a domain, and where it holds buffers, whatever its frames are named by. The counts stop at the greatest `u32`, which no run comes to.
pub fn held_by(state: &State) -> HeldBuffers
    ensures { HoldsFew (unnamed state.now) → AreHeld (unnamed state.now) result }
{
    let mut held = HeldBuffers {
        queued: capped(state.messages_queued()),
        places: [Places { queue: 0, lent: 0 }; 8],
    };
    for peer in 0..8 {
        held.places[peer] = places_from(state, peer as u8);
    }
    held
}

ghost use Rattle.std.specs.Prelude.{◌≡◌, ◌↔◌, IfOk, IsErrOf};
ghost use Rattle.lane_end.specs.Numbers.{IsLaneSize};
ghost use Rattle.lane_end.specs.PlainLane.{AreOneLane};
ghost use Rattle.domain_core.specs.Carrying.{AreJoined};
ghost use Rattle.linked_pair.specs.Links.{IsOpen, new_link};

use domain_core::Link;
use lane_end::{LaneFault, PlainRecv, PlainSend, plain_lane};
use std::alloc::Global;

/// A domain's ends of a link in one memory.
pub type PlainLink = Link<PlainSend, PlainRecv>;

/// Makes both sides of a link between domains `one` and `two`: that of `one`, and that of `two`. Each of its two lanes has
/// `size` buffers of 512 bytes, 1 to 256.
///
/// # Errors
///
/// `Size` where the size is not from 1 to 256, `NoMemory` where an allocation fails.
pub fn plain_link(
    alloc: Global,
    one: u8,
    two: u8,
    size: u32,
) -> Result<(PlainLink, PlainLink), LaneFault>
    ensures size_refused { IsErrOf result LaneFault.Size ↔ (IsLaneSize size → ⊥) }
    ensures one { IfOk result (λ r. r.0 ≡ new_link two size) }
    ensures two { IfOk result (λ r. r.1 ≡ new_link one size) }
    ensures open { IfOk result (λ r. IsOpen r.0 × IsOpen r.1) }
    ensures joined { IfOk result (λ r. AreJoined AreOneLane r.0 r.1) }
{
    let (sent, arriving) = plain_lane(alloc, size)?;
    let (answered, returning) = plain_lane(alloc, size)?;
    let there = Link {
        peer: two,
        size,
        send: sent,
        recv: returning,
    };
    let back = Link {
        peer: one,
        size,
        send: answered,
        recv: arriving,
    };
    Ok((there, back))
}

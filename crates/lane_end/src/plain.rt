//! Plain lanes, whose two ends share one memory.

ghost use Rattle.std.specs.Prelude.{◌≡◌, ◌≤◌, ◌↔◌, ℕ, List, IfOk, IsErrOf, IsTrue};
ghost use Rattle.lane_end.specs.Numbers.{IsLaneSize};
ghost use Rattle.lane_end.specs.SendMoves.{SendMove};
ghost use Rattle.lane_end.specs.ReceiveMoves.{ReceiveMove};
ghost use Rattle.lane_end.specs.PlainSender.{Sender, Sends};
ghost use Rattle.lane_end.specs.PlainReceiver.{Receiver, Receives};
ghost use Rattle.lane_end.specs.PlainLane.{new_sender, new_receiver, AreOneLane, shuttled_sender, shuttled_receiver};

use crate::fault::LaneFault;
use crate::plain_recv::PlainRecv;
use crate::plain_send::PlainSend;
use mc_base::MAX_POOL;
use std::alloc::Global;

/// Makes a lane of `size` buffers: its sender, with all buffers free, and its receiver. All the memory that the two will need
/// is allocated here.
///
/// # Errors
///
/// `Size` where the size is not from 1 to 256, and else `NoMemory` where an allocation fails.
pub fn plain_lane(alloc: Global, size: u32) -> Result<(PlainSend, PlainRecv), LaneFault>
    ensures size_refused { IsErrOf result LaneFault.Size ↔ (IsLaneSize size → ⊥) }
    ensures size { IfOk result (λ _. IsLaneSize size) }
    ensures sender { IfOk result (λ r. r.0 ≡ new_sender size) }
    ensures receiver { IfOk result (λ r. r.1 ≡ new_receiver size) }
    ensures lane { IfOk result (λ r. AreOneLane r.0 r.1) }
{
    if !is_lane_size(size) {
        return Err(LaneFault::Size);
    }
    let send = PlainSend::new(alloc, size)?;
    let recv = PlainRecv::new(alloc, size)?;
    Ok((send, recv))
}

/// Carries the frames put to the receiver and the buffers given back to the sender, where the next looks show them. The two must
/// be the ends of one lane.
pub fn shuttle(from: &mut PlainSend, to: &mut PlainRecv)
    requires lane { AreOneLane from.old to.old }
    ensures sender { from.new ≡ shuttled_sender from.old to.old }
    ensures receiver { to.new ≡ shuttled_receiver from.old to.old }
    ensures lane { AreOneLane from.new to.new }
{
    to.inbox.add_all(&mut from.put);
    from.waiting.add_all(&mut to.given);
}

/// Shows that the ends of one lane remain so whatever moves each of them makes, so they can be shuttled again.
pub fn ends_stay_one_lane()
    ensures { (a b : Sender) (c d : Receiver) (xs : List SendMove) (ys : List ReceiveMove) → AreOneLane a c → Sends a xs b → Receives c ys d → AreOneLane b d }
{}

/// Returns whether a lane can have this many buffers: 1 to 256.
pub(crate) fn is_lane_size(size: u32) -> bool
    ensures { IsTrue result ↔ IsLaneSize size }
{
    0 < size && size <= MAX_POOL
}

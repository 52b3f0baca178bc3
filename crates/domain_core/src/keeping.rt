//! What a domain keeps through each of its calls and waits.

ghost use Rattle.lane_end.specs.PlainSender.{Sends};
ghost use Rattle.lane_end.specs.PlainReceiver.{Receives};
ghost use Rattle.lane_end.specs.PlainLane.{AreOneLane};
ghost use Rattle.lane_end.specs.AnySender.{AnySends};
ghost use Rattle.lane_end.specs.AnyReceiver.{AnyReceives};
ghost use Rattle.lane_end.specs.AnyLane.{AreEndsOfOneRing};
ghost use Rattle.domain_core.specs.Going.{CallsGoBy, StayLinkedBy, WaitsGoBy};

/// Shows that each call of a domain keeps the domain's number and changes its ends by moves alone, over plain lanes and over rings.
pub fn calls_move_ends()
    ensures plain { CallsGoBy Sends Receives }
    ensures rings { CallsGoBy AnySends AnyReceives }
{}

/// Shows the same of each wait.
pub fn waits_move_ends()
    ensures plain { WaitsGoBy Sends Receives }
    ensures rings { WaitsGoBy AnySends AnyReceives }
{}

/// Shows that two linked domains stay linked where one of them changes as its calls and waits change it, so that
/// [`carry`](crate::carry) can be called again.
pub fn domains_stay_linked()
    ensures plain { StayLinkedBy Sends Receives AreOneLane }
    ensures rings { StayLinkedBy AnySends AnyReceives AreEndsOfOneRing }
{}

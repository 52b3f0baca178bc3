//! The ends that a domain holds towards its peers.

use crate::link::Link;
use crate::peer_lane::PeerLane;
use lane_end::{LoopLane, RecvEnd, SendEnd};
use mc_base::Buffer;

/// A domain's ends towards one of its peers: both ends of its lane to itself, or its ends of a link.
#[derive(Debug, Drop)]
pub enum Ends<S, R> {
    Own(LoopLane),
    Linked(Link<S, R>),
}

impl<S: SendEnd, R: RecvEnd> PeerLane for Ends<S, R> {
    ghost use Rattle.domain_parts.specs.Ends.{ends_seen, EndsMoved, EndsMoved-none, EndsMoved-both, EndsMoved-size_to, EndsMoved-size_from};

    ghost seen = { ends_seen S.size S.free R.size R.shown R.out };

    ghost Moved = { EndsMoved S.Moved R.Moved };

    ghost none = { EndsMoved-none S.Moved R.Moved S.none R.none };

    ghost both = { EndsMoved-both S.Moved R.Moved S.both R.both };

    ghost same_size_to = { EndsMoved-size_to S.size S.free R.size R.shown R.out S.Moved R.Moved S.same_size };

    ghost same_size_from = { EndsMoved-size_from S.size S.free R.size R.shown R.out S.Moved R.Moved R.same_size };

    fn free_len(&self) -> u32 {
        match self {
            Ends::Own(lane) => PeerLane::free_len(lane),
            Ends::Linked(link) => link.free_len(),
        }
    }

    fn look_back(&mut self) -> u32 {
        match self {
            Ends::Own(lane) => lane.look_back(),
            Ends::Linked(link) => link.look_back(),
        }
    }

    fn put(&mut self, frame: &[u8]) {
        match self {
            Ends::Own(lane) => PeerLane::put(lane, frame),
            Ends::Linked(link) => link.put(frame),
        }
    }

    fn look_ahead(&mut self) -> u32 {
        match self {
            Ends::Own(lane) => lane.look_ahead(),
            Ends::Linked(link) => link.look_ahead(),
        }
    }

    fn take(&mut self) -> (Buffer, u32) {
        match self {
            Ends::Own(lane) => PeerLane::take(lane),
            Ends::Linked(link) => link.take(),
        }
    }

    fn give_back(&mut self, buffer: Buffer) {
        match self {
            Ends::Own(lane) => PeerLane::give_back(lane, buffer),
            Ends::Linked(link) => link.give_back(buffer),
        }
    }
}

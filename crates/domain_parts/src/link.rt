//! Links: a domain's ends of the two lanes between it and another.

use crate::peer_lane::PeerLane;
use lane_end::{RecvEnd, SendEnd};
use mc_base::Buffer;

/// A domain's ends of its link to another domain, the peer: `peer` is its number, 0 to 7, `size` the number of buffers of each of
/// the two lanes, `send` the end of the lane to the peer, and `recv` the end of the lane from it.
#[derive(Debug, Drop)]
pub struct Link<S, R> {
    pub peer: u8,
    pub size: u32,
    pub send: S,
    pub recv: R,
}

impl<S: SendEnd, R: RecvEnd> PeerLane for Link<S, R> {
    ghost use Rattle.domain_parts.specs.LinkMoved.{LinkMoved, link-none, link-both};
    ghost use Rattle.domain_parts.specs.Ends.{link_seen};

    ghost seen = { link_seen S.size S.free R.size R.shown R.out };

    ghost Moved = { LinkMoved S.Moved R.Moved };

    ghost none = { link-none S.Moved R.Moved S.none R.none };

    ghost both = { link-both S.Moved R.Moved S.both R.both };

    ghost same_size_to = { λ a b xs moved. S.same_size _ _ _ moved.sent };

    ghost same_size_from = { λ a b xs moved. R.same_size _ _ _ moved.received };

    fn free_len(&self) -> u32 {
        self.send.free_len()
    }

    fn look_back(&mut self) -> u32 {
        self.send.look()
    }

    fn put(&mut self, frame: &[u8]) {
        self.send.put(frame);
    }

    fn look_ahead(&mut self) -> u32 {
        self.recv.look()
    }

    fn take(&mut self) -> (Buffer, u32) {
        self.recv.take()
    }

    fn give_back(&mut self, buffer: Buffer) {
        self.recv.give_back(buffer);
    }
}

ghost use Rattle.std.specs.Prelude.{◌≡◌};
ghost use Rattle.door_bell.specs.Inside.{send_inside};

use crate::recv::{RecvKind, StationRecv};
use door_bell::BellSend;
use lane_end::{AnySend, MeetsEnd, SendEnd, meet_ends};
use std::marker::Model;

#[derive(Drop)]
enum SendKind<'a> {
    Polled(AnySend<'a>),
    Rung(BellSend<'a, AnySend<'a>>),
}

/// A sending end of a domain on a board, with a bell at the other side or without. Contracts see the end inside.
#[derive(Drop)]
pub struct StationSend<'a> {
    kind: SendKind<'a>,
}

impl<'a> Model for StationSend<'a> {
    ghost use Rattle.lane_end.specs.declared.any.AnySend.{AnySend};
    ghost use Rattle.station_ends.specs.Inside.{sender_inside};

    ghost Value = { AnySend };

    ghost view = { λ s. sender_inside s.kind };
}

impl<'a> StationSend<'a> {
    /// An end without a bell.
    pub fn polled(end: AnySend<'a>) -> StationSend<'a>
        ensures { result ≡ end.entry }
    {
        StationSend {
            kind: SendKind::Polled(end),
        }
    }

    /// An end that rings after each put.
    pub fn rung(end: BellSend<'a, AnySend<'a>>) -> StationSend<'a>
        ensures { result ≡ send_inside end.entry }
    {
        StationSend {
            kind: SendKind::Rung(end),
        }
    }

    /// Returns the end inside.
    pub fn into_any(self) -> AnySend<'a>
        ensures { result ≡ self.entry }
    {
        match self.kind {
            SendKind::Polled(end) => end,
            SendKind::Rung(end) => end.into_inner(),
        }
    }
}

impl<'a> SendEnd for StationSend<'a> {
    ghost use Rattle.lane_end.specs.AnySender.{size_of_any, free_of_any, AnySends, AnySends-none, AnySends-both, AnySends-size};

    ghost size = { size_of_any };

    ghost free = { free_of_any };

    ghost Moved = { AnySends };

    ghost none = { AnySends-none };

    ghost both = { AnySends-both };

    ghost same_size = { AnySends-size };

    fn free_len(&self) -> u32 {
        match &self.kind {
            SendKind::Polled(end) => end.free_len(),
            SendKind::Rung(end) => end.free_len(),
        }
    }

    fn look(&mut self) -> u32 {
        match &mut self.kind {
            SendKind::Polled(end) => end.look(),
            SendKind::Rung(end) => end.look(),
        }
    }

    fn put(&mut self, frame: &[u8]) {
        match &mut self.kind {
            SendKind::Polled(end) => end.put(frame),
            SendKind::Rung(end) => end.put(frame),
        }
    }
}

impl<'a> MeetsEnd<StationRecv<'a>> for StationSend<'a> {
    ghost use Rattle.lane_end.specs.AnyLane.{AreEndsOfOneRing, EndsHaveMet};
    ghost use Rattle.lane_end.specs.AnyLaneLaws.{met-seen, met-of-one};

    ghost May = { AreEndsOfOneRing };

    ghost Met = { EndsHaveMet };

    ghost same_seen = { met-seen };

    ghost still = { met-of-one };

    fn meet(&mut self, recv: &mut StationRecv<'a>) {
        match &mut self.kind {
            SendKind::Polled(send) => match &mut recv.kind {
                RecvKind::Polled(recv) => meet_ends(send, recv),
                RecvKind::Rung(recv) => recv.meet_polled(send),
            },
            SendKind::Rung(send) => match &mut recv.kind {
                RecvKind::Polled(recv) => send.meet_polled(recv),
                RecvKind::Rung(recv) => send.meet(recv),
            },
        }
    }
}

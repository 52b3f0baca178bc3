ghost use Rattle.std.specs.Prelude.{◌≡◌};
ghost use Rattle.door_bell.specs.Inside.{recv_inside};

use door_bell::BellRecv;
use lane_end::{AnyRecv, RecvEnd};
use mc_base::Buffer;
use std::marker::Model;

#[derive(Drop)]
pub(crate) enum RecvKind<'a> {
    Polled(AnyRecv<'a>),
    Rung(BellRecv<'a, AnyRecv<'a>>),
}

/// A receiving end of a domain on a board, with a bell at the other side or without. Contracts see the end inside.
#[derive(Drop)]
pub struct StationRecv<'a> {
    pub(crate) kind: RecvKind<'a>,
}

impl<'a> Model for StationRecv<'a> {
    ghost use Rattle.lane_end.specs.declared.any.AnyRecv.{AnyRecv};
    ghost use Rattle.station_ends.specs.Inside.{receiver_inside};

    ghost Value = { AnyRecv };

    ghost view = { λ r. receiver_inside r.kind };
}

impl<'a> StationRecv<'a> {
    /// An end without a bell.
    pub fn polled(end: AnyRecv<'a>) -> StationRecv<'a>
        ensures { result ≡ end.entry }
    {
        StationRecv {
            kind: RecvKind::Polled(end),
        }
    }

    /// An end that rings after each buffer given back.
    pub fn rung(end: BellRecv<'a, AnyRecv<'a>>) -> StationRecv<'a>
        ensures { result ≡ recv_inside end.entry }
    {
        StationRecv {
            kind: RecvKind::Rung(end),
        }
    }

    /// Returns the end inside.
    pub fn into_any(self) -> AnyRecv<'a>
        ensures { result ≡ self.entry }
    {
        match self.kind {
            RecvKind::Polled(end) => end,
            RecvKind::Rung(end) => end.into_inner(),
        }
    }
}

impl<'a> RecvEnd for StationRecv<'a> {
    ghost use Rattle.lane_end.specs.AnyReceiver.{size_of_any, shown_of_any, out_of_any, AnyReceives, AnyReceives-none, AnyReceives-both, AnyReceives-size};

    ghost size = { size_of_any };

    ghost shown = { shown_of_any };

    ghost out = { out_of_any };

    ghost Moved = { AnyReceives };

    ghost none = { AnyReceives-none };

    ghost both = { AnyReceives-both };

    ghost same_size = { AnyReceives-size };

    fn look(&mut self) -> u32 {
        match &mut self.kind {
            RecvKind::Polled(end) => end.look(),
            RecvKind::Rung(end) => end.look(),
        }
    }

    fn take(&mut self) -> (Buffer, u32) {
        match &mut self.kind {
            RecvKind::Polled(end) => end.take(),
            RecvKind::Rung(end) => end.take(),
        }
    }

    fn give_back(&mut self, buffer: Buffer) {
        match &mut self.kind {
            RecvKind::Polled(end) => end.give_back(buffer),
            RecvKind::Rung(end) => end.give_back(buffer),
        }
    }
}

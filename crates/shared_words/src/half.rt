//! One half of a ring.
use crate::rule::Place;
use std::marker::Model;

/// One seat of a ring's table, with its view. It carries the slots of just the numbers that it holds.
///
/// Contracts see the ring, the half's role, and its view: the lists of what it wrote and took, how much it was
/// shown, its looks, and what it has begun and not ended.
#[derive(Drop)]
pub struct Half {
    pub(crate) seat: Place,
    /// How many entries it wrote, modulo 65536.
    pub(crate) written: u16,
    /// How many entries it took, modulo 65536.
    pub(crate) taken: u16,
    /// The number that it read last.
    pub(crate) read: u16,
}

impl Model for Half {
    ghost use Rattle.shared_words.specs.HalfHolds.{SeatHolds, role_in, half_in};
    ghost use Rattle.shared_words.specs.Shown.{HalfShown};

    ghost Value = { HalfShown };

    ghost view = { λ h. record { ring = record { table = h.seat.table_id; width = (half_in h.seat.me.0).width }; role = role_in h.seat.me.0; view = half_in h.seat.me.0 } };

    ghost invariant = { λ h. SeatHolds h.seat.table_id.slots h.seat.me h.written h.taken h.read };
}

impl Half {
    ghost use Rattle.std.specs.Prelude.{◌≡◌, ◌%◌, ◌^◌, length};

    /// How many entries it wrote, modulo 65536.
    pub fn written(&self) -> u16
        ensures { result ≡ length self.now.view.written % 2 ^ 16 }
    {
        self.written
    }
}

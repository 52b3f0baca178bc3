//! The packets of the first domain.

ghost use Rattle.std.specs.Prelude.{◌≡◌, ◌∷◌, [], MatchOption};

use crate::queue::Queue;
use std::marker::Model;

/// Packets that are sent one by one. Contracts see the list of those that are left.
///
/// A type of its own, so that what is known of it holds beside a snapshot: it may move to another thread.
#[derive(Drop)]
pub struct Packets {
    rest: Queue<Vec<u8>>,
}

impl Model for Packets {
    ghost use Rattle.std.specs.Prelude.{ℕ, List, Vec};
    ghost use Rattle.std.specs.Global.{Global};

    ghost Value = { List (Vec ℕ Global) };

    ghost view = { λ a. a.rest };
}

impl Packets {
    pub fn new(packets: Vec<Vec<u8>>) -> Packets
        ensures { result ≡ packets.items }
    {
        Packets {
            rest: Queue::new(packets),
        }
    }

    /// Takes the next packet, or returns `None` where none is left.
    pub fn take(&mut self) -> Option<Vec<u8>>
        ensures { MatchOption result ((self.old ≡ []) × (self.new ≡ [])) (λ packet. self.old ≡ packet ∷ self.new) }
    {
        self.rest.take()
    }
}

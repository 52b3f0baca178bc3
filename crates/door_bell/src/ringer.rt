//! A ringer of a bell.
ghost use Rattle.std.specs.Prelude.{◌≡◌};
ghost use Rattle.door_bell.specs.Shown.{IsRingerOf, having_rung};

use crate::bell::Bell;
use crate::kinds::{PostNews, RingOnce};
use crate::rule::Place;
use crate::words::{RUNG, STATE, WANTS, word_of_news};
use std::marker::Model;

/// Rings a bell. A bell has one ringer of each number.
///
/// Contracts see its bell, its number, and how often it rang. Between its calls it is never about to ring.
#[derive(Drop)]
pub struct Ringer {
    pub(crate) seat: Place,
    pub(crate) number: u32,
}

impl Model for Ringer {
    ghost use Rattle.door_bell.specs.SeatHolds.{RingerHolds, ringer_in};
    ghost use Rattle.door_bell.specs.Shown.{RingerShown};

    ghost Value = { RingerShown };

    ghost view = { λ r. record { table = r.seat.table_id; number = r.number; view = ringer_in r.seat.me.0 } };

    ghost invariant = { λ r. RingerHolds r.seat.table_id r.seat.me.0 r.number };
}

impl Ringer {
    /// Rings: stores 1 as its news, then exchanges the state from 1 to 2, in one try, and wakes the sleeper if the exchange was
    /// made. The bell must be its own. It waits for nobody.
    pub fn ring(&mut self, on: &Bell)
        requires { IsRingerOf on.now self.old }
        ensures { self.new ≡ having_rung self.old }
    {
        let word = word_of_news(self.number);
        on.board.shared.store::<PostNews>(&mut self.seat, word, 1);
        let state = on
            .board
            .shared
            .compare_exchange::<RingOnce>(&mut self.seat, STATE, WANTS, RUNG);
        if state == WANTS {
            on.board.shared.wake_one(STATE);
        }
    }
}

//! The sleeper of a bell.
ghost use Rattle.std.specs.Prelude.{◌≡◌, MatchBool};
ghost use Rattle.door_bell.specs.declared.view.Stage.TheVariants.{Awake, Asleep};
ghost use Rattle.door_bell.specs.Change.{clearing_below, having_armed, having_given_up, having_slept};
ghost use Rattle.door_bell.specs.Shown.{IsSleeperOf, with_view};

use crate::bell::Bell;
use crate::rule::Place;
use crate::words::{STATE, WANTS};
use std::marker::Model;
use std::sync::Wait;

/// Sleeps until a ringer rings. A bell has one sleeper.
///
/// Contracts see its bell, its stage, the ringers whose news it cleared, and how often it gave up and was woken.
#[derive(Drop)]
pub struct Sleeper {
    pub(crate) seat: Place,
}

impl Model for Sleeper {
    ghost use Rattle.door_bell.specs.SeatHolds.{SleeperHolds, sleeper_in};
    ghost use Rattle.door_bell.specs.Shown.{SleeperShown};

    ghost Value = { SleeperShown };

    ghost view = { λ s. record { table = s.seat.table_id; view = sleeper_in s.seat.me.0 } };

    ghost invariant = { λ s. SleeperHolds s.seat.table_id s.seat.me.0 };
}

impl Sleeper {
    /// Clears the news of each ringer, in rising order. The sleeper must be awake, and the bell its own.
    pub fn clear(&mut self, on: &Bell)
        requires bell { IsSleeperOf on.now self.old }
        requires awake { self.old.view.stage ≡ Awake }
        ensures { self.new ≡ with_view (clearing_below on.now.ringers self.old.view) self.old }
    {
        for number in 0..on.ringers {
            self.clear_news(on, number);
        }
    }

    /// Arms the bell: stores that the sleeper wants to be woken, then loads the news of the ringers in rising order. Returns true if
    /// none had news; then the sleeper is asleep. At the first that has it gives up and is awake. The sleeper must be awake, and
    /// the bell its own.
    pub fn arm(&mut self, on: &Bell) -> bool
        requires bell { IsSleeperOf on.now self.old }
        requires awake { self.old.view.stage ≡ Awake }
        ensures { MatchBool result
            (self.new ≡ with_view (having_armed self.old.view) self.old)
            (self.new ≡ with_view (having_given_up self.old.view) self.old) }
    {
        self.store_wants(on);
        for next in 0..on.ringers {
            if !self.hears_nothing(on, next) {
                self.store_awake(on);
                return false;
            }
        }
        true
    }

    /// Sleeps until a load of its own finds that the bell was rung, and is awake. The sleeper must be asleep, and the bell its own.
    /// It may sleep forever: nobody has to ring.
    pub fn sleep<R: Wait>(&mut self, rt: &R, on: &Bell)
        requires bell { IsSleeperOf on.now self.old }
        requires asleep { self.old.view.stage ≡ Asleep }
        ensures { self.new ≡ with_view (having_slept self.old.view) self.old }
    {
        for _ in rt.forever() {
            if self.is_rung(on) {
                self.store_awake(on);
                return;
            }
            on.board.shared.park(rt, STATE, WANTS as u32);
        }
        unreachable!()
    }
}

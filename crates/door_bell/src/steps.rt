//! The steps of a sleeper, a call for each kind.
ghost use Rattle.std.specs.Prelude.{◌≡◌, ◌+◌, ◌<◌, ◌⊎◌, MatchBool};
ghost use Rattle.door_bell.specs.declared.view.Stage.TheVariants.{Awake, Arming, Asleep, GivingUp, Rung};
ghost use Rattle.door_bell.specs.Change.{clearing, arming, finding, giving_up, ringing, waking};
ghost use Rattle.door_bell.specs.Shown.{IsSleeperOf, with_view};

use crate::bell::Bell;
use crate::kinds::{ClearNews, LoadNews, LoadState, StoreAwake, StoreWants};
use crate::sleeper::Sleeper;
use crate::words::{AWAKE, RUNG, STATE, WANTS, word_of_news};

impl Sleeper {
    /// Stores 0 as the news of a ringer.
    pub(crate) fn clear_news(&mut self, on: &Bell, number: u32)
        requires bell { IsSleeperOf on.now self.old }
        requires awake { self.old.view.stage ≡ Awake }
        requires number { number < on.now.ringers }
        ensures { self.new ≡ with_view (clearing number self.old.view) self.old }
    {
        let word = word_of_news(number);
        on.board.shared.store::<ClearNews>(&mut self.seat, word, 0);
    }

    /// Stores 1 as the state.
    pub(crate) fn store_wants(&mut self, on: &Bell)
        requires bell { IsSleeperOf on.now self.old }
        requires awake { self.old.view.stage ≡ Awake }
        ensures view { self.new ≡ with_view (arming self.old.view) self.old }
        ensures ringers { self.old.view.ringers ≡ on.now.ringers }
        ensures some { 0 < on.now.ringers }
    {
        on.board
            .shared
            .store::<StoreWants>(&mut self.seat, STATE, WANTS);
    }

    /// Loads the news of the next ringer, and returns whether it has none.
    pub(crate) fn hears_nothing(&mut self, on: &Bell, next: u32) -> bool
        requires bell { IsSleeperOf on.now self.old }
        requires arming { self.old.view.stage ≡ Arming }
        requires next { self.old.view.found ≡ next }
        requires number { next < on.now.ringers }
        ensures { MatchBool result
            (self.new ≡ with_view (finding (next + 1) self.old.view) self.old)
            (self.new ≡ with_view (giving_up self.old.view) self.old) }
    {
        let word = word_of_news(next);
        let news = on.board.shared.load::<LoadNews>(&mut self.seat, word);
        news == 0
    }

    /// Loads the state, and returns whether the bell was rung.
    pub(crate) fn is_rung(&mut self, on: &Bell) -> bool
        requires bell { IsSleeperOf on.now self.old }
        requires asleep { self.old.view.stage ≡ Asleep }
        ensures { MatchBool result (self.new ≡ with_view (ringing self.old.view) self.old) (self.new ≡ self.old) }
    {
        on.board.shared.load::<LoadState>(&mut self.seat, STATE) == RUNG
    }

    /// Stores 0 as the state.
    pub(crate) fn store_awake(&mut self, on: &Bell)
        requires bell { IsSleeperOf on.now self.old }
        requires up { (self.old.view.stage ≡ GivingUp) ⊎ (self.old.view.stage ≡ Rung) }
        ensures { self.new ≡ with_view (waking self.old.view) self.old }
    {
        on.board
            .shared
            .store::<StoreAwake>(&mut self.seat, STATE, AWAKE);
    }
}

//! A sleeper that passes the time on its own bell.
ghost use Rattle.std.specs.Prelude.{◌≡◌};
ghost use Rattle.door_bell.specs.Shown.{IsSleeperOf};
ghost use Rattle.door_bell.specs.declared.view.Stage.TheVariants.{Awake};

use door_bell::{Bell, Sleeper};
use std::sync::Wait;

#[derive(Drop)]
pub struct Bed<'a, R: Wait> {
    rt: &'a R,
    sleeper: Sleeper,
    on: &'a Bell,
    ghost of_bell: { IsSleeperOf on.now sleeper },
    ghost awake: { sleeper.view.stage ≡ Awake },
}

impl<'a, R: Wait> Bed<'a, R> {
    pub fn new(rt: &'a R, sleeper: Sleeper, on: &'a Bell) -> Bed<'a, R>
        requires bell { IsSleeperOf on.now sleeper }
        requires awake { sleeper.view.stage ≡ Awake }
    {
        Bed { rt, sleeper, on }
    }

    /// Clears the news, before a look.
    pub fn before_look(&mut self) {
        self.sleeper.clear(self.on);
    }

    /// Sleeps until the next ring, after a look that showed nothing, unless there are news already.
    pub fn after_nothing(&mut self) {
        if self.sleeper.arm(self.on) {
            self.sleeper.sleep(self.rt, self.on);
        }
    }
}

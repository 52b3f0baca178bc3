ghost use Rattle.std.specs.Prelude.{◌≡◌};
ghost use Rattle.door_bell.specs.Shown.{IsSleeperOf};
ghost use Rattle.door_bell.specs.declared.view.Stage.TheVariants.{Awake};

use door_bell::{Bell, Sleeper};
use std::sync::Wait;

/// How a domain passes the time between two tries of what it waits for. A pace touches neither the domain nor its journal.
pub trait Pace {
    /// What comes before each try.
    fn before_try(&mut self);

    /// What comes after a try that showed nothing and sent nothing.
    fn after_idle(&mut self);
}

/// The pace of a domain that tries again at once.
#[derive(Drop)]
pub struct Polls;

impl Pace for Polls {
    fn before_try(&mut self) {}

    fn after_idle(&mut self) {}
}

/// The pace of a domain that sleeps until its bell is rung. It clears the bell before each try, and arms it after an idle one.
#[derive(Drop)]
pub struct Sleeps<'a, R: Wait> {
    rt: &'a R,
    sleeper: Sleeper,
    on: &'a Bell,
    ghost of_bell: { IsSleeperOf on.now sleeper },
    ghost awake: { sleeper.view.stage ≡ Awake },
}

impl<'a, R: Wait> Sleeps<'a, R> {
    /// The pace of an awake sleeper on its own bell.
    pub fn new(rt: &'a R, sleeper: Sleeper, on: &'a Bell) -> Sleeps<'a, R>
        requires bell { IsSleeperOf on.now sleeper }
        requires awake { sleeper.view.stage ≡ Awake }
    {
        Sleeps { rt, sleeper, on }
    }
}

impl<'a, R: Wait> Pace for Sleeps<'a, R> {
    fn before_try(&mut self) {
        self.sleeper.clear(self.on);
    }

    fn after_idle(&mut self) {
        if self.sleeper.arm(self.on) {
            self.sleeper.sleep(self.rt, self.on);
        }
    }
}

/// The pace of a domain that has a bell or none.
impl<P: Pace> Pace for Option<P> {
    fn before_try(&mut self) {
        if let Some(pace) = self {
            pace.before_try();
        }
    }

    fn after_idle(&mut self) {
        if let Some(pace) = self {
            pace.after_idle();
        }
    }
}

//! Bells alone.
ghost use Rattle.std.specs.Prelude.{◌≡◌};
ghost use Rattle.std.specs.List.{AllByRecursion};
ghost use Rattle.door_bell.specs.Shown.{IsRingerOf, IsSleeperOf};
ghost use Rattle.door_bell.specs.declared.view.Stage.TheVariants.{Awake, Asleep};

use door_bell::{Bell, BellFault, Ringer, Sleeper, asleep_is_rung, may_cross_threads};
use std::alloc::Global;
use std::sync::Wait;
use std::thread::{Threads, for_each_mut, join};

/// The fault of a bell that has no such count of ringers.
fn fault(alloc: Global, count: u32) -> Option<BellFault> {
    Bell::new(alloc, count).err()
}

/// How many ringers are made with a bell of so many.
fn ringers_made(alloc: Global, count: u32) -> Option<usize> {
    match Bell::new(alloc, count) {
        Ok((_bell, _sleeper, ringers)) => Some(ringers.len()),
        Err(_) => None,
    }
}

#[test]
fn counts_other_than_1_to_14_are_refused(rt: HostRuntime) {
    may_cross_threads();
    asleep_is_rung();
    for count in &[0, 15, 4294967295] {
        assert!(rt;
            matches!(fault(rt.alloc(), *count), Some(BellFault::Count)),
            "{count}"
        );
    }
    for count in &[1, 14] {
        assert!(rt;
            ringers_made(rt.alloc(), *count) == Some(*count as usize),
            "{count}"
        );
    }
}

fn ring_once(on: &Bell, mut ringer: Ringer) -> Ringer
    requires { IsRingerOf on.now ringer }
    ensures { IsRingerOf on.now result }
{
    ringer.ring(on);
    ringer
}

fn sleep_once<R: Wait>(rt: &R, on: &Bell, mut sleeper: Sleeper) -> Sleeper
    requires bell { IsSleeperOf on.now sleeper }
    requires asleep { sleeper.view.stage ≡ Asleep }
    ensures bell { IsSleeperOf on.now result }
    ensures awake { result.view.stage ≡ Awake }
{
    sleeper.sleep(rt, on);
    sleeper
}

// After a sleep that a ring from another thread ended, a clearing and an arming: whether the sleeper is asleep then, with or without
// a ring between the two.
static SECOND_ARMS: [(bool, bool); 2] = [(false, true), (true, false)];

/// Whether a sleeper is asleep after a clearing and an arming, with or without a ring between the two.
fn arms(on: &Bell, mut sleeper: Sleeper, mut ringer: Ringer, rings_between: bool) -> bool
    requires ringer { IsRingerOf on.now ringer }
    requires sleeper { IsSleeperOf on.now sleeper }
    requires awake { sleeper.view.stage ≡ Awake }
{
    sleeper.clear(on);
    if rings_between {
        ringer.ring(on);
    }
    sleeper.arm(on)
}

/// The same after a sleep that a ring from another thread ended. `None` where there is no memory, or there are news before any
/// ring.
fn second_arm<R: Threads + Wait + Sync>(
    rt: &R,
    alloc: Global,
    rings_between: bool,
) -> Option<bool> {
    let Ok((bell, mut sleeper, mut ringers)) = Bell::new(alloc, 3) else {
        return None;
    };
    sleeper.clear(&bell);
    if !sleeper.arm(&bell) {
        return None;
    }
    let ringer = ringers.remove(1);
    let (ringer, sleeper) = join(
        rt,
        || ring_once(&bell, ringer),
        || sleep_once(rt, &bell, sleeper),
    );
    Some(arms(&bell, sleeper, ringer, rings_between))
}

#[test]
fn a_ring_from_another_thread_ends_a_sleep(rt: HostRuntime) {
    for (rings_between, arms) in &SECOND_ARMS {
        assert!(rt; second_arm(&rt, rt.alloc(), *rings_between) == Some(*arms));
    }
}

/// Has each ringer ring, on a thread of its own.
fn ring_all<R: Threads + Sync>(rt: &R, on: &Bell, mut ringers: Vec<Ringer>)
    requires { AllByRecursion (IsRingerOf on.now) ringers.items }
{
    for_each_mut(
        rt,
        ringers.as_mut_slice(),
        14,
        &|_: usize, ringer: &mut Ringer|
            requires { IsRingerOf on.now ringer.now }
        { ringer.ring(on) },
    );
}

/// Whether a sleeper has news after a sleep that fourteen rings at once ended, and none after a clearing. `None` where there is no
/// memory, or there are news before any ring.
fn is_rung_by_fourteen<R: Threads + Wait + Sync>(rt: &R, alloc: Global) -> Option<bool> {
    let Ok((bell, mut sleeper, ringers)) = Bell::new(alloc, 14) else {
        return None;
    };
    sleeper.clear(&bell);
    if !sleeper.arm(&bell) {
        return None;
    }
    let (_, mut sleeper) = join(
        rt,
        ||
            requires { AllByRecursion (IsRingerOf bell) ringers.items }
        { ring_all(rt, &bell, ringers) },
        || sleep_once(rt, &bell, sleeper),
    );
    if sleeper.arm(&bell) {
        return Some(false);
    }
    sleeper.clear(&bell);
    Some(sleeper.arm(&bell))
}

#[test]
fn fourteen_ringers_ring_one_sleeper_at_once(rt: HostRuntime) {
    assert!(rt; is_rung_by_fourteen(&rt, rt.alloc()) == Some(true));
}

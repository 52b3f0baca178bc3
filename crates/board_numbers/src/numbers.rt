//! The numbers of the outcome, by the tallies of the domains.

ghost use Rattle.std.specs.Prelude.{◌≡◌, ◌+◌, ◌-◌, ◌<◌, ◌≤◌, ◌^◌, ◌++◌, [], IfOk, OnOk, length, sum_by, get_or, option_to_list};
ghost use Rattle.board_model.specs.Scenario.{lanes};
ghost use Rattle.board_model.specs.Language.{IsLawfulBoard};
ghost use Rattle.board_numbers.specs.Lanes.{lanes_from, numbers_of};
ghost use Rattle.board_numbers.specs.Tallied.{TallySomeRun, TallySomeLane, TellTotals, TellLane, AddPlaces};

use crate::adding::add;
use crate::board::{buffers_between, rising_numbers};
use crate::tally::Tally;
use board_model::{LanePlaces, Scenario, Seq, Totals};
use buffer_book::Places;
use mc_base::NoMemory;
use std::alloc::Global;

/// What the tallies of all domains add up to.
#[derive(Clone, Copy)]
struct Sum {
    sent: u64,
    brought: u64,
    dropped: u64,
    queued: u64,
}

/// How many messages were accepted, taken and dropped, are queued and in the ring. No message is lost, so those that were
/// taken are the rest.
pub fn totals_of(_scenario: &Scenario, tallies: &[Tally]) -> Totals
    requires lawful { IsLawfulBoard _scenario.now }
    requires tallies { TallySomeRun _scenario.now tallies.now }
    ensures { TellTotals _scenario.now tallies.now result }
{
    let sum = sum_of(tallies);
    let ring = sum.sent - sum.brought;
    Totals {
        accepted: sum.sent,
        taken: sum.sent - sum.dropped - sum.queued - ring,
        dropped: sum.dropped,
        queued: sum.queued,
        ring,
    }
}

fn sum_of(tallies: &[Tally]) -> Sum
    requires sent { sum_by (λ y. y.counts.sent) tallies.now < 2 ^ 64 }
    requires brought { sum_by (λ y. y.counts.brought) tallies.now < 2 ^ 64 }
    requires dropped { sum_by (λ y. y.counts.lost + y.deleted) tallies.now < 2 ^ 64 }
    requires queued { sum_by (λ y. y.held.queued) tallies.now < 2 ^ 64 }
    ensures sent { result.sent ≡ sum_by (λ y. y.counts.sent) tallies.now }
    ensures brought { result.brought ≡ sum_by (λ y. y.counts.brought) tallies.now }
    ensures dropped { result.dropped ≡ sum_by (λ y. y.counts.lost + y.deleted) tallies.now }
    ensures queued { result.queued ≡ sum_by (λ y. y.held.queued) tallies.now }
{
    let mut sum = Sum {
        sent: 0,
        brought: 0,
        dropped: 0,
        queued: 0,
    };
    for tally in tallies {
        sum.sent += tally.counts.sent;
        sum.brought += tally.counts.brought;
        sum.dropped += tally.counts.lost + tally.deleted;
        sum.queued += u64::from(tally.held.queued);
    }
    sum
}

/// Where the buffers of each lane are, senders rising and then receivers rising.
pub fn places_of(
    alloc: Global,
    scenario: &Scenario,
    tallies: &[Tally],
) -> Result<Seq<LanePlaces>, NoMemory>
    requires lawful { IsLawfulBoard scenario.now }
    requires tallies { TallySomeRun scenario.now tallies.now }
    ensures { IfOk result (AddPlaces scenario.now tallies.now (lanes scenario.now) []) }
{
    let numbers = rising_numbers(scenario);
    let mut places = Seq::new(Vec::new(alloc));
    for from in 0..numbers.len() {
        add_lanes_from(scenario, &numbers, tallies, from, &mut places)?;
    }
    Ok(places)
}

/// Adds the lanes from the domain at this place of the numbers.
fn add_lanes_from(
    scenario: &Scenario,
    numbers: &[u8],
    tallies: &[Tally],
    from: usize,
    places: &mut Seq<LanePlaces>,
) -> Result<(), NoMemory>
    requires lawful { IsLawfulBoard scenario.now }
    requires numbers { numbers.now ≡ numbers_of scenario.now }
    requires tallies { TallySomeRun scenario.now tallies.now }
    requires from { from < length numbers.now }
    ensures { OnOk result (AddPlaces scenario.now tallies.now (lanes_from scenario.now (get_or numbers.now from 0) numbers.now) places.old places.new) }
{
    for to in 0..numbers.len() {
        let lane = places_between(
            scenario,
            numbers[from],
            numbers[to],
            &tallies[from],
            &tallies[to],
        );
        add_lane(places, lane)?;
    }
    Ok(())
}

fn add_lane(places: &mut Seq<LanePlaces>, lane: Option<LanePlaces>) -> Result<(), NoMemory>
    ensures { OnOk result (places.new ≡ places.old ++ option_to_list lane) }
{
    match lane {
        Some(lane) => add(places, lane),
        None => Ok(()),
    }
}

/// Where the buffers of the lane from one domain to another are, by their tallies, or `None` where there is no such lane.
fn places_between(
    scenario: &Scenario,
    from: u8,
    to: u8,
    sender: &Tally,
    receiver: &Tally,
) -> Option<LanePlaces>
    requires lawful { IsLawfulBoard scenario.now }
    requires tallies { TallySomeLane scenario.now from to sender.now receiver.now }
    ensures { TellLane scenario.now from to sender.now receiver.now result }
{
    let size = buffers_between(scenario, from, to)?;
    let puts = sender.counts.puts[usize::from(to)];
    let takes = receiver.counts.takes[usize::from(from)];
    let held = receiver.held.places[usize::from(from)];
    let ring = (puts - takes) as u32;
    Some(lane_places(from, to, size, ring, held))
}

/// The places of a lane with so many buffers. Those that are nowhere else are free.
fn lane_places(from: u8, to: u8, size: u32, ring: u32, held: Places) -> LanePlaces
    requires { ring + held.queue + held.lent ≤ size }
    ensures { result ≡ record { from = from; to = to; free = size - ring - held.queue - held.lent; ring = ring; queue = held.queue; lent = held.lent } }
{
    LanePlaces {
        from,
        to,
        free: size - ring - held.queue - held.lent,
        ring,
        queue: held.queue,
        lent: held.lent,
    }
}

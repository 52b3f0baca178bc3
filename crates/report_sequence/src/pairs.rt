//! Which events belong together: a put and its take, the beginning of a wait and its answer.

ghost use Rattle.std.specs.Prelude.{◌<◌, IfSome};

use event_order::{Event, What};
use mc_base::NoMemory;
use report_pictures::lane_of;
use std::alloc::Global;

/// The place of the next put on a lane, from a place on.
fn next_put(events: &[Event], from: u32, lane: usize) -> Option<u32> {
    let (_, rest) = events.split_at(events.len().min(from as usize));
    let mut place = from;
    for event in rest {
        if matches!(event.what, What::Put { .. }) && lane_number(event) == Some(lane) {
            return Some(place);
        }
        place = place.saturating_add(1);
    }
    None
}

/// The number of the lane on which an event moves buffers, among the 64 that there may be.
fn lane_number(event: &Event) -> Option<usize>
    ensures { IfSome result (λ n. n < 64) }
{
    let lane = lane_of(event)?;
    Some(usize::from(lane.sender % 8) * 8 + usize::from(lane.receiver % 8))
}

/// For each event the place of the one that it belongs to.
#[derive(Drop)]
pub struct Pairs {
    others: Vec<Option<u32>>,
    /// From which place on the next put of each lane is looked for.
    next: [u32; 64],
    /// Where the wait of each domain began.
    begun: [Option<u32>; 8],
}

impl Pairs {
    /// The place of the event that the one at a place belongs to.
    pub fn other(&self, place: u32) -> Option<u32> {
        self.others.get(place as usize).copied().unwrap_or(None)
    }

    /// Notes that two events belong together.
    fn join(&mut self, one: u32, other: u32) {
        if let Some(found) = self.others.get_mut(one as usize) {
            *found = Some(other);
        }
        if let Some(found) = self.others.get_mut(other as usize) {
            *found = Some(one);
        }
    }

    /// Joins a take to its put.
    fn join_take(&mut self, events: &[Event], place: u32, event: &Event) {
        let Some(lane) = lane_number(event) else {
            return;
        };
        if let Some(put) = next_put(events, self.next[lane], lane) {
            self.next[lane] = put.saturating_add(1);
            self.join(put, place);
        }
    }

    /// Joins an answer to the beginning of its wait, where it had one.
    fn join_answer(&mut self, place: u32, domain: usize)
        requires { domain < 8 }
    {
        if let Some(begun) = self.begun[domain] {
            self.join(begun, place);
        }
        self.begun[domain] = None;
    }

    /// Goes on to the event at a place.
    fn pass(&mut self, events: &[Event], place: u32, event: &Event) {
        let domain = usize::from(event.domain % 8);
        match event.what {
            What::Take { .. } => self.join_take(events, place, event),
            What::Wait { .. } => self.begun[domain] = Some(place),
            What::Answer { .. } => self.join_answer(place, domain),
            _ => (),
        }
    }
}

/// Finds which events belong together.
///
/// # Errors
///
/// `NoMemory` where an allocation fails.
pub fn pairs_of(alloc: Global, events: &[Event]) -> Result<Pairs, NoMemory> {
    let Ok(others) = vec![in alloc; None; events.len()] else {
        return Err(NoMemory);
    };
    let mut pairs = Pairs {
        others,
        next: [0; 64],
        begun: [None; 8],
    };
    let mut place: u32 = 0;
    for event in events {
        pairs.pass(events, place, event);
        place = place.saturating_add(1);
    }
    Ok(pairs)
}

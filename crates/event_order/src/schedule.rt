//! A schedule: at which step each event is due.

ghost use Rattle.std.specs.Prelude.{◌<◌, IfSome};

use crate::event::{Event, What};
use mc_base::NoMemory;
use std::alloc::Global;

/// The events of a domain: those at the places from `next` to before `end` are still to come, and the first answer among them is that of `call`.
#[derive(Clone, Copy)]
struct Script {
    next: usize,
    end: usize,
    done: u32,
    call: Option<u32>,
    /// Its last event put a frame, which is that of the call where an answer follows.
    put: bool,
}

/// How far the events are scheduled: what is left of each domain's, how many frames are on each lane and how many buffers are on their way
/// back, and which call is due next where calls go by the lines of the scenario.
#[derive(Drop)]
struct Schedule<'e> {
    events: &'e [Event],
    scripts: [Script; 8],
    on_way: [u32; 64],
    given: [u32; 64],
    call: Option<u32>,
}

/// The place of a lane among the 64 that there may be.
fn lane(sender: u8, receiver: u8) -> usize
    ensures { result < 64 }
{
    usize::from(sender % 8) * 8 + usize::from(receiver % 8)
}

/// The events of each domain, which stand together.
fn scripts_of(events: &[Event]) -> [Script; 8] {
    let none = Script {
        next: 0,
        end: 0,
        done: 0,
        call: None,
        put: false,
    };
    let mut scripts = [none; 8];
    for (place, event) in events.iter().enumerate() {
        let script = &mut scripts[usize::from(event.domain % 8)];
        if script.end == 0 {
            script.next = place;
        }
        script.end = place.saturating_add(1);
    }
    scripts
}

/// The call that is answered first among events.
fn first_answer(events: &[Event]) -> Option<u32> {
    for event in events {
        if let What::Answer { call, .. } = event.what {
            return Some(call);
        }
    }
    None
}

impl Schedule<'_> {
    /// Notes which call of a domain is answered next.
    fn find_call(&mut self, domain: usize)
        requires { domain < 8 }
    {
        let script = self.scripts[domain];
        let (front, _) = self.events.split_at(self.events.len().min(script.end));
        let (_, left) = front.split_at(front.len().min(script.next));
        self.scripts[domain].call = first_answer(left);
    }

    /// How long a domain may wait for its next event: not at all where its call is due, or is answered behind its put, and else the longer the more
    /// it did.
    fn patience(&self, domain: usize, event: Event) -> u32
        requires { domain < 8 }
    {
        let script = self.scripts[domain];
        let ends_call = script.put && matches!(event.what, What::Answer { .. });
        if ends_call || (self.call.is_some() && script.call == self.call) {
            0
        } else {
            script.done.saturating_add(1)
        }
    }

    /// The next event of a domain.
    fn next_of(&self, domain: usize) -> Option<Event>
        requires { domain < 8 }
    {
        let script = self.scripts[domain];
        if script.next < script.end {
            self.events.get(script.next).copied()
        } else {
            None
        }
    }

    /// Whether all that an event needs has happened.
    fn is_ready(&self, event: Event) -> bool {
        match event.what {
            What::Take { peer } => self.on_way[lane(peer, event.domain)] > 0,
            What::Back { peer, count } => self.given[lane(event.domain, peer)] >= count,
            What::Answer { call, .. } => self.call.is_none() || self.call == Some(call),
            _ => true,
        }
    }

    /// The domain whose event comes next: of those whose next event is ready, the one whose call is due, or else the one that did least. Where none is
    /// ready, the first that has an event left.
    fn next_domain(&self) -> Option<usize>
        ensures { IfSome result (λ d. d < 8) }
    {
        let mut best = None;
        let mut least = u32::MAX;
        for domain in 0..8 {
            if let Some(event) = self.next_of(domain) {
                let patience = self.patience(domain, event);
                if self.is_ready(event) && patience < least {
                    best = Some(domain);
                    least = patience;
                }
            }
        }
        match best {
            Some(domain) => Some(domain),
            None => self.first_left(),
        }
    }

    /// Notes that the next event of a domain happens.
    fn pass(&mut self, domain: usize, event: Event)
        requires { domain < 8 }
    {
        let script = &mut self.scripts[domain];
        script.next = script.next.saturating_add(1);
        script.done = script.done.saturating_add(1);
        script.put = matches!(event.what, What::Put { .. });
        match event.what {
            What::Put { peer } => {
                let place = lane(event.domain, peer);
                self.on_way[place] = self.on_way[place].saturating_add(1);
            }
            What::Take { peer } => {
                let place = lane(peer, event.domain);
                self.on_way[place] = self.on_way[place].saturating_sub(1);
            }
            What::Give { peer, count } => {
                let place = lane(peer, event.domain);
                self.given[place] = self.given[place].saturating_add(count);
            }
            What::Back { peer, count } => {
                let place = lane(event.domain, peer);
                self.given[place] = self.given[place].saturating_sub(count);
            }
            What::Answer { .. } => self.answer(domain),
            _ => (),
        }
    }

    /// Notes that the call of a domain is answered.
    fn answer(&mut self, domain: usize)
        requires { domain < 8 }
    {
        if let Some(call) = self.call {
            self.call = Some(call.saturating_add(1));
            self.find_call(domain);
        }
    }

    /// The first domain that has an event left.
    fn first_left(&self) -> Option<usize>
        ensures { IfSome result (λ d. d < 8) }
    {
        (0..8).find(|domain| self.next_of(*domain).is_some())
    }
}

/// Returns at which step each event is due, by its place. Where `by_lines` says so, calls are answered in the scenario's order. Where all events that
/// are left wait for others, the first domain goes on that has one, so its event stands before what it waits for.
///
/// # Errors
///
/// `NoMemory` where an allocation fails.
pub fn steps_of(alloc: Global, events: &[Event], by_lines: bool) -> Result<Vec<u32>, NoMemory> {
    let Ok(mut steps) = vec![in alloc; 0u32; events.len()] else {
        return Err(NoMemory);
    };
    let mut schedule = Schedule {
        events,
        scripts: scripts_of(events),
        on_way: [0; 64],
        given: [0; 64],
        call: if by_lines { Some(0) } else { None },
    };
    for domain in 0..8 {
        schedule.find_call(domain);
    }
    for step in 0..events.len() {
        let Some(domain) = schedule.next_domain() else {
            break;
        };
        let place = schedule.scripts[domain].next;
        let Some(event) = schedule.next_of(domain) else {
            break;
        };
        if let Some(found) = steps.get_mut(place) {
            *found = u32::try_from(step).unwrap_or(u32::MAX);
        }
        schedule.pass(domain, event);
    }
    Ok(steps)
}

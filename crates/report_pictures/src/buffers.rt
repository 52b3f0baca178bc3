//! Where the buffers of lanes are.

ghost use Rattle.std.specs.Prelude.{◌≡◌, ◌<◌, ◌≤◌, ◌+◌};

use board_model::Scenario;
use event_order::{Event, Lane, What};
use mc_base::NoMemory;
use report_text::{Numbered, neighbours_of_domain};
use std::alloc::Global;

/// How many buffers of a lane are free, on the way to the receiver, held by the receiver, and given back and not yet seen by the sender.
#[derive(Clone, Copy, Debug)]
pub struct Buffers {
    pub size: u32,
    pub free: u32,
    pub on_way: u32,
    pub held: u32,
    pub returned: u32,
    ghost all: { free + on_way + held + returned ≡ size },
}

impl Buffers {
    /// A lane of so many buffers, all of which are free.
    pub fn new(size: u32) -> Buffers
        ensures { result.size ≡ size }
    {
        Buffers {
            size,
            free: size,
            on_way: 0,
            held: 0,
            returned: 0,
        }
    }

    /// Where they are after something happened. Only as many move as there are.
    pub fn after(self, what: What) -> Buffers
        ensures { result.size ≡ self.size }
    {
        match what {
            What::Put { .. } => self.put(self.free.min(1)),
            What::Take { .. } => self.taken(self.on_way.min(1)),
            What::Give { count, .. } => self.given(self.held.min(count)),
            What::Back { count, .. } => self.back(self.returned.min(count)),
            _ => self,
        }
    }

    fn put(self, count: u32) -> Buffers
        requires { count ≤ self.free }
        ensures { result.size ≡ self.size }
    {
        Buffers {
            size: self.size,
            free: self.free - count,
            on_way: self.on_way + count,
            held: self.held,
            returned: self.returned,
        }
    }

    fn taken(self, count: u32) -> Buffers
        requires { count ≤ self.on_way }
        ensures { result.size ≡ self.size }
    {
        Buffers {
            size: self.size,
            free: self.free,
            on_way: self.on_way - count,
            held: self.held + count,
            returned: self.returned,
        }
    }

    fn given(self, count: u32) -> Buffers
        requires { count ≤ self.held }
        ensures { result.size ≡ self.size }
    {
        Buffers {
            size: self.size,
            free: self.free,
            on_way: self.on_way,
            held: self.held - count,
            returned: self.returned + count,
        }
    }

    fn back(self, count: u32) -> Buffers
        requires { count ≤ self.returned }
        ensures { result.size ≡ self.size }
    {
        Buffers {
            size: self.size,
            free: self.free + count,
            on_way: self.on_way,
            held: self.held,
            returned: self.returned - count,
        }
    }
}

/// The lane on which an event moves buffers, if it moves any.
pub fn lane_of(event: &Event) -> Option<Lane> {
    match event.what {
        What::Put { peer } | What::Back { peer, .. } => Some(Lane {
            sender: event.domain,
            receiver: peer,
        }),
        What::Take { peer } | What::Give { peer, .. } => Some(Lane {
            sender: peer,
            receiver: event.domain,
        }),
        _ => None,
    }
}

/// Where the buffers of each lane of a board are.
#[derive(Clone, Copy)]
pub struct LaneBuffers {
    lanes: [Buffers; 64],
}

/// The place of a lane among the 64 that there may be.
fn place_of(lane: Lane) -> usize
    ensures { result < 64 }
{
    usize::from(lane.sender % 8) * 8 + usize::from(lane.receiver % 8)
}

impl LaneBuffers {
    /// All buffers of the lanes of a board are free.
    ///
    /// # Errors
    ///
    /// `NoMemory` where an allocation fails.
    pub fn new(alloc: Global, scenario: &Scenario) -> Result<LaneBuffers, NoMemory> {
        let mut all = LaneBuffers {
            lanes: [Buffers::new(0); 64],
        };
        for line in scenario.domains.as_slice() {
            let found = neighbours_of_domain(alloc, scenario, *line)?;
            all.set_from(line.domain, &found);
        }
        Ok(all)
    }

    /// Sets the buffers of the lanes from a domain to its neighbours.
    fn set_from(&mut self, sender: u8, found: &[Numbered]) {
        for neighbour in found {
            let receiver = neighbour.number;
            self.set(Lane { sender, receiver }, Buffers::new(neighbour.size));
        }
    }

    fn set(&mut self, lane: Lane, buffers: Buffers) {
        let lanes = &mut self.lanes[..];
        lanes[place_of(lane)] = buffers;
    }

    /// Those of a lane.
    pub fn on(&self, lane: Lane) -> Buffers {
        let lanes = &self.lanes[..];
        lanes[place_of(lane)]
    }

    /// Moves the buffers that an event moves. Returns their lane, and where its buffers are then.
    pub fn pass(&mut self, event: &Event) -> Option<(Lane, Buffers)> {
        let lane = lane_of(event)?;
        let after = self.on(lane).after(event.what);
        self.set(lane, after);
        Some((lane, after))
    }
}

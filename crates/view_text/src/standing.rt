//! How far the domains were when a wait reached its limit.

use event_order::{Event, What};
use mc_base::NoMemory;
use std::alloc::Global;

/// How far the domains were at the end of a wait, in the one order of the report's events.
#[derive(Clone, Copy, Debug)]
pub struct Standing {
    /// The line of the report with the answer of the wait, counted from 1.
    pub line: u32,
    /// How many frames were on their way to the domain, by the peers' numbers.
    pub on_way: [u32; 8],
    /// How many it had taken.
    pub taken: [u32; 8],
    /// How many calls each domain had made.
    pub made: [u32; 8],
}

/// What the domains did up to an event: the frames that each put to each other and took from each other, and the calls that were answered.
#[derive(Clone, Copy)]
struct Counts {
    puts: [[u32; 8]; 8],
    takes: [[u32; 8]; 8],
    made: [u32; 8],
}

/// Counts one more.
fn count(counts: &mut [u32; 8], place: u8) {
    let at = usize::from(place % 8);
    counts[at] = counts[at].saturating_add(1);
}

impl Counts {
    /// Counts an event.
    fn note(&mut self, event: Event) {
        let own = usize::from(event.domain % 8);
        match event.what {
            What::Put { peer } => count(&mut self.puts[own], peer),
            What::Take { peer } => count(&mut self.takes[own], peer),
            What::Answer { .. } => count(&mut self.made, event.domain),
            _ => (),
        }
    }

    /// How far the domains are where a wait of this one ends.
    fn standing(&self, event: Event) -> Standing {
        let own = usize::from(event.domain % 8);
        let taken = self.takes[own];
        let mut on_way = [0; 8];
        for peer in 0..8 {
            on_way[peer] = self.puts[peer][own].saturating_sub(taken[peer]);
        }
        Standing {
            line: event.line,
            on_way,
            taken,
            made: self.made,
        }
    }
}

/// Whether an event is the answer of a wait, at one of these lines, which rise.
fn is_limit(lines: &[u32], event: &Event) -> bool {
    matches!(event.what, What::Answer { .. }) && lines.binary_search(&event.line).is_ok()
}

/// Returns how far the domains were at each wait that reached its limit, by the lines of the report with their answers, which rise. The events stand
/// in their one order.
pub fn standings_of(
    alloc: Global,
    events: &[Event],
    lines: &[u32],
) -> Result<Vec<Standing>, NoMemory> {
    let mut counts = Counts {
        puts: [[0; 8]; 8],
        takes: [[0; 8]; 8],
        made: [0; 8],
    };
    let mut standings = Vec::new(alloc);
    for event in events {
        if is_limit(lines, event) && standings.push(counts.standing(*event)).is_err() {
            return Err(NoMemory);
        }
        counts.note(*event);
    }
    standings.sort_unstable_by_key(|standing| standing.line);
    Ok(standings)
}

/// Returns how far the domains were at the wait whose answer is at a line, where that is known.
pub fn standing_at(standings: &[Standing], line: u32) -> Option<Standing> {
    match standings.binary_search_by_key(&line, |standing| standing.line) {
        Ok(place) => standings.get(place).copied(),
        Err(_) => None,
    }
}

//! Gates that hold back the lines of domains.

use board_runner::Gate;
use std::sync::atomic::{AtomicBool, AtomicU64, Ordering};

/// So often a gate looks before it gives up.
const SPINS: u64 = 1_000_000_000;

/// A gate at which domains 0 and 1 meet: before its first line each sets its flag and waits until it sees the other's.
#[derive(Drop)]
pub struct Meeting {
    first: AtomicBool,
    second: AtomicBool,
    met: AtomicU64,
}

impl Meeting {
    pub fn new() -> Meeting {
        Meeting {
            first: AtomicBool::new(false),
            second: AtomicBool::new(false),
            met: AtomicU64::new(0),
        }
    }

    /// How many domains saw the other's flag.
    pub fn met(&self) -> u64 {
        self.met.load(Ordering::SeqCst)
    }
}

impl Gate for Meeting {
    fn pass(&self, domain: u8, _number: u32) {
        let (mine, other) = if domain == 0 {
            (&self.first, &self.second)
        } else {
            (&self.second, &self.first)
        };
        mine.store(true, Ordering::SeqCst);
        for _spin in 0..SPINS {
            if other.load(Ordering::SeqCst) {
                self.met.fetch_add(1, Ordering::SeqCst);
                return;
            }
        }
    }
}

/// A gate that lets the lines of two domains go in the order of a list. A line that isn't in the list passes at once.
#[derive(Drop)]
pub struct InOrder {
    list: Vec<(u8, u32)>,
    /// The domain of the first line.
    leader: u8,
    first: AtomicU64,
    second: AtomicU64,
    gave_up: AtomicBool,
}

impl InOrder {
    pub fn new(list: Vec<(u8, u32)>) -> InOrder {
        let leader = match list.first() {
            Some((domain, _)) => *domain,
            None => 0,
        };
        InOrder {
            list,
            leader,
            first: AtomicU64::new(0),
            second: AtomicU64::new(0),
            gave_up: AtomicBool::new(false),
        }
    }

    /// Whether a line waited in vain.
    pub fn gave_up(&self) -> bool {
        self.gave_up.load(Ordering::SeqCst)
    }

    /// How many lines of a domain are done.
    fn done(&self, domain: u8) -> &AtomicU64 {
        if domain == self.leader {
            &self.first
        } else {
            &self.second
        }
    }

    /// Whether every line before this one in the list is done.
    fn may_go(&self, domain: u8, number: u32) -> bool {
        if !self.is_listed(domain, number) {
            return true;
        }
        for (one, line) in &self.list {
            if *one == domain && *line == number {
                return true;
            }
            if self.done(*one).load(Ordering::SeqCst) < u64::from(*line) {
                return false;
            }
        }
        true
    }

    fn is_listed(&self, domain: u8, number: u32) -> bool {
        self.list
            .iter()
            .any(|(one, line)| *one == domain && *line == number)
    }
}

impl Gate for InOrder {
    fn pass(&self, domain: u8, number: u32) {
        let before = u64::from(number).saturating_sub(1);
        self.done(domain).store(before, Ordering::SeqCst);
        for _spin in 0..SPINS {
            if self.may_go(domain, number) {
                return;
            }
        }
        self.gave_up.store(true, Ordering::SeqCst);
    }
}

//! What is owed to the linked domains: one list of events for all of them, and for each how many of the latest it is owed.

ghost use Rattle.std.specs.Prelude.{◌≡◌, ◌≤◌, ◌<◌, ◌^◌, ◌==◌, IfOk, find, length, map, option_and_then, slice_get};
ghost use Rattle.std.specs.List.{AllByRecursion, list_any};
ghost use Rattle.endpoint_table.specs.InTable.{debt_of_none, one_less, one_more, owes, owing_in};

use crate::announced::Announced;
use mc_base::NoMemory;
use std::alloc::Global;
use std::collections::VecDeque;

/// How many of the latest events are owed to a linked domain.
#[derive(Clone, Copy, Debug)]
pub struct Debt {
    pub peer: u8,
    pub owed: usize,
}

impl Debt {
    fn add_one(&mut self)
        requires { self.old.owed < 2 ^ 63 }
        ensures { self.new ≡ one_more self.old }
    {
        self.owed += 1;
    }

    /// One event fewer is owed, where this is the peer.
    fn pay_one(&mut self, peer: u8)
        ensures { self.new ≡ one_less peer self.old }
    {
        if self.peer == peer {
            self.owed = self.owed.saturating_sub(1);
        }
    }

    fn is_of(&self, peer: u8) -> bool
        ensures { result ≡ (self.now.peer == peer) }
    {
        self.peer == peer
    }

    fn is(&self, count: usize) -> bool
        ensures { result ≡ owes count self.now }
    {
        self.owed == count
    }
}

/// Nothing is owed to these.
pub fn none_owed(alloc: Global, peers: &[u8]) -> Result<Vec<Debt>, NoMemory>
    ensures { IfOk result (λ v. v.items ≡ map debt_of_none peers.now) }
{
    let mut debts = Vec::new(alloc);
    for peer in peers {
        let debt = Debt {
            peer: *peer,
            owed: 0,
        };
        if debts.push(debt).is_err() {
            return Err(NoMemory);
        }
    }
    Ok(debts)
}

/// One more event is owed to all of them.
pub fn tell_all(debts: &mut [Debt])
    requires { AllByRecursion (λ d. d.owed < 2 ^ 63) debts.old }
    ensures { debts.new ≡ map one_more debts.old }
{
    for debt in debts.iter_mut() {
        debt.add_one();
    }
}

/// One event fewer is owed to this one.
pub fn pay(debts: &mut [Debt], peer: u8)
    ensures { debts.new ≡ map (one_less peer) debts.old }
{
    for debt in debts.iter_mut() {
        debt.pay_one(peer);
    }
}

/// Whether one of them is owed so many events.
pub fn is_owed(debts: &[Debt], count: usize) -> bool
    ensures { result ≡ list_any (owes count) debts.now }
{
    debts.iter().any(|d| d.is(count))
}

/// What is owed to this linked domain, where it is one.
fn debt_to(debts: &[Debt], peer: u8) -> Option<Debt>
    ensures { result ≡ find (λ d. d.peer == peer) debts.now }
{
    debts.iter().copied().find(|d| d.is_of(peer))
}

/// The oldest event that is owed to a linked domain.
pub fn oldest_owed(events: &VecDeque<Announced>, debts: &[Debt], peer: u8) -> Option<Announced>
    requires { AllByRecursion (λ d. d.owed ≤ length events.now.items) debts.now }
    ensures { result ≡ option_and_then (λ o. slice_get o.owed 0) (find (λ o. o.peer == peer) (owing_in events.now.items debts.now)) }
{
    if events.is_empty() {
        return None;
    }
    let debt = debt_to(debts, peer)?;
    let place = events.len().saturating_sub(debt.owed);
    let event = events.get(place)?;
    Some(*event)
}

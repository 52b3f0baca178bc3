//! The actors of a relay.

ghost use Rattle.std.specs.Prelude.{◌≤◌, IfOk, length, map};
ghost use Rattle.std.specs.List.{All};
ghost use Rattle.mc_base.specs.Limits.{item_size};
ghost use Rattle.hop_relay.specs.declared.role.Role.TheVariants.{First as first_of, Middle as middle_of, Last as last_of};
ghost use Rattle.hop_relay.specs.RelayActors.{IsNew};
ghost use Rattle.hop_relay.specs.Steps.{packet_limit};

use crate::first::First;
use crate::last::Last;
use crate::middle::Middle;
use crate::role::Role;
use board_model::CallLine;
use board_runner::Actor;
use domain_core::Answer;
use mc_base::NoMemory;
use std::alloc::Global;

/// A domain of a relay: an [`Actor`] that gives the lines of its role (docs/PROFILE.md, "Relays").
#[derive(Drop)]
pub enum RelayActor {
    /// The first domain, 0, which sends packets to the next.
    First(First),
    /// A domain between, which sends on what it receives.
    Middle(Middle),
    /// The last domain, which receives.
    Last(Last),
}

impl RelayActor {
    /// Makes the first domain of a relay, which sends these packets: at most 100,000, each of at most 8,192 bytes.
    ///
    /// # Errors
    ///
    /// `NoMemory` where an allocation fails.
    pub fn first(alloc: Global, packets: Vec<Vec<u8>>) -> Result<RelayActor, NoMemory>
        requires few { length packets.items ≤ packet_limit }
        requires sizes { All (λ p. length p.items ≤ item_size) packets.items }
        ensures { IfOk result (IsNew (first_of (map (λ p. p.items) packets.items))) }
    {
        Ok(RelayActor::First(First::new(alloc, packets)?))
    }

    /// Makes a domain between, 1 to 6, which gives no further line once it received more than `most` packets. `most` is at most 100,000.
    ///
    /// # Errors
    ///
    /// `NoMemory` where an allocation fails.
    pub fn middle(alloc: Global, domain: u8, most: u32) -> Result<RelayActor, NoMemory>
        requires some { 1 ≤ domain }
        requires domain { domain ≤ 6 }
        requires few { most ≤ packet_limit }
        ensures { IfOk result (IsNew (middle_of domain most)) }
    {
        Ok(RelayActor::Middle(Middle::new(alloc, domain, most)?))
    }

    /// Makes the last domain, 1 to 7, which gives no further line once it received more than `most` packets. `most` is at most 100,000.
    ///
    /// # Errors
    ///
    /// `NoMemory` where an allocation fails.
    pub fn last(alloc: Global, domain: u8, most: u32) -> Result<RelayActor, NoMemory>
        requires some { 1 ≤ domain }
        requires domain { domain ≤ 7 }
        requires few { most ≤ packet_limit }
        ensures { IfOk result (IsNew (last_of domain most)) }
    {
        Ok(RelayActor::Last(Last::new(alloc, domain, most)?))
    }
}

impl Actor for RelayActor {
    ghost use Rattle.hop_relay.specs.RelayActors.{EndsActor, FitsActor, domain_of_role, line_asked, role_of_actor, todo_of_actor};

    type Role = Role;

    ghost role = { role_of_actor };

    ghost domain = { λ a. domain_of_role (role_of_actor a) };

    ghost todo = { todo_of_actor };

    ghost asked = { line_asked };

    ghost Fits = { FitsActor };

    ghost Ends = { EndsActor };

    fn next(&mut self, told: Option<&Answer<'_>>) -> Result<Option<CallLine>, NoMemory> {
        match self {
            RelayActor::First(first) => first.next(told),
            RelayActor::Middle(middle) => middle.next(told),
            RelayActor::Last(last) => last.next(told),
        }
    }
}

fn moves<T: Send>() {}

/// Shows that an actor of a relay may move to another thread.
pub fn relay_actors_may_move() {
    moves::<RelayActor>();
}

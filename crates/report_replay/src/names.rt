//! The names that are known of a peer, and how many they are.

ghost use Rattle.std.specs.Prelude.{◌≡◌, ◌≤◌, ◌↔◌, [], IsErr, IfOk, OnOk, OnErr, None, is_some, length};
ghost use Rattle.mc_base.specs.NameMap.{names_limit, learned, forgotten, address_in};

use mc_base::{EndName, Full, NoMemory};
use name_service::{KnownNames, known_names_are_a_map};
use std::alloc::Global;
use std::marker::Model;

/// The addresses that are known of the names of a peer, at most 64, with their count.
#[derive(Debug, Drop)]
pub struct Names {
    known: KnownNames,
    count: usize,
}

impl Model for Names {
    ghost use Rattle.std.specs.Prelude.{◌≡◌, length};
    ghost use Rattle.mc_base.specs.NameMap.{Names as Plain};

    ghost Value = { Plain };

    ghost view = { λ n. n.known };

    ghost invariant = { λ n. n.count ≡ length n.known };
}

impl Names {
    /// No name is known.
    pub(crate) fn new(alloc: Global) -> Result<Names, NoMemory>
        ensures { IfOk result (λ n. n ≡ []) }
    {
        Ok(Names {
            known: KnownNames::new(alloc)?,
            count: 0,
        })
    }

    /// How many names are known.
    pub(crate) fn len(&self) -> usize
        ensures { result ≡ length self.now }
    {
        self.count
    }

    /// The address of a name, if it is known.
    pub(crate) fn find(&self, name: EndName) -> Option<u32>
        ensures { result ≡ address_in name self.now }
    {
        self.known.find(name)
    }

    /// Learns the address of a name. A known name gets the new address.
    ///
    /// # Errors
    ///
    /// `Full` where the name is new and 64 are known; nothing changes then.
    pub(crate) fn learn(&mut self, name: EndName, address: u32) -> Result<(), Full>
        ensures full { IsErr result ↔ ((address_in name self.old ≡ None) × (names_limit ≤ length self.old)) }
        ensures learned { OnOk result (self.new ≡ learned name address self.old) }
        ensures refused { OnErr result (self.new ≡ self.old) }
    {
        known_names_are_a_map();
        let is_new = self.known.find(name).is_none();
        self.known.learn(name, address)?;
        if is_new {
            self.count += 1;
        }
        Ok(())
    }

    /// Forgets a name, and returns whether it was known.
    pub(crate) fn forget(&mut self, name: EndName) -> bool
        ensures forgotten { self.new ≡ forgotten name self.old }
        ensures known { result ≡ is_some (address_in name self.old) }
    {
        known_names_are_a_map();
        let _ = self.known.find(name);
        let was_known = self.known.forget(name);
        if was_known {
            self.count -= 1;
        }
        was_known
    }
}

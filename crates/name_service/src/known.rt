//! The names that are known, and their addresses.

ghost use Rattle.std.specs.Prelude.{◌≡◌, ◌≤◌, ◌↔◌, [], IsErr, IfOk, IfErr, OnOk, OnErr, None, is_some, length};
ghost use Rattle.std.specs.Ordering.{nat_cmp};
ghost use Rattle.mc_base.specs.NameMap.{IsNameMap, IsRising, names_limit, rank, learned, forgotten, address_in};
ghost use Rattle.name_service.specs.InKnownNames.{IsPlace, IsGap, names_in};

use mc_base::{EndName, Full, NAMES_KNOWN, NoMemory};
use std::alloc::Global;
use std::cmp::Ordering;
use std::marker::Model;

/// A name with its address.
#[derive(Clone, Copy, Debug)]
struct Known {
    name: EndName,
    addr: u32,
}

/// The addresses that are known of names, at most 64.
#[derive(Debug, Drop)]
pub struct KnownNames {
    // In rising order of the names, so that one is found by binary search.
    list: Vec<Known>,
}

impl Model for KnownNames {
    ghost use Rattle.mc_base.specs.NameMap.{Names};

    ghost Value = { Names };

    ghost use Rattle.name_service.specs.InKnownNames.{names_of, KeepsOrder};

    ghost view = { names_of };

    ghost invariant = { KeepsOrder };
}

impl KnownNames {
    /// Makes an empty map with room for 64 names.
    ///
    /// # Errors
    ///
    /// `NoMemory` where the room cannot be reserved.
    pub fn new(alloc: Global) -> Result<KnownNames, NoMemory>
        ensures { IfOk result (λ k. k ≡ []) }
    {
        let Ok(list) = Vec::with_capacity(alloc, NAMES_KNOWN) else {
            return Err(NoMemory);
        };
        Ok(KnownNames { list })
    }

    /// Learns the address of a name. A known name gets the new address.
    ///
    /// # Errors
    ///
    /// `Full` where the name is new and 64 are known; nothing changes then.
    pub fn learn(&mut self, name: EndName, addr: u32) -> Result<(), Full>
        ensures full { IsErr result
            ↔ ((address_in name self.old ≡ None) × (names_limit ≤ length self.old)) }
        ensures learned { OnOk result (self.new ≡ learned name addr self.old) }
        ensures refused { OnErr result (self.new ≡ self.old) }
        ensures map { IsNameMap self.new }
    {
        let known = Known { name, addr };
        match place_of(&self.list, name) {
            Ok(place) => self.list[place] = known,
            Err(place) => {
                if self.list.len() >= NAMES_KNOWN {
                    return Err(Full);
                }
                self.list.insert(place, known).unwrap();
            }
        }
        Ok(())
    }

    /// Forgets a name, and returns whether it was known.
    pub fn forget(&mut self, name: EndName) -> bool
        ensures known { result ≡ is_some (address_in name self.old) }
        ensures forgotten { self.new ≡ forgotten name self.old }
        ensures map { IsNameMap self.new }
    {
        match place_of(&self.list, name) {
            Ok(place) => {
                self.list.remove(place);
                true
            }
            Err(_) => false,
        }
    }

    /// Returns the address of a name, or `None` where it is not known.
    pub fn find(&self, name: EndName) -> Option<u32>
        ensures address { result ≡ address_in name self.now }
        ensures map { IsNameMap self.now }
    {
        match place_of(&self.list, name) {
            Ok(place) => Some(self.list[place].addr),
            Err(_) => None,
        }
    }
}

/// Returns the place of a name in the list, or else where it would be inserted.
fn place_of(list: &[Known], name: EndName) -> Result<usize, usize>
    requires { IsRising (names_in list.now) }
    ensures found { IfOk result (IsPlace (names_in list.now) name) }
    ensures absent { IfErr result (IsGap (names_in list.now) name) }
{
    list.binary_search_by(|known| in_order(known.name, name))
}

/// Compares two names: by domain, then node, then port.
fn in_order(name: EndName, other: EndName) -> Ordering
    ensures { result ≡ nat_cmp (rank name) (rank other) }
{
    name.domain
        .cmp(&other.domain)
        .then(name.node.cmp(&other.node))
        .then(name.port.cmp(&other.port))
}

//! The names of frames, in lists by the peers that the frames came from.

ghost use Rattle.std.specs.Prelude.{◌≡◌, ◌<◌, ◌==◌, [], ◌∷◌, ℕ, OnOk, if◌then◌else◌};
ghost use Rattle.report_replay.specs.Naming.{AddsBy, AddsItems, names_for};

use crate::item::Item;
use mc_base::NoMemory;
use std::alloc::Global;
use std::marker::Model;

/// The names of frames, in lists by the numbers of the peers that the frames came from, each in the order in which the names were added.
#[derive(Debug, Drop)]
pub struct FrameNames {
    lists: [Vec<u32>; 8],
}

impl Model for FrameNames {
    ghost use Rattle.std.specs.Prelude.{ℕ, List, map};

    ghost Value = { List (List ℕ) };

    ghost view = { λ n. map (λ v. v.items) n.lists };
}

impl FrameNames {
    /// Empty lists, which take no memory.
    pub fn new(alloc: Global) -> FrameNames
        ensures { (peer : ℕ) → names_for peer result ≡ [] }
    {
        FrameNames {
            lists: [
                Vec::new(alloc),
                Vec::new(alloc),
                Vec::new(alloc),
                Vec::new(alloc),
                Vec::new(alloc),
                Vec::new(alloc),
                Vec::new(alloc),
                Vec::new(alloc),
            ],
        }
    }

    /// The names of the frames from a peer.
    pub fn from_peer(&self, peer: u8) -> &[u32]
        ensures { result.now ≡ names_for peer self.now }
    {
        match self.lists.get(usize::from(peer)) {
            Some(names) => names,
            None => &[],
        }
    }

    /// Adds the name of a frame from a peer. Peers have numbers below 8, and nothing is added for any other.
    ///
    /// # Errors
    ///
    /// `NoMemory` where the peer's list cannot grow.
    pub fn add(&mut self, peer: u8, name: u32) -> Result<(), NoMemory>
        ensures { OnOk result (AddsBy (λ p. if peer == p then name ∷ [] else []) self.old self.new) }
    {
        if peer >= 8 {
            return Ok(());
        }
        if self.lists[usize::from(peer)].push(name).is_err() {
            return Err(NoMemory);
        }
        Ok(())
    }

    /// Adds the names of the frames that brought these items.
    pub(crate) fn add_items(&mut self, items: &[Item]) -> Result<(), NoMemory>
        ensures { OnOk result (AddsItems items.now self.old self.new) }
    {
        for item in items {
            self.add_all(item.peer, &item.earlier)?;
            self.add(item.peer, item.name)?;
        }
        Ok(())
    }

    /// Adds the names of frames from a peer, in their order.
    pub(crate) fn add_all(&mut self, peer: u8, names: &[u32]) -> Result<(), NoMemory>
        ensures { OnOk result (AddsBy (λ p. if peer == p then names.now else []) self.old self.new) }
    {
        for name in names {
            self.add(peer, *name)?;
        }
        Ok(())
    }
}

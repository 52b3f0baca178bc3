//! The state of a domain at the opening.

ghost use Rattle.std.specs.Prelude.{◌≡◌, IfOk, map};
ghost use Rattle.board_model.specs.State.{opening, new_peer};
ghost use Rattle.board_model.specs.Scenario.{neighbour};
ghost use Rattle.report_replay.specs.Replayed.{neighbour_of};

use crate::names::Names;
use crate::peer::Peer;
use crate::state::State;
use mc_base::NoMemory;
use std::alloc::Global;

impl State {
    /// Opens a domain with so many nodes. Each peer, the domain itself among them, is its number and the buffers of the lane to it.
    ///
    /// # Errors
    ///
    /// `NoMemory` where an allocation fails.
    pub fn open(
        alloc: Global,
        number: u8,
        nodes: u8,
        peers: &[(u8, u32)],
    ) -> Result<State, NoMemory>
        ensures { IfOk result (λ s. s ≡ opening number nodes (map neighbour_of peers.now)) }
    {
        let peers = new_peers(alloc, peers)?;
        Ok(State {
            number,
            nodes,
            endpoints: Vec::new(alloc),
            ended: Vec::new(alloc),
            peers,
            requests: Vec::new(alloc),
            lent: Vec::new(alloc),
            held: Vec::new(alloc),
            endpoints_given: 0,
            channels_given: 0,
            requests_given: 0,
            packets_lent: 0,
        })
    }
}

/// The peers at the opening.
fn new_peers(alloc: Global, peers: &[(u8, u32)]) -> Result<Vec<Peer>, NoMemory>
    ensures { IfOk result (λ all. all.items ≡ map new_peer (map neighbour_of peers.now)) }
{
    let mut all = Vec::new(alloc);
    for (number, size) in peers {
        let peer = new_peer(alloc, *number, *size)?;
        let Ok(()) = all.push(peer) else {
            return Err(NoMemory);
        };
    }
    Ok(all)
}

/// A peer at the opening, to which every buffer is free.
fn new_peer(alloc: Global, number: u8, size: u32) -> Result<Peer, NoMemory>
    ensures { IfOk result (λ p. p ≡ new_peer (neighbour number size)) }
{
    Ok(Peer {
        number,
        size,
        free: size,
        shown: 0,
        announcements: Vec::new(alloc),
        replies: Vec::new(alloc),
        known: Names::new(alloc)?,
        part: None,
    })
}

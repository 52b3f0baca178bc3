//! Changes of the peers: their lanes, what is owed to them, and the names that are known of them.

ghost use Rattle.std.specs.Prelude.{◌≡◌, ◌<◌, ◌+◌, ◌^◌, false, filter, map, IfOk, OnOk};
ghost use Rattle.mc_base.specs.NameMap.{learned, forgotten};
ghost use Rattle.board_model.specs.State.{free_to, peer_at, is_owed_end};
ghost use Rattle.board_model.specs.TakenFrames.{names_of};
ghost use Rattle.board_model.specs.Change.{changed, also_owed, end_announced, reply_owed, owed_put, buffers_back, frames_shown, at_peer, names_known, buffers_used};
ghost use Rattle.name_service.specs.Said.{reading_of};
ghost use Rattle.report_replay.specs.Coming.{SaysSo};
ghost use Rattle.report_replay.specs.Dealt.{shown_less};
ghost use Rattle.report_replay.specs.Read.{coming_read};
ghost use Rattle.report_replay.specs.Replayed.{lacks_room};
ghost use Rattle.report_replay.specs.Views.{announcement_of, reply_of};

use crate::part::{Coming, read_with};
use crate::peer::{Announcement, Peer, Reply};
use crate::state::State;
use mc_base::{EndName, NoMemory};
use name_service::Said;
use std::alloc::Global;

impl State {
    /// Owes an announcement to each linked domain. Where it is the last that told of an end, the record of that is given up.
    pub(crate) fn announce(&mut self, announcement: Announcement) -> Result<(), NoMemory>
        ensures { OnOk result (self.new ≡ changed self.old (end_announced (announcement_of announcement))) }
    {
        owe_all(&mut self.peers, self.number, announcement)?;
        keep_owed_ends(&mut self.ended, &self.peers);
        Ok(())
    }

    /// Owes a reply to a peer.
    pub(crate) fn owe_reply(&mut self, peer: u8, reply: Reply) -> Result<(), NoMemory>
        ensures { OnOk result (self.new ≡ changed self.old (reply_owed peer (reply_of reply))) }
    {
        let Some(place) = self.place_of_peer(peer) else {
            return Ok(());
        };
        let Ok(()) = self.peers[place].replies.push(reply) else {
            return Err(NoMemory);
        };
        Ok(())
    }

    /// The first frame that is owed to a peer is put.
    pub(crate) fn use_first_owed(&mut self, peer: u8)
        ensures { self.new ≡ changed self.old (owed_put peer) }
    {
        if let Some(place) = self.place_of_peer(peer) {
            self.peers[place].put_first();
        }
        keep_owed_ends(&mut self.ended, &self.peers);
    }

    /// So many buffers came back from a peer.
    pub(crate) fn take_back(&mut self, peer: u8, count: u32)
        requires { free_to self.old peer + count < 2 ^ 32 }
        ensures { self.new ≡ changed self.old (buffers_back peer count) }
    {
        if let Some(place) = self.place_of_peer(peer) {
            self.peers[place].free += count;
        }
    }

    /// So many frames of a peer are shown.
    pub(crate) fn show(&mut self, peer: u8, count: u32)
        ensures { self.new ≡ changed self.old (frames_shown peer count) }
    {
        if let Some(place) = self.place_of_peer(peer) {
            self.peers[place].shown = count;
        }
    }

    /// One of the shown frames of a peer is taken, which says this by itself: it is read with the open part of the peer, which is another
    /// after it.
    pub(crate) fn read_on<'a>(
        &mut self,
        alloc: Global,
        peer: u8,
        said: Said<'a>,
    ) -> Result<Coming<'a>, NoMemory>
        ensures state { OnOk result (self.new ≡ record self.old { peers = at_peer peer (shown_less (coming_read self.old peer (reading_of said.entry)).part) self.old.peers }) }
        ensures joins { IfOk result (λ c. c.joins ≡ (coming_read self.old peer (reading_of said.entry)).joins) }
        ensures says { IfOk result (λ c. SaysSo (reading_of said.entry) c.says (coming_read self.old peer (reading_of said.entry))) }
    {
        let Some(place) = self.place_of_peer(peer) else {
            return read_with(alloc, &mut None, said);
        };
        let peer = &mut self.peers[place];
        peer.shown = peer.shown.saturating_sub(1);
        read_with(alloc, &mut peer.part, said)
    }

    /// Learns the address of a name of a peer. The name is known, or fewer than 64 others are.
    pub(crate) fn learn(&mut self, peer: u8, name: EndName, address: u32)
        requires room { lacks_room name (names_of (peer_at self.old peer)) ≡ false }
        ensures { self.new ≡ changed self.old (names_known peer (learned name address (names_of (peer_at self.old peer)))) }
    {
        if let Some(place) = self.place_of_peer(peer) {
            let _ = self.peers[place].known.learn(name, address);
        }
    }

    /// Forgets a name of a peer.
    pub(crate) fn forget(&mut self, peer: u8, name: EndName)
        ensures { self.new ≡ changed self.old (names_known peer (forgotten name (names_of (peer_at self.old peer)))) }
    {
        if let Some(place) = self.place_of_peer(peer) {
            let _ = self.peers[place].known.forget(name);
        }
    }

    /// So many buffers of the lane to a peer are used.
    pub(crate) fn use_buffers(&mut self, peer: u8, count: u64)
        ensures { self.new ≡ changed self.old (buffers_used peer count) }
    {
        if let Some(place) = self.place_of_peer(peer) {
            let peer = &mut self.peers[place];
            peer.free = u64::from(peer.free).saturating_sub(count) as u32;
        }
    }
}

/// Owes an announcement of a domain to each other domain.
fn owe_all(peers: &mut [Peer], domain: u8, announcement: Announcement) -> Result<(), NoMemory>
    ensures { OnOk result (peers.new ≡ map (also_owed domain (announcement_of announcement)) peers.old) }
{
    for peer in peers.iter_mut() {
        peer.owe(domain, announcement)?;
    }
    Ok(())
}

/// Keeps of the addresses that ended those of which some peer is still to be told.
fn keep_owed_ends(ended: &mut Vec<u32>, peers: &[Peer])
    ensures { ended.new.items ≡ filter (is_owed_end peers.now) ended.old.items }
{
    ended.retain(|address| is_owed(peers, *address));
}

/// Whether some peer is still to be told that the endpoint with this address is gone.
fn is_owed(peers: &[Peer], address: u32) -> bool
    ensures { result ≡ is_owed_end peers.now address }
{
    peers.iter().any(|p| p.is_owed_end(address))
}

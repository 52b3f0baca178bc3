//! How announcements and replies that are owed to a peer are sent.

ghost use Rattle.std.specs.Prelude.{◌≡◌, ◌≤◌, ◌<◌, ◌+◌, ◌∷◌, [], ℕ, List, IsTrue, None, Some, true, false, min, length, option_map, slice_get, take};
ghost use Rattle.mc_base.specs.Limits.{name_service_address};
ghost use Rattle.mc_base.specs.Frame.{made};
ghost use Rattle.mc_base.specs.Announcement.{announcement, is_name};
ghost use Rattle.endpoint_table.specs.Table.{announcement_of, owed_to};
ghost use Rattle.domain_parts.specs.CallSteps.{Rests};
ghost use Rattle.board_model.specs.State.{replying};
ghost use Rattle.domain_parts.specs.Doing.{Puts, PutsDue, owed_at};
ghost use Rattle.domain_parts.specs.Owed.{room_for};
ghost use Rattle.domain_parts.specs.Parts.{peer_at};
ghost use Rattle.domain_parts.specs.Peers.{reply_in};

use crate::holdings::Holdings;
use crate::messages::write;
use crate::noting::begin_turn;
use crate::peer_lane::PeerLane;
use crate::replies::Reply;
use mc_base::{BUFFER_SIZE, Letter, NAME_SERVICE_ADDRESS, NS_SIZE, Ns, TURN_FRAMES};
use mc_journal::{Entry, Journal};
use name_service::write_ns;
use rpmsg_frame::encode_into;

impl<P: PeerLane> Holdings<P> {
    /// Puts what is owed to the peer at a place: announcements first, and then replies, the oldest first. At most 8 are put, as
    /// long as a buffer is free. Returns whether the turn has begun.
    pub fn put_owed(&mut self, journal: &mut Journal, place: usize, begun: bool) -> bool
        requires rests { Rests P.Moved self.old }
        requires within { place < length self.old.parts.peers }
        requires entry_room { 9 ≤ journal.old.entry_room }
        requires byte_room { 4096 ≤ journal.old.byte_room }
        ensures puts { PutsDue P.Moved place begun result self.old self.new journal.old.lines journal.new.lines }
        ensures entry_room { journal.old.entry_room + room_for result ≤ journal.new.entry_room + 8 + room_for begun }
        ensures byte_room { journal.old.byte_room ≤ journal.new.byte_room + 4096 }
    {
        let mut has_begun = begun;
        for _ in 0..TURN_FRAMES {
            if !self.put_oldest(journal, place, has_begun) {
                break;
            }
            has_begun = true;
        }
        has_begun
    }

    /// Puts what is owed first to the peer at a place, where something is owed and a buffer is free. Returns whether it was put.
    fn put_oldest(&mut self, journal: &mut Journal, place: usize, begun: bool) -> bool
        requires within { place < length self.old.parts.peers }
        requires entry_room { room_for begun ≤ journal.old.entry_room }
        requires byte_room { 512 ≤ journal.old.byte_room }
        ensures puts { result ≡ true → (frame : List ℕ) × Puts P.Moved place begun (frame ∷ []) self.old self.new journal.old.lines journal.new.lines }
        ensures free { result ≡ true → 0 < (peer_at self.old.parts place).ends.free }
        ensures none { result ≡ false → min (length (owed_at self.old.parts place)) (peer_at self.old.parts place).ends.free ≡ 0 }
        ensures stays { result ≡ false → self.new ≡ self.old }
        ensures journal { result ≡ false → journal.new ≡ journal.old }
        ensures entry_room { journal.old.entry_room ≤ journal.new.entry_room + room_for begun }
        ensures byte_room { journal.old.byte_room ≤ journal.new.byte_room + 512 }
    {
        if self.peers[place].ends.free_len() == 0 {
            return false;
        }
        if let Some(ns) = self.table.owed(self.peers[place].number) {
            self.put_announcement(journal, place, begun, &ns);
            return true;
        }
        let Some(reply) = self.peers[place].replies.first() else {
            return false;
        };
        self.put_reply(journal, place, begun, reply);
        true
    }

    /// Puts an announcement, which is the oldest that is owed to the linked domain at a place. It begins the turn where no other
    /// entry did before.
    #[cold]
    #[inline(never)]
    fn put_announcement(&mut self, journal: &mut Journal, place: usize, begun: bool, ns: &Ns)
        requires within { place < length self.old.parts.peers }
        requires free { 0 < (peer_at self.old.parts place).ends.free }
        requires oldest { Some (ns.now.name.items, ns.now.addr, ns.now.create) ≡ option_map (announcement_of self.old.parts.table.domain) (owed_to self.old.parts.table (peer_at self.old.parts place).number) }
        requires lawful { IsTrue (is_name ns.now.name.items) }
        requires entry_room { room_for begun ≤ journal.old.entry_room }
        requires byte_room { 512 ≤ journal.old.byte_room }
        ensures puts { (frame : List ℕ) × Puts P.Moved place begun (frame ∷ []) self.old self.new journal.old.lines journal.new.lines }
        ensures entry_room { journal.old.entry_room ≤ journal.new.entry_room + room_for begun }
        ensures byte_room { journal.old.byte_room ≤ journal.new.byte_room + 512 }
    {
        let peer = &mut self.peers[place];
        let number = peer.number;
        begin_turn(journal, begun);
        let mut out = [0; BUFFER_SIZE];
        let len = announce(ns, &mut out);
        let frame = &out[..len];
        journal.note(Entry::Put {
            peer: number,
            frame,
        });
        peer.ends.put(frame);
        self.table.paid(number);
    }

    /// Puts a reply, which is the oldest that is owed to the peer at a place, and no announcement is owed to it. It begins the
    /// turn where no other entry did before.
    #[cold]
    #[inline(never)]
    fn put_reply(&mut self, journal: &mut Journal, place: usize, begun: bool, reply: Reply)
        requires within { place < length self.old.parts.peers }
        requires free { 0 < (peer_at self.old.parts place).ends.free }
        requires none { None ≡ owed_to self.old.parts.table (peer_at self.old.parts place).number }
        requires oldest { Some reply ≡ slice_get (peer_at self.old.parts place).replies 0 }
        requires lawful { 0 < reply.channel }
        requires entry_room { room_for begun ≤ journal.old.entry_room }
        requires byte_room { 512 ≤ journal.old.byte_room }
        ensures puts { (frame : List ℕ) × Puts P.Moved place begun (frame ∷ []) self.old self.new journal.old.lines journal.new.lines }
        ensures entry_room { journal.old.entry_room ≤ journal.new.entry_room + room_for begun }
        ensures byte_room { journal.old.byte_room ≤ journal.new.byte_room + 512 }
    {
        let peer = &mut self.peers[place];
        let number = peer.number;
        begin_turn(journal, begun);
        let mut out = [0; BUFFER_SIZE];
        let len = write_reply(reply, &mut out);
        let frame = &out[..len as usize];
        journal.note(Entry::Put {
            peer: number,
            frame,
        });
        peer.ends.put(frame);
        peer.replies.remove_first();
    }
}

/// Writes the frame of a reply, and returns its length.
fn write_reply(reply: Reply, out: &mut [u8]) -> u32
    requires lawful { 0 < reply.channel }
    requires room { length out.old ≡ 512 }
    ensures frame { take result out.new ≡ replying (reply_in reply) }
    ensures some { 0 < result }
    ensures fits { result ≤ 512 }
{
    let channel = reply.channel;
    match reply.reason {
        None => write(
            out,
            reply.source,
            reply.destination,
            &Letter::Accept { channel },
        ),
        Some(reason) => write(
            out,
            reply.source,
            reply.destination,
            &Letter::Reject { channel, reason },
        ),
    }
}

/// Writes the frame of an announcement, and returns its length.
fn announce(ns: &Ns, out: &mut [u8]) -> usize
    requires lawful { IsTrue (is_name ns.now.name.items) }
    requires room { length out.old ≡ 512 }
    ensures frame { take result out.new ≡ made ns.now.addr name_service_address (announcement ns.now.name.items ns.now.addr ns.now.create) }
    ensures some { 0 < result }
    ensures fits { result ≤ 512 }
{
    let mut payload = [0; NS_SIZE];
    write_ns(ns, &mut payload);
    encode_into(ns.addr, NAME_SERVICE_ADDRESS, &payload, out)
}

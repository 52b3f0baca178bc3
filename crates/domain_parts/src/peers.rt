//! The peers of a domain, one after the other.

ghost use Rattle.std.specs.Prelude.{◌≡◌, ◌<◌, ◌==◌, IfSome, None, Some, length, position};
ghost use Rattle.buffer_book.specs.Book.{IsQueued, NoneAside, slot_of};
ghost use Rattle.domain_parts.specs.declared.parts.OpenPart.{OpenPart as Opened};
ghost use Rattle.domain_parts.specs.AllMoved.{giving};
ghost use Rattle.domain_parts.specs.EndedParts.{frames_open, without_open};
ghost use Rattle.domain_parts.specs.GivingBack.{AreOut, AreOutAt, GivesBack};
ghost use Rattle.domain_parts.specs.InBook.{frames_at};
ghost use Rattle.domain_parts.specs.InPlaces.{IsLentAs};
ghost use Rattle.domain_parts.specs.LaneSeen.{after_moves};
ghost use Rattle.domain_parts.specs.Steps.{without_frames};

use crate::parts::OpenPart;
use crate::peer::Peer;
use crate::peer_lane::PeerLane;
use buffer_book::BufferBook;
use mc_base::{PacketId, Slot};

/// The place of a peer.
pub fn place_of<P>(peers: &[Peer<P>], number: u8) -> Option<usize>
    ensures place { result ≡ position (λ p. p.number == number) peers.now }
    ensures within { IfSome result (λ i. i < length peers.now) }
{
    peers.iter().position(|p| p.number == number)
}

/// Takes an item in a queue out of the book, and gives its buffers back to the peer from which they came, oldest first.
pub fn give_back<P: PeerLane>(book: &mut BufferBook, peers: &mut [Peer<P>], slot: Slot)
    requires queued { IsQueued book.old slot }
    requires out { AreOutAt P.seen slot.peer (frames_at book.old slot) peers.old }
    ensures book { book.new ≡ without_frames book.old slot None (frames_at book.old slot) }
    ensures gives { GivesBack P.Moved P.seen slot.peer (frames_at book.old slot) peers.old peers.new }
{
    if let Some(place) = place_of(peers, slot.peer) {
        give_frames(book, &mut peers[place].ends, slot);
    }
}

/// The same at the ends towards the peer.
fn give_frames<P: PeerLane>(book: &mut BufferBook, ends: &mut P, slot: Slot)
    requires queued { IsQueued book.old slot }
    requires out { AreOut (P.seen ends.old).out (frames_at book.old slot) }
    ensures book { book.new ≡ without_frames book.old slot None (frames_at book.old slot) }
    ensures moved { P.Moved ends.old (giving (frames_at book.old slot)) ends.new }
    ensures seen { P.seen ends.new ≡ after_moves (giving (frames_at book.old slot)) (P.seen ends.old) }
{
    for _ in 0..book.pieces(slot) {
        let buffer = book.withdraw_next(slot).unwrap();
        ends.give_back(buffer);
    }
}

/// Ends a part that is open, if one is: takes it out of the book, and gives its buffers back at the ends towards its peer, oldest first.
pub fn end_part<P: PeerLane>(book: &mut BufferBook, ends: &mut P, part: Option<OpenPart>)
    requires queued { (o : Opened) → part ≡ Some o → IsQueued book.old o.slot }
    requires out { AreOut (P.seen ends.old).out (frames_open book.old part) }
    ensures book { book.new ≡ without_open book.old part }
    ensures moved { P.Moved ends.old (giving (frames_open book.old part)) ends.new }
    ensures seen { P.seen ends.new ≡ after_moves (giving (frames_open book.old part)) (P.seen ends.old) }
{
    if let Some(part) = part {
        give_frames(book, ends, part.slot);
    }
}

/// Takes a lent packet out of the book, and gives its buffers back to the peer from which they came, oldest first.
pub fn give_back_lent<P: PeerLane>(book: &mut BufferBook, peers: &mut [Peer<P>], id: PacketId)
    requires none_aside { NoneAside book.old }
    requires lent { IsLentAs book.old id }
    requires out { AreOutAt P.seen id.peer (frames_at book.old (slot_of id)) peers.old }
    ensures book { book.new ≡ without_frames book.old (slot_of id) (Some id.serial) (frames_at book.old (slot_of id)) }
    ensures gives { GivesBack P.Moved P.seen id.peer (frames_at book.old (slot_of id)) peers.old peers.new }
{
    if let Some(place) = place_of(peers, id.peer) {
        give_lent_frames(book, &mut peers[place].ends, id);
    }
}

/// The same at the ends towards the peer.
fn give_lent_frames<P: PeerLane>(book: &mut BufferBook, ends: &mut P, id: PacketId)
    requires none_aside { NoneAside book.old }
    requires lent { IsLentAs book.old id }
    requires out { AreOut (P.seen ends.old).out (frames_at book.old (slot_of id)) }
    ensures book { book.new ≡ without_frames book.old (slot_of id) (Some id.serial) (frames_at book.old (slot_of id)) }
    ensures moved { P.Moved ends.old (giving (frames_at book.old (slot_of id))) ends.new }
    ensures seen { P.seen ends.new ≡ after_moves (giving (frames_at book.old (slot_of id))) (P.seen ends.old) }
{
    for _ in 0..book.lent_pieces(id).unwrap() {
        let (buffer, _) = book.release_next(id).unwrap();
        ends.give_back(buffer);
    }
}

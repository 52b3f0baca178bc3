//! Frames that are taken, and what is done with their buffers.

ghost use Rattle.std.specs.Prelude.{◌≤◌, ◌<◌, ◌+◌, ◌*◌, length};
ghost use Rattle.domain_parts.specs.CallSteps.{Rests};
ghost use Rattle.domain_parts.specs.Doing.{Takes};
ghost use Rattle.domain_parts.specs.Parts.{peer_at};

use crate::dealing::{Dealt, Verdict, deal_with};
use crate::holdings::Holdings;
use crate::messages::PIECE;
use crate::parts::OpenPart;
use crate::peer_lane::PeerLane;
use crate::peers::end_part;
use crate::requests::handed;
use mc_journal::{Entry, Journal};

impl<P: PeerLane> Holdings<P> {
    /// Takes the oldest frames that the peer at a place shows, so many.
    pub fn take_frames(&mut self, journal: &mut Journal, place: usize, count: usize)
        requires rests { Rests P.Moved self.old }
        requires within { place < length self.old.parts.peers }
        requires shown { count ≤ (peer_at self.old.parts place).ends.shown }
        requires entry_room { count ≤ journal.old.entry_room }
        requires byte_room { 512 * count ≤ journal.old.byte_room }
        ensures takes { Takes P.Moved place count self.old self.new journal.old.lines journal.new.lines }
        ensures entry_room { journal.old.entry_room ≤ journal.new.entry_room + count }
        ensures byte_room { journal.old.byte_room ≤ journal.new.byte_room + 512 * count }
    {
        for _ in 0..count {
            self.take_frame(journal, place);
        }
    }

    /// Takes the oldest frame that the peer at a place shows, and notes it with its word. It goes on with the peer's open part, or ends it;
    /// its item is queued, handed to the receive that waits, or held in a part, or the buffer is given back.
    #[inline(never)] // Its locals are cleared for no peer that shows nothing.
    fn take_frame(&mut self, journal: &mut Journal, place: usize)
        requires within { place < length self.old.parts.peers }
        requires shown { 0 < (peer_at self.old.parts place).ends.shown }
        requires entry_room { 1 ≤ journal.old.entry_room }
        requires byte_room { 512 ≤ journal.old.byte_room }
        ensures takes { Takes P.Moved place 1 self.old self.new journal.old.lines journal.new.lines }
        ensures entry_room { journal.old.entry_room ≤ journal.new.entry_room + 1 }
        ensures byte_room { journal.old.byte_room ≤ journal.new.byte_room + 512 }
    {
        let peer = &mut self.peers[place];
        let number = peer.number;
        let open = self.endpoints.part_of(number);
        let (buffer, len) = peer.ends.take();
        let (frame, _) = buffer.bytes().split_at(len as usize);
        let dealt = deal_with(
            &mut self.endpoints,
            &mut self.requests,
            &mut peer.known,
            &mut peer.replies,
            number,
            frame,
        );
        let fate = dealt.fate();
        journal.note(Entry::Take {
            peer: number,
            frame,
            fate,
        });
        match dealt {
            Dealt::Alone { verdict, headers } => {
                end_part(&mut self.book, &mut peer.ends, open);
                self.endpoints.drop_part(number);
                match verdict {
                    Verdict::Queued {
                        place: at,
                        priority,
                        size,
                    } => {
                        let slot = self.book.enqueue(number, buffer, headers, size);
                        self.endpoints.queue_last(at, slot, priority);
                    }
                    Verdict::Handed { id, ask, size } => {
                        let slot = self.book.enqueue(number, buffer, headers, size);
                        self.requests.complete(id, handed(ask, slot));
                    }
                    Verdict::Returned(_) => peer.ends.give_back(buffer),
                }
            }
            Dealt::Begins(piece) => {
                end_part(&mut self.book, &mut peer.ends, open);
                let slot = self.book.enqueue(number, buffer, PIECE, piece.size);
                self.endpoints.keep_part(OpenPart::begun(slot, &piece));
            }
            Dealt::Grows { part, size } => {
                self.book.join(part.slot, buffer, PIECE, size);
                self.endpoints.keep_part(part);
            }
            Dealt::WholeQueued {
                part,
                size,
                place: at,
                priority,
            } => {
                self.book.join(part.slot, buffer, PIECE, size);
                self.endpoints.drop_part(number);
                self.endpoints.queue_last(at, part.slot, priority);
            }
            Dealt::WholeHanded {
                part,
                size,
                id,
                ask,
            } => {
                self.book.join(part.slot, buffer, PIECE, size);
                self.endpoints.drop_part(number);
                self.requests.complete(id, handed(ask, part.slot));
            }
        }
    }
}

//! The frames of a message or packet that is sent, put one after the other.

ghost use Rattle.std.specs.Prelude.{◌≡◌, ◌≤◌, ◌<◌, ◌+◌, ◌*◌, ◌||◌, IfErr, OnErr, OnOk, is_err, length, map, nat_lt};
ghost use Rattle.mc_base.specs.Letter.{IsCarrier};
ghost use Rattle.mc_base.specs.Limits.{item_size, piece_size};
ghost use Rattle.mc_base.specs.declared.refusal.Refusal.TheVariants.{NoBuffer};
ghost use Rattle.board_model.specs.Answer.{lacks_buffers, passes_lane, puts_of};
ghost use Rattle.board_model.specs.Journal.{noted_all};
ghost use Rattle.board_model.specs.Serial.{put_entry};
ghost use Rattle.board_model.specs.State.{free_to};
ghost use Rattle.domain_parts.specs.CallSteps.{putting_all};
ghost use Rattle.domain_parts.specs.Outgoing.{NeedsParts, parts_put, post_of};
ghost use Rattle.domain_parts.specs.Pieces.{carrier_in};
ghost use Rattle.domain_parts.specs.Parts.{state_of};
ghost use Rattle.domain_parts.specs.Room.{item_bytes, item_entries};
ghost use Rattle.domain_parts.specs.Steps.{Did};

use crate::holdings::Holdings;
use crate::outgoing::Outgoing;
use crate::peer_lane::PeerLane;
use mc_base::{ITEM_SIZE, PIECE_SIZE, Refusal};
use mc_journal::Journal;

impl<P: PeerLane> Holdings<P> {
    /// Whether an item has more than 8,192 bytes, or needs more frames than the lane to its peer has buffers.
    pub(super) fn is_too_long(&self, item: &Outgoing<'_>) -> bool
        ensures { result ≡ (nat_lt item_size (length item.now.bytes.now) || passes_lane (state_of self.now.parts) (puts_of (post_of item.now))) }
    {
        if item.bytes.len() > ITEM_SIZE {
            return true;
        }
        self.size_to(item.peer) < item.frames(PIECE_SIZE)
    }

    /// Puts a message or packet to its peer, all its frames one after the other, and notes each.
    ///
    /// # Errors
    ///
    /// [`Refusal::NoBuffer`] where fewer buffers of the lane are free than the frames need. Then nothing is put.
    #[inline]
    pub(super) fn put_item(
        &mut self,
        journal: &mut Journal,
        item: &Outgoing<'_>,
    ) -> Result<(), Refusal>
        requires carrier { IsCarrier (carrier_in item.now.carrier) }
        requires short { length item.now.bytes.now ≤ item_size }
        requires entry_room { item_entries ≤ journal.old.entry_room }
        requires byte_room { item_bytes ≤ journal.old.byte_room }
        ensures full { is_err result ≡ lacks_buffers (state_of self.old.parts) (puts_of (post_of item.now)) }
        ensures word { IfErr result (λ word. word ≡ NoBuffer) }
        ensures stays { OnErr result (self.new ≡ self.old) }
        ensures silent { OnErr result (journal.new.lines ≡ journal.old.lines) }
        ensures did { OnOk result (Did P.Moved (putting_all (puts_of (post_of item.now))) self.old self.new) }
        ensures told { OnOk result (journal.new.lines ≡ noted_all journal.old.lines (map put_entry (puts_of (post_of item.now)))) }
        ensures entry_room { journal.old.entry_room ≤ journal.new.entry_room + item_entries }
        ensures byte_room { journal.old.byte_room ≤ journal.new.byte_room + item_bytes }
    {
        let cut = PIECE_SIZE;
        let count = item.frames(cut);
        if (self.free_to(item.peer) as usize) < count {
            return Err(Refusal::NoBuffer);
        }
        if count > 1 {
            self.put_parts(journal, item, cut, count);
            return Ok(());
        }
        let letter = item.whole();
        self.put_letter(journal, item.peer, item.source, item.destination, &letter);
        Ok(())
    }

    /// Puts an item in parts, the first bytes first: each part has `cut` bytes, and the last what is left.
    #[inline(never)] // Items of one frame, which come more often, stay short.
    fn put_parts(&mut self, journal: &mut Journal, item: &Outgoing<'_>, cut: usize, count: usize)
        requires carrier { IsCarrier (carrier_in item.now.carrier) }
        requires short { length item.now.bytes.now ≤ item_size }
        requires cuts { 0 < cut }
        requires fits { cut ≤ piece_size }
        requires some { 0 < count }
        requires needs { NeedsParts cut count (length item.now.bytes.now) }
        requires free { count ≤ free_to (state_of self.old.parts) item.now.peer }
        requires entry_room { count ≤ journal.old.entry_room }
        requires byte_room { 512 * count ≤ journal.old.byte_room }
        ensures did { Did P.Moved (putting_all (parts_put cut count item.now)) self.old self.new }
        ensures told { journal.new.lines ≡ noted_all journal.old.lines (map put_entry (parts_put cut count item.now)) }
        ensures entry_room { journal.old.entry_room ≤ journal.new.entry_room + count }
        ensures byte_room { journal.old.byte_room ≤ journal.new.byte_room + 512 * count }
    {
        let mut offset = 0;
        let mut rest = item.bytes;
        for _ in 0..count {
            let (part, after) = rest.split_at(cut.min(rest.len()));
            let letter = item.part(offset, part);
            self.put_letter(journal, item.peer, item.source, item.destination, &letter);
            offset += part.len();
            rest = after;
        }
    }
}

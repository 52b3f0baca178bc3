//! The call that sends a frame as it is.

ghost use Rattle.std.specs.Prelude.{◌≤◌, ◌+◌, None, length};
ghost use Rattle.board_model.specs.DomainCall.{raw_to};
ghost use Rattle.domain_parts.specs.Calls.{Calls, sent};
ghost use Rattle.domain_parts.specs.Ends.{EndsMoved};
ghost use Rattle.domain_parts.specs.Room.{call_bytes, call_entries};

use crate::domain::Domain;
use lane_end::{RecvEnd, SendEnd};
use mc_base::Refusal;
use mc_journal::Journal;

impl<S: SendEnd, R: RecvEnd> Domain<S, R> {
    /// Sends a frame of 1 to 512 bytes to a domain as it is, for tests of faulty peers. The frame has to have a fault
    /// (docs/FORMATS.md, "Faults of a frame"); the domain that takes it records the first one and gives the buffer back at once.
    ///
    /// # Errors
    ///
    /// - `LinkInvalid`: the domain is neither linked nor this one.
    /// - `RawSound`: the frame has no fault.
    /// - `NoBuffer`: no buffer of the lane to the domain is free after the turn.
    pub fn raw_put(&mut self, journal: &mut Journal, peer: u8, frame: &[u8]) -> Result<(), Refusal>
        requires some { 1 ≤ length frame.now }
        requires fits { length frame.now ≤ 512 }
        requires entry_room { call_entries ≤ journal.old.entry_room }
        requires byte_room { call_bytes ≤ journal.old.byte_room }
        ensures call { Calls (EndsMoved S.Moved R.Moved) 0 (raw_to peer frame.now) self.old self.new journal.old.lines journal.new.lines (sent result) None }
        ensures entry_room { journal.old.entry_room ≤ journal.new.entry_room + call_entries }
        ensures byte_room { journal.old.byte_room ≤ journal.new.byte_room + call_bytes }
    {
        self.inside.take_turn(journal);
        self.inside.put_raw(journal, peer, frame)
    }
}

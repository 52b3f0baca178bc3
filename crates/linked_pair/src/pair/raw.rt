//! The call of a pair that puts a frame as it is.

ghost use Rattle.std.specs.Prelude.{◌≤◌, ◌+◌, None, length};
ghost use Rattle.board_model.specs.DomainCall.{raw_to};
ghost use Rattle.domain_core.specs.Calls.{sent};
ghost use Rattle.domain_core.specs.Room.{call_bytes, call_entries};
ghost use Rattle.linked_pair.specs.Pair.{CallsAt};

use crate::member::Which;
use crate::pair::LinkedPair;
use domain_core::{calls_move_ends, domains_stay_linked};
use mc_base::Refusal;
use mc_journal::Journal;

impl LinkedPair {
    /// Puts a frame with a fault to a domain as it is, as [`Domain::raw_put`].
    pub fn raw_put(
        &mut self,
        which: Which,
        journal: &mut Journal,
        peer: u8,
        frame: &[u8],
    ) -> Result<(), Refusal>
        requires some { 1 ≤ length frame.now }
        requires fits { length frame.now ≤ 512 }
        requires entry_room { call_entries ≤ journal.old.entry_room }
        requires byte_room { call_bytes ≤ journal.old.byte_room }
        ensures call { CallsAt which 0 (raw_to peer frame.now) self.old self.new journal.old.lines journal.new.lines (sent result) None }
        ensures entry_room { journal.old.entry_room ≤ journal.new.entry_room + call_entries }
        ensures byte_room { journal.old.byte_room ≤ journal.new.byte_room + call_bytes }
    {
        calls_move_ends();
        domains_stay_linked();
        match which {
            Which::One => self.one.raw_put(journal, peer, frame),
            Which::Two => self.two.raw_put(journal, peer, frame),
        }
    }
}

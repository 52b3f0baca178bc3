//! How one half passes on what it knows to the other.
ghost use Rattle.std.specs.Prelude.{◌≡◌};
ghost use Rattle.shared_words.specs.Way.{other};
ghost use Rattle.shared_words.specs.Shown.{size_of, with_view};
ghost use Rattle.shared_words.specs.Notes.{showing_all, NoteFits};

use crate::half::Half;
use crate::kinds::{PartNote, ReadNote, TakeNote};
use crate::table::RingTable;

impl RingTable {
    /// Shows one half all that the other wrote: a note parts from the half `from`, and the half `to` takes it in. No
    /// list changes. The halves are the two of this table.
    pub fn tell(&self, from: &mut Half, to: &mut Half)
        requires rings { (from.old.ring ≡ self.now.ring) × (to.old.ring ≡ self.now.ring) }
        requires others { to.old.role ≡ other from.old.role }
        ensures from { from.new ≡ from.old }
        ensures to { to.new ≡ with_view (showing_all from.old.view to.old.view) to.old }
        ensures fits { NoteFits to.old.role (size_of self.now.ring) from.old.view to.old.view }
    {
        let note = self.board.shared.split_seat::<PartNote>(&mut from.seat);
        self.board.shared.join_seat::<TakeNote>(&mut to.seat, note);
        // A join answers no fact of the rule, so a load by the half that now has both views does.
        let _zero = self.board.shared.load::<ReadNote>(&mut to.seat, 0);
    }
}

//! The verdict on what a frame says: what is to be done, by the state before.

ghost use Rattle.std.specs.Prelude.{◌≡◌, ℕ, List, false};
ghost use Rattle.mc_base.specs.Letter.{plain_letter, saying_of};
ghost use Rattle.mc_base.specs.Reading.{says_so};
ghost use Rattle.board_model.specs.TakenFrames.{row_of};
ghost use Rattle.report_replay.specs.Ends.{came_in, item_by};
ghost use Rattle.report_replay.specs.Verdicts.{Judges, known_of};

mod connects;
mod letters;
mod names;

use crate::state::State;
use crate::verdict::{Action, Verdict};
use crate::way::Way;
use mc_base::{Fate, Letter};

impl State {
    /// The verdict on a letter, whatever the frames that brought it are named by. A part of one goes on with no open part, and is stray.
    pub(crate) fn judge_letter(&self, way: Way, letter: &Letter<'_>) -> Verdict
        ensures { (names : List ℕ) → Judges way.peer (known_of self.now way.peer) (item_by way names (plain_letter letter.now))
            (row_of self.now way.peer (came_in names) (says_so way.source way.destination (saying_of letter.now))) result }
    {
        match *letter {
            Letter::Connect { channel, kind } => Verdict::Act(self.judge_connect(
                way, channel, kind,
            )),
            Letter::Msg { .. } => self.judge_message(way),
            Letter::MsgPart { .. } | Letter::PacketPart { .. } => {
                Verdict::Act(Action::Nothing(Fate::Stray))
            }
            _ => self.judge_at_end(way, letter),
        }
    }
}

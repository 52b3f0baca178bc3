//! A frame that is taken: read with the open part of its peer, and then dealt with by what it says.

ghost use Rattle.std.specs.Prelude.{◌≡◌, ◌∷◌, ◌++◌, [], IfOk, OnOk, filter, length, not, unwrap_or};
ghost use Rattle.mc_base.specs.Letter.{carried};
ghost use Rattle.mc_base.specs.Reading.{says};
ghost use Rattle.name_service.specs.Said.{reading_of};
ghost use Rattle.board_model.specs.Deeds.{after_deed, takes};
ghost use Rattle.board_model.specs.Parts.{names_before, names_ended};
ghost use Rattle.board_model.specs.Returns.{given_by_frame};
ghost use Rattle.board_model.specs.State.{held_of, holds_from};
ghost use Rattle.board_model.specs.TakenFrames.{row_from};
ghost use Rattle.report_replay.specs.Dealt.{AddsFor};

use crate::frame_names::FrameNames;
use crate::part::Says;
use crate::state::State;
use crate::way::Way;
use mc_base::{Fate, NoMemory};
use name_service::read_frame;
use std::alloc::Global;

impl State {
    /// Takes a frame that was shown from a peer, does what the definitions say, and returns its word. `name` is what the frame is named by, if
    /// it stays in an item or in the peer's open part. The names of the frames whose buffers are given back are added to `given`: first those
    /// of an open part that ends unfinished, and then those that brought what the frame says, where its word lets go of them.
    ///
    /// # Errors
    ///
    /// `NoMemory` where a part, an item, a reply or a name cannot be stored. Nothing is said of the state after that.
    pub fn take(
        &mut self,
        alloc: Global,
        peer: u8,
        name: Option<u32>,
        frame: &[u8],
        given: &mut FrameNames,
    ) -> Result<Fate, NoMemory>
        ensures word { IfOk result (λ word. word ≡ (row_from self.old peer name frame.now).word) }
        ensures state { IfOk result (λ word. self.new ≡ after_deed self.old (takes peer name frame.now word)) }
        ensures given { IfOk result (λ word. AddsFor peer (given_by_frame self.old peer name frame.now word) given.old given.new) }
    {
        let name = name.unwrap_or(0);
        let coming = self.read_on(alloc, peer, read_frame(frame))?;
        let earlier = self.end_part(alloc, peer, coming.joins, given)?;
        match coming.says {
            Says::Held => {
                self.hold(peer, &earlier, name)?;
                Ok(Fate::Part)
            }
            Says::Alone(said) => self.deal(alloc, peer, name, &said, given),
            Says::Whole(part) => {
                let way = Way {
                    peer,
                    name,
                    source: part.source,
                    destination: part.destination,
                };
                self.deal_whole(way, part, earlier, given)
            }
        }
    }

    /// Takes the frames of a peer's open part out of those that are held, and returns their names where the next frame joins them. Where it
    /// does not, their buffers are given back, the oldest first.
    fn end_part(
        &mut self,
        alloc: Global,
        peer: u8,
        joins: bool,
        given: &mut FrameNames,
    ) -> Result<Vec<u32>, NoMemory>
        ensures names { IfOk result (λ names. names.items ≡ names_before joins (held_of self.old peer)) }
        ensures state { OnOk result (self.new ≡ record self.old { held = filter (λ h. not (holds_from peer h)) self.old.held }) }
        ensures given { OnOk result (AddsFor peer (names_ended joins (held_of self.old peer)) given.old given.new) }
    {
        let held = self.take_held(alloc, peer)?;
        if joins {
            return Ok(held);
        }
        given.add_all(peer, &held)?;
        Ok(Vec::new(alloc))
    }
}

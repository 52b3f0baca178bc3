//! What is done with what a frame says, once it is read with the open part of its peer.

ghost use Rattle.std.specs.Prelude.{◌≡◌, ◌≤◌, ◌∷◌, ◌++◌, [], IfOk, OnOk, length};
ghost use Rattle.mc_base.specs.Letter.{carried, plain_letter, saying_of};
ghost use Rattle.mc_base.specs.Reading.{says, says_so};
ghost use Rattle.name_service.specs.Said.{reading_of};
ghost use Rattle.board_model.specs.Change.{changed, changed_all};
ghost use Rattle.board_model.specs.State.{Item as PlainItem};
ghost use Rattle.report_replay.specs.Dealt.{AddsFor, Deals};
ghost use Rattle.report_replay.specs.Ends.{came_in};
ghost use Rattle.report_replay.specs.Replayed.{most_bytes};
ghost use Rattle.report_replay.specs.ShortLetters.{IsShort, IsShortReading};
ghost use Rattle.report_replay.specs.Verdicts.{HasRoom, changes_of, kept_change, kept_word, known_of, word_of};

use crate::fates::fault_word;
use crate::frame_names::FrameNames;
use crate::item::Item;
use crate::part::Part;
use crate::state::State;
use crate::verdict::{Action, Verdict};
use crate::way::Way;
use mc_base::{Fate, Letter, NoMemory, Refusal};
use name_service::Said;
use std::alloc::Global;

impl State {
    /// Deals with what a frame from a peer says by itself.
    pub(crate) fn deal(
        &mut self,
        alloc: Global,
        peer: u8,
        name: u32,
        said: &Said<'_>,
        given: &mut FrameNames,
    ) -> Result<Fate, NoMemory>
        requires { IsShortReading (reading_of said.now) }
        ensures { IfOk result (Deals peer (came_in (name ∷ [])) (reading_of said.now) self.old self.new given.old given.new) }
    {
        match said {
            Said::Faulty(fault) => {
                let action = Action::Nothing(fault_word(*fault));
                self.settle(peer, &[], name, action, given)
            }
            Said::Announces(ns) => {
                let action = self.judge_name(peer, ns);
                self.settle(peer, &[], name, action, given)
            }
            Said::Sends { src, dst, letter } => {
                let way = Way {
                    peer,
                    name,
                    source: *src,
                    destination: *dst,
                };
                self.deal_letter(alloc, way, letter, given)
            }
        }
    }

    /// Deals with the letter of a single frame. The bytes of what it brings are copied only where they are kept.
    fn deal_letter(
        &mut self,
        alloc: Global,
        way: Way,
        letter: &Letter<'_>,
        given: &mut FrameNames,
    ) -> Result<Fate, NoMemory>
        requires { IsShort (plain_letter letter.now) }
        ensures { IfOk result (Deals way.peer (came_in (way.name ∷ [])) (says_so way.source way.destination (saying_of letter.now)) self.old self.new given.old given.new) }
    {
        match self.judge_letter(way, letter) {
            Verdict::Keep { at, hands } => {
                let item = way.item(alloc, letter)?;
                self.keep_item(at, hands, item)
            }
            Verdict::Act(action) => self.settle(way.peer, &[], way.name, action, given),
        }
    }

    /// Deals with a message or packet that is whole, which frames of the earlier names and the way's brought.
    pub(crate) fn deal_whole(
        &mut self,
        way: Way,
        part: Part,
        earlier: Vec<u32>,
        given: &mut FrameNames,
    ) -> Result<Fate, NoMemory>
        requires { length part.content ≤ most_bytes }
        ensures { IfOk result (Deals way.peer (came_in (earlier.items ++ way.name ∷ [])) (says way.source way.destination (carried part.carrier part.content)) self.old self.new given.old given.new) }
    {
        match self.judge_letter(way, &part.letter()) {
            Verdict::Keep { at, hands } => self.keep_item(at, hands, way.whole_item(part, earlier)),
            Verdict::Act(action) => self.settle(way.peer, &earlier, way.name, action, given),
        }
    }

    /// Keeps an item at the endpoint of this address, and returns the word of its last frame.
    fn keep_item(&mut self, at: u32, hands: bool, item: Item) -> Result<Fate, NoMemory>
        ensures word { IfOk result (λ word. word ≡ kept_word hands) }
        ensures state { OnOk result (self.new ≡ changed self.old (kept_change at item hands)) }
    {
        if hands {
            self.hand_item(at, item);
            Ok(Fate::Handed)
        } else {
            self.queue_item(at, item)?;
            Ok(Fate::Queued)
        }
    }

    /// Gives the buffers of frames from a peer back, of these and the last, and does what is to be done by them. Returns the last one's word.
    fn settle(
        &mut self,
        peer: u8,
        earlier: &[u32],
        last: u32,
        action: Action,
        given: &mut FrameNames,
    ) -> Result<Fate, NoMemory>
        requires { HasRoom (known_of self.old peer) action }
        ensures word { IfOk result (λ word. word ≡ word_of action) }
        ensures state { OnOk result ((item : PlainItem) → self.new ≡ changed_all self.old (changes_of peer (known_of self.old peer) item action)) }
        ensures given { OnOk result (AddsFor peer (earlier.now ++ last ∷ []) given.old given.new) }
    {
        given.add_all(peer, earlier)?;
        given.add(peer, last)?;
        self.act(peer, action)?;
        Ok(action.word())
    }

    /// Does what is to be done by a frame from a peer of which nothing is kept.
    fn act(&mut self, peer: u8, action: Action) -> Result<(), NoMemory>
        requires { HasRoom (known_of self.old peer) action }
        ensures { OnOk result ((item : PlainItem) → self.new ≡ changed_all self.old (changes_of peer (known_of self.old peer) item action)) }
    {
        match action {
            Action::Nothing(_) | Action::Lose { .. } => {}
            Action::Learn { name, address } => {
                self.learn(peer, name, address);
                self.find_name(name, address);
            }
            Action::Forget { name } => self.forget(peer, name),
            Action::Owe { reply } => self.owe_reply(peer, reply)?,
            Action::Accept { at, end, reply } => {
                self.set_channel(at, Some(end));
                self.owe_reply(peer, reply)?;
            }
            Action::Set { at, left } => self.set_channel(at, left),
            Action::Settle {
                at,
                left,
                number,
                rejected,
            } => {
                self.set_channel(at, left);
                self.settle_connects(number, rejected);
            }
            Action::EndReceives { at, left } => {
                self.end_waiting(at, Refusal::ChanClosed);
                self.set_channel(at, left);
            }
        }
        Ok(())
    }
}

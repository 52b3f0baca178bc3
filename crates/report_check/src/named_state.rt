//! A domain's state in which each frame is named by its place among those taken from its peer, and what was given back.

ghost use Rattle.std.specs.Prelude.{◌≡◌, ◌+◌, ◌^◌, ◌==◌, ◌∷◌, [], ◌<◌, ℕ, None, IfOk, OnOk, if◌then◌else◌, slice_index};
ghost use Rattle.board_model.specs.Answer.{refusal};
ghost use Rattle.board_model.specs.Deeds.{calls, takes};
ghost use Rattle.board_model.specs.Journal.{PlainAnswer};
ghost use Rattle.board_model.specs.TakenFrames.{row_from};
ghost use Rattle.report_replay.specs.Effects.{HasOwnAddresses};
ghost use Rattle.report_replay.specs.PlainCalls.{plain_call};
ghost use Rattle.report_check.specs.NamedStates.{GoesOn, HasDone, plain};

use mc_base::{Fate, NoMemory};
use report_replay::{DomainCall, FrameNames, State};
use std::alloc::Global;

/// A domain's state in which each frame is named by its place, counted from 0, among those taken from its peer, with the places, by peers, of the
/// frames whose buffers the domain gave back.
#[derive(Drop)]
pub struct NamedState {
    pub(crate) state: State,
    pub(crate) taken: [u32; 8],
    pub(crate) given: FrameNames,
}

impl NamedState {
    /// Begins with a state in which no frame has a name.
    pub(crate) fn new(alloc: Global, state: State) -> NamedState
        ensures state { result.state ≡ state }
        ensures begins { HasDone state [] result }
    {
        NamedState {
            state,
            taken: [0; 8],
            given: FrameNames::new(alloc),
        }
    }

    /// Takes a frame that was shown from a peer, by the name of its place, and returns its word. The places of the frames whose buffers are
    /// given back are noted.
    pub(crate) fn take(&mut self, alloc: Global, peer: u8, frame: &[u8]) -> Result<Fate, NoMemory>
        requires { peer < 8 }
        ensures word { IfOk result (λ word. word ≡ (row_from (plain self.old) peer None frame.now).word) }
        ensures goes { IfOk result (λ word. GoesOn self.old self.new (takes peer None frame.now word ∷ [])) }
    {
        let place = self.taken[usize::from(peer)];
        let word = self
            .state
            .take(alloc, peer, Some(place), frame, &mut self.given)?;
        count_one(&mut self.taken, peer);
        Ok(word)
    }

    /// Does what a call does that is not refused. The places of the frames whose buffers it gives back are noted.
    pub(crate) fn succeed(
        &mut self,
        alloc: Global,
        node: u8,
        call: &DomainCall<'_>,
    ) -> Result<(), NoMemory>
        requires succeeds { refusal (plain self.old) node (plain_call call.now) ≡ None }
        requires own { HasOwnAddresses (plain self.old) }
        ensures { (a : PlainAnswer) → OnOk result (GoesOn self.old self.new (calls node (plain_call call.now) a ∷ [])) }
    {
        self.state.note_returned(node, call, &mut self.given)?;
        self.state.succeed(alloc, node, call)
    }
}

/// Counts one frame more that was taken from a peer.
fn count_one(taken: &mut [u32; 8], peer: u8)
    requires { peer < 8 }
    ensures { (p : ℕ) → p < 8 → slice_index taken.old peer + 1 < 2 ^ 32 → slice_index taken.new p ≡ slice_index taken.old p + (if peer == p then 1 else 0) }
{
    let place = usize::from(peer);
    taken[place] = taken[place].saturating_add(1);
}

//! A domain on its way through its script.

ghost use Rattle.std.specs.Prelude.{◌≡◌, [], ◌+◌, ◌^◌, ℕ, Some, IfSome, OnOk, map, option_map, slice_get};
ghost use Rattle.board_model.specs.Answer.{answer as answer_in, refusal as refusal_of};
ghost use Rattle.board_model.specs.Journal.{PlainAnswer, called};
ghost use Rattle.board_model.specs.JournalDeeds.{call_deeds};
ghost use Rattle.board_model.specs.Labels.{Labels as PlainLabels, labels_after};
ghost use Rattle.board_model.specs.Step.{RunState, after, is_done_now, next_line as line_next};
ghost use Rattle.board_model.specs.Unnamed.{unnamed};
ghost use Rattle.mc_journal.specs.Entry.{plain_answer};
ghost use Rattle.report_replay.specs.HeldLabels.{HoldLabels};
ghost use Rattle.report_replay.specs.Effects.{HasOwnAddresses};
ghost use Rattle.report_replay.specs.PlainCalls.{plain_call};
ghost use Rattle.report_replay.specs.Puts.{FitsFrame};
ghost use Rattle.report_text.specs.StepPass.{lines_left as lines_behind};
ghost use Rattle.report_check.specs.NamedStates.{GoesOn, HasDone, plain};
ghost use Rattle.report_check.specs.Runs.{HasFitLines, IsAt, IsNext, begun, capped as cap, script_of, seen, tried_more, turned_more};

use crate::named_state::NamedState;
use crate::next_call::{NextCall, is_done};
use board_model::CallLine;
use mc_base::NoMemory;
use mc_journal::Answer;
use report_replay::{FrameNames, Labels, State};
use std::alloc::Global;

/// A wait that has begun: how many turns were made since, and whether one of its requests was complete before the last of them.
#[derive(Clone, Copy)]
pub(crate) struct Waiting {
    pub(crate) turns: u64,
    pub(crate) done_before: bool,
}

/// A domain on its way through its script.
#[derive(Drop)]
pub struct Run<'s> {
    pub(crate) state: NamedState,
    pub(crate) labels: Labels<'s>,
    pub(crate) script: &'s [&'s CallLine],
    pub(crate) called: usize,
    pub(crate) made: u64,
    pub(crate) turned: bool,
    pub(crate) waited: Option<Waiting>,
}

/// A count that grows, up to one that no line reaches.
pub(crate) fn capped(count: u64, more: u64) -> u64
    ensures { result ≡ cap (count + more) }
{
    count.saturating_add(more).min(1 << 32)
}

impl<'s> Run<'s> {
    /// Begins a domain's way through these lines of its script.
    pub fn new(alloc: Global, state: State, script: &'s [&'s CallLine]) -> Run<'s>
        ensures at { IsAt result (begun (unnamed state)) }
        ensures done { HasDone state [] result.state }
        ensures script { script_of result ≡ map (λ l. l.now) script.now }
    {
        Run {
            state: NamedState::new(alloc, state),
            labels: Labels::new(alloc),
            script,
            called: 0,
            made: 0,
            turned: false,
            waited: None,
        }
    }

    /// Counts the lines of the script that are still to be called.
    pub fn lines_left(&self) -> usize
        ensures { (r : RunState) → IsAt self.now r → result ≡ lines_behind r (script_of self.now) }
    {
        self.script.len().saturating_sub(self.called)
    }

    /// The state of the domain, and the places of the frames whose buffers it gave back.
    pub fn into_state(self) -> (State, FrameNames)
        ensures state { result.0 ≡ self.entry.state.state }
        ensures given { result.1 ≡ self.entry.state.given }
    {
        (self.state.state, self.state.given)
    }

    /// The line that is called next.
    fn next_line(&self) -> Option<&'s CallLine>
        ensures { option_map (λ l. l.now) result ≡ slice_get (script_of self.now) self.now.called }
    {
        self.script.get(self.called).copied()
    }

    /// The call that is made next.
    pub(crate) fn next_call(&self) -> Option<NextCall<'s>>
        ghost ls: { PlainLabels }
        requires { HoldLabels self.now.labels ls }
        ensures line { option_map (λ n. n.line.now) result ≡ line_next (script_of self.now) (seen self.now ls) }
        ensures call { IfSome result (λ n. IsNext n (seen self.now ls)) }
        ensures fits { HasFitLines self.now → IfSome result (λ n. FitsFrame (plain_call n.call)) }
    {
        let line = self.next_line()?;
        let call = self.labels.call_of(&self.state.state, &line.call);
        let refusal = self.state.state.refusal(line.node, &call);
        Some(NextCall {
            line,
            call,
            refusal,
        })
    }

    /// The answer of a call.
    pub(crate) fn answer(&self, next: &NextCall<'_>) -> Answer<'_>
        requires { next.now.refusal ≡ refusal_of self.now.state.state next.now.line.now.node (plain_call next.now.call) }
        ensures { plain_answer result ≡ answer_in self.now.state.state next.now.line.now.node (plain_call next.now.call) }
    {
        match next.refusal {
            Some(word) => Answer::Refused(word),
            None => self
                .state
                .state
                .answer_of_success(next.line.node, &next.call),
        }
    }

    /// Whether one of the requests of the next line is complete, if it waits.
    pub(crate) fn is_done(&self) -> bool
        ghost ls: { PlainLabels }
        requires { HoldLabels self.now.labels ls }
        ensures { result ≡ is_done_now (line_next (script_of self.now) (seen self.now ls)) (seen self.now ls) }
    {
        match self.next_call() {
            Some(next) => is_done(self.answer(&next)),
            None => false,
        }
    }

    /// Notes turns that leave the state as it is.
    pub(crate) fn note_turns(&mut self, count: u64)
        ghost ls: { PlainLabels }
        requires { HoldLabels self.old.labels ls }
        ensures { self.new ≡ turned_more (is_done_now (line_next (script_of self.old) (seen self.old ls)) (seen self.old ls)) count self.old }
    {
        if let Some(wait) = self.waited {
            let done = self.is_done();
            self.waited = Some(Waiting {
                turns: capped(wait.turns, count),
                done_before: wait.done_before || done,
            });
        }
        self.turned = true;
    }

    /// Notes that the call of the next line is made again.
    pub(crate) fn note_tries(&mut self, count: u64)
        ensures { self.new ≡ tried_more count self.old }
    {
        self.made = capped(self.made, count);
        self.turned = false;
    }

    /// Does what the call of the next line does, and goes on to the line behind it.
    pub(crate) fn make_call(&mut self, alloc: Global, next: NextCall<'s>) -> Result<(), NoMemory>
        ghost ls: { PlainLabels }
        requires labels { HoldLabels self.old.labels ls }
        requires line { line_next (script_of self.old) (seen self.old ls) ≡ Some next.line.now }
        requires call { IsNext next (seen self.old ls) }
        requires own { HasOwnAddresses (plain self.old.state) }
        ensures labels { OnOk result (HoldLabels self.new.labels (labels_after ls (plain self.old.state) next.entry.line.now)) }
        ensures run { OnOk result ((k : ℕ) (a : PlainAnswer) → seen self.new (labels_after ls (plain self.old.state) next.entry.line.now) ≡ after (script_of self.old) (seen self.old ls) (called k a)) }
        ensures deeds { (a : PlainAnswer) → OnOk result (GoesOn self.old.state self.new.state (call_deeds (Some next.entry.line.now) (seen self.old ls) a)) }
        ensures script { OnOk result (self.new.script ≡ self.old.script) }
    {
        self.called += 1;
        self.made = 0;
        self.turned = false;
        self.waited = None;
        if next.refusal.is_none() {
            self.labels.note(&self.state.state, next.line, &next.call)?;
            self.state.succeed(alloc, next.line.node, &next.call)?;
        }
        Ok(())
    }
}

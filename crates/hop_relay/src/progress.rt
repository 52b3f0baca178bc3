//! How far an actor has come.

ghost use Rattle.std.specs.Prelude.{◌≡◌, IfSome, None, true};
ghost use Rattle.hop_relay.specs.declared.step.Step.TheVariants.{Opening as opening_step};
ghost use Rattle.hop_relay.specs.Steps.{are_of_opening, heard, is_agreed, is_closed, opening_after, opening_next, step_for, step_of, was_refused};

use crate::queue::Queue;
use crate::step::Step;
use board_model::CallLine;
use domain_core::Answer;
use mc_base::Refusal;
use std::snapshot::Snapshot;

/// How far an actor has come.
#[derive(Drop)]
pub struct Progress {
    /// What its last line asked for.
    pub step: Step,
    /// The lines of its opening that are left.
    pub opening: Queue<CallLine>,
    /// Its last line, which only contracts see.
    pub asked: Snapshot<Option<CallLine>>,
    ghost plain: { are_of_opening opening ≡ true },
}

impl Progress {
    /// An actor before its first line.
    pub fn new(opening: Vec<CallLine>) -> Progress
        requires { are_of_opening opening.items ≡ true }
        ensures step { result.step ≡ opening_step }
        ensures opening { result.opening ≡ opening.items }
        ensures asked { result.asked.value ≡ None }
    {
        Progress {
            step: Step::Opening,
            opening: Queue::new(opening),
            asked: Snapshot::of(&None),
        }
    }

    /// Takes the next line of the opening, where one is left and the call before was not refused.
    pub fn opening_line(&mut self, told: Option<&Answer<'_>>) -> Option<CallLine>
        ensures line { result ≡ opening_next self.old.step self.old.opening (heard told.entry) }
        ensures rest { self.new.opening ≡ opening_after self.old.step self.old.opening (heard told.entry) }
        ensures plain { IfSome result (λ l. step_of l.call ≡ opening_step) }
        ensures step { self.new.step ≡ self.old.step }
        ensures asked { self.new.asked ≡ self.old.asked }
    {
        match self.step {
            Step::Opening => {
                if is_refused(told) {
                    None
                } else {
                    self.opening.take()
                }
            }
            _ => None,
        }
    }

    /// Goes on to a line, or ends where there is none.
    pub fn turn_to(&mut self, line: &Option<CallLine>)
        ensures step { self.new.step ≡ step_for line.now }
        ensures opening { self.new.opening ≡ self.old.opening }
        ensures asked { self.new.asked.value ≡ line.now }
    {
        self.step = Step::of(line);
        self.asked = Snapshot::of(line);
    }
}

/// Returns whether the answer is a refusal.
pub fn is_refused(told: Option<&Answer<'_>>) -> bool
    ensures { result ≡ was_refused (heard told.entry) }
{
    match told {
        None => false,
        Some(answer) => match answer {
            Answer::Refused(_) => true,
            Answer::Ok | Answer::Number(_) | Answer::Bytes { .. } => false,
            Answer::Channel { .. } | Answer::Done { .. } => false,
        },
    }
}

/// Returns whether the answer is `ok` alone.
pub fn is_ok(told: Option<&Answer<'_>>) -> bool
    ensures { result ≡ is_agreed (heard told.entry) }
{
    match told {
        None => false,
        Some(answer) => match answer {
            Answer::Ok => true,
            Answer::Refused(_) | Answer::Number(_) | Answer::Bytes { .. } => false,
            Answer::Channel { .. } | Answer::Done { .. } => false,
        },
    }
}

/// Returns whether the word is that of a channel that the far side closed.
pub fn is_chan_closed(word: Refusal) -> bool
    ensures { result ≡ is_closed word }
{
    matches!(word, Refusal::ChanClosed)
}

//! The call of the next line of a script.

ghost use Rattle.std.specs.Prelude.{◌≡◌, ◌+◌, ℕ};
ghost use Rattle.board_model.specs.Step.{is_done as shows_done, is_timeout as shows_timeout, is_tried as shows_tried, is_tried_word as word_is_tried, limit_of as limit_in, may_try as tries_left};
ghost use Rattle.report_check.specs.Runs.{capped, word_tried};
ghost use Rattle.mc_journal.specs.Entry.{plain_answer};

use board_model::{Call, CallLine};
use mc_base::Refusal;
use mc_journal::Answer;
use report_replay::DomainCall;

/// The call of the next line of a script, as the domain knows it, and the word with which it is refused.
#[derive(Drop)]
pub(crate) struct NextCall<'s> {
    pub(crate) line: &'s CallLine,
    pub(crate) call: DomainCall<'s>,
    pub(crate) refusal: Option<Refusal>,
}

/// The limit of turns of a call that waits.
pub(crate) fn limit_of(call: &Call) -> Option<u32>
    ensures { result ≡ limit_in call.now }
{
    match call {
        Call::Wait { limit, .. } | Call::WaitAny { limit, .. } => Some(*limit),
        _ => None,
    }
}

/// Whether a call that is refused with this word is made again.
fn is_tried_word(word: Refusal) -> bool
    ensures { result ≡ word_is_tried word }
{
    matches!(
        word,
        Refusal::Empty
            | Refusal::NoBuffer
            | Refusal::NotConnected
            | Refusal::NotOpen
            | Refusal::ChanConnected
            | Refusal::Pending
    )
}

/// The word with which the call is made again.
pub(crate) fn tried_word(answer: Answer<'_>) -> Option<Refusal>
    ensures { result ≡ word_tried (plain_answer answer.entry) }
{
    match answer {
        Answer::Refused(word) if is_tried_word(word) => Some(word),
        _ => None,
    }
}

/// Whether a call may be made once more after it was made so often, and once more.
pub(crate) fn may_try(tries: Option<u32>, made: u64) -> bool
    ensures { (n : ℕ) → capped n ≡ made → result ≡ tries_left tries n }
{
    match tries {
        Some(tries) => made < u64::from(tries) && made + 1 < u64::from(tries),
        None => false,
    }
}

/// Whether all requests of a wait stand and none is complete.
pub(crate) fn is_timeout(answer: Answer<'_>) -> bool
    ensures { result ≡ shows_timeout (plain_answer answer.entry) }
{
    matches!(answer, Answer::Refused(Refusal::Timeout))
}

/// Whether a request is complete.
pub(crate) fn is_done(answer: Answer<'_>) -> bool
    ensures { result ≡ shows_done (plain_answer answer.entry) }
{
    matches!(answer, Answer::Done { .. })
}

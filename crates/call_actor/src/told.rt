//! Answers, as actors see them.

ghost use Rattle.std.specs.Prelude.{◌≡◌};
ghost use Rattle.mc_journal.specs.Entry.{plain_answer, result_of_told};
ghost use Rattle.board_model.specs.Logs.{bytes_answered, bytes_in_result};
ghost use Rattle.call_logs.specs.Following.{is_refused as is_refusal};

use mc_journal::{Answer, Told};

/// Returns whether an answer begins neither with `ok` nor with `done`.
pub fn is_refused(answer: &Answer<'_>) -> bool
    ensures { result ≡ is_refusal (plain_answer answer.now) }
{
    match answer {
        Answer::Refused(_) => true,
        Answer::Ok | Answer::Number(_) | Answer::Channel { .. } => false,
        Answer::Bytes { .. } | Answer::Done { .. } => false,
    }
}

/// Returns the bytes of an answer, none where it has none.
pub fn bytes_in<'a>(answer: &Answer<'a>) -> &'a [u8]
    ensures { result.now ≡ bytes_answered (plain_answer answer.now) }
{
    match answer {
        Answer::Bytes { size: _, bytes } => bytes,
        Answer::Done { place: _, result } => bytes_told(result),
        Answer::Refused(_) | Answer::Ok | Answer::Number(_) | Answer::Channel { .. } => &[],
    }
}

fn bytes_told<'a>(told: &Told<'a>) -> &'a [u8]
    ensures { result.now ≡ bytes_in_result (result_of_told told.now) }
{
    match told {
        Told::Bytes { size: _, bytes } => bytes,
        Told::Address(_) | Told::Accepted | Told::Rejected(_) | Told::Ended(_) => &[],
    }
}

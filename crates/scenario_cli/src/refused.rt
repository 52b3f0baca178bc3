//! The refusal of an input: a line, and the word for the reason for which it is refused.

ghost use Rattle.std.specs.Prelude.{◌≡◌, ◌≤◌, ℕ, length, IsOk, OnErr};
ghost use Rattle.outer_io.specs.Faults.{HasCause};
ghost use Rattle.outer_io.specs.Writes.{Writes, WritesStop};
ghost use Rattle.scenario_cli.specs.RefusedText.{input_reason_text, line_reason_text, refused_text};

use crate::place_line::write_place_line;
use actor_lang::InputReason;
use board_model::LineReason;
use outer_io::{Failed, Sink};

/// Writes the line, counted from 1, and the reason for which it is refused.
///
/// # Errors
///
/// `Failed` where a write failed.
pub fn write_refusal<K: Sink>(line: u32, reason: &[u8], output: &mut K) -> Result<(), Failed>
    ensures bytes { Writes (K.written output.old) (K.written output.new) result (refused_text line reason.now) }
    ensures cause { HasCause (K.faults output.old) (K.faults output.new) result }
    ensures room { (n : ℕ) → K.takes output.old n → length (refused_text line reason.now) ≤ n → IsOk result }
    ensures few_writes_at_err { OnErr result (WritesStop (K.written output.old) (K.written output.new) (K.calls output.old) (K.calls output.new) (refused_text line reason.now)) }
{
    write_place_line(b"refused", line as u64, reason, output)
}

/// Returns the word for the reason why a line of a scenario is refused.
pub fn line_reason_word(reason: LineReason) -> &'static [u8]
    ensures { result.now ≡ line_reason_text reason }
{
    match reason {
        LineReason::Byte => b"byte",
        LineReason::Long => b"long",
        LineReason::Form => b"form",
        LineReason::Number => b"number",
        LineReason::Bytes => b"bytes",
        LineReason::Order => b"order",
        LineReason::Domain => b"domain",
        LineReason::Link => b"link",
        LineReason::Label => b"label",
        LineReason::Sound => b"sound",
    }
}

/// Returns the word for the reason why a line of the text of a relay or of numbered calls is refused.
pub fn input_reason_word(reason: InputReason) -> &'static [u8]
    ensures { result.now ≡ input_reason_text reason }
{
    match reason {
        InputReason::Form => b"form",
        InputReason::Number => b"number",
        InputReason::Many => b"many",
        InputReason::Bytes => b"bytes",
    }
}

//! The line of a wrong input: where it is wrong, and why.

ghost use Rattle.std.specs.Prelude.{◌≤◌, ℕ, length, IsOk, OnErr};
ghost use Rattle.outer_io.specs.Faults.{HasCause};
ghost use Rattle.outer_io.specs.Writes.{Writes, WritesStop};
ghost use Rattle.scenario_cli.specs.WrongText.{wrong_line};

use crate::place_line::write_place_line;
use outer_io::{Failed, Sink};

/// Writes the line of what is wrong at a place.
///
/// # Errors
///
/// `Failed` where a write failed.
pub fn write_wrong<K: Sink>(place: usize, reason: &[u8], sink: &mut K) -> Result<(), Failed>
    ensures bytes { Writes (K.written sink.old) (K.written sink.new) result (wrong_line place reason.now) }
    ensures cause { HasCause (K.faults sink.old) (K.faults sink.new) result }
    ensures room { (n : ℕ) → K.takes sink.old n → length (wrong_line place reason.now) ≤ n → IsOk result }
    ensures few_writes_at_err { OnErr result (WritesStop (K.written sink.old) (K.written sink.new) (K.calls sink.old) (K.calls sink.new) (wrong_line place reason.now)) }
{
    write_place_line(b"wrong", place as u64, reason, sink)
}

//! The line that says where an input is not what it is to be, and why.

ghost use Rattle.std.specs.Prelude.{◌≤◌, ℕ, length, IsOk, OnErr};
ghost use Rattle.outer_io.specs.Faults.{HasCause};
ghost use Rattle.outer_io.specs.Puts.{Puts};
ghost use Rattle.outer_io.specs.Writes.{Writes, WritesStop};
ghost use Rattle.scenario_cli.specs.PlaceText.{place_line};

use outer_io::{Failed, Sink, Writer};

/// Writes a word, a place and a reason as one line.
///
/// # Errors
///
/// `Failed` where a write failed.
pub fn write_place_line<K: Sink>(
    word: &[u8],
    place: u64,
    reason: &[u8],
    sink: &mut K,
) -> Result<(), Failed>
    ensures bytes { Writes (K.written sink.old) (K.written sink.new) result (place_line word.now place reason.now) }
    ensures cause { HasCause (K.faults sink.old) (K.faults sink.new) result }
    ensures room { (n : ℕ) → K.takes sink.old n → length (place_line word.now place reason.now) ≤ n → IsOk result }
    ensures few_writes_at_err { OnErr result (WritesStop (K.written sink.old) (K.written sink.new) (K.calls sink.old) (K.calls sink.new) (place_line word.now place reason.now)) }
{
    let mut out = Writer::new(sink);
    put_place_line(&mut out, word, place, reason);
    out.finish()
}

fn put_place_line<K: Sink>(out: &mut Writer<'_, K>, word: &[u8], place: u64, reason: &[u8])
    ensures { Puts K.Sink out.old out.new (place_line word.now place reason.now) }
{
    out.put(word);
    out.put(b" ");
    out.put_number(place);
    out.put(b" ");
    out.put(reason);
    out.put(b"\n");
}

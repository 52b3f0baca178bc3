//! What became of expectations, written in the form of TAP, the Test Anything Protocol.

ghost use Rattle.std.specs.Prelude.{◌≡◌};
ghost use Rattle.std.specs.List.{flat_map};
ghost use Rattle.outer_io.specs.Faults.{HasCause};
ghost use Rattle.outer_io.specs.Puts.{Puts};
ghost use Rattle.outer_io.specs.Writes.{Writes};
ghost use Rattle.view_expect.specs.Outcomes.{are_met as all_met, difference, ok_word as word_ok, outcome_line, outcome_text, plan, tap_text};

use crate::comparing::Outcome;
use outer_io::{Failed, Sink, Writer};

/// Whether all expectations are met.
pub fn are_met(outcomes: &[Outcome<'_>]) -> bool
    ensures { result ≡ all_met outcomes.now }
{
    outcomes.iter().all(|outcome| outcome.is_met)
}

fn ok_word(is_met: bool) -> &'static [u8]
    ensures { result.now ≡ word_ok is_met }
{
    if is_met { b"ok " } else { b"not ok " }
}

/// Puts the line of an outcome.
fn put_line<K: Sink>(out: &mut Writer<'_, K>, outcome: &Outcome<'_>)
    ensures { Puts K.Sink out.old out.new (outcome_line outcome.now) }
{
    out.put(ok_word(outcome.is_met));
    out.put(b"- line ");
    out.put_number(outcome.expectation.line);
    out.put(b": ");
    out.put(outcome.expectation.call);
    out.put(b"\n");
}

/// Puts what is expected and what the report has in its place.
fn put_difference<K: Sink>(out: &mut Writer<'_, K>, outcome: &Outcome<'_>)
    ensures { Puts K.Sink out.old out.new (difference outcome.now) }
{
    out.put(b"  ---\n  expected: ");
    out.put(outcome.expectation.answer);
    out.put(b"\n  answer: ");
    out.put(outcome.answer);
    out.put(b"\n  ...\n");
}

fn put_outcome<K: Sink>(out: &mut Writer<'_, K>, outcome: &Outcome<'_>)
    ensures { Puts K.Sink out.old out.new (outcome_text outcome.now) }
{
    put_line(out, outcome);
    if !outcome.is_met {
        put_difference(out, outcome);
    }
}

fn put_outcomes<K: Sink>(out: &mut Writer<'_, K>, outcomes: &[Outcome<'_>])
    ensures { Puts K.Sink out.old out.new (flat_map outcome_text outcomes.now) }
{
    for outcome in outcomes {
        put_outcome(out, outcome);
    }
}

/// Puts how many outcomes follow.
fn put_plan<K: Sink>(out: &mut Writer<'_, K>, outcomes: &[Outcome<'_>])
    ensures { Puts K.Sink out.old out.new (plan outcomes.now) }
{
    out.put(b"1..");
    out.put_number(outcomes.len() as u64);
    out.put(b"\n");
}

fn put_all<K: Sink>(out: &mut Writer<'_, K>, outcomes: &[Outcome<'_>])
    ensures { Puts K.Sink out.old out.new (tap_text outcomes.now) }
{
    put_plan(out, outcomes);
    put_outcomes(out, outcomes);
}

/// Writes what became of expectations: how many there are, and for each whether it is met.
///
/// # Errors
///
/// `Failed` where a write failed.
pub fn write_outcomes<K: Sink>(outcomes: &[Outcome<'_>], output: &mut K) -> Result<(), Failed>
    ensures bytes { Writes (K.written output.old) (K.written output.new) result (tap_text outcomes.now) }
    ensures cause { HasCause (K.faults output.old) (K.faults output.new) result }
{
    let mut out = Writer::new(output);
    put_all(&mut out, outcomes);
    out.finish()
}

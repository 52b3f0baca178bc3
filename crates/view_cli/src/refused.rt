//! The form `refused`: the calls of a report that were refused, one a line.

ghost use Rattle.std.specs.Prelude.{◌≡◌, ◌≤◌, ◌++◌, ◌==◌, ℕ, List, IfOk, OnOk, if◌then◌else◌, length, map};
ghost use Rattle.std.specs.Io.KnownBytes.{Appends};
ghost use Rattle.std.specs.List.{flat_map};
ghost use Rattle.outer_io.specs.Faults.{HasCause};
ghost use Rattle.outer_io.specs.Puts.{Puts};
ghost use Rattle.outer_io.specs.Writes.{Writes};
ghost use Rattle.view_cli.specs.RefusedCalls.{ListsRefused, place_of, refused_by, refused_line, refused_of};
ghost use Rattle.view_cli.specs.Statuses.{Shows};

use crate::status::{self, after_write};
use mc_base::NoMemory;
use outer_io::{Failed, Sink, Writer};
use report_text::{Outline, next_line};
use report_view::{DomainView, ScriptLine, View, answer_in};
use std::alloc::Global;

/// A call that was refused: its line in the scenario, its domain, its number in the domain's script, and the word of its refusal.
#[derive(Clone, Copy)]
struct RefusedCall<'a> {
    line: ScriptLine<'a>,
    domain: u8,
    number: u32,
    word: &'a [u8],
}

/// Adds the call of a journal's line, which is at the front of a text, if it was refused.
fn add_call<'a>(
    calls: &mut Vec<RefusedCall<'a>>,
    domain: &DomainView<'a>,
    line: Outline,
    text: &'a [u8],
) -> Result<(), NoMemory>
    ensures { OnOk result (map place_of calls.new.items ≡ map place_of calls.old.items ++ refused_by domain.now.journal.domain line) }
{
    match line {
        Outline::Call { number, refused } => {
            if !refused {
                return Ok(());
            }
            let call = RefusedCall {
                line: domain.line_numbered(number),
                domain: domain.journal.domain,
                number,
                word: answer_in(text),
            };
            if calls.push(call).is_err() {
                return Err(NoMemory);
            }
            Ok(())
        }
        _ => Ok(()),
    }
}

/// Adds the calls of a domain that were refused, in their order.
fn add_refused<'a>(
    calls: &mut Vec<RefusedCall<'a>>,
    domain: &DomainView<'a>,
) -> Result<(), NoMemory>
    ensures { OnOk result (map place_of calls.new.items ≡ map place_of calls.old.items ++ refused_of domain.now) }
{
    let mut rest = domain.journal.text;
    while let Some((line, after)) = next_line(rest) {
        add_call(calls, domain, line, rest)?;
        rest = after;
    }
    Ok(())
}

/// Adds the calls of these domains that were refused, domain by domain.
fn add_all<'a>(calls: &mut Vec<RefusedCall<'a>>, domains: &[DomainView<'a>]) -> Result<(), NoMemory>
    ensures { OnOk result (map place_of calls.new.items ≡ map place_of calls.old.items ++ flat_map refused_of domains.now) }
{
    let [first, others @ ..] = domains else {
        return Ok(());
    };
    add_refused(calls, first)?;
    add_all(calls, others)
}

/// Returns the calls that were refused, domain by domain.
fn refused_calls<'a>(
    alloc: Global,
    domains: &[DomainView<'a>],
) -> Result<Vec<RefusedCall<'a>>, NoMemory>
    ensures { IfOk result (λ calls. map place_of calls.items ≡ flat_map refused_of domains.now) }
{
    let mut calls = Vec::new(alloc);
    add_all(&mut calls, domains)?;
    Ok(calls)
}

/// Puts the line of a call that was refused.
fn put_refused<K: Sink>(out: &mut Writer<'_, K>, call: &RefusedCall<'_>)
    ensures { Puts K.Sink out.old out.new (refused_line call.now) }
{
    out.put_number(call.line.number as u64);
    out.put(b" ");
    out.put_number(call.domain as u64);
    out.put(b" ");
    out.put_number(call.number as u64);
    out.put(b" ");
    out.put(call.line.text);
    out.put(b": ");
    out.put(call.word);
    out.put(b"\n");
}

fn put_all<K: Sink>(out: &mut Writer<'_, K>, calls: &[RefusedCall<'_>])
    ensures { Puts K.Sink out.old out.new (flat_map refused_line calls.now) }
{
    for call in calls {
        put_refused(out, call);
    }
}

/// Writes the calls that were refused.
///
/// # Errors
///
/// `Failed` where a write failed.
fn write_calls<K: Sink>(calls: &[RefusedCall<'_>], output: &mut K) -> Result<(), Failed>
    ensures bytes { Writes (K.written output.old) (K.written output.new) result (flat_map refused_line calls.now) }
    ensures cause { HasCause (K.faults output.old) (K.faults output.new) result }
{
    let mut out = Writer::new(output);
    put_all(&mut out, calls);
    out.finish()
}

/// The status, by whether there are any.
fn status_of(calls: &[RefusedCall<'_>]) -> u8
    ensures { result ≡ (if length calls.now == 0 then 0 else 1) }
{
    if calls.is_empty() {
        status::DONE
    } else {
        status::FOUND
    }
}

/// Writes the calls of a report that were refused. Returns the status: whether there are any.
pub fn tell_refused<K: Sink>(alloc: Global, view: &View<'_>, output: &mut K) -> u8
    ensures shows { Shows K.Sink result output.old output.new }
    ensures lists { result ≤ 3 → (text : List ℕ) × ListsRefused view.now.domains.items result text × Appends (K.written output.old) (K.written output.new) text }
{
    let Ok(calls) = refused_calls(alloc, &view.domains) else {
        return status::NO_MEMORY;
    };
    after_write(write_calls(&calls, output), status_of(&calls))
}

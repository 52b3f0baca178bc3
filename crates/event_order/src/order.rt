//! The one order of events.

ghost use Rattle.std.specs.Prelude.{◌≡◌, ◌⊎◌, ◌<◌, ℕ, IfErr, IfOk, IfSome, None, OnOk, Some, length, true};
ghost use Rattle.std.specs.List.Sorted.{IsPermutation};
ghost use Rattle.event_order.specs.Causes.{AreBacked, AreBackedFrom, IsUnbacked};
ghost use Rattle.event_order.specs.Orders.{LacksCause, StandsEarly, TellsLine};
ghost use Rattle.event_order.specs.OwnOrder.{AllRise, Falls, in_turn};
ghost use Rattle.event_order.specs.declared.causes.Cause.TheVariants.{Buffers, Frames};

use crate::causes::{Cause, Lane, first_unbacked};
use crate::event::Event;
use crate::fault::OrderFault;
use crate::own_order::{first_falling, first_out_of_turn};
use crate::schedule::steps_of;
use std::alloc::Global;

/// The step at which an event is due.
fn step_of(steps: &[u32], event: &Event) -> u32 {
    steps
        .get(event.number as usize)
        .copied()
        .unwrap_or(u32::MAX)
}

/// The earlier of two places.
fn earlier(one: Option<usize>, other: Option<usize>) -> Option<usize>
    ensures none { result ≡ None → (one ≡ None) × (other ≡ None) }
    ensures some { IfSome result (λ p. (one ≡ Some p) ⊎ (other ≡ Some p)) }
{
    match (one, other) {
        (Some(p), Some(q)) => Some(if p < q { p } else { q }),
        (Some(p), None) => Some(p),
        (None, found) => found,
    }
}

/// A place at which something is taken off a lane of this sender before it was added.
fn unbacked_from(cause: Cause, sender: u8, events: &[Event]) -> Option<usize>
    requires { sender < 8 }
    ensures none { result ≡ None → AreBackedFrom cause sender events.now }
    ensures some { IfSome result (λ p. (p < length events.now) × IsUnbacked cause events.now p) }
{
    let mut found = None;
    for receiver in 0..8 {
        let lane = Lane { sender, receiver };
        found = earlier(found, first_unbacked(cause, lane, events));
    }
    found
}

/// A place at which something is taken off a lane before it was added.
fn unbacked(cause: Cause, events: &[Event]) -> Option<usize>
    ensures none { result ≡ None → AreBacked cause events.now }
    ensures some { IfSome result (λ p. (p < length events.now) × IsUnbacked cause events.now p) }
{
    let mut found = None;
    for sender in 0..8 {
        found = earlier(found, unbacked_from(cause, sender, events));
    }
    found
}

/// A place at which the numbers of a domain's events do not rise.
fn falling(events: &[Event]) -> Option<usize>
    ensures none { result ≡ None → AllRise events.now }
    ensures some { IfSome result (λ p. (p < length events.now) × Falls events.now p) }
{
    let mut found = None;
    for domain in 0..8 {
        found = earlier(found, first_falling(domain, events));
    }
    found
}

/// The place of an event that stands before one on which it depends.
fn place_without_cause(events: &[Event], by_lines: bool) -> Option<usize>
    ensures own { result ≡ None → AllRise events.now }
    ensures frames { result ≡ None → AreBacked Frames events.now }
    ensures buffers { result ≡ None → AreBacked Buffers events.now }
    ensures lines { result ≡ None → by_lines ≡ true → in_turn 0 events.now ≡ true }
    ensures some { IfSome result (λ p. (p < length events.now) × StandsEarly by_lines events.now p) }
{
    let own = falling(events);
    let frames = unbacked(Cause::Frames, events);
    let buffers = unbacked(Cause::Buffers, events);
    let lines = if by_lines {
        first_out_of_turn(events)
    } else {
        None
    };
    earlier(earlier(own, lines), earlier(frames, buffers))
}

/// The line of an event that stands before one on which it depends.
fn line_without_cause(events: &[Event], by_lines: bool) -> Option<u32>
    ensures own { result ≡ None → AllRise events.now }
    ensures frames { result ≡ None → AreBacked Frames events.now }
    ensures buffers { result ≡ None → AreBacked Buffers events.now }
    ensures lines { result ≡ None → by_lines ≡ true → in_turn 0 events.now ≡ true }
    ensures some { IfSome result (LacksCause by_lines events.now) }
{
    let place = place_without_cause(events, by_lines)?;
    Some(events[place].line)
}

/// Orders the events of a report, which stand domain by domain, each domain's in their order, and are numbered by their places. Where
/// `by_lines` says so, as in a serial run, calls are answered in the scenario's order.
///
/// # Errors
///
/// `NoCause` where no such order is found, with the line of an event that stands before one on which it depends in the order in which they are
/// left. `NoMemory` where an allocation fails.
pub fn order_events(
    alloc: Global,
    events: &mut Vec<Event>,
    by_lines: bool,
) -> Result<(), OrderFault>
    ensures once { IsPermutation events.old.items events.new.items }
    ensures own { OnOk result (AllRise events.new.items) }
    ensures frames { OnOk result (AreBacked Frames events.new.items) }
    ensures buffers { OnOk result (AreBacked Buffers events.new.items) }
    ensures lines { OnOk result (by_lines ≡ true → in_turn 0 events.new.items ≡ true) }
    ensures no_cause { IfErr result (TellsLine by_lines events.new.items) }
{
    let steps = steps_of(alloc, events, by_lines)?;
    events.sort_unstable_by_key(|event| step_of(&steps, event));
    match line_without_cause(events, by_lines) {
        Some(line) => Err(OrderFault::NoCause { line }),
        None => Ok(()),
    }
}

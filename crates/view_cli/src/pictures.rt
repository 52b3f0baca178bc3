//! The forms `trace`, `lanes` and `sequence`: the pictures of a report.

ghost use Rattle.std.specs.Prelude.{◌≡◌, ◌≤◌, ◌<◌, List, IfOk, length, vec_len};
ghost use Rattle.report_events.specs.Events.{AreInOrder};
ghost use Rattle.report_text.specs.Texts.{longest_line as length_of_longest};
ghost use Rattle.report_view.specs.declared.view.DomainView.{DomainView};
ghost use Rattle.view_cli.specs.Drawn.{Draws, asked_of, behind_last, charted, first_place as place_of_first, sequenced, traced};
ghost use Rattle.view_cli.specs.Drawing.{WritesPicture};
ghost use Rattle.view_cli.specs.Statuses.{Shows};
ghost use Rattle.view_cli.specs.declared.asked.Asked.{Asked};

use crate::asked::Asked;
use crate::status::{self, after_write};
use crate::wrong::refuse;
use event_order::Event;
use mc_base::NoMemory;
use outer_io::{Failed, Sink, Writer};
use report_events::{EventFault, events_of};
use report_pictures::{LaneBuffers, Subject, put_lanes, put_trace};
use report_sequence::{Plan, plan_of, put_sequence};
use report_text::longest_line;
use report_view::View;
use std::alloc::Global;

/// How many events a sequence diagram shows where no last one is asked for.
const PAGE: u32 = 200;

/// The events of a report, its lanes at the opening, and room for each of its lines.
#[derive(Drop)]
struct Drawn {
    events: Vec<Event>,
    lanes: LaneBuffers,
    room: Vec<u8>,
}

/// Finds what pictures of a report are drawn from.
fn drawn_of(alloc: Global, report: &[u8], view: &View<'_>) -> Result<Drawn, EventFault>
    ensures order { IfOk result (λ d. AreInOrder view.now.domains.items d.events.items) }
    ensures room { IfOk result (λ d. length_of_longest report.now ≤ vec_len d.room) }
{
    let events = events_of(alloc, report, view)?;
    let lanes = LaneBuffers::new(alloc, &view.told.scenario)?;
    let Ok(room) = vec![in alloc; 0u8; longest_line(report)] else {
        return Err(EventFault::NoMemory);
    };
    Ok(Drawn {
        events,
        lanes,
        room,
    })
}

/// Writes a report as a trace.
///
/// # Errors
///
/// `Failed` where a write failed.
fn write_trace<K: Sink>(subject: Subject<'_>, room: &mut [u8], output: &mut K) -> Result<(), Failed>
    requires { length_of_longest subject.report.now ≤ length room.old }
    ensures { WritesPicture K.Sink traced subject.entry.events.now output.old output.new result }
{
    let mut out = Writer::new(output);
    put_trace(&mut out, subject, room);
    out.finish()
}

/// Writes a report as a chart of its lanes.
///
/// # Errors
///
/// `Failed` where a write failed.
fn write_lanes<K: Sink>(subject: Subject<'_>, output: &mut K) -> Result<(), Failed>
    ensures { WritesPicture K.Sink charted subject.entry.events.now output.old output.new result }
{
    let mut out = Writer::new(output);
    put_lanes(&mut out, subject);
    out.finish()
}

/// Writes a part of a report as a sequence diagram.
///
/// # Errors
///
/// `Failed` where a write failed.
fn write_sequence<K: Sink>(
    subject: Subject<'_>,
    plan: &Plan<'_>,
    room: &mut [u8],
    output: &mut K,
) -> Result<(), Failed>
    requires room { length_of_longest subject.report.now ≤ length room.old }
    ensures { (asked : Asked) → plan.now.events.now ≡ asked_of asked subject.entry.events.now → WritesPicture K.Sink (sequenced asked) subject.entry.events.now output.old output.new result }
{
    let mut out = Writer::new(output);
    put_sequence(&mut out, subject, plan, room);
    out.finish()
}

/// Writes a report as a trace. Returns the status.
pub fn tell_trace<K: Sink>(alloc: Global, report: &[u8], view: &View<'_>, output: &mut K) -> u8
    ensures shows { Shows K.Sink result output.old output.new }
    ensures draws { result ≡ 0 → Draws traced view.now.domains.items (K.written output.old) (K.written output.new) }
{
    match drawn_of(alloc, report, view) {
        Ok(drawn) => {
            let Drawn {
                events,
                lanes,
                mut room,
            } = drawn;
            let subject = Subject {
                report,
                view,
                events: &events,
                lanes: &lanes,
            };
            after_write(write_trace(subject, &mut room, output), status::DONE)
        }
        Err(fault) => refuse(fault, output),
    }
}

/// Writes a report as a chart of its lanes. Returns the status.
pub fn tell_lanes<K: Sink>(alloc: Global, report: &[u8], view: &View<'_>, output: &mut K) -> u8
    ensures shows { Shows K.Sink result output.old output.new }
    ensures draws { result ≡ 0 → Draws charted view.now.domains.items (K.written output.old) (K.written output.new) }
{
    match drawn_of(alloc, report, view) {
        Ok(drawn) => {
            let subject = Subject {
                report,
                view,
                events: &drawn.events,
                lanes: &drawn.lanes,
            };
            after_write(write_lanes(subject, output), status::DONE)
        }
        Err(fault) => refuse(fault, output),
    }
}

/// Writes the events of a report that are asked for as a sequence diagram. Returns the status.
pub fn tell_sequence<K: Sink>(
    alloc: Global,
    report: &[u8],
    view: &View<'_>,
    asked: Asked,
    output: &mut K,
) -> u8
    ensures shows { Shows K.Sink result output.old output.new }
    ensures draws { result ≡ 0 → Draws (sequenced asked) view.now.domains.items (K.written output.old) (K.written output.new) }
{
    match drawn_of(alloc, report, view) {
        Ok(drawn) => {
            let Drawn {
                events,
                lanes,
                mut room,
            } = drawn;
            let subject = Subject {
                report,
                view,
                events: &events,
                lanes: &lanes,
            };
            draw_sequence(alloc, subject, asked, &mut room, output)
        }
        Err(fault) => refuse(fault, output),
    }
}

/// The place of the first event that is asked for.
fn first_place(asked: Asked) -> u32
    ensures { result ≡ place_of_first asked.from }
{
    asked.from.unwrap_or(1).saturating_sub(1)
}

/// The place behind the last event that is asked for.
fn last_place(asked: Asked) -> u32
    ensures { result ≡ behind_last (place_of_first asked.from) asked.to }
{
    match asked.to {
        Some(number) => number,
        None => first_place(asked).saturating_add(PAGE),
    }
}

/// Writes the events that are asked for as a sequence diagram. Returns the status.
fn draw_sequence<K: Sink>(
    alloc: Global,
    subject: Subject<'_>,
    asked: Asked,
    room: &mut [u8],
    output: &mut K,
) -> u8
    requires room { length_of_longest subject.report.now ≤ length room.old }
    ensures shows { Shows K.Sink result output.old output.new }
    ensures draws { (ds : List DomainView) → AreInOrder ds subject.entry.events.now → result ≡ 0 → Draws (sequenced asked) ds (K.written output.old) (K.written output.new) }
{
    let (from, to) = (first_place(asked), last_place(asked));
    let Ok(plan) = plan_of(alloc, subject, from, to, room) else {
        return status::NO_MEMORY;
    };
    after_write(write_sequence(subject, &plan, room, output), status::DONE)
}

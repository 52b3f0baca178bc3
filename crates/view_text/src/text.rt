//! What domains did, written in words: domain by domain, or in one order.
#![tactic(auto, using(report_view::proofs::TextSteps::text_steps))]

ghost use Rattle.std.specs.Prelude.{◌≤◌, length, vec_len};
ghost use Rattle.std.specs.List.{AllByRecursion};
ghost use Rattle.report_view.specs.Rooms.{FitsIn};
ghost use Rattle.report_view.specs.Texts.{PutsText, WritesText};

use crate::course::{CallLines, Course, Progress};
use crate::filter::Filter;
use crate::missing::{Missing, put_missing};
use crate::place::{place_in, text_at};
use crate::told::ToldText;
use crate::words::put_entry;
use event_order::{Event, What};
use mc_journal::Entry;
use outer_io::{Failed, Sink, Writer};
use report_text::next_entry;
use report_view::{DomainView, View};

/// Which calls are put, how they are headed, and what is said of waits.
#[derive(Clone, Copy)]
struct Manner<'m> {
    filter: Filter,
    /// Each heading names its domain.
    named: bool,
    missing: Missing<'m>,
}

/// A line of a journal: its entry, and the text that begins with it.
#[derive(Clone, Copy)]
struct JournalLine<'e, 't> {
    entry: Entry<'e>,
    text: &'t [u8],
}

/// Puts the line of the script that lines are for.
fn put_heading<K: Sink>(
    out: &mut Writer<'_, K>,
    named: bool,
    domain: &DomainView<'_>,
    call: Option<u32>,
)
    ensures { PutsText K.Sink out.old out.new }
{
    if named {
        out.put(b"domain ");
        out.put_number(u64::from(domain.journal.domain));
        out.put(b", ");
    }
    put_call(out, domain, call);
}

fn put_call<K: Sink>(out: &mut Writer<'_, K>, domain: &DomainView<'_>, call: Option<u32>)
    ensures { PutsText K.Sink out.old out.new }
{
    match call {
        Some(number) => {
            let line = domain.line_numbered(number);
            out.put_number(u64::from(line.number));
            out.put(b": ");
            out.put(line.text);
            out.put(b"\n");
        }
        None => out.put(b"behind the last line\n"),
    }
}

fn put_entry_line<K: Sink>(out: &mut Writer<'_, K>, entry: Entry<'_>, text: &[u8], brings: bool)
    ensures { PutsText K.Sink out.old out.new }
{
    out.put(b"    ");
    put_entry(out, &entry, text, brings);
    out.put(b"\n");
}

/// Puts how many turns the wait of a call made, and what was missing where it reached its limit. The answer is at a line of the report.
fn put_wait<K: Sink>(
    out: &mut Writer<'_, K>,
    missing: Missing<'_>,
    domain: &DomainView<'_>,
    lines: CallLines,
    turns: u64,
    line: u32,
)
    ensures { PutsText K.Sink out.old out.new }
{
    out.put(b"        turns of the wait: ");
    out.put_number(turns);
    out.put(b"\n");
    if !lines.refused {
        return;
    }
    if let Some(number) = lines.call {
        put_missing(out, missing, domain, domain.line_numbered(number), line);
    }
}

/// Puts the next line of a domain's journal, and behind an answer what is said of the wait.
fn put_line<K: Sink>(
    out: &mut Writer<'_, K>,
    missing: Missing<'_>,
    domain: &DomainView<'_>,
    course: Course,
    line: JournalLine<'_, '_>,
)
    ensures { PutsText K.Sink out.old out.new }
{
    put_entry_line(out, line.entry, line.text, course.lines.brings);
    if let Entry::Called { .. } = line.entry {
        if let Some(turns) = course.lines.turns {
            put_wait(out, missing, domain, course.lines, turns, course.line);
        }
    }
}

/// Puts the next line of a domain's journal, if its call is shown, below the line of the call unless that is the last one that was put.
fn put_shown<K: Sink>(
    out: &mut Writer<'_, K>,
    manner: Manner<'_>,
    headed: &mut Option<u32>,
    domain: &DomainView<'_>,
    course: Course,
    line: JournalLine<'_, '_>,
)
    ensures { PutsText K.Sink out.old out.new }
{
    if !course.lines.shown {
        return;
    }
    if *headed != Some(course.lines.first) {
        put_heading(out, manner.named, domain, course.lines.call);
        *headed = Some(course.lines.first);
    }
    put_line(out, manner.missing, domain, course, line);
}

/// Puts the lines of a domain's journal up to that of this number in the report.
fn put_up_to<K: Sink>(
    out: &mut Writer<'_, K>,
    manner: Manner<'_>,
    progress: &mut Progress,
    domain: &DomainView<'_>,
    line: u32,
    room: &mut [u8],
)
    requires { FitsIn (length room.old) domain.now }
    ensures { PutsText K.Sink out.old out.new }
{
    let journal = domain.journal.text;
    let mut course = progress.of(domain.journal.domain);
    let mut rest = text_at(journal, course.place);
    while course.line <= line {
        if course.lines.left == 0 {
            let scenario = manner.missing.scenario;
            let next = CallLines::next(scenario, manner.filter, domain, course.line, rest, room);
            let Some(lines) = next else {
                return;
            };
            course.lines = lines;
        }
        let Some((entry, after)) = next_entry(rest, room) else {
            return;
        };
        course.lines.pass(entry);
        let found = JournalLine { entry, text: rest };
        put_shown(out, manner, &mut progress.headed, domain, course, found);
        course.line = course.line.saturating_add(1);
        course.place = place_in(journal.len(), after.len());
        progress.keep(domain.journal.domain, course);
        rest = after;
    }
}

/// Puts what these domains did, one after the other.
fn put_domains<K: Sink>(
    out: &mut Writer<'_, K>,
    manner: Manner<'_>,
    progress: &mut Progress,
    domains: &[DomainView<'_>],
    room: &mut [u8],
)
    requires { AllByRecursion (FitsIn (length room.old)) domains.now }
    ensures { PutsText K.Sink out.old out.new }
{
    if let [first, others @ ..] = domains {
        let number = first.journal.domain;
        if manner.filter.shows_domain(number) {
            out.put(b"domain ");
            out.put_number(u64::from(number));
            out.put(b"\n");
            put_up_to(out, manner, progress, first, u32::MAX, room);
        }
        put_domains(out, manner, progress, others, room);
    }
}

/// Puts what is left of the journals of these domains.
fn put_rest<K: Sink>(
    out: &mut Writer<'_, K>,
    manner: Manner<'_>,
    progress: &mut Progress,
    domains: &[DomainView<'_>],
    room: &mut [u8],
)
    requires { AllByRecursion (FitsIn (length room.old)) domains.now }
    ensures { PutsText K.Sink out.old out.new }
{
    if let [first, others @ ..] = domains {
        put_up_to(out, manner, progress, first, u32::MAX, room);
        put_rest(out, manner, progress, others, room);
    }
}

/// Puts the lines up to an event, which is one of these domains'.
fn put_among<K: Sink>(
    out: &mut Writer<'_, K>,
    manner: Manner<'_>,
    progress: &mut Progress,
    domains: &[DomainView<'_>],
    event: &Event,
    room: &mut [u8],
)
    requires { AllByRecursion (FitsIn (length room.old)) domains.now }
    ensures { PutsText K.Sink out.old out.new }
{
    if let [first, others @ ..] = domains {
        if first.journal.domain == event.domain {
            put_up_to(out, manner, progress, first, event.line, room);
        } else {
            put_among(out, manner, progress, others, event, room);
        }
    }
}

/// Whether the lines of a domain are put up to an event. Buffers go on behind the other lines of their turn.
fn is_cut(event: &Event) -> bool {
    !matches!(event.what, What::Give { .. } | What::Back { .. })
}

/// Puts the journals of these domains in the order of events.
fn put_events<K: Sink>(
    out: &mut Writer<'_, K>,
    manner: Manner<'_>,
    progress: &mut Progress,
    domains: &[DomainView<'_>],
    events: &[Event],
    room: &mut [u8],
)
    requires { AllByRecursion (FitsIn (length room.old)) domains.now }
    ensures { PutsText K.Sink out.old out.new }
{
    for event in events {
        if is_cut(event) {
            put_among(out, manner, progress, domains, event, room);
        }
    }
    put_rest(out, manner, progress, domains, room);
}

/// Puts what the domains of a report did: in the order of its events, where it is shown in that, or else one after the other.
fn put_text<K: Sink>(out: &mut Writer<'_, K>, told: &mut ToldText, view: &View<'_>)
    requires { AllByRecursion (FitsIn (vec_len told.old.room)) view.now.domains.items }
    ensures { PutsText K.Sink out.old out.new }
{
    let manner = Manner {
        filter: told.filter,
        named: told.together.is_some(),
        missing: Missing {
            scenario: &view.told.scenario,
            standings: &told.standings,
            queued: &told.queued,
        },
    };
    let domains = view.domains.as_slice();
    let mut progress = Progress::new(domains);
    let room = told.room.as_mut_slice();
    match &told.together {
        Some(events) => put_events(out, manner, &mut progress, domains, events, room),
        None => put_domains(out, manner, &mut progress, domains, room),
    }
}

/// Writes what the domains of a report did, in words, for the calls that its filter shows: in the order of its events, where it is shown in that, or
/// else one after the other.
///
/// # Errors
///
/// `Failed` where a write failed.
pub fn write_text<K: Sink>(
    told: &mut ToldText,
    view: &View<'_>,
    output: &mut K,
) -> Result<(), Failed>
    requires { AllByRecursion (FitsIn (vec_len told.old.room)) view.now.domains.items }
    ensures { WritesText K.Sink output.old output.new result }
{
    let mut out = Writer::new(output);
    put_text(&mut out, told, view);
    out.finish()
}

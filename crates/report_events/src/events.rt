//! The events of a report, in one order in which causes come first.

ghost use Rattle.std.specs.Prelude.{◌≡◌, ◌≤◌, ◌++◌, ℕ, IfOk, OnOk, length};
ghost use Rattle.std.specs.List.{AllByRecursion, flat_map};
ghost use Rattle.board_model.proofs.StateEnds.{Ends};
ghost use Rattle.mc_journal.specs.Entry.{line_of_entry};
ghost use Rattle.report_text.specs.CountedLines.{counted_line};
ghost use Rattle.report_view.specs.Rooms.{FitsIn};
ghost use Rattle.report_events.specs.Events.{AreInOrder, domain_happenings, event_happenings, line_happenings, said_happenings, what_happenings};

use crate::fault::EventFault;
use crate::replay::Replay;
use board_model::{CallLine, DomainLine, Scenario};
use event_order::{Event, What, order_events};
use mc_base::NoMemory;
use mc_journal::{Answer, Entry};
use report_text::{Mode, next_entry};
use report_view::{DomainView, View, room_for};
use std::alloc::Global;

/// A domain whose journal is read, of a report of so many bytes.
#[derive(Clone, Copy)]
struct Reading<'s, 'd> {
    scenario: &'s Scenario,
    domain: &'d DomainView<'d>,
    size: usize,
}

/// Where an event stands: its domain, its line in the report, counted from 1, and where that line begins, in bytes.
#[derive(Clone, Copy)]
struct Place {
    domain: u8,
    line: u32,
    place: u32,
}

/// The call of an entry among those of the scenario, or the greatest number where there is none.
fn call_index(domain: &DomainView<'_>, number: u32) -> u32 {
    u32::try_from(domain.line_numbered(number).call).unwrap_or(u32::MAX)
}

/// What an entry says that a picture shows.
fn what_of(domain: &DomainView<'_>, entry: &Entry<'_>) -> Option<What>
    ensures { (d : ℕ) → said_happenings d result ≡ line_happenings d (counted_line (line_of_entry entry.now)) }
{
    match *entry {
        Entry::Put { peer, .. } => Some(What::Put { peer }),
        Entry::Take { peer, .. } => Some(What::Take { peer }),
        Entry::Back { peer, count } => Some(What::Back { peer, count }),
        Entry::WaitStart { number } => Some(What::Wait {
            call: call_index(domain, number),
        }),
        Entry::Again { .. } | Entry::Spin { .. } => Some(What::Again),
        Entry::Called { number, answer } => Some(What::Answer {
            call: call_index(domain, number),
            refused: matches!(answer, Answer::Refused(_)),
        }),
        _ => None,
    }
}

/// Adds an event.
fn add(events: &mut Vec<Event>, at: Place, what: What) -> Result<(), NoMemory>
    ensures { OnOk result (flat_map event_happenings events.new.items ≡ flat_map event_happenings events.old.items ++ what_happenings at.domain what) }
{
    let event = Event {
        domain: at.domain,
        what,
        number: u32::try_from(events.len()).unwrap_or(u32::MAX),
        line: at.line,
        place: at.place,
    };
    if events.push(event).is_err() {
        return Err(NoMemory);
    }
    Ok(())
}

/// Adds the event of what a line says, if it says something.
fn add_said(events: &mut Vec<Event>, at: Place, what: Option<What>) -> Result<(), NoMemory>
    ensures { OnOk result (flat_map event_happenings events.new.items ≡ flat_map event_happenings events.old.items ++ said_happenings at.domain what) }
{
    match what {
        Some(what) => add(events, at, what),
        None => Ok(()),
    }
}

/// Adds that a domain has given buffers back, to each peer so many more than before.
fn add_given(
    events: &mut Vec<Event>,
    at: Place,
    replay: &Replay<'_>,
    before: &[usize; 8],
) -> Result<(), NoMemory>
    ensures { OnOk result (flat_map event_happenings events.new.items ≡ flat_map event_happenings events.old.items) }
{
    for peer in 0..8 {
        let more = replay
            .given_to(peer)
            .saturating_sub(before[usize::from(peer)]);
        if more > 0 {
            let count = u32::try_from(more).unwrap_or(u32::MAX);
            add(events, at, What::Give { peer, count })?;
        }
    }
    Ok(())
}

/// How many buffers a domain has given back to each peer.
fn given_by(replay: &Replay<'_>) -> [usize; 8] {
    let mut given = [0; 8];
    for peer in 0..8 {
        given[peer] = replay.given_to(peer as u8);
    }
    given
}

impl<'s> Reading<'s, '_> {
    /// The call of an entry, as it stands in the scenario.
    fn call_of(&self, entry: &Entry<'_>) -> Option<&'s CallLine> {
        match *entry {
            Entry::Called { number, .. } => self
                .scenario
                .calls
                .as_slice()
                .get(self.domain.line_numbered(number).call),
            _ => None,
        }
    }
}

/// Adds the event of an entry, if it is one that a picture shows, and what the domain gives back by it.
fn add_entry<'s>(
    alloc: Global,
    events: &mut Vec<Event>,
    replay: &mut Replay<'s>,
    reading: Reading<'s, '_>,
    at: Place,
    entry: &Entry<'_>,
) -> Result<(), NoMemory>
    requires { Ends replay.old.state }
    ensures state { OnOk result (Ends replay.new.state) }
    ensures all { OnOk result (flat_map event_happenings events.new.items ≡ flat_map event_happenings events.old.items ++ line_happenings at.domain (counted_line (line_of_entry entry.now))) }
{
    add_said(events, at, what_of(reading.domain, entry))?;
    let before = given_by(replay);
    replay.follow(alloc, entry, reading.call_of(entry))?;
    add_given(events, at, replay, &before)
}

/// Adds the events of a journal.
fn add_journal<'s>(
    alloc: Global,
    events: &mut Vec<Event>,
    replay: &mut Replay<'s>,
    reading: Reading<'s, '_>,
    room: &mut [u8],
) -> Result<(), NoMemory>
    requires state { Ends replay.old.state }
    requires room { FitsIn (length room.old) reading.domain.now }
    ensures { OnOk result (flat_map event_happenings events.new.items ≡ flat_map event_happenings events.old.items ++ domain_happenings reading.entry.domain.now) }
{
    let journal = reading.domain.journal;
    let mut line = journal.number;
    let mut rest = journal.text;
    while let Some((entry, after)) = next_entry(rest, room) {
        let place = reading.size.saturating_sub(rest.len());
        let at = Place {
            domain: journal.domain,
            line,
            place: u32::try_from(place).unwrap_or(u32::MAX),
        };
        add_entry(alloc, events, replay, reading, at, &entry)?;
        line = line.saturating_add(1);
        rest = after;
    }
    Ok(())
}

/// The line of a domain in the scenario.
fn domain_line(scenario: &Scenario, domain: u8) -> DomainLine {
    for line in scenario.domains.as_slice() {
        if line.domain == domain {
            return *line;
        }
    }
    DomainLine {
        domain,
        nodes: 0,
        pool: 0,
    }
}

/// Adds the events of these domains, of a report of so many bytes.
fn add_domains(
    alloc: Global,
    events: &mut Vec<Event>,
    scenario: &Scenario,
    domains: &[DomainView<'_>],
    size: usize,
    room: &mut [u8],
) -> Result<(), NoMemory>
    requires { AllByRecursion (FitsIn (length room.old)) domains.now }
    ensures { OnOk result (flat_map event_happenings events.new.items ≡ flat_map event_happenings events.old.items ++ flat_map domain_happenings domains.now) }
{
    let [domain, others @ ..] = domains else {
        return Ok(());
    };
    let line = domain_line(scenario, domain.journal.domain);
    let mut replay = Replay::open(alloc, scenario, line)?;
    let reading = Reading {
        scenario,
        domain,
        size,
    };
    add_journal(alloc, events, &mut replay, reading, room)?;
    add_domains(alloc, events, scenario, others, size, room)
}

/// Lists the events of a report, domain by domain.
fn events_listed(alloc: Global, report: &[u8], view: &View<'_>) -> Result<Vec<Event>, NoMemory>
    ensures { IfOk result (λ es. flat_map event_happenings es.items ≡ flat_map domain_happenings view.now.domains.items) }
{
    let mut room = room_for(alloc, &view.domains)?;
    let mut events = Vec::new(alloc);
    add_domains(
        alloc,
        &mut events,
        &view.told.scenario,
        &view.domains,
        report.len(),
        &mut room,
    )?;
    Ok(events)
}

/// Returns the events of a report in one order, in which causes come first. A serial report is ordered by the lines of its scenario too. It takes 24
/// bytes for each event, and as much as the domains hold.
///
/// # Errors
///
/// `NoCause` where a frame is taken that was not put, or a buffer came back that was not given back. `NoMemory` where an allocation fails.
pub fn events_of(alloc: Global, report: &[u8], view: &View<'_>) -> Result<Vec<Event>, EventFault>
    ensures { IfOk result (λ es. AreInOrder view.now.domains.items es.items) }
{
    let mut events = events_listed(alloc, report, view)?;
    order_events(alloc, &mut events, matches!(view.told.mode, Mode::Serial))?;
    Ok(events)
}

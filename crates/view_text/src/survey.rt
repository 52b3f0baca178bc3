//! Where waits of a report reached their limits, and what was queued there.

ghost use Rattle.std.specs.Prelude.{◌≤◌, length};
ghost use Rattle.std.specs.List.{AllByRecursion};
ghost use Rattle.report_text.specs.Texts.{longest_line};
ghost use Rattle.report_view.specs.Rooms.{FitsIn};

use crate::queues::{Queue, note_call, note_take};
use board_model::Scenario;
use mc_base::NoMemory;
use mc_journal::{Answer, Entry};
use report_text::next_entry;
use report_view::DomainView;
use std::alloc::Global;

/// What is queued at an endpoint of a domain where a wait reaches its limit.
#[derive(Clone, Copy, Debug)]
pub struct Queued {
    /// The line of the report with the answer of the wait, counted from 1.
    pub line: u32,
    pub queue: Queue,
}

/// The waits of a report that reached their limits, in the order of its lines.
#[derive(Drop)]
pub struct Limits {
    /// The lines of the report with their answers, counted from 1.
    pub lines: Vec<u32>,
    pub queued: Vec<Queued>,
}

/// What the journal of a domain has shown so far: what is queued at its endpoints, and whether the call that it is at waits.
#[derive(Drop)]
struct Seen {
    queues: Vec<Queue>,
    waits: bool,
}

impl Limits {
    /// Notes that a wait reached its limit at a line, where this was queued.
    fn note(&mut self, line: u32, queues: &[Queue]) -> Result<(), NoMemory> {
        if self.lines.push(line).is_err() {
            return Err(NoMemory);
        }
        for queue in queues {
            let queued = Queued {
                line,
                queue: *queue,
            };
            if queue.count > 0 && self.queued.push(queued).is_err() {
                return Err(NoMemory);
            }
        }
        Ok(())
    }
}

/// Notes the answer of a call in a domain's queues.
fn note_answer(
    queues: &mut Vec<Queue>,
    scenario: &Scenario,
    domain: &DomainView<'_>,
    number: u32,
    answer: &Answer<'_>,
) -> Result<(), NoMemory> {
    let call = domain.line_numbered(number).call;
    match scenario.calls.as_slice().get(call) {
        Some(line) => note_call(queues, line, answer),
        None => Ok(()),
    }
}

/// Notes what a line of a domain's journal says.
fn note_entry(
    limits: &mut Limits,
    seen: &mut Seen,
    scenario: &Scenario,
    domain: &DomainView<'_>,
    line: u32,
    entry: Entry<'_>,
) -> Result<(), NoMemory> {
    note_take(&mut seen.queues, entry);
    match entry {
        Entry::WaitStart { .. } => seen.waits = true,
        Entry::Called { number, answer } => {
            note_answer(&mut seen.queues, scenario, domain, number, &answer)?;
            if seen.waits && matches!(answer, Answer::Refused(_)) {
                limits.note(line, &seen.queues)?;
            }
            seen.waits = false;
        }
        _ => (),
    }
    Ok(())
}

/// Adds the waits of a domain.
fn add_domain(
    alloc: Global,
    limits: &mut Limits,
    scenario: &Scenario,
    domain: &DomainView<'_>,
    room: &mut [u8],
) -> Result<(), NoMemory>
    requires { FitsIn (length room.old) domain.now }
{
    let mut seen = Seen {
        queues: Vec::new(alloc),
        waits: false,
    };
    let mut line = domain.journal.number;
    let mut rest = domain.journal.text;
    while let Some((entry, after)) = next_entry(rest, room) {
        note_entry(limits, &mut seen, scenario, domain, line, entry)?;
        line = line.saturating_add(1);
        rest = after;
    }
    Ok(())
}

/// Adds the waits of these domains.
fn add_domains(
    alloc: Global,
    limits: &mut Limits,
    scenario: &Scenario,
    domains: &[DomainView<'_>],
    room: &mut [u8],
) -> Result<(), NoMemory>
    requires { AllByRecursion (FitsIn (length room.old)) domains.now }
{
    let [first, others @ ..] = domains else {
        return Ok(());
    };
    add_domain(alloc, limits, scenario, first, room)?;
    add_domains(alloc, limits, scenario, others, room)
}

/// Finds the waits of these domains that reached their limits.
pub fn find_limits(
    alloc: Global,
    scenario: &Scenario,
    domains: &[DomainView<'_>],
    room: &mut [u8],
) -> Result<Limits, NoMemory>
    requires { AllByRecursion (FitsIn (length room.old)) domains.now }
{
    let mut limits = Limits {
        lines: Vec::new(alloc),
        queued: Vec::new(alloc),
    };
    add_domains(alloc, &mut limits, scenario, domains, room)?;
    Ok(limits)
}

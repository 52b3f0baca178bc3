//! What was missing where a wait reached its limit.
#![tactic(auto, using(report_view::proofs::TextSteps::text_steps))]

ghost use Rattle.report_view.specs.Texts.{PutsText};

use crate::standing::{Standing, standing_at};
use crate::survey::Queued;
use board_model::{Call, CallLine, Scenario};
use outer_io::{Sink, Writer};
use report_view::{DomainView, ScriptLine};

/// How far the domains of a report were where waits reached their limits, and what was queued there.
#[derive(Clone, Copy)]
pub struct Missing<'m> {
    pub scenario: &'m Scenario,
    pub standings: &'m [Standing],
    pub queued: &'m [Queued],
}

/// Whether two domains have a lane to each other.
fn are_joined(scenario: &Scenario, one: u8, other: u8) -> bool {
    one == other
        || scenario.links.as_slice().iter().any(|link| {
            (link.driver == one && link.device == other)
                || (link.driver == other && link.device == one)
        })
}

/// Whether a wait waits for the request of a line.
fn waits_for(wait: &Call, line: &CallLine) -> bool {
    let Some(label) = &line.label else {
        return false;
    };
    match wait {
        Call::Wait { label: asked, .. } => asked.as_slice() == label.as_slice(),
        Call::WaitAny { labels, .. } => labels
            .as_slice()
            .iter()
            .any(|asked| asked.as_slice() == label.as_slice()),
        _ => false,
    }
}

/// Puts what was missing at the end of a wait, which is a line of a domain and has its answer at a line of the report: the requests that it waited for, how many frames had come from each
/// peer and were on their way, what was queued at endpoints of the domain, and how many calls each peer had made.
pub fn put_missing<K: Sink>(
    out: &mut Writer<'_, K>,
    missing: Missing<'_>,
    domain: &DomainView<'_>,
    wait: ScriptLine<'_>,
    line: u32,
)
    ensures { PutsText K.Sink out.old out.new }
{
    put_requests(out, missing.scenario, domain, wait);
    if let Some(standing) = standing_at(missing.standings, line) {
        put_peers(out, missing.scenario, domain.journal.domain, &standing);
    }
    put_queued(out, missing.queued, line);
}

/// Puts how far the peers of a domain were.
fn put_peers<K: Sink>(out: &mut Writer<'_, K>, scenario: &Scenario, domain: u8, standing: &Standing)
    ensures { PutsText K.Sink out.old out.new }
{
    for peer in 0..8 {
        if are_joined(scenario, domain, peer) {
            put_lane(out, peer, standing);
            if peer != domain {
                put_made(out, peer, calls_of(scenario, peer), standing);
            }
        }
    }
}

/// Puts the lines whose requests a wait waits for.
fn put_requests<K: Sink>(
    out: &mut Writer<'_, K>,
    scenario: &Scenario,
    domain: &DomainView<'_>,
    wait: ScriptLine<'_>,
)
    ensures { PutsText K.Sink out.old out.new }
{
    let Some(asking) = scenario.calls.as_slice().get(wait.call) else {
        return;
    };
    for line in &domain.script {
        if let Some(asked) = scenario.calls.as_slice().get(line.call) {
            if waits_for(&asking.call, asked) {
                put_request(out, line);
            }
        }
    }
}

fn put_request<K: Sink>(out: &mut Writer<'_, K>, line: &ScriptLine<'_>)
    ensures { PutsText K.Sink out.old out.new }
{
    out.put(b"        waited for line ");
    out.put_number(u64::from(line.number));
    out.put(b": ");
    out.put(line.text);
    out.put(b"\n");
}

/// Puts how many frames of a peer had been taken, and how many were on their way.
fn put_lane<K: Sink>(out: &mut Writer<'_, K>, peer: u8, standing: &Standing)
    ensures { PutsText K.Sink out.old out.new }
{
    let place = usize::from(peer % 8);
    out.put(b"        frames from ");
    out.put_number(u64::from(peer));
    out.put(b": ");
    out.put_number(u64::from(standing.taken[place]));
    out.put(b" taken, ");
    out.put_number(u64::from(standing.on_way[place]));
    out.put(b" on the way\n");
}

/// How many calls a domain has in its script.
fn calls_of(scenario: &Scenario, domain: u8) -> usize {
    scenario
        .calls
        .as_slice()
        .iter()
        .filter(|line| line.domain == domain)
        .count()
}

/// Puts how many of its calls a domain had made.
fn put_made<K: Sink>(out: &mut Writer<'_, K>, domain: u8, calls: usize, standing: &Standing)
    ensures { PutsText K.Sink out.old out.new }
{
    out.put(b"        calls that domain ");
    out.put_number(u64::from(domain));
    out.put(b" had made: ");
    out.put_number(u64::from(standing.made[usize::from(domain % 8)]));
    out.put(b" of ");
    out.put_number(calls as u64);
    out.put(b"\n");
}

/// Puts what was queued at the endpoints of a domain where the answer of a wait is at a line of the report.
fn put_queued<K: Sink>(out: &mut Writer<'_, K>, queued: &[Queued], line: u32)
    ensures { PutsText K.Sink out.old out.new }
{
    let first = queued.partition_point(|found| found.line < line);
    let (_, mut rest) = queued.split_at(queued.len().min(first));
    while let [found, after @ ..] = rest {
        if found.line != line {
            return;
        }
        put_queue(out, found);
        rest = after;
    }
}

fn put_queue<K: Sink>(out: &mut Writer<'_, K>, found: &Queued)
    ensures { PutsText K.Sink out.old out.new }
{
    out.put(b"        queued at port ");
    out.put_number(u64::from(found.queue.port));
    out.put(b" of node ");
    out.put_number(u64::from(found.queue.node));
    out.put(b": ");
    out.put_number(u64::from(found.queue.count));
    out.put(b"\n");
}

//! Domains on threads.

ghost use Rattle.std.specs.Prelude.{◌≡◌, ◌<◌, ℕ, IfOk, Ok, length, map, slice_index_or};
ghost use Rattle.std.specs.List.{AllByRecursion};
ghost use Rattle.board_model.specs.Language.{IsLawfulBoard};
ghost use Rattle.board_runner.specs.Apart.{RanApart, RanOver};
ghost use Rattle.board_runner.specs.Jobs.{AreJobs, MayRun, RunsJob, RunScripts};
ghost use Rattle.board_runner.specs.Outcome.{lines_in};
ghost use Rattle.board_runner.specs.OwnRun.{HasNotBegun};
ghost use Rattle.board_runner.specs.ThreadRun.{IsThreadRun};
ghost use Rattle.board_runner.specs.Wired.{IsWired};

use crate::Outcome;
use crate::bells::{bells_of, hang_bells};
use crate::ended::{Remains, take_apart};
use crate::finishing::finish_rings;
use crate::gate::Gate;
use crate::opening::open_stations;
use crate::owned::{Owned, take_owned};
use crate::rings::{LinkRings, rings_of};
use crate::script::run_script;
use crate::station::Station;
use crate::wires::{Wire, wires_of};
use board_model::Scenario;
use board_numbers::{append, places_of, totals_of};
use mc_base::NoMemory;
use station_ends::{Pace, Polls};
use std::alloc::{AllocError, Global};
use std::sync::Wait;
use std::thread;
use std::thread::Threads;

/// A station with the scenario whose lines it runs, and its pace. Without one it polls.
#[derive(Drop)]
struct Job<'a, P> {
    scenario: &'a Scenario,
    station: Station<'a>,
    pace: Option<P>,
}

/// Runs a scenario with a thread for each domain, joins them, and returns what the run left (docs/PROFILE.md, "Runs on threads").
///
/// Each domain runs its own lines, in their order and to the end, and calls the gate before each. The two domains of a link share
/// its two rings and nothing else. Nothing is promised of the order between lines of two domains, nor that two threads run at once.
/// The scenario has to be lawful, as for [`run_serial`](crate::run_serial).
///
/// # Errors
///
/// `NoMemory` where an allocation fails, in any of the domains. All threads are joined then.
pub fn run_threads<T: Threads + Sync, G: Gate + Sync>(
    rt: &T,
    alloc: Global,
    scenario: &Scenario,
    gate: &G,
) -> Result<Outcome, NoMemory>
    requires { IsLawfulBoard scenario.now }
    ensures { IfOk result (IsThreadRun scenario.now) }
{
    let links = scenario.links.as_slice();
    let (rings, halves) = rings_of(alloc, links)?;
    let wires = wires_of(alloc, links, rings.as_slice(), halves)?;
    let paces: Vec<Owned<Polls>> = Vec::new(alloc);
    let left = run_domains(rt, alloc, scenario, gate, wires, paces)?;
    outcome_left(alloc, scenario, rings, left)
}

/// Runs a scenario as [`run_threads`] does, but that a domain sleeps on a line without end: a wait whose limit is 4294967295, or a
/// line with `try 4294967295`. On such a line it makes its next turn or call once a peer has rung. Other lines poll, and so does a domain
/// without links.
///
/// It may never return where `run_threads` would poll on: a partner that ended its script, or ran out of memory, rings nobody any more,
/// and where no thread can be started the domains run one after the other. The scenario has to be lawful.
///
/// # Errors
///
/// `NoMemory` where an allocation fails, in any of the domains. All threads are joined then.
pub fn run_bells<T: Threads + Wait + Sync, G: Gate + Sync>(
    rt: &T,
    alloc: Global,
    scenario: &Scenario,
    gate: &G,
) -> Result<Outcome, NoMemory>
    requires { IsLawfulBoard scenario.now }
    ensures { IfOk result (IsThreadRun scenario.now) }
{
    let links = scenario.links.as_slice();
    let (bells, parts) = bells_of(alloc, scenario)?;
    let (rings, halves) = rings_of(alloc, links)?;
    let wires = wires_of(alloc, links, rings.as_slice(), halves)?;
    let (wires, paces) = hang_bells(alloc, rt, bells.as_slice(), parts, wires)?;
    let left = run_domains(rt, alloc, scenario, gate, wires, paces)?;
    outcome_left(alloc, scenario, rings, left)
}

/// Finishes the rings of a board whose domains ran over them, and makes the outcome of what is left.
pub(crate) fn outcome_left(
    alloc: Global,
    scenario: &Scenario,
    rings: Vec<LinkRings>,
    left: Remains,
) -> Result<Outcome, NoMemory>
    requires lawful { IsLawfulBoard scenario.now }
    requires ran { RanOver scenario.now rings.items left }
    ensures run { IfOk result (IsThreadRun scenario.now) }
    ensures journals { IfOk result (λ o. lines_in o.journals ≡ lines_in left.journals) }
{
    let closed = finish_rings(alloc, scenario.links.as_slice(), rings, left.links)?;
    let tallies = left.tallies.as_slice();
    let places = places_of(alloc, scenario, tallies)?;
    let messages = totals_of(scenario, tallies);
    Ok(Outcome {
        journals: left.journals,
        rings: closed,
        places,
        channels: left.channels,
        messages,
    })
}

/// Runs the domains of a lawful board over these ends of its links, each on a thread of its own, and takes them apart. Those that own a
/// pace go at it, and the others poll.
fn run_domains<'a, T: Threads + Sync, G: Gate + Sync, P: Pace + Drop + Send>(
    rt: &T,
    alloc: Global,
    scenario: &'a Scenario,
    gate: &G,
    wires: Vec<Wire<'a>>,
    paces: Vec<Owned<P>>,
) -> Result<Remains, NoMemory>
    requires lawful { IsLawfulBoard scenario.now }
    requires wired { IsWired scenario.now wires.items }
    ensures { IfOk result (RanApart scenario.now wires.entry.items) }
{
    let stations = open_stations(alloc, scenario, wires)?;
    let ran = run_stations(rt, alloc, scenario, gate, stations, paces)?;
    take_apart(alloc, scenario, ran)
}

/// Runs the script of each station on a thread of its own, and returns the stations in their order once all have ended.
///
/// # Errors
///
/// `NoMemory`, at any time.
fn run_stations<'a, T: Threads + Sync, G: Gate + Sync, P: Pace + Drop + Send>(
    rt: &T,
    alloc: Global,
    scenario: &'a Scenario,
    gate: &G,
    stations: Vec<Station<'a>>,
    paces: Vec<Owned<P>>,
) -> Result<Vec<Station<'a>>, NoMemory>
    requires lawful { IsLawfulBoard scenario.now }
    requires begin { AllByRecursion HasNotBegun stations.items }
    ensures { IfOk result (λ v. RunScripts scenario.now stations.entry.items v.items) }
{
    let jobs = jobs_for(alloc, scenario, stations, paces)?;
    let Ok(results) = run_jobs(rt, alloc, gate, jobs) else {
        return Err(NoMemory);
    };
    all_of(alloc, results)
}

/// A job for each station, with the pace that its domain owns.
fn jobs_for<'a, P: Drop>(
    alloc: Global,
    scenario: &'a Scenario,
    stations: Vec<Station<'a>>,
    mut paces: Vec<Owned<P>>,
) -> Result<Vec<Job<'a, P>>, NoMemory>
    ensures { IfOk result (λ v. AreJobs scenario.now stations.entry.items v.items) }
{
    let mut jobs = Vec::new(alloc);
    for station in stations {
        let owner = station.domain_number;
        let pace = take_owned(&mut paces, owner);
        append(
            &mut jobs,
            Job {
                scenario,
                station,
                pace,
            },
        )?;
    }
    Ok(jobs)
}

/// Runs each job on a thread of its own.
fn run_jobs<'a, T: Threads + Sync, G: Gate + Sync, P: Pace + Drop + Send>(
    rt: &T,
    alloc: Global,
    gate: &G,
    jobs: Vec<Job<'a, P>>,
) -> Result<Vec<Result<Station<'a>, NoMemory>>, AllocError>
    requires { (i : ℕ) (j : _) → i < length jobs.items → j ≡ slice_index_or jobs.items i j → MayRun j }
    ensures len { IfOk result (λ v. length v.items ≡ length jobs.entry.items) }
    ensures ran { IfOk result (λ v. (i : ℕ) (j d : _) → i < length jobs.entry.items → j ≡ slice_index_or jobs.entry.items i j → IfOk (slice_index_or v.items i d) (RunsJob j)) }
{
    thread::map_vec(
        rt,
        jobs,
        &|job: Job<'_, P>| -> Result<Station<'_>, NoMemory>
            requires { MayRun job }
            ensures { IfOk result (RunsJob job.entry) }
        { run_script(alloc, job.scenario, gate, job.station, job.pace) },
    )
}

/// The stations of results that are all `Ok`.
fn all_of<'a>(
    alloc: Global,
    results: Vec<Result<Station<'a>, NoMemory>>,
) -> Result<Vec<Station<'a>>, NoMemory>
    ensures { IfOk result (λ v. results.entry.items ≡ map Ok v.items) }
{
    let mut stations = Vec::new(alloc);
    for result in results {
        append(&mut stations, result?)?;
    }
    Ok(stations)
}

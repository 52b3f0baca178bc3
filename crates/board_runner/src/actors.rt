//! Actors on threads.

ghost use Rattle.std.specs.Prelude.{◌≡◌, ◌<◌, ◌++◌, ◌∷◌, ℕ, [], IfOk, OnOk, Ok, length, map, slice_index_or};
ghost use Rattle.board_runner.specs.Acting.{AllActed, AllMayStart, AreLeft, HasActed, MayStart, lines_acted};
ghost use Rattle.board_runner.specs.ActorJobs.{AreActorJobs};
ghost use Rattle.board_runner.specs.ActorLogs.{with_calls};
ghost use Rattle.board_runner.specs.ActorRun.{HaveActed, MayAct};
ghost use Rattle.board_runner.specs.Wired.{IsWired};

use crate::Outcome;
use crate::acting::{Acted, run_actor};
use crate::actor::Actor;
use crate::ended::{Remains, take_apart};
use crate::opening::open_stations;
use crate::rings::rings_of;
use crate::station::Station;
use crate::threads::outcome_left;
use crate::wires::{Wire, wires_of};
use board_model::{CallLine, Scenario, Seq};
use board_numbers::{add, append};
use mc_base::NoMemory;
use std::alloc::{AllocError, Global};
use std::thread;
use std::thread::Threads;

/// An actor with the station of its domain.
#[derive(Drop)]
struct ActorJob<'a, A> {
    actor: A,
    station: Station<'a>,
}

/// What is left of actors and their stations: the scenario that they made, what the domains left, and the actors.
#[derive(Drop)]
pub struct ActorsLeft<A> {
    pub scenario: Scenario,
    pub remains: Remains,
    pub actors: Vec<A>,
}

/// Runs a board whose lines come from actors, one for each domain, each on a thread of its own. Returns the scenario that they made, the
/// outcome of its run, and the actors.
///
/// The board has to be lawful and has no call line. There is one actor for each domain, in rising number, and their lines have to be fewer
/// than 2^32 in all. The scenario has the board's lines and then the lines of its domains in rising number; each domain ran them in their
/// order, as in [`run_threads`](crate::run_threads).
///
/// # Errors
///
/// `NoMemory` where an allocation fails, in any of the domains or actors. All threads are joined then.
pub fn run_actors<T: Threads + Sync, A: Actor + Send>(
    rt: &T,
    alloc: Global,
    board: &Scenario,
    actors: Vec<A>,
) -> Result<(Scenario, Outcome, Vec<A>), NoMemory>
    requires { MayAct A.Actor board.now actors.items }
    ensures { IfOk result (λ r. HaveActed A.Actor board.now actors.items r.0 r.1 r.2.items) }
{
    let links = board.links.as_slice();
    let (rings, halves) = rings_of(alloc, links)?;
    let wires = wires_of(alloc, links, rings.as_slice(), halves)?;
    let left = act_domains(rt, alloc, board, wires, actors)?;
    let ActorsLeft {
        scenario,
        remains,
        actors,
    } = left;
    let outcome = outcome_left(alloc, &scenario, rings, remains)?;
    Ok((scenario, outcome, actors))
}

/// Runs the domains of a board over these ends of its links, each with its actor on a thread of its own, and takes them apart.
fn act_domains<'a, T: Threads + Sync, A: Actor + Send>(
    rt: &T,
    alloc: Global,
    board: &Scenario,
    wires: Vec<Wire<'a>>,
    actors: Vec<A>,
) -> Result<ActorsLeft<A>, NoMemory>
    requires may { MayAct A.Actor board.now actors.items }
    requires wired { IsWired board.now wires.items }
    ensures { IfOk result (AreLeft A.Actor board.now wires.entry.items actors.items) }
{
    let stations = open_stations(alloc, board, wires)?;
    let acted = act_all(rt, alloc, actors, stations)?;
    let (scenario, stations, actors) = gather(alloc, board, acted)?;
    let remains = take_apart(alloc, &scenario, stations)?;
    Ok(ActorsLeft {
        scenario,
        remains,
        actors,
    })
}

/// Runs each actor at its station on a thread of its own, and returns them in their order once all have ended.
fn act_all<'a, T: Threads + Sync, A: Actor + Send>(
    rt: &T,
    alloc: Global,
    actors: Vec<A>,
    stations: Vec<Station<'a>>,
) -> Result<Vec<Acted<'a, A>>, NoMemory>
    requires { AllMayStart A.Actor actors.items stations.items }
    ensures { IfOk result (λ v. AllActed A.Actor actors.items stations.entry.items v.items) }
{
    let jobs = actor_jobs(alloc, actors, stations)?;
    let Ok(results) = run_actor_jobs(rt, alloc, jobs) else {
        return Err(NoMemory);
    };
    all_acted(alloc, results)
}

/// A job for each actor and its station.
fn actor_jobs<'a, A: Drop>(
    alloc: Global,
    mut actors: Vec<A>,
    stations: Vec<Station<'a>>,
) -> Result<Vec<ActorJob<'a, A>>, NoMemory>
    requires { length actors.items ≡ length stations.items }
    ensures { IfOk result (λ v. AreActorJobs actors.items stations.entry.items v.items) }
{
    let mut jobs = Vec::new(alloc);
    for station in stations {
        let actor = take_first(&mut actors);
        append(&mut jobs, ActorJob { actor, station })?;
    }
    Ok(jobs)
}

/// Takes the first item out of a list.
fn take_first<T>(items: &mut Vec<T>) -> T
    requires { 0 < length items.old.items }
    ensures { items.old.items ≡ result ∷ items.new.items }
{
    items.remove(0)
}

/// Runs each job on a thread of its own.
fn run_actor_jobs<'a, T: Threads + Sync, A: Actor + Send>(
    rt: &T,
    alloc: Global,
    jobs: Vec<ActorJob<'a, A>>,
) -> Result<Vec<Result<Acted<'a, A>, NoMemory>>, AllocError>
    requires { (i : ℕ) (j : _) → i < length jobs.items → j ≡ slice_index_or jobs.items i j → MayStart A.Actor j.actor j.station }
    ensures len { IfOk result (λ v. length v.items ≡ length jobs.entry.items) }
    ensures acted { IfOk result (λ v. (i : ℕ) (j d : _) → i < length jobs.entry.items → j ≡ slice_index_or jobs.entry.items i j → IfOk (slice_index_or v.items i d) (HasActed A.Actor j.actor j.station)) }
{
    thread::map_vec(
        rt,
        jobs,
        &|job: ActorJob<'_, A>| -> Result<Acted<'_, A>, NoMemory>
            requires { MayStart A.Actor job.actor job.station }
            ensures { IfOk result (HasActed A.Actor job.entry.actor job.entry.station) }
        { run_actor(alloc, job.actor, job.station) },
    )
}

/// What is left of results that are all `Ok`.
fn all_acted<'a, A: Drop>(
    alloc: Global,
    results: Vec<Result<Acted<'a, A>, NoMemory>>,
) -> Result<Vec<Acted<'a, A>>, NoMemory>
    ensures { IfOk result (λ v. results.entry.items ≡ map Ok v.items) }
{
    let mut acted = Vec::new(alloc);
    for result in results {
        append(&mut acted, result?)?;
    }
    Ok(acted)
}

/// The scenario that actors made on a board, their stations, and the actors.
fn gather<'a, A: Drop>(
    alloc: Global,
    board: &Scenario,
    acted: Vec<Acted<'a, A>>,
) -> Result<(Scenario, Vec<Station<'a>>, Vec<A>), NoMemory>
    ensures scenario { IfOk result (λ r. r.0 ≡ with_calls board.now (lines_acted acted.entry.items)) }
    ensures stations { IfOk result (λ r. r.1.items ≡ map (λ left. left.station) acted.entry.items) }
    ensures actors { IfOk result (λ r. r.2.items ≡ map (λ left. left.actor) acted.entry.items) }
{
    let domains = copy_of(alloc, board.domains.as_slice())?;
    let links = copy_of(alloc, board.links.as_slice())?;
    let mut calls = Seq::new(Vec::new(alloc));
    let mut stations = Vec::new(alloc);
    let mut actors = Vec::new(alloc);
    for left in acted {
        let Acted {
            actor,
            station,
            lines,
        } = left;
        add_lines(&mut calls, lines)?;
        append(&mut stations, station)?;
        append(&mut actors, actor)?;
    }
    let scenario = Scenario {
        domains,
        links,
        calls,
    };
    Ok((scenario, stations, actors))
}

/// A copy of a list.
fn copy_of<T: Copy + Drop>(alloc: Global, items: &[T]) -> Result<Seq<T>, NoMemory>
    ensures { IfOk result (λ copy. copy ≡ items.now) }
{
    let mut copy = Seq::new(Vec::new(alloc));
    for item in items {
        add(&mut copy, *item)?;
    }
    Ok(copy)
}

/// Adds lines.
fn add_lines(calls: &mut Seq<CallLine>, lines: Vec<CallLine>) -> Result<(), NoMemory>
    ensures { OnOk result (calls.new ≡ calls.old ++ lines.items) }
{
    for line in lines {
        add(calls, line)?;
    }
    Ok(())
}

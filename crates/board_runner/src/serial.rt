//! The serial run.

ghost use Rattle.std.specs.Prelude.{◌≡◌, ◌<◌, [], ℕ, IfOk, OnOk, count_by, length, nat_lt, slice_index};
ghost use Rattle.mc_base.specs.Limits.{asked_limit};
ghost use Rattle.board_model.specs.Language.{IsLawfulBoard};
ghost use Rattle.board_model.specs.SerialRun.{opened, finished, serial_run};
ghost use Rattle.board_runner.specs.Outcome.{IsOutcome};
ghost use Rattle.board_runner.specs.Runs.{AllCarried};
ghost use Rattle.board_runner.specs.Stations.{IsRun};
ghost use Rattle.board_runner.specs.Wired.{IsWired};

use crate::Outcome;
use crate::ending::outcome_of;
use crate::line::run_line;
use crate::opening::open_stations;
use crate::rings::rings_of;
use crate::station::Station;
use crate::wires::{Wire, wires_of};
use board_model::{DomainLine, Scenario};
use mc_base::{MAX_ASKED, MAX_DOMAINS, NoMemory};
use std::alloc::Global;

/// Runs a scenario on one thread, in the order of its lines, and returns what the run left (docs/PROFILE.md, "Serial run").
///
/// Each look shows all frames and buffers that are there. Between two calls of a line with `try` every other domain makes one turn,
/// and in each round of a wait every domain does. The same scenario always has the same outcome. It has to be lawful: one that
/// some text spells, with fewer than 4,294,967,296 calls.
///
/// # Errors
///
/// `NoMemory` where an allocation fails: memory is taken for the board and for the journals, which grow with the run.
pub fn run_serial(alloc: Global, scenario: &Scenario) -> Result<Outcome, NoMemory>
    requires { IsLawfulBoard scenario.now }
    ensures told { IfOk result (λ o. IsOutcome scenario.now o (serial_run scenario.now)) }
    ensures rings { IfOk result (λ o. o.rings ≡ []) }
{
    let links = scenario.links.as_slice();
    let (rings, halves) = rings_of(alloc, links)?;
    let wires = wires_of(alloc, links, rings.as_slice(), halves)?;
    let stations = run_board(alloc, scenario, wires)?;
    outcome_of(alloc, scenario, stations)
}

/// Runs the lines of a lawful board in the file's order, and returns its stations. Each look shows all that stands.
fn run_board<'a>(
    alloc: Global,
    scenario: &Scenario,
    wires: Vec<Wire<'a>>,
) -> Result<Vec<Station<'a>>, NoMemory>
    requires lawful { IsLawfulBoard scenario.now }
    requires wired { IsWired scenario.now wires.items }
    ensures { IfOk result (λ stations. IsRun scenario.now (finished scenario.now) stations.items) }
{
    let mut stations = open_stations(alloc, scenario, wires)?;
    let Ok(mut room) = Vec::from_elem(alloc, 0u8, MAX_ASKED) else {
        return Err(NoMemory);
    };
    run_lines(&mut stations, scenario, &mut room)?;
    Ok(stations)
}

/// Runs all lines at the stations of their domains. What is received goes through `room`.
fn run_lines(
    stations: &mut [Station<'_>],
    scenario: &Scenario,
    room: &mut [u8],
) -> Result<(), NoMemory>
    requires lawful { IsLawfulBoard scenario.now }
    requires run { IsRun scenario.now (opened scenario.now) stations.old }
    requires carried { AllCarried stations.old }
    requires room { length room.old ≡ asked_limit }
    ensures { OnOk result (IsRun scenario.now (finished scenario.now) stations.new) }
{
    let places = station_places(scenario.domains.as_slice());
    let lines = scenario.calls.as_slice();
    for line in lines {
        let at = places[usize::from(line.domain)];
        run_line(stations, at, line, room)?;
    }
    Ok(())
}

/// The place of each domain's station, by the domain's number.
fn station_places(domains: &[DomainLine]) -> [usize; 8]
    ensures { (n : ℕ) → n < 8 → slice_index result n ≡ count_by (λ d. nat_lt d.domain n) domains.now }
{
    let mut places = [0; 8];
    for number in 0..MAX_DOMAINS {
        places[usize::from(number)] = place_of(domains, number);
    }
    places
}

/// The place of a domain's station: behind those of the domains with lower numbers.
fn place_of(domains: &[DomainLine], number: u8) -> usize
    ensures { result ≡ count_by (λ d. nat_lt d.domain number) domains.now }
{
    domains.iter().filter(|line| line.domain < number).count()
}

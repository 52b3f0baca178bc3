//! A domain that runs its script on its own.

ghost use Rattle.std.specs.Prelude.{◌≡◌, ◌≤◌, ◌*◌, ◌^◌, IfOk, OnOk, length};
ghost use Rattle.mc_base.specs.Limits.{asked_limit};
ghost use Rattle.board_model.specs.Language.{IsLawfulBoard};
ghost use Rattle.board_runner.specs.Answered.{IsAnswered};
ghost use Rattle.board_runner.specs.Lines.{HasFitNumbers};
ghost use Rattle.board_runner.specs.OwnRun.{HasNotBegun, CountsOneLine, RunsNextLine, RunsScript};
ghost use Rattle.board_runner.specs.Runs.{MayCount};

use crate::gate::Gate;
use crate::line::more_calls_of;
use crate::line::paced::{call_own, wait_own};
use crate::line::waits::wait_limit;
use crate::station::Station;
use board_model::{CallLine, Scenario};
use mc_base::{MAX_ASKED, NoMemory};
use station_ends::Pace;
use std::alloc::Global;

/// Runs the whole script of a station's domain and returns the station. Each line passes the gate first. A domain without a pace polls.
///
/// # Errors
///
/// `NoMemory`, at any time.
pub(crate) fn run_script<'a, G: Gate, P: Pace + Drop>(
    alloc: Global,
    scenario: &Scenario,
    gate: &G,
    mut station: Station<'a>,
    mut pace: Option<P>,
) -> Result<Station<'a>, NoMemory>
    requires lawful { IsLawfulBoard scenario.now }
    requires begins { HasNotBegun station }
    ensures { IfOk result (RunsScript scenario.now station.entry) }
{
    let Ok(mut room) = Vec::from_elem(alloc, 0u8, MAX_ASKED) else {
        return Err(NoMemory);
    };
    let lines = scenario.calls.as_slice();
    for line in lines {
        if line.domain == station.domain_number {
            gate.pass(line.domain, station.number + 1);
            run_own_line(&mut station, line, &mut pace, &mut room)?;
        }
    }
    Ok(station)
}

/// Runs a line at its domain alone. Between two of its calls the domain makes only the turns of these calls, and a wait makes its own.
/// Where the line is without end the domain goes at its pace. What is received goes through `room`.
///
/// # Errors
///
/// `NoMemory` where the journal or the labels cannot grow.
pub(crate) fn run_own_line<P: Pace>(
    station: &mut Station<'_>,
    line: &CallLine,
    pace: &mut Option<P>,
    room: &mut [u8],
) -> Result<(), NoMemory>
    requires count { MayCount station.old }
    requires drops { station.old.dropped ≤ 2 ^ 32 * station.old.number }
    requires asks { HasFitNumbers asked_limit line.now.call }
    requires room { length room.old ≡ asked_limit }
    ensures run { OnOk result (RunsNextLine line.now station.old station.new) }
    ensures counts { OnOk result (CountsOneLine station.old station.new) }
    ensures answered { OnOk result (IsAnswered line.now.call station.old station.new) }
{
    if let Some(limit) = wait_limit(&line.call) {
        wait_own(station, line, limit, pace, room)?;
        return Ok(());
    }
    for _call in 0..more_calls_of(line.tries) {
        if !call_own(station, line, true, pace, room)?.is_again {
            return Ok(());
        }
    }
    call_own(station, line, false, pace, room)?;
    Ok(())
}

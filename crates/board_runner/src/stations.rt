//! Turns of a board's domains.

ghost use Rattle.std.specs.Prelude.{◌≡◌, ◌<◌, OnOk, length};
ghost use Rattle.board_runner.specs.Runs.{IsSomeRun, TurnsOnce, OthersTurn, AllCarried, KeepCounts};

use crate::carrying::carry_all;
use crate::station::Station;
use domain_core::{CALL_BYTES, CALL_ENTRIES};
use mc_base::NoMemory;

/// Makes a turn of one domain alone, and carries what it put and gave back. An idle turn did neither.
///
/// # Errors
///
/// `NoMemory` where the journal cannot grow.
pub fn turn_alone(stations: &mut [Station<'_>], at: usize) -> Result<(), NoMemory>
    requires at { at < length stations.old }
    requires run { IsSomeRun stations.old }
    requires carried { AllCarried stations.old }
    ensures run { OnOk result (TurnsOnce at stations.old stations.new) }
    ensures carried { OnOk result (AllCarried stations.new) }
    ensures counts { OnOk result (KeepCounts stations.old stations.new) }
{
    let station = &mut stations[at];
    station.journal.reserve(CALL_ENTRIES, CALL_BYTES)?;
    let is_idle = station.domain.turn(&mut station.journal);
    if !is_idle {
        carry_all(stations, at);
    }
    Ok(())
}

/// Makes a turn of every other domain, in rising number.
///
/// # Errors
///
/// `NoMemory` where a journal cannot grow.
pub fn others_turn(stations: &mut [Station<'_>], at: usize) -> Result<(), NoMemory>
    requires at { at < length stations.old }
    requires run { IsSomeRun stations.old }
    requires carried { AllCarried stations.old }
    ensures run { OnOk result (OthersTurn at stations.old stations.new) }
    ensures carried { OnOk result (AllCarried stations.new) }
    ensures counts { OnOk result (KeepCounts stations.old stations.new) }
{
    for other in 0..stations.len() {
        if other != at {
            turn_alone(stations, other)?;
        }
    }
    Ok(())
}

//! Waits and calls at a domain that runs its script on its own, and its pace at a line without end.

ghost use Rattle.std.specs.Prelude.{◌≡◌, ◌≤◌, ◌*◌, ◌^◌, None, IfOk, IsSome, OnOk, length};
ghost use Rattle.mc_base.specs.Limits.{asked_limit};
ghost use Rattle.board_model.specs.Step.{limit_of};
ghost use Rattle.domain_core.specs.Waiting.{AreAwaited};
ghost use Rattle.board_runner.specs.Lines.{HasFitNumbers, Tries};
ghost use Rattle.board_runner.specs.Runs.{MayCount};
ghost use Rattle.board_runner.specs.Waits.{PollsAlone, RunsWait, ids_named};

use super::waits::{end_at_once, is_settled, refused, wait_alone};
use super::{Ended, call_and_note, note_called};
use crate::station::Station;
use board_model::CallLine;
use domain_core::{CALL_BYTES, CALL_ENTRIES};
use mc_base::{NoMemory, Refusal};
use station_ends::Pace;

/// The limit of a wait without end, and the number of calls of a line that is tried without end.
const WITHOUT_END: u32 = u32::MAX;

/// Makes the call of a line and notes its answer. Where the line is tried without end, the domain goes at its pace before each call, and
/// after one that was quiet and is to be made again.
pub fn call_own<P: Pace>(
    station: &mut Station<'_>,
    line: &CallLine,
    may_try: bool,
    pace: &mut Option<P>,
    room: &mut [u8],
) -> Result<Ended, NoMemory>
    requires count { MayCount station.old }
    requires drops { station.old.dropped ≤ 2 ^ 32 * station.old.number }
    requires no_wait { limit_of line.now.call ≡ None }
    requires asks { HasFitNumbers asked_limit line.now.call }
    requires room { length room.old ≡ asked_limit }
    ensures tries { IfOk result (λ ended. Tries line.now may_try station.old station.new ended.is_again ended.is_quiet) }
{
    let is_paced = matches!(line.tries, Some(WITHOUT_END));
    if is_paced {
        pace.before_try();
    }
    let ended = call_and_note(station, line, may_try, room)?;
    if is_paced && ended.is_again && ended.is_quiet {
        pace.after_idle();
    }
    Ok(ended)
}

/// Waits at a domain alone, and notes how the wait ends. Between the turns of a wait without end the domain goes at its pace, where it
/// has one.
pub fn wait_own<P: Pace>(
    station: &mut Station<'_>,
    line: &CallLine,
    limit: u32,
    pace: &mut Option<P>,
    room: &mut [u8],
) -> Result<(), NoMemory>
    requires count { MayCount station.old }
    requires drops { station.old.dropped ≤ 2 ^ 32 * station.old.number }
    requires waits { IsSome (limit_of line.now.call) }
    requires asks { HasFitNumbers asked_limit line.now.call }
    requires room { length room.old ≡ asked_limit }
    ensures { OnOk result (RunsWait line.now limit station.old station.new) }
{
    match pace {
        Some(pace) if limit == WITHOUT_END => wait_at_pace(station, line, limit, pace, room),
        _ => wait_alone(station, line, limit, room),
    }
}

/// Waits by single turns at a pace. It tests first, and again once a request is complete.
fn wait_at_pace<P: Pace>(
    station: &mut Station<'_>,
    line: &CallLine,
    limit: u32,
    pace: &mut P,
    room: &mut [u8],
) -> Result<(), NoMemory>
    requires count { MayCount station.old }
    requires drops { station.old.dropped ≤ 2 ^ 32 * station.old.number }
    requires waits { IsSome (limit_of line.now.call) }
    requires asks { HasFitNumbers asked_limit line.now.call }
    requires room { length room.old ≡ asked_limit }
    ensures { OnOk result (RunsWait line.now limit station.old station.new) }
{
    if end_at_once(station, line, room)? {
        return Ok(());
    }
    if turn_at_pace(station, line, limit, pace)? {
        end_at_once(station, line, room)?;
        return Ok(());
    }
    note_called(station, line, refused(Refusal::Timeout))?;
    Ok(())
}

/// Makes turns at a pace, at most so many, until one of the requests of a wait is complete. Returns whether one is.
fn turn_at_pace<P: Pace>(
    station: &mut Station<'_>,
    line: &CallLine,
    limit: u32,
    pace: &mut P,
) -> Result<bool, NoMemory>
    requires waits { IsSome (limit_of line.now.call) }
    requires asks { HasFitNumbers asked_limit line.now.call }
    requires awaited { AreAwaited (ids_named station.old.ids line.now.call) station.old.domain }
    ensures { IfOk result (λ is_settled. PollsAlone line.now limit is_settled station.old station.new) }
{
    for _turn in 0..limit {
        station.journal.reserve(CALL_ENTRIES, CALL_BYTES)?;
        pace.before_try();
        let is_idle = station.domain.turn(&mut station.journal);
        if is_settled(station, line) {
            return Ok(true);
        }
        if is_idle {
            pace.after_idle();
        }
    }
    Ok(false)
}

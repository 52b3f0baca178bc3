//! Lines that wait: their domain tests first, and then after each round of turns of all domains.

ghost use Rattle.std.specs.Prelude.{◌≡◌, ◌<◌, ◌≤◌, ◌*◌, ◌^◌, ◌∷◌, [], false, true, None, Some, IfOk, IsSome, OnOk, is_some, length};
ghost use Rattle.mc_base.specs.Limits.{asked_limit};
ghost use Rattle.board_model.specs.Journal.{completes, refuses};
ghost use Rattle.board_model.specs.Step.{is_timeout, limit_of};
ghost use Rattle.domain_core.specs.Awaiting.{first_settled};
ghost use Rattle.domain_core.specs.Calls.{result_of_done};
ghost use Rattle.domain_core.specs.DomainView.{packet_lent_as};
ghost use Rattle.domain_core.specs.Room.{call_bytes, call_entries};
ghost use Rattle.mc_journal.specs.Entry.{plain_answer, bytes_in_answer};
ghost use Rattle.board_runner.specs.Lines.{HasFitNumbers};
ghost use Rattle.board_runner.specs.Runs.{AllCarried, CountsFit, IsSomeNext, IsSomeRun, KeepCounts, MayCount, OneLineMore, RunsLine};
ghost use Rattle.board_runner.specs.Waits.{CountsTest, EndsAtOnce, EndsWithout, GivesAtMost, RoundsUntil, RunsWait, TestsWait, TimesOut, TurnsAll, WaitsAlone, WaitsDomain, ids_named, packet_in};

use super::{Made, note_called};
use crate::answers::{of_tested_packet, of_wait};
use crate::carrying::carry_all;
use crate::labels::{id_of, ids_of};
use crate::packets::copy_packet;
use crate::station::Station;
use crate::stations::turn_alone;
use arrayvec::ArrayVec;
use board_model::{Call, CallLine};
use domain_core::{Answer, CALL_BYTES, CALL_ENTRIES, Domain, Journal, WaitFault};
use mc_base::{Done, NoMemory, Refusal, RequestId};
use station_ends::{StationRecv, StationSend};

/// The limit of turns of a call that waits.
pub fn wait_limit(call: &Call) -> Option<u32>
    ensures { result ≡ limit_of call.now }
{
    match call {
        Call::Wait { limit, .. } | Call::WaitAny { limit, .. } => Some(*limit),
        _ => None,
    }
}

/// Runs a line that waits. Its domain tests first. Then every domain makes a turn, in rising number, and it tests again, until a
/// request is complete or the limit is reached.
pub fn run_wait(
    stations: &mut [Station<'_>],
    at: usize,
    line: &CallLine,
    limit: u32,
    room: &mut [u8],
) -> Result<(), NoMemory>
    requires at { at < length stations.old }
    requires next { IsSomeNext line.now at stations.old }
    requires carried { AllCarried stations.old }
    requires counts { CountsFit stations.old }
    requires limit { limit_of line.now.call ≡ Some limit }
    requires asks { HasFitNumbers asked_limit line.now.call }
    requires room { length room.old ≡ asked_limit }
    ensures run { OnOk result (RunsLine line.now at stations.old stations.new) }
    ensures carried { OnOk result (AllCarried stations.new) }
    ensures counts { OnOk result (OneLineMore at stations.old stations.new) }
{
    if test_wait(stations, at, line, room)? {
        return Ok(());
    }
    if turn_until_settled(stations, at, line, limit)? {
        test_wait(stations, at, line, room)?;
        return Ok(());
    }
    time_out(stations, at, line)?;
    Ok(())
}

/// Ends a wait that needs no turn, and notes its answer. Where it has to wait, it notes that the wait begins, and returns false.
fn test_wait(
    stations: &mut [Station<'_>],
    at: usize,
    line: &CallLine,
    room: &mut [u8],
) -> Result<bool, NoMemory>
    requires at { at < length stations.old }
    requires next { IsSomeNext line.now at stations.old }
    requires carried { AllCarried stations.old }
    requires counts { CountsFit stations.old }
    requires waits { IsSome (limit_of line.now.call) }
    requires asks { HasFitNumbers asked_limit line.now.call }
    requires room { length room.old ≡ asked_limit }
    ensures run { IfOk result (λ has_ended. TestsWait line.now has_ended at stations.old stations.new) }
    ensures carried { OnOk result (AllCarried stations.new) }
    ensures counts { IfOk result (λ has_ended. CountsTest has_ended at stations.old stations.new) }
{
    let has_ended = end_at_once(&mut stations[at], line, room)?;
    carry_all(stations, at);
    Ok(has_ended)
}

/// Does so at the station of the line's domain.
pub fn end_at_once(
    station: &mut Station<'_>,
    line: &CallLine,
    room: &mut [u8],
) -> Result<bool, NoMemory>
    requires count { MayCount station.old }
    requires drops { station.old.dropped ≤ 2 ^ 32 * station.old.number }
    requires waits { IsSome (limit_of line.now.call) }
    requires asks { HasFitNumbers asked_limit line.now.call }
    requires room { length room.old ≡ asked_limit }
    ensures { IfOk result (λ has_ended. EndsAtOnce line.now has_ended station.old station.new) }
{
    let made = wait_for(station, line, 0, room)?;
    if has_timed_out(made.answer) {
        return Ok(false);
    }
    note_called(station, line, made)?;
    Ok(true)
}

fn has_timed_out(answer: Answer<'_>) -> bool
    ensures { result ≡ is_timeout (plain_answer answer.entry) }
{
    matches!(answer, Answer::Refused(Refusal::Timeout))
}

/// Makes rounds of turns of all domains, at most so many, until one of the requests of a wait is complete.
/// Returns whether one is.
fn turn_until_settled(
    stations: &mut [Station<'_>],
    at: usize,
    line: &CallLine,
    limit: u32,
) -> Result<bool, NoMemory>
    requires at { at < length stations.old }
    requires next { IsSomeNext line.now at stations.old }
    requires carried { AllCarried stations.old }
    requires waits { IsSome (limit_of line.now.call) }
    requires asks { HasFitNumbers asked_limit line.now.call }
    ensures run { IfOk result (λ is_settled. RoundsUntil line.now is_settled limit at stations.old stations.new) }
    ensures next { OnOk result (IsSomeNext line.now at stations.new) }
    ensures carried { OnOk result (AllCarried stations.new) }
    ensures counts { OnOk result (KeepCounts stations.old stations.new) }
{
    for _round in 0..limit {
        turn_all(stations)?;
        if is_settled(&stations[at], line) {
            return Ok(true);
        }
    }
    Ok(false)
}

/// Whether one of the requests of a wait is complete.
pub fn is_settled(station: &Station<'_>, line: &CallLine) -> bool
    requires waits { IsSome (limit_of line.now.call) }
    requires asks { HasFitNumbers asked_limit line.now.call }
    ensures { result ≡ is_some (first_settled (ids_named station.now.ids line.now.call) station.now.domain) }
{
    let ids = ids_of(&station.ids, &line.call);
    station.domain.settled(&ids).is_some()
}

/// Makes a turn of every domain, in rising number.
fn turn_all(stations: &mut [Station<'_>]) -> Result<(), NoMemory>
    requires run { IsSomeRun stations.old }
    requires carried { AllCarried stations.old }
    ensures run { OnOk result (TurnsAll stations.old stations.new) }
    ensures carried { OnOk result (AllCarried stations.new) }
    ensures counts { OnOk result (KeepCounts stations.old stations.new) }
{
    for at in 0..stations.len() {
        turn_alone(stations, at)?;
    }
    Ok(())
}

/// Notes that the limit of a wait is reached.
fn time_out(stations: &mut [Station<'_>], at: usize, line: &CallLine) -> Result<(), NoMemory>
    requires at { at < length stations.old }
    requires next { IsSomeNext line.now at stations.old }
    requires carried { AllCarried stations.old }
    requires counts { CountsFit stations.old }
    requires waits { IsSome (limit_of line.now.call) }
    ensures run { OnOk result (TimesOut line.now at stations.old stations.new) }
    ensures carried { OnOk result (AllCarried stations.new) }
    ensures counts { OnOk result (OneLineMore at stations.old stations.new) }
{
    let timeout = refused(Refusal::Timeout);
    note_called(&mut stations[at], line, timeout)?;
    Ok(())
}

/// Waits at a domain alone and notes how the wait ends. It makes its own turns alone.
pub fn wait_alone(
    station: &mut Station<'_>,
    line: &CallLine,
    limit: u32,
    room: &mut [u8],
) -> Result<(), NoMemory>
    requires count { MayCount station.old }
    requires drops { station.old.dropped ≤ 2 ^ 32 * station.old.number }
    requires waits { IsSome (limit_of line.now.call) }
    requires asks { HasFitNumbers asked_limit line.now.call }
    requires room { length room.old ≡ asked_limit }
    ensures { OnOk result (RunsWait line.now limit station.old station.new) }
{
    let made = wait_for(station, line, limit, room)?;
    note_called(station, line, made)?;
    Ok(())
}

/// Waits at a domain alone for the requests of a line, for at most so many turns. What a request brings goes to `room`; a packet
/// is lent.
fn wait_for<'r>(
    station: &mut Station<'_>,
    line: &CallLine,
    limit: u32,
    room: &'r mut [u8],
) -> Result<Made<'r>, NoMemory>
    requires count { MayCount station.old }
    requires waits { IsSome (limit_of line.now.call) }
    requires asks { HasFitNumbers asked_limit line.now.call }
    requires room { length room.old ≡ asked_limit }
    ensures { IfOk result (λ made. WaitsAlone line.now limit station.old station.new made) }
{
    let number = station.number + 1;
    station.journal.reserve(CALL_ENTRIES, CALL_BYTES)?;
    let domain = &mut station.domain;
    let journal = &mut station.journal;
    match &line.call {
        Call::Wait { label, .. } => {
            let id = id_of(&station.ids, label);
            wait_one(domain, journal, number, id, limit, room)
        }
        _ => {
            let ids = ids_of(&station.ids, &line.call);
            wait_any(domain, journal, number, &ids, limit, room)
        }
    }
}

/// Waits for one request.
fn wait_one<'r>(
    domain: &mut Domain<StationSend<'_>, StationRecv<'_>>,
    journal: &mut Journal,
    number: u32,
    id: RequestId,
    limit: u32,
    room: &'r mut [u8],
) -> Result<Made<'r>, NoMemory>
    requires entry_room { call_entries ≤ journal.old.entry_room }
    requires byte_room { call_bytes ≤ journal.old.byte_room }
    requires room { length room.old ≡ asked_limit }
    ensures { IfOk result (λ made. WaitsDomain number limit (id ∷ []) false domain.old domain.new journal.old.lines journal.new.lines made) }
{
    match domain.wait(journal, number, id, limit, room) {
        Ok(done) => Ok(ended_with(domain, None, done, room)),
        Err(fault) => not_ended(fault),
    }
}

/// Waits for one of several requests.
fn wait_any<'r>(
    domain: &mut Domain<StationSend<'_>, StationRecv<'_>>,
    journal: &mut Journal,
    number: u32,
    ids: &ArrayVec<RequestId, 8>,
    limit: u32,
    room: &'r mut [u8],
) -> Result<Made<'r>, NoMemory>
    requires some { 1 ≤ length ids.now.items }
    requires entry_room { call_entries ≤ journal.old.entry_room }
    requires byte_room { call_bytes ≤ journal.old.byte_room }
    requires room { length room.old ≡ asked_limit }
    ensures { IfOk result (λ made. WaitsDomain number limit ids.now.items true domain.old domain.new journal.old.lines journal.new.lines made) }
{
    match domain.wait_any(journal, number, ids, limit, room) {
        Ok((place, done)) => Ok(ended_with(domain, Some(place), done, room)),
        Err(fault) => not_ended(fault),
    }
}

/// What a wait made that ended with a request: the place of the request among several, and the bytes of a message or packet.
fn ended_with<'r>(
    domain: &Domain<StationSend<'_>, StationRecv<'_>>,
    place: Option<u8>,
    done: Done,
    room: &'r mut [u8],
) -> Made<'r>
    requires within { GivesAtMost (length room.old) done }
    requires room { length room.old ≡ asked_limit }
    ensures answer { plain_answer result.answer ≡ completes place (result_of_done done room.old (packet_lent_as domain.now)) }
    ensures given { result.given ≡ None }
    ensures lent { result.lent ≡ packet_in done }
    ensures bytes_fit { bytes_in_answer result.answer ≤ asked_limit }
{
    if let Done::Packet(packet) = done {
        return Made {
            answer: of_tested_packet(place, copy_packet(domain, packet, room), room),
            given: None,
            lent: Some(packet),
        };
    }
    Made {
        answer: of_wait(place, done, room),
        given: None,
        lent: None,
    }
}

/// What a wait made that ended with no request.
fn not_ended<'r>(fault: WaitFault) -> Result<Made<'r>, NoMemory>
    ensures { IfOk result (EndsWithout fault) }
{
    match fault {
        WaitFault::Refused(word) => Ok(refused(word)),
        WaitFault::NoMemory => Err(NoMemory),
    }
}

/// What a call made that was refused.
pub fn refused<'r>(word: Refusal) -> Made<'r>
    ensures answer { plain_answer result.answer ≡ refuses word }
    ensures given { result.given ≡ None }
    ensures lent { result.lent ≡ None }
    ensures no_bytes { bytes_in_answer result.answer ≡ 0 }
{
    Made {
        answer: Answer::Refused(word),
        given: None,
        lent: None,
    }
}

//! The calls of a line: each with its turn, and made again as often as the line says where it is refused with one of six words.

ghost use Rattle.std.specs.Prelude.{◌≡◌, ◌<◌, ◌≤◌, ◌+◌, ◌*◌, ◌^◌, true, false, None, IfOk, OnOk, MatchOption, length};
ghost use Rattle.mc_base.specs.Limits.{asked_limit};
ghost use Rattle.board_model.specs.Journal.{refuses, noted_again};
ghost use Rattle.board_model.specs.SerialRun.{more_calls};
ghost use Rattle.board_model.specs.Step.{is_tried, is_tried_word, limit_of};
ghost use Rattle.mc_journal.specs.Entry.{plain_answer, bytes_in_answer};
ghost use Rattle.board_runner.specs.Carried.{StayCarriedWhere};
ghost use Rattle.board_runner.specs.Lines.{CallsDomain, MakesCall, NotesCalled, Tries, HasFitNumbers, call_by, dropped_by, is_quiet as is_quiet_call, ends_idle as ends_idle_lines};
ghost use Rattle.board_runner.specs.Runs.{IsSomeNext, AllCarried, MayCount, CountsFit, CallsLine, CountsCall, RunsLine, OneLineMore};

mod channels;
mod items;
mod messages;
pub mod paced;
mod requests;
pub mod waits;

use crate::carrying::carry_all;
use crate::labels::{hold, id_of, lending_label_of, packet_of};
use crate::station::Station;
use crate::stations::others_turn;
use board_model::{Call, CallLine, Label};
use channels::{close_recv, close_send, connect, open_recv, open_send};
use domain_core::{Answer, Domain, Entry, Journal, Told};
use items::{receive_packet, receive_scalar, release, request_packet, send_packet, send_scalar};
use mc_base::{Local, NoMemory, PacketId, Refusal, RequestId};
use messages::{available, create, delete, put_raw, receive, send, turn};
use requests::{cancel, lookup, request, test};
use station_ends::{StationRecv, StationSend};
use std::collections::HashMap;
use waits::{run_wait, wait_limit};

/// What a call answered, the request that it gave, and the packet that it lent.
#[derive(Clone, Copy)]
pub struct Made<'r> {
    pub answer: Answer<'r>,
    pub given: Option<RequestId>,
    pub lent: Option<PacketId>,
}

/// How a call ended: whether it is to be made again, and whether it was quiet, so that nothing has to be carried after it.
#[derive(Clone, Copy)]
pub struct Ended {
    pub is_again: bool,
    pub is_quiet: bool,
}

/// Runs a line at the station of its domain. Between two of its calls every other domain makes a turn, and a wait makes rounds of
/// turns of all domains. What is received goes through `room`.
///
/// # Errors
///
/// `NoMemory` where a journal or the labels cannot grow.
pub fn run_line(
    stations: &mut [Station<'_>],
    at: usize,
    line: &CallLine,
    room: &mut [u8],
) -> Result<(), NoMemory>
    requires at { at < length stations.old }
    requires next { IsSomeNext line.now at stations.old }
    requires carried { AllCarried stations.old }
    requires counts { CountsFit stations.old }
    requires asks { HasFitNumbers asked_limit line.now.call }
    requires room { length room.old ≡ asked_limit }
    ensures run { OnOk result (RunsLine line.now at stations.old stations.new) }
    ensures carried { OnOk result (AllCarried stations.new) }
    ensures counts { OnOk result (OneLineMore at stations.old stations.new) }
{
    if let Some(limit) = wait_limit(&line.call) {
        run_wait(stations, at, line, limit, room)?;
        return Ok(());
    }
    for _call in 0..more_calls_of(line.tries) {
        if !call_once(stations, at, line, true, room)? {
            return Ok(());
        }
        others_turn(stations, at)?;
    }
    call_once(stations, at, line, false, room)?;
    Ok(())
}

/// How many calls a line may make after its first.
pub fn more_calls_of(tries: Option<u32>) -> u32
    ensures { result ≡ more_calls tries }
{
    match tries {
        Some(tries) => tries.saturating_sub(1),
        None => 0,
    }
}

/// Makes the call of a line, carries what it put and gave back, and returns whether it is to be made again.
fn call_once(
    stations: &mut [Station<'_>],
    at: usize,
    line: &CallLine,
    may_try: bool,
    room: &mut [u8],
) -> Result<bool, NoMemory>
    requires at { at < length stations.old }
    requires next { IsSomeNext line.now at stations.old }
    requires carried { AllCarried stations.old }
    requires counts { CountsFit stations.old }
    requires no_wait { limit_of line.now.call ≡ None }
    requires asks { HasFitNumbers asked_limit line.now.call }
    requires room { length room.old ≡ asked_limit }
    ensures run { IfOk result (λ is_again. CallsLine line.now may_try is_again at stations.old stations.new) }
    ensures carried { OnOk result (AllCarried stations.new) }
    ensures counts { IfOk result (λ is_again. CountsCall is_again at stations.old stations.new) }
{
    let ended = call_and_note(&mut stations[at], line, may_try, room)?;
    if !ended.is_quiet {
        carry_all(stations, at);
    }
    Ok(ended.is_again)
}

/// Makes the call of a line and notes its answer.
pub fn call_and_note(
    station: &mut Station<'_>,
    line: &CallLine,
    may_try: bool,
    room: &mut [u8],
) -> Result<Ended, NoMemory>
    requires count { MayCount station.old }
    requires drops { station.old.dropped ≤ 2 ^ 32 * station.old.number }
    requires no_wait { limit_of line.now.call ≡ None }
    requires asks { HasFitNumbers asked_limit line.now.call }
    requires room { length room.old ≡ asked_limit }
    ensures tries { IfOk result (λ ended. Tries line.now may_try station.old station.new ended.is_again ended.is_quiet) }
    ensures quiet { IfOk result (λ ended. StayCarriedWhere ended.is_quiet station.old.domain.ends station.new.domain.ends) }
{
    let made = call_line(station, line, room)?;
    let is_quiet = is_quiet(&line.call, made.answer, &station.journal);
    match word_to_try(made.answer) {
        Some(word) if may_try => {
            note_again(&mut station.journal, word)?;
            Ok(Ended {
                is_again: true,
                is_quiet,
            })
        }
        _ => {
            note_called(station, line, made)?;
            Ok(Ended {
                is_again: false,
                is_quiet,
            })
        }
    }
}

/// Whether a call that was answered so put nothing and gave nothing back, its turn with it: its last entry is then an idle turn,
/// since a frame that is put is noted, and a call that is refused so, or is a turn alone, gives nothing back itself.
fn is_quiet(call: &Call, answer: Answer<'_>, journal: &Journal) -> bool
    ensures { result ≡ is_quiet_call call.now (plain_answer answer.entry) journal.now.lines }
{
    (matches!(call, Call::Turn) || word_to_try(answer).is_some()) && ends_idle(journal)
}

/// Whether the last entry is one of idle turns.
fn ends_idle(journal: &Journal) -> bool
    ensures { result ≡ ends_idle_lines journal.now.lines }
{
    let many = journal.len();
    many > 0 && matches!(journal.entry(many - 1), Some(Entry::Idle { .. }))
}

/// Makes the call of a line. The bytes of a message or packet go to `room`.
fn call_line<'r>(
    station: &mut Station<'_>,
    line: &CallLine,
    room: &'r mut [u8],
) -> Result<Made<'r>, NoMemory>
    requires no_wait { limit_of line.now.call ≡ None }
    requires asks { HasFitNumbers asked_limit line.now.call }
    requires room { length room.old ≡ asked_limit }
    ensures { IfOk result (λ made. MakesCall line.now station.old station.new made) }
{
    call_domain(
        &mut station.domain,
        &mut station.journal,
        &station.ids,
        &station.packets,
        line,
        room,
    )
}

/// Makes the call of a line at its domain. Labels name requests and packets by the ids that are held for them.
fn call_domain<'r>(
    domain: &mut Domain<StationSend<'_>, StationRecv<'_>>,
    journal: &mut Journal,
    ids: &HashMap<Label, RequestId>,
    packets: &HashMap<Label, PacketId>,
    line: &CallLine,
    room: &'r mut [u8],
) -> Result<Made<'r>, NoMemory>
    requires no_wait { limit_of line.now.call ≡ None }
    requires asks { HasFitNumbers asked_limit line.now.call }
    requires room { length room.old ≡ asked_limit }
    ensures call { IfOk result (λ made. CallsDomain line.now.node (call_by ids.now packets.now domain.old.ids domain.old.packets line.now.call) domain.old domain.new journal.old.lines journal.new.lines made) }
    ensures drops { IfOk result (λ made. dropped_by line.now.call (plain_answer made.answer) < 2 ^ 32) }
{
    match &line.call {
        Call::Create { port } => create(domain, journal, local(line, *port)),
        Call::Delete { port } => delete(domain, journal, local(line, *port)),
        Call::Lookup { name } => lookup(domain, journal, *name),
        Call::MsgSend {
            port,
            to,
            priority,
            bytes,
        } => {
            let from = local(line, *port);
            send(domain, journal, from, *to, *priority, bytes.as_slice())
        }
        Call::MsgRecv { port, max } => {
            let (out, _) = room.split_at_mut(*max as usize);
            receive(domain, journal, local(line, *port), out)
        }
        Call::MsgRecvI { port, max } => request(domain, journal, local(line, *port), *max),
        Call::MsgAvailable { port } => available(domain, journal, local(line, *port)),
        Call::Connect { port, to, kind } => {
            connect(domain, journal, local(line, *port), *to, *kind)
        }
        Call::OpenSend { port, kind } => open_send(domain, journal, local(line, *port), *kind),
        Call::OpenRecv { port, kind } => open_recv(domain, journal, local(line, *port), *kind),
        Call::PktSend { port, bytes } => {
            send_packet(domain, journal, local(line, *port), bytes.as_slice())
        }
        Call::PktRecv { port } => receive_packet(domain, journal, local(line, *port), room),
        Call::PktRecvI { port } => request_packet(domain, journal, local(line, *port)),
        Call::Release { label } => release(domain, journal, packet_of(packets, label)),
        Call::SclSend { port, bits, value } => {
            send_scalar(domain, journal, local(line, *port), *bits, *value)
        }
        Call::SclRecv { port, bits } => receive_scalar(domain, journal, local(line, *port), *bits),
        Call::CloseSend { port } => close_send(domain, journal, local(line, *port)),
        Call::CloseRecv { port } => close_recv(domain, journal, local(line, *port)),
        Call::Test { label } => test(domain, journal, id_of(ids, label), room),
        Call::Wait { .. } | Call::WaitAny { .. } => unreachable!(), // A wait is called in `waits`.
        Call::Cancel { label } => cancel(domain, journal, id_of(ids, label)),
        Call::Raw {
            domain: peer,
            bytes,
        } => put_raw(domain, journal, *peer, bytes.as_slice()),
        Call::Turn => turn(domain, journal),
    }
}

/// The endpoint of a port at the line's node.
fn local(line: &CallLine, port: u16) -> Local
    ensures node { result.node ≡ line.now.node }
    ensures port { result.port ≡ port }
{
    Local {
        node: line.node,
        port,
    }
}

/// The word with which a call was refused, where it is one with which calls are made again.
fn word_to_try(answer: Answer<'_>) -> Option<Refusal>
    ensures { MatchOption result (is_tried (plain_answer answer.entry) ≡ false) (λ word. (plain_answer answer.entry ≡ refuses word) × (is_tried_word word ≡ true)) }
{
    match answer {
        Answer::Refused(word) if is_tried_again(word) => Some(word),
        _ => None,
    }
}

/// Whether a call that is refused with this word is made again.
fn is_tried_again(word: Refusal) -> bool
    ensures { result ≡ is_tried_word word }
{
    matches!(
        word,
        Refusal::Empty
            | Refusal::NoBuffer
            | Refusal::NotConnected
            | Refusal::NotOpen
            | Refusal::ChanConnected
            | Refusal::Pending
    )
}

/// Notes that a call is made again.
fn note_again(journal: &mut Journal, word: Refusal) -> Result<(), NoMemory>
    ensures { OnOk result (journal.new.lines ≡ noted_again word journal.old.lines) }
{
    journal.reserve(1, 0)?;
    journal.note(Entry::Again { word });
    Ok(())
}

/// Notes the last call of a line. The line is counted, and so are the messages that it dropped; the ids that it gave are held for
/// their labels.
fn note_called(station: &mut Station<'_>, line: &CallLine, made: Made<'_>) -> Result<(), NoMemory>
    requires count { MayCount station.old }
    requires drops { station.old.dropped ≤ 2 ^ 32 * station.old.number }
    requires bytes_fit { bytes_in_answer made.answer ≤ asked_limit }
    requires drops_fit { dropped_by line.now.call (plain_answer made.answer) < 2 ^ 32 }
    ensures { OnOk result (NotesCalled line.now made.entry station.old station.new) }
{
    let number = station.number + 1;
    station.journal.reserve(1, bytes_of(made.answer))?;
    station.journal.note(Entry::Called {
        number,
        answer: made.answer,
    });
    hold(&mut station.ids, line.label.as_ref(), made.given)?;
    hold(
        &mut station.packets,
        lending_label_of(line, made.answer),
        made.lent,
    )?;
    station.number = number;
    station.dropped += dropped_in(&line.call, made.answer);
    Ok(())
}

/// How many messages a call dropped.
fn dropped_in(call: &Call, answer: Answer<'_>) -> u64
    ensures { result ≡ dropped_by call.now (plain_answer answer.entry) }
{
    match (call, answer) {
        (Call::Delete { .. }, Answer::Number(count)) => count,
        _ => 0,
    }
}

fn bytes_of(answer: Answer<'_>) -> u32
    requires { bytes_in_answer answer < 2 ^ 32 }
    ensures { result ≡ bytes_in_answer answer.entry }
{
    match answer {
        Answer::Bytes { bytes, .. }
        | Answer::Done {
            result: Told::Bytes { bytes, .. },
            ..
        } => bytes.len() as u32,
        _ => 0,
    }
}

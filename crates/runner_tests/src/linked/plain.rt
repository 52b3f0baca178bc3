//! A scenario of domains 3 and 4 over plain lanes.

ghost use Rattle.std.specs.Prelude.{◌≡◌, ◌≤◌};
ghost use Rattle.mc_journal.specs.Entry.{bytes_in_answer};

use crate::serial::read;
use board_model::{Call, CallLine};
use domain_core::{Answer, Entry, Journal, Told};
use linked_pair::{LinkedPair, Member, Which, reserve_call};
use mc_base::{Done, Got, ITEM_SIZE, Local, Refusal, RequestId};
use std::alloc::Global;

/// The first request of a domain.
const FIRST: RequestId = RequestId { key: 0, serial: 0 };

/// What a call answers. A message stands in the buffer that was lent to the call.
#[derive(Clone, Copy)]
enum Said {
    Done,
    Number(u64),
    Connected(u64, u32),
    Message(u32),
    Address(u32),
    Refused(Refusal),
}

fn done(answer: Result<(), Refusal>) -> Said {
    match answer {
        Ok(()) => Said::Done,
        Err(word) => Said::Refused(word),
    }
}

fn number(answer: Result<u32, Refusal>) -> Said {
    match answer {
        Ok(n) => Said::Number(u64::from(n)),
        Err(word) => Said::Refused(word),
    }
}

fn begun(answer: Result<RequestId, Refusal>) -> Said {
    match answer {
        Ok(id) => Said::Number(id.serial),
        Err(word) => Said::Refused(word),
    }
}

fn connected(answer: Result<(RequestId, u32), Refusal>) -> Said {
    match answer {
        Ok((id, channel)) => Said::Connected(id.serial, channel),
        Err(word) => Said::Refused(word),
    }
}

fn received(answer: Result<Got, Refusal>) -> Said {
    match answer {
        Ok(got) => Said::Message(got.size),
        Err(word) => Said::Refused(word),
    }
}

/// Of a test of a lookup.
fn ended(answer: Result<Done, Refusal>) -> Said {
    match answer {
        Ok(Done::Address(address)) => Said::Address(address),
        Ok(_) => Said::Done,
        Err(word) => Said::Refused(word),
    }
}

/// The endpoint at a port of the only node.
fn at(port: u16) -> Local {
    Local { node: 0, port }
}

/// Makes the call of a line, if it is one of the calls here. A test is of the first request, and a message goes to `out`.
fn call(
    pair: &mut LinkedPair,
    which: Which,
    journal: &mut Journal,
    call: &Call,
    out: &mut [u8; ITEM_SIZE],
) -> Option<Said>
    requires entry_room { 176 ≤ journal.old.entry_room }
    requires byte_room { 90112 ≤ journal.old.byte_room }
{
    let said = match call {
        Call::Create { port } => number(pair.create(which, journal, at(*port))),
        Call::Lookup { name } => begun(pair.lookup(which, journal, *name)),
        Call::MsgSend {
            port,
            to,
            priority,
            bytes,
        } => done(pair.msg_send(which, journal, at(*port), *to, *priority, bytes.as_slice())),
        Call::MsgRecv { port, .. } => received(pair.msg_recv(which, journal, at(*port), out)),
        Call::Connect { port, to, kind } => {
            connected(pair.connect(which, journal, at(*port), *to, *kind))
        }
        Call::OpenSend { port, kind } => done(pair.open_send(which, journal, at(*port), *kind)),
        Call::OpenRecv { port, kind } => done(pair.open_recv(which, journal, at(*port), *kind)),
        Call::CloseSend { port } => done(pair.close_send(which, journal, at(*port))),
        Call::CloseRecv { port } => number(pair.close_recv(which, journal, at(*port))),
        Call::Test { .. } => ended(pair.test(which, journal, FIRST, out)),
        Call::Turn => {
            pair.turn(which, journal);
            Said::Done
        }
        _ => return None,
    };
    Some(said)
}

/// The answer as it is noted.
fn answer_of<'a>(said: Said, out: &'a [u8; ITEM_SIZE]) -> Answer<'a>
    ensures { bytes_in_answer result ≤ 8192 }
{
    match said {
        Said::Done => Answer::Ok,
        Said::Number(n) => Answer::Number(n),
        Said::Connected(request, channel) => Answer::Channel { request, channel },
        Said::Message(size) => {
            let (bytes, _) = out.split_at(ITEM_SIZE.min(size as usize));
            Answer::Bytes { size, bytes }
        }
        Said::Address(address) => Answer::Done {
            place: None,
            result: Told::Address(address),
        },
        Said::Refused(word) => Answer::Refused(word),
    }
}

/// Makes the call of a line, carries, and notes the answer by the line's number.
fn play_line(
    pair: &mut LinkedPair,
    which: Which,
    journal: &mut Journal,
    number: u32,
    line: &CallLine,
) -> Option<()> {
    reserve_call(journal).ok()?;
    let mut out = [0; ITEM_SIZE];
    let said = call(pair, which, journal, &line.call, &mut out)?;
    pair.carry();
    journal.reserve(1, ITEM_SIZE as u32).ok()?;
    let answer = answer_of(said, &out);
    journal.note(Entry::Called { number, answer });
    Some(())
}

/// Plays lines in their order. The first journal is that of domain 3.
fn play(
    pair: &mut LinkedPair,
    threes: &mut Journal,
    fours: &mut Journal,
    lines: &[CallLine],
) -> Option<()> {
    let (mut of_three, mut of_four) = (0u32, 0u32);
    for line in lines {
        if line.domain == 3 {
            of_three = of_three.checked_add(1)?;
            play_line(pair, Which::One, threes, of_three, line)?;
        } else {
            of_four = of_four.checked_add(1)?;
            play_line(pair, Which::Two, fours, of_four, line)?;
        }
    }
    Some(())
}

/// A domain of one node and a pool of two buffers.
fn member(number: u8) -> Member
    ensures { result ≡ record { number = number; nodes = 1; pool = 2 } }
{
    Member {
        number,
        nodes: 1,
        pool: 2,
    }
}

/// Plays lines over a new link of two buffers each way.
fn play_linked(
    alloc: Global,
    threes: &mut Journal,
    fours: &mut Journal,
    lines: &[CallLine],
) -> Option<()> {
    let mut pair = LinkedPair::open(alloc, member(3), member(4), 2).ok()?;
    play(&mut pair, threes, fours, lines)
}

/// Whether this is noted where a scenario is played over plain lanes.
pub fn is_noted(alloc: Global, text: &[u8], due: &[u8]) -> Option<bool> {
    let scenario = read(alloc, text)?;
    let mut threes = Journal::new(alloc).ok()?;
    let mut fours = Journal::new(alloc).ok()?;
    play_linked(alloc, &mut threes, &mut fours, scenario.calls.as_slice())?;
    super::is_noted(alloc, &[threes, fours], due)
}

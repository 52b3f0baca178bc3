ghost use Rattle.std.specs.Prelude.{◌≡◌, IfSome, Ok};
ghost use Rattle.board_model.specs.Language.{IsLawfulBoard, told_by};

use crate::threads::gates::{InOrder, Meeting};
use board_model::Scenario;
use board_runner::{Gate, NoGate, Outcome, Totals, run_bells, run_threads};
use domain_core::{Answer, Entry, Journal, Told};
use mc_base::Refusal;
use scenario_lang::read_scenario;
use std::alloc::{AllocError, Global};
use std::sync::Wait;
use std::test::Fail;
use std::thread::Threads;

mod bells;
pub mod gates;
mod raw;
mod rings;
mod waits;

pub fn read(alloc: Global, text: &[u8]) -> Option<Scenario>
    ensures told { IfSome result (λ s. told_by text.now ≡ Ok s) }
    ensures lawful { IfSome result IsLawfulBoard }
{
    if text.len() >= 8_000_000 {
        return None;
    }
    read_scenario(alloc, text).ok()
}

/// Runs a board whose lines pass this gate.
pub fn run<R: Threads + Sync, G: Gate + Sync>(
    rt: &R,
    alloc: Global,
    board: &[u8],
    gate: &G,
) -> Option<Outcome> {
    let scenario = read(alloc, board)?;
    run_threads(rt, alloc, &scenario, gate).ok()
}

/// Runs a board whose domains sleep where they wait without end.
pub fn run_asleep<R: Threads + Wait + Sync>(
    rt: &R,
    alloc: Global,
    board: &[u8],
) -> Option<Outcome> {
    let scenario = read(alloc, board)?;
    run_bells(rt, alloc, &scenario, &NoGate).ok()
}

/// The answer of a line of a domain's script.
pub fn answer_of(journal: &Journal, line: u32) -> Option<Answer<'_>> {
    for at in 0..journal.len() {
        if let Some(Entry::Called { number, answer }) = journal.entry(at) {
            if number == line {
                return Some(answer);
            }
        }
    }
    None
}

/// What a line answers.
#[derive(Clone, Copy)]
pub enum Due {
    Ok,
    Refused(Refusal),
    /// A message of this one byte.
    Received(u8),
    /// A wait found this address.
    Found(u32),
    /// A wait ended with the second of its requests, which brought this one byte.
    BroughtBySecond(u8),
}

/// Whether this is what a line answers.
fn is_due(answer: Answer<'_>, due: Due) -> bool {
    match answer {
        Answer::Ok => matches!(due, Due::Ok),
        Answer::Refused(refused) => matches!(due, Due::Refused(word) if word == refused),
        Answer::Bytes { size, bytes } => {
            matches!(due, Due::Received(byte) if size == 1 && bytes.first() == Some(&byte))
        }
        Answer::Done { place, result } => match result {
            Told::Address(found) => {
                matches!(due, Due::Found(address) if place == None && found == address)
            }
            Told::Bytes { size, bytes } => {
                matches!(due, Due::BroughtBySecond(byte) if place == Some(2) && size == 1 && bytes.first() == Some(&byte))
            }
            _ => false,
        },
        _ => false,
    }
}

/// A domain by its journal's place, the number of a line of its script, and what that line answers.
pub type Answered = (usize, u32, Due);

fn is_answered(outcome: &Outcome, (at, line, due): Answered) -> Option<bool> {
    let answer = answer_of(journal_at(outcome, at)?, line)?;
    Some(is_due(answer, due))
}

/// The first row whose line answers otherwise.
pub fn first_wrong(outcome: &Outcome, rows: &[Answered]) -> Option<usize> {
    for (i, row) in rows.iter().enumerate() {
        if is_answered(outcome, *row) != Some(true) {
            return Some(i);
        }
    }
    None
}

/// The journal at a place of an outcome.
pub fn journal_at(outcome: &Outcome, at: usize) -> Option<&Journal> {
    outcome.journals.as_slice().get(at)
}

// ---- two domains on two threads

const MEETING: &[u8] = b"domain 0 nodes 1 pool 2
domain 1 nodes 1 pool 2
link 0 1 size 2
0.0 create 1
1.0 create 2
";

/// Whether there are so many journals and rings.
fn has_sizes(outcome: &Outcome, journals: usize, rings: usize) -> bool {
    outcome.journals.as_slice().len() == journals && outcome.rings.as_slice().len() == rings
}

#[test]
fn two_domains_see_each_others_flag(rt: HostRuntime) -> Result<(), Fail> {
    let gate = Meeting::new();
    let outcome = run(&rt, rt.alloc(), MEETING, &gate).ok_or("memory")?;
    assert!(rt; gate.met() == 2 && has_sizes(&outcome, 2, 2));
    Ok(())
}

// ---- lines in an order

static ORDER: &[u8] = b"domain 0 nodes 1 pool 2
domain 1 nodes 1 pool 2
link 0 1 size 4
0.0 create 1
0.0 turn
0.0 msg_send 1 1:0:2 0 61
0.0 msg_send 1 1:0:2 0 62
0.0 turn
1.0 create 2
1.0 turn
1.0 msg_recv 2 488
1.0 msg_recv 2 488
1.0 turn
";

/// A place in the order: a domain and the number of a line of its script.
type Place = (u8, u32);

static FIRST: [Place; 8] = [
    (0, 1),
    (1, 1),
    (1, 2),
    (0, 2),
    (0, 3),
    (1, 3),
    (0, 4),
    (1, 4),
];

static SECOND: [Place; 8] = [
    (0, 1),
    (1, 1),
    (1, 2),
    (0, 2),
    (1, 3),
    (0, 3),
    (0, 4),
    (1, 4),
];

static THIRD: [Place; 8] = [
    (0, 1),
    (1, 1),
    (0, 2),
    (0, 3),
    (1, 2),
    (1, 3),
    (0, 4),
    (1, 4),
];

/// Runs a board with its lines in this order, or returns `None` where a line waited in vain.
fn run_in<R: Threads + Sync>(
    rt: &R,
    alloc: Global,
    board: &[u8],
    order: &[Place],
) -> Option<Outcome> {
    let mut list = Vec::new(alloc);
    list.extend_from_slice(order).ok()?;
    let gate = InOrder::new(list);
    let outcome = run(rt, alloc, board, &gate)?;
    if gate.gave_up() { None } else { Some(outcome) }
}

static ANSWERS_IN_FIRST: [Answered; 4] = [
    (0, 3, Due::Ok),
    (0, 4, Due::Ok),
    (1, 3, Due::Received(0x61)),
    (1, 4, Due::Received(0x62)),
];

#[test]
fn each_message_is_received_where_it_is_sent_first(rt: HostRuntime) -> Result<(), Fail> {
    let outcome = run_in(&rt, rt.alloc(), ORDER, &FIRST).ok_or("order")?;
    assert!(rt; first_wrong(&outcome, &ANSWERS_IN_FIRST) == None);
    Ok(())
}

static ANSWERS_IN_SECOND: [Answered; 4] = [
    (0, 3, Due::Ok),
    (0, 4, Due::Ok),
    (1, 3, Due::Refused(Refusal::Empty)),
    (1, 4, Due::Received(0x61)),
];

#[test]
fn a_receive_before_the_send_finds_nothing(rt: HostRuntime) -> Result<(), Fail> {
    let outcome = run_in(&rt, rt.alloc(), ORDER, &SECOND).ok_or("order")?;
    assert!(rt; first_wrong(&outcome, &ANSWERS_IN_SECOND) == None);
    Ok(())
}

static ANSWERS_IN_THIRD: [Answered; 4] = [
    (0, 3, Due::Refused(Refusal::PeerInvalid)),
    (0, 4, Due::Ok),
    (1, 3, Due::Refused(Refusal::Empty)),
    (1, 4, Due::Received(0x62)),
];

#[test]
fn a_name_is_unknown_until_its_domain_made_a_turn(rt: HostRuntime) -> Result<(), Fail> {
    let outcome = run_in(&rt, rt.alloc(), ORDER, &THIRD).ok_or("order")?;
    assert!(rt; first_wrong(&outcome, &ANSWERS_IN_THIRD) == None);
    Ok(())
}

// ---- one domain

const ONE: &[u8] = b"domain 0 nodes 1 pool 2
0.0 create 1
0.0 create 2
0.0 msg_send 1 0:0:2 1 6869
0.0 msg_recv 2 488
";

const ONE_MESSAGE: Totals = Totals {
    accepted: 1,
    taken: 1,
    dropped: 0,
    queued: 0,
    ring: 0,
};

#[test]
fn two_endpoints_one_message(rt: HostRuntime) -> Result<(), Fail> {
    let outcome = run(&rt, rt.alloc(), ONE, &NoGate).ok_or("memory")?;
    assert!(rt; outcome.messages == ONE_MESSAGE && outcome.rings.as_slice().len() == 0);
    Ok(())
}

// ---- eight domains

/// Eight domains with a link of this size between each two. Each looks up each other, waits for it, sends it a message and receives seven.
fn all_linked(alloc: Global, size: &[u8]) -> Result<Vec<u8>, AllocError> {
    let mut text = Vec::new(alloc);
    add_board(&mut text, size)?;
    for domain in 0..8 {
        add_digit(&mut text, b"", domain, b".0 create 1\n")?;
    }
    for one in 0..8 {
        for two in 0..8 {
            if one != two {
                add_message(&mut text, one, two)?;
            }
        }
    }
    for _message in 0..7 {
        for domain in 0..8 {
            add_digit(&mut text, b"", domain, b".0 try 4294967295 msg_recv 1 9\n")?;
        }
    }
    Ok(text)
}

fn add_board(text: &mut Vec<u8>, size: &[u8]) -> Result<(), AllocError> {
    for domain in 0..8 {
        add_digit(text, b"domain ", domain, b" nodes 1 pool 2\n")?;
    }
    for one in 0..8 {
        for two in one + 1..8 {
            add_digit(text, b"link ", one, b" ")?;
            add_digit(text, b"", two, b" size ")?;
            text.extend_from_slice(size)?;
            text.extend_from_slice(b"\n")?;
        }
    }
    Ok(())
}

/// Looks up the endpoint of the other domain and sends it a message.
fn add_message(text: &mut Vec<u8>, one: u8, two: u8) -> Result<(), AllocError> {
    add_digit(text, b"", one, b".0 n")?;
    add_digit(text, b"", one, b"")?;
    add_digit(text, b"_", two, b" = lookup ")?;
    add_digit(text, b"", two, b":0:1\n")?;
    add_digit(text, b"", one, b".0 wait n")?;
    add_digit(text, b"", one, b"_")?;
    add_digit(text, b"", two, b" 4294967295\n")?;
    add_digit(text, b"", one, b".0 try 4294967295 msg_send 1 ")?;
    add_digit(text, b"", two, b":0:1 1 5a\n")
}

/// Adds a digit between two pieces of text.
fn add_digit(text: &mut Vec<u8>, before: &[u8], digit: u8, after: &[u8]) -> Result<(), AllocError> {
    text.extend_from_slice(before)?;
    text.push(b'0'.wrapping_add(digit))?;
    text.extend_from_slice(after)
}

const ALL_TAKEN: Totals = Totals {
    accepted: 56,
    taken: 56,
    dropped: 0,
    queued: 0,
    ring: 0,
};

fn are_all_taken(outcome: &Outcome) -> bool {
    outcome.messages == ALL_TAKEN && outcome.rings.as_slice().len() == 56
}

#[test]
fn eight_domains_send_each_other_a_message(rt: HostRuntime) -> Result<(), Fail> {
    for size in [b"2".as_slice(), b"256"] {
        let text = all_linked(rt.alloc(), size)?;
        assert!(rt; are_all_taken(&run(&rt, rt.alloc(), &text, &NoGate).ok_or("memory")?));
        assert!(rt; are_all_taken(&run_asleep(&rt, rt.alloc(), &text).ok_or("memory")?));
    }
    Ok(())
}

// ---- a host with two remotes

static HOST_BOARD: &[u8] = b"domain 0 nodes 1 pool 2
domain 1 nodes 1 pool 2
domain 2 nodes 1 pool 2
link 0 1 size 256
link 0 2 size 256
0.0 create 1
0.0 one = lookup 1:0:1
0.0 two = lookup 2:0:1
0.0 try 100000000 test one
0.0 try 100000000 test two
1.0 create 1
1.0 host = lookup 0:0:1
1.0 try 100000000 test host
2.0 create 1
2.0 host = lookup 0:0:1
2.0 try 100000000 test host
";

static HOST_ROUND: &[u8] = b"0.0 try 100000000 msg_send 1 1:0:1 1 7069
0.0 try 100000000 msg_send 1 2:0:1 1 7069
0.0 try 100000000 msg_recv 1 9
0.0 try 100000000 msg_recv 1 9
1.0 try 100000000 msg_send 1 0:0:1 1 706f
1.0 try 100000000 msg_recv 1 9
2.0 try 100000000 msg_send 1 0:0:1 1 706f
2.0 try 100000000 msg_recv 1 9
";

/// The host sends 300 messages to each remote and receives as many from each.
fn host_and_remotes(alloc: Global) -> Result<Vec<u8>, AllocError> {
    let mut text = Vec::new(alloc);
    text.extend_from_slice(HOST_BOARD)?;
    for _round in 0..300 {
        text.extend_from_slice(HOST_ROUND)?;
    }
    Ok(text)
}

const HOST_TOTALS: Totals = Totals {
    accepted: 1200,
    taken: 1200,
    dropped: 0,
    queued: 0,
    ring: 0,
};

#[test]
fn a_host_and_two_remotes_ten_times(rt: HostRuntime) -> Result<(), Fail> {
    let text = host_and_remotes(rt.alloc())?;
    for _run in 0..10 {
        let outcome = run(&rt, rt.alloc(), &text, &NoGate).ok_or("memory")?;
        assert!(rt; outcome.messages == HOST_TOTALS && outcome.rings.as_slice().len() == 4);
    }
    Ok(())
}

// ---- a slow receiver

static SLOW: &[u8] = b"domain 0 nodes 1 pool 2
domain 1 nodes 1 pool 2
link 0 1 size 2
0.0 create 1
0.0 slow = lookup 1:0:2
0.0 test slow
0.0 msg_send 1 1:0:2 0 61
0.0 msg_send 1 1:0:2 0 62
0.0 msg_send 1 1:0:2 0 63
0.0 try 4294967295 msg_send 1 1:0:2 0 64
1.0 create 2
1.0 turn
1.0 try 4294967295 msg_recv 2 488
1.0 try 4294967295 msg_recv 2 488
1.0 try 4294967295 msg_recv 2 488
";

/// The receiver takes nothing until three messages were sent.
static SLOW_RECEIVER: [Place; 9] = [
    (0, 1),
    (0, 2),
    (1, 1),
    (1, 2),
    (0, 3),
    (0, 4),
    (0, 5),
    (0, 6),
    (1, 3),
];

static ANSWERS_OF_SLOW: [Answered; 7] = [
    (0, 4, Due::Ok),
    (0, 5, Due::Ok),
    (0, 6, Due::Refused(Refusal::NoBuffer)),
    (0, 7, Due::Ok),
    (1, 3, Due::Received(0x61)),
    (1, 4, Due::Received(0x62)),
    (1, 5, Due::Received(0x64)),
];

#[test]
fn a_sender_without_a_buffer_goes_on_once_the_receiver_took_one(
    rt: HostRuntime,
) -> Result<(), Fail> {
    let outcome = run_in(&rt, rt.alloc(), SLOW, &SLOW_RECEIVER).ok_or("order")?;
    assert!(rt; first_wrong(&outcome, &ANSWERS_OF_SLOW) == None);
    Ok(())
}

ghost use Rattle.std.specs.Prelude.{◌≤◌};
ghost use Rattle.domain_core.specs.Ends.{EndsMoved};
ghost use Rattle.domain_core.specs.Going.{Goes};

use domain_core::{Domain, Entry, Journal, Places, may_cross_threads};
use lane_end::{AnyRecv, AnySend, RecvEnd, SendEnd};
use mc_base::{EndName, Fate, Local, NoMemory, Priority, Refusal, RequestId};
use std::alloc::Global;
use std::process::Abort;
use std::test::Fail;

mod boards;
mod frames;
mod lanes;
mod limits;
mod steps;

/// A call at node 0, but for what it says. A message has the same byte throughout.
#[derive(Clone, Copy)]
enum Call {
    /// Makes an endpoint at a node and port.
    Create(u8, u16),
    /// Sends from a port to a port of domain 3: the priority, the byte, and how often it stands.
    Send(u16, u16, u8, u8, usize),
    /// Sends two bytes from a port to a port of domain 4.
    SendAbroad(u16, u16),
    /// Sends to an endpoint of domain 4 this byte, so often.
    SendLong(u16, u16, u8, usize),
    /// Receives at a port at most so many bytes, each of which must be this one.
    Receive(u16, usize, u8),
}

use Call::{Create, Receive, Send, SendAbroad, SendLong};

/// A call, and what it answers: the address, 0 for a message that was sent, or the size of one that was received.
type Answered = (Call, Result<u32, Refusal>);

/// A domain without links: its number is 3.
fn alone(
    alloc: Global,
    nodes: u8,
    pool: u32,
) -> Result<Domain<AnySend<'static>, AnyRecv<'static>>, NoMemory>
    requires some_nodes { 1 ≤ nodes }
    requires nodes { nodes ≤ 16 }
    requires some_pool { 1 ≤ pool }
    requires pool { pool ≤ 256 }
{
    Domain::open(alloc, 3, nodes, pool, Vec::new(alloc))
}

/// A domain without links, what it noted, and the ids of its requests.
#[derive(Drop)]
struct Lone {
    journal: Journal,
    ids: Vec<RequestId>,
    domain: Domain<AnySend<'static>, AnyRecv<'static>>,
}

impl Lone {
    /// With so many nodes, and so many buffers in its pool.
    fn open(alloc: Global, nodes: u8, pool: u32) -> Result<Lone, Fail>
        requires some_nodes { 1 ≤ nodes }
        requires nodes { nodes ≤ 16 }
        requires some_pool { 1 ≤ pool }
        requires pool { pool ≤ 256 }
    {
        Ok(Lone {
            journal: Journal::new(alloc)?,
            ids: Vec::new(alloc),
            domain: alone(alloc, nodes, pool)?,
        })
    }
}

/// Asserts something of a value, where it was made, and drops it. To drop what owns much takes long to prove, and so it is
/// done here alone.
fn assert_of<T: Drop, F: FnOnce(&mut T) -> Result<(), Fail>>(
    opened: Result<T, Fail>,
    assertion: F,
) -> Result<(), Fail>
    requires { F.IsAlwaysCallable assertion }
{
    checked(opened, assertion)?;
    Ok(())
}

/// Asserts something of a value, where it was made, and gives it back.
fn checked<T: Drop, F: FnOnce(&mut T) -> Result<(), Fail>>(
    opened: Result<T, Fail>,
    assertion: F,
) -> Result<T, Fail>
    requires { F.IsAlwaysCallable assertion }
{
    let mut value = opened?;
    assertion(&mut value)?;
    Ok(value)
}

/// Makes a call. Answers `None` where a message has other bytes than it must.
fn made<S: SendEnd, R: RecvEnd>(
    domain: &mut Domain<S, R>,
    journal: &mut Journal,
    call: Call,
) -> Option<Result<u32, Refusal>>
    requires entry_room { 176 ≤ journal.old.entry_room }
    requires byte_room { 90112 ≤ journal.old.byte_room }
    ensures { Goes (EndsMoved S.Moved R.Moved) domain.old domain.new }
{
    match call {
        Create(node, port) => Some(domain.create(journal, Local { node, port })),
        Send(from, to, priority, byte, size) => sent(
            domain,
            journal,
            from,
            end_at(3, to),
            priority,
            byte,
            size,
        ),
        SendAbroad(from, to) => sent(domain, journal, from, end_at(4, to), 0, 0, 2),
        SendLong(from, to, byte, size) => sent(domain, journal, from, end_at(4, to), 0, byte, size),
        Receive(port, max, byte) => received(domain, journal, port, max, byte),
    }
}

/// The endpoint of a domain at node 0 and this port.
fn end_at(domain: u8, port: u16) -> EndName {
    EndName {
        domain,
        node: 0,
        port,
    }
}

fn sent<S: SendEnd, R: RecvEnd>(
    domain: &mut Domain<S, R>,
    journal: &mut Journal,
    from: u16,
    to: EndName,
    priority: u8,
    byte: u8,
    size: usize,
) -> Option<Result<u32, Refusal>>
    requires entry_room { 176 ≤ journal.old.entry_room }
    requires byte_room { 90112 ≤ journal.old.byte_room }
    ensures { Goes (EndsMoved S.Moved R.Moved) domain.old domain.new }
{
    let Some(priority) = Priority::new(priority) else {
        domain.turn(journal);
        return None;
    };
    let content = [byte; 8193];
    let (bytes, _) = content.split_at(size.min(8193));
    let from = Local {
        node: 0,
        port: from,
    };
    let answer = domain.msg_send(journal, from, to, priority, bytes);
    Some(answer.map(|()| 0))
}

/// What lies behind the bytes that are given must stay.
fn received<S: SendEnd, R: RecvEnd>(
    domain: &mut Domain<S, R>,
    journal: &mut Journal,
    port: u16,
    max: usize,
    byte: u8,
) -> Option<Result<u32, Refusal>>
    requires entry_room { 176 ≤ journal.old.entry_room }
    requires byte_room { 90112 ≤ journal.old.byte_room }
    ensures { Goes (EndsMoved S.Moved R.Moved) domain.old domain.new }
{
    let mut buffer = [0xee; 8192];
    let (out, _) = buffer.split_at_mut(max.min(8192));
    let answer = domain.msg_recv(journal, Local { node: 0, port }, out);
    let given = match answer {
        Ok(got) => got.given as usize,
        Err(_) => 0,
    };
    if !is_given(out, given, byte) {
        return None;
    }
    Some(answer.map(|got| got.size))
}

/// Whether the first bytes are this one, and the others what they were.
fn is_given(out: &[u8], given: usize, byte: u8) -> bool {
    for (i, b) in out.iter().enumerate() {
        if *b != if i < given { byte } else { 0xee } {
            return false;
        }
    }
    true
}

/// Whether a call answers what it must.
fn answers<S: SendEnd, R: RecvEnd>(
    domain: &mut Domain<S, R>,
    journal: &mut Journal,
    (call, due): Answered,
) -> Result<bool, NoMemory> {
    journal.reserve(176, 90_112)?;
    Ok(made(domain, journal, call) == Some(due))
}

/// Asserts what each call answers. The rows have a name.
fn assert_answers<S: SendEnd, R: RecvEnd>(
    rt: &impl Abort,
    domain: &mut Domain<S, R>,
    journal: &mut Journal,
    name: &str,
    rows: &[Answered],
) -> Result<(), Fail> {
    for (i, row) in rows.iter().enumerate() {
        assert!(rt; answers(domain, journal, *row)?, "{name}, row {i}");
    }
    Ok(())
}

/// The same of a domain without links.
fn assert_calls(
    rt: &impl Abort,
    lone: &mut Lone,
    name: &str,
    rows: &[Answered],
) -> Result<(), Fail> {
    assert_answers(rt, &mut lone.domain, &mut lone.journal, name, rows)
}

const ANSWERS_OF_CALLS: [Answered; 20] = [
    (Create(0, 1), Ok(1024)),
    (Create(0, 2), Ok(1025)),
    (Create(1, 1), Ok(1026)),
    (Create(2, 3), Err(Refusal::NodeInvalid)),
    (Create(0, 1), Err(Refusal::ExistsAlready)),
    (Send(9, 2, 1, 0, 2), Err(Refusal::EndpInvalid)),
    (Send(1, 9, 1, 0, 2), Err(Refusal::PeerInvalid)),
    (SendAbroad(1, 2), Err(Refusal::PeerInvalid)),
    (Send(1, 2, 1, 0, 8193), Err(Refusal::MsgSize)),
    (Receive(9, 488, 0), Err(Refusal::EndpInvalid)),
    (Receive(2, 488, 0), Err(Refusal::Empty)),
    (Send(1, 2, 0, 0, 0), Ok(0)),
    (Send(1, 2, 0, 7, 488), Ok(0)),
    (Send(1, 2, 0, 8, 2), Err(Refusal::NoBuffer)),
    (Receive(2, 488, 0), Ok(0)),
    (Send(1, 2, 0, 9, 5), Ok(0)),
    (Receive(2, 488, 7), Ok(488)),
    (Receive(2, 2, 9), Ok(5)),
    (Send(2, 1, 3, 1, 2), Ok(0)),
    (Receive(1, 0, 1), Ok(2)),
];

const FOUR_PRIORITIES: [Answered; 8] = [
    (Create(0, 1), Ok(1024)),
    (Send(1, 1, 2, 20, 1), Ok(0)),
    (Send(1, 1, 0, 1, 2), Ok(0)),
    (Send(1, 1, 1, 10, 3), Ok(0)),
    (Send(1, 1, 0, 2, 4), Ok(0)),
    (Receive(1, 488, 1), Ok(2)),
    (Receive(1, 488, 2), Ok(4)),
    (Receive(1, 488, 10), Ok(3)),
];

const MESSAGES_APART: [Answered; 12] = [
    (Create(0, 1), Ok(1024)),
    (Create(0, 2), Ok(1025)),
    (Send(1, 2, 1, 7, 3), Ok(0)),
    (Send(2, 1, 1, 9, 5), Ok(0)),
    (Receive(1, 488, 9), Ok(5)),
    (Send(2, 2, 0, 8, 4), Ok(0)),
    (Receive(1, 488, 0), Err(Refusal::Empty)),
    (Receive(2, 488, 8), Ok(4)),
    (Send(1, 1, 3, 6, 488), Ok(0)),
    (Receive(2, 488, 7), Ok(3)),
    (Receive(1, 488, 6), Ok(488)),
    (Receive(2, 488, 0), Err(Refusal::Empty)),
];

/// A message goes in frames of 484 bytes where it has more than 488, and all are put or none.
const LARGE_MESSAGES: [Answered; 14] = [
    (Create(0, 1), Ok(1024)),
    (Create(0, 2), Ok(1025)),
    (Send(1, 2, 0, 7, 1000), Ok(0)),
    (Send(1, 2, 0, 8, 1000), Err(Refusal::NoBuffer)),
    (Send(1, 2, 0, 8, 1937), Err(Refusal::MsgSize)),
    (Send(1, 2, 0, 8, 489), Err(Refusal::NoBuffer)),
    (Send(1, 2, 0, 9, 488), Ok(0)),
    (Receive(2, 8192, 7), Ok(1000)),
    (Send(2, 1, 3, 6, 1452), Ok(0)),
    (Receive(1, 700, 6), Ok(1452)),
    (Receive(2, 8192, 9), Ok(488)),
    (Send(2, 2, 1, 5, 1936), Ok(0)),
    (Receive(2, 8192, 5), Ok(1936)),
    (Receive(2, 8192, 0), Err(Refusal::Empty)),
];

/// A turn takes eight frames at most, and the message is there with its seventeenth.
const LARGEST_MESSAGE: [Answered; 6] = [
    (Create(0, 1), Ok(1024)),
    (Send(1, 1, 2, 3, 8193), Err(Refusal::MsgSize)),
    (Send(1, 1, 2, 3, 8192), Ok(0)),
    (Send(1, 1, 2, 4, 0), Err(Refusal::NoBuffer)),
    (Receive(1, 8192, 0), Err(Refusal::Empty)),
    (Receive(1, 8192, 3), Ok(8192)),
];

/// A name, the nodes of a new domain, the buffers of its pool, the rows, and how many messages are queued in the end, each in a buffer of
/// the domain's own.
type Case = (&'static str, u8, u32, &'static [Answered], u32);

static CASES: [Case; 5] = [
    ("each answer of a call", 2, 2, &ANSWERS_OF_CALLS, 0),
    ("the best priority comes first", 1, 4, &FOUR_PRIORITIES, 1),
    ("each message keeps its own bytes", 1, 2, &MESSAGES_APART, 0),
    ("messages of several frames", 1, 4, &LARGE_MESSAGES, 0),
    ("the largest message", 1, 17, &LARGEST_MESSAGE, 0),
];

/// Whether so many messages are queued, and nothing is held of a domain to which there is no lane.
fn has_queued(domain: &Domain<AnySend, AnyRecv>, messages: u32) -> bool {
    let own = Places {
        queue: messages,
        lent: 0,
    };
    domain.messages_queued() == messages
        && domain.places(3) == Some(own)
        && domain.places(4).is_none()
}

fn assert_case(rt: &impl Abort, alloc: Global, case: &Case) -> Result<(), Fail> {
    let (name, nodes, pool, rows, queued) = *case;
    let opened = Lone::open(alloc, nodes.clamp(1, 16), pool.clamp(1, 256));
    assert_of(opened, |lone| {
        assert_calls(rt, lone, name, rows)?;
        assert!(rt; has_queued(&lone.domain, queued), "{name}");
        Ok(())
    })
}

#[test]
fn calls_answer(rt: HostRuntime) -> Result<(), Fail> {
    may_cross_threads();
    for case in &CASES {
        assert_case(&rt, rt.alloc(), case)?;
    }
    Ok(())
}

/// Makes 64 endpoints, and asserts that there is no more room.
fn assert_filled(rt: &impl Abort, lone: &mut Lone) -> Result<(), Fail> {
    for port in 0..64 {
        let row = (Create(0, port), Ok(1024 + u32::from(port)));
        assert!(rt;
            answers(&mut lone.domain, &mut lone.journal, row)?,
            "{port}"
        );
    }
    assert_calls(
        rt,
        lone,
        "none is left",
        &[(Create(0, 64), Err(Refusal::EndpLimit))],
    )
}

#[test]
fn sixty_four_endpoints_at_once(rt: HostRuntime) -> Result<(), Fail> {
    assert_of(
        Lone::open(rt.alloc(), 1, 1),
        |lone| assert_filled(&rt, lone),
    )
}

/// An entry as its kind, its peer or its line, its count or its fate, and how many bytes it has.
type Line = (u8, u64, u64, usize);

fn told(entry: Entry<'_>) -> Line {
    match entry {
        Entry::Turn => (b't', 0, 0, 0),
        Entry::Back { peer, count } => (b'b', u64::from(peer), u64::from(count), 0),
        Entry::Put { peer, frame } => (b'p', u64::from(peer), 0, frame.len()),
        Entry::See { peer, count } => (b's', u64::from(peer), u64::from(count), 0),
        Entry::Take { peer, frame, fate } => {
            let word = match fate {
                Fate::Queued => 1,
                Fate::Handed => 2,
                _ => 0,
            };
            (b'q', u64::from(peer), word, frame.len())
        }
        Entry::Idle { turns } => (b'i', 0, turns, 0),
        Entry::Again { .. } => (b'a', 0, 0, 0),
        Entry::Spin { times, .. } => (b'w', 0, times, 0),
        Entry::WaitStart { number } => (b'v', u64::from(number), 0, 0),
        Entry::Called { number, .. } => (b'c', u64::from(number), 0, 0),
    }
}

/// Asserts that the journal's entries are these.
fn assert_lines(rt: &impl Abort, journal: &Journal, lines: &[Line]) {
    assert!(rt; journal.len() == lines.len());
    assert_last_lines(rt, journal, lines);
}

/// Asserts that the journal's last entries are these.
fn assert_last_lines(rt: &impl Abort, journal: &Journal, lines: &[Line]) {
    let before = journal.len().saturating_sub(lines.len());
    for (i, line) in lines.iter().enumerate() {
        assert!(rt;
            line_at(journal, before.saturating_add(i)) == Some(*line),
            "line {i}"
        );
    }
    assert!(rt; journal.entry(journal.len()).is_none());
}

fn line_at(journal: &Journal, i: usize) -> Option<Line> {
    Some(told(journal.entry(i)?))
}

const CALLS: [Call; 5] = [
    Create(0, 1),
    Create(0, 2),
    Send(1, 2, 1, 7, 2),
    Receive(2, 488, 7),
    Create(0, 1),
];

const LINES_OF_CALLS: [Line; 7] = [
    (b'i', 0, 3, 0),
    (b'p', 3, 0, 26),
    (b't', 0, 0, 0),
    (b's', 3, 1, 0),
    (b'q', 3, 1, 26),
    (b't', 0, 0, 0),
    (b'b', 3, 1, 0),
];

fn make_all(lone: &mut Lone, calls: &[Call]) -> Result<(), NoMemory> {
    for call in calls {
        lone.journal.reserve(176, 90_112)?;
        made(&mut lone.domain, &mut lone.journal, *call);
    }
    Ok(())
}

#[test]
fn what_happens_is_noted(rt: HostRuntime) -> Result<(), Fail> {
    assert_of(Lone::open(rt.alloc(), 1, 2), |lone| {
        make_all(lone, &CALLS)?;
        assert_lines(&rt, &lone.journal, &LINES_OF_CALLS);
        Ok(())
    })
}

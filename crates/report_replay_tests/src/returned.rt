//! The names of the frames whose buffers a call or a frame gives back.

ghost use Rattle.std.specs.Prelude.{IfOk};
ghost use Rattle.board_model.proofs.StateEnds.{Ends};

use arrayvec::ArrayVec;
use mc_base::{Bits, Fate, Kind, NoMemory, Side};
use report_replay::{DomainCall, FrameNames, State};
use std::alloc::Global;
use std::process::Abort;
use std::test::Fail;

/// Messages of one byte from address 1030 of domain 1 to address 1024, of priorities 2 and 1.
const LATE: &[u8] = &[
    6, 4, 0, 0, 0, 4, 0, 0, 0, 0, 0, 0, 9, 0, 0, 0, 0x4d, 1, 1, 2, 0, 0, 0, 0, 0xab,
];

const SOON: &[u8] = &[
    6, 4, 0, 0, 0, 4, 0, 0, 0, 0, 0, 0, 9, 0, 0, 0, 0x4d, 1, 1, 1, 0, 0, 0, 0, 0xcd,
];

/// Connects from address 1030 of domain 1 to address 1024, on its channel 1, and a packet and a scalar on it.
const CONNECT_PACKETS: &[u8] = &[
    6, 4, 0, 0, 0, 4, 0, 0, 0, 0, 0, 0, 8, 0, 0, 0, 0x4d, 1, 2, 0, 1, 0, 0, 0,
];

const CONNECT_SCALARS: &[u8] = &[
    6, 4, 0, 0, 0, 4, 0, 0, 0, 0, 0, 0, 8, 0, 0, 0, 0x4d, 1, 2, 1, 1, 0, 0, 0,
];

const PACKET: &[u8] = &[
    6, 4, 0, 0, 0, 4, 0, 0, 0, 0, 0, 0, 9, 0, 0, 0, 0x4d, 1, 7, 0, 1, 0, 0, 0, 0xab,
];

const SCALAR: &[u8] = &[
    6, 4, 0, 0, 0, 4, 0, 0, 0, 0, 0, 0, 9, 0, 0, 0, 0x4d, 1, 8, 1, 1, 0, 0, 0, 0xab,
];

/// Parts of a message of six bytes and priority 1 from address 1030 of domain 1 to address 1024: the first two bytes, the next two, the fifth,
/// the sixth, the last two, and the last two of another priority.
const FIRST_TWO: &[u8] = &[
    6, 4, 0, 0, 0, 4, 0, 0, 0, 0, 0, 0, 14, 0, 0, 0, 0x4d, 2, 1, 1, 0, 0, 0, 0, 6, 0, 0, 0, 0x01,
    0x02,
];

const NEXT_TWO: &[u8] = &[
    6, 4, 0, 0, 0, 4, 0, 0, 0, 0, 0, 0, 14, 0, 0, 0, 0x4d, 2, 1, 1, 0, 0, 0, 0, 6, 0, 2, 0, 0x03,
    0x04,
];

const FIFTH: &[u8] = &[
    6, 4, 0, 0, 0, 4, 0, 0, 0, 0, 0, 0, 13, 0, 0, 0, 0x4d, 2, 1, 1, 0, 0, 0, 0, 6, 0, 4, 0, 0x05,
];

const SIXTH: &[u8] = &[
    6, 4, 0, 0, 0, 4, 0, 0, 0, 0, 0, 0, 13, 0, 0, 0, 0x4d, 2, 1, 1, 0, 0, 0, 0, 6, 0, 5, 0, 0x06,
];

const LAST_TWO: &[u8] = &[
    6, 4, 0, 0, 0, 4, 0, 0, 0, 0, 0, 0, 14, 0, 0, 0, 0x4d, 2, 1, 1, 0, 0, 0, 0, 6, 0, 4, 0, 0x05,
    0x06,
];

const OTHER_TWO: &[u8] = &[
    6, 4, 0, 0, 0, 4, 0, 0, 0, 0, 0, 0, 14, 0, 0, 0, 0x4d, 2, 1, 2, 0, 0, 0, 0, 6, 0, 4, 0, 0x05,
    0x06,
];

/// A part of two bytes that is the whole message.
const BOTH: &[u8] = &[
    6, 4, 0, 0, 0, 4, 0, 0, 0, 0, 0, 0, 14, 0, 0, 0, 0x4d, 2, 1, 1, 0, 0, 0, 0, 2, 0, 0, 0, 0x01,
    0x02,
];

/// Calls at port 7 of node 0, which has address 1024.
const PORT: u16 = 7;

/// A call. A request and a lent packet are named by their places.
#[derive(Clone, Copy)]
enum Call {
    Delete,
    Receive,
    Request,
    /// Opens the receiver's end of a channel.
    Open(Kind),
    RequestPacket,
    Release(usize),
    ReceiveByte,
    /// Closes the receiver's end of a channel.
    Close,
    Test(usize),
    /// Waits for one request.
    Wait(usize),
}

/// What happens in a domain, or what is asked of it.
#[derive(Clone, Copy)]
enum Event {
    /// A call is made, and not refused.
    Made(Call),
    /// A frame of this name comes from domain 1, and has this word.
    Came(u32, &'static [u8], Fate),
    /// The buffers of these frames of a domain came back so far.
    Back(u8, &'static [u32]),
    /// So many buffers of the lane from domain 1 are held, in queues and in its open part.
    Queued(u64),
}

use Call::{
    Close, Delete, Open, Receive, ReceiveByte, Release, Request, RequestPacket, Test, Wait,
};
use Event::{Back, Came, Made, Queued};

fn call_of(call: Call) -> DomainCall<'static> {
    match call {
        Delete => DomainCall::Delete { port: PORT },
        Receive => DomainCall::Receive { port: PORT, max: 9 },
        Request => DomainCall::Request { port: PORT, max: 9 },
        Open(kind) => DomainCall::Open {
            port: PORT,
            side: Side::Receiver,
            kind,
        },
        RequestPacket => DomainCall::RequestPacket { port: PORT },
        Release(place) => DomainCall::Release {
            packet: Some(place),
        },
        ReceiveByte => DomainCall::ReceiveScalar {
            port: PORT,
            bits: Bits::B8,
        },
        Close => DomainCall::Close {
            port: PORT,
            side: Side::Receiver,
        },
        Test(place) => DomainCall::Test {
            request: Some(place),
        },
        Wait(place) => wait_for(place),
    }
}

fn wait_for(place: usize) -> DomainCall<'static> {
    let mut requests = ArrayVec::new();
    requests.push(Some(place));
    DomainCall::Wait {
        requests,
        says_place: false,
    }
}

/// Makes a call that is not refused, and notes what it gives back.
fn make(
    state: &mut State,
    alloc: Global,
    call: &DomainCall<'_>,
    names: &mut FrameNames,
) -> Result<bool, NoMemory>
    requires { Ends state.old }
    ensures { IfOk result (λ made. Ends state.new) }
{
    if state.refusal(0, call).is_some() {
        return Ok(false);
    }
    state.note_returned(0, call, names)?;
    state.succeed(alloc, 0, call)?;
    Ok(true)
}

/// Takes a frame of domain 1, by this name, and notes what it gives back.
fn take(
    state: &mut State,
    alloc: Global,
    name: u32,
    frame: &[u8],
    names: &mut FrameNames,
) -> Result<Fate, NoMemory>
    requires { Ends state.old }
    ensures { IfOk result (λ word. Ends state.new) }
{
    state.take(alloc, 1, Some(name), frame, names)
}

/// Domain 0 with one node and an endpoint, whose lanes to itself have two buffers, and to domain 1 eight.
fn opened(alloc: Global, names: &mut FrameNames) -> Result<State, NoMemory>
    ensures { IfOk result (λ state. Ends state) }
{
    let mut state = State::open(alloc, 0, 1, &[(0, 2), (1, 8)])?;
    let _made = make(&mut state, alloc, &DomainCall::Create { port: PORT }, names)?;
    Ok(state)
}

/// Whether an event comes as it must.
fn happens(
    state: &mut State,
    alloc: Global,
    names: &mut FrameNames,
    event: Event,
) -> Result<bool, NoMemory>
    requires { Ends state.old }
    ensures { IfOk result (λ as_due. Ends state.new) }
{
    match event {
        Made(call) => make(state, alloc, &call_of(call), names),
        Came(name, frame, word) => Ok(take(state, alloc, name, frame, names)? == word),
        Back(peer, due) => Ok(names.from_peer(peer) == due),
        Queued(count) => Ok(state.queued_from(1) == count),
    }
}

/// Asserts that each event comes as it must.
fn assert_events(
    rt: &impl Abort,
    state: &mut State,
    alloc: Global,
    names: &mut FrameNames,
    events: &[Event],
) -> Result<(), Fail>
    requires { Ends state.old }
{
    for (i, event) in events.iter().enumerate() {
        assert!(rt; happens(state, alloc, names, *event)?, "event {i}");
    }
    Ok(())
}

/// The same in a new domain.
fn assert_all(rt: &impl Abort, alloc: Global, events: &[Event]) -> Result<(), Fail> {
    let mut names = FrameNames::new(alloc);
    let mut state = opened(alloc, &mut names)?;
    assert_events(rt, &mut state, alloc, &mut names, events)
}

static DELETED: [Event; 6] = [
    Came(0, LATE, Fate::Queued),
    Came(1, SOON, Fate::Queued),
    Made(Delete),
    Back(1, &[0, 1]),
    Back(0, &[]),
    Back(8, &[]),
];

#[test]
fn a_delete_gives_back_what_is_queued_in_order(rt: HostRuntime) -> Result<(), Fail> {
    assert_all(&rt, rt.alloc(), &DELETED)
}

static RECEIVED: [Event; 5] = [
    Came(0, LATE, Fate::Queued),
    Came(1, SOON, Fate::Queued),
    Made(Receive),
    Made(Receive),
    Back(1, &[1, 0]),
];

#[test]
fn a_receive_gives_back_the_best_message(rt: HostRuntime) -> Result<(), Fail> {
    assert_all(&rt, rt.alloc(), &RECEIVED)
}

static REQUESTED: [Event; 8] = [
    Made(Request),
    Made(Request),
    Came(0, LATE, Fate::Handed),
    Came(1, SOON, Fate::Handed),
    Back(1, &[]),
    Made(Test(1)),
    Made(Wait(0)),
    Back(1, &[1, 0]),
];

#[test]
fn a_message_of_a_request_is_given_back_when_it_is_told_of(rt: HostRuntime) -> Result<(), Fail> {
    assert_all(&rt, rt.alloc(), &REQUESTED)
}

static PACKET_RELEASED: [Event; 8] = [
    Came(0, CONNECT_PACKETS, Fate::Owed),
    Made(Open(Kind::Packet)),
    Made(RequestPacket),
    Came(1, PACKET, Fate::Handed),
    Made(Test(0)),
    Back(1, &[0]),
    Made(Release(0)),
    Back(1, &[0, 1]),
];

#[test]
fn a_packet_is_given_back_when_it_is_released(rt: HostRuntime) -> Result<(), Fail> {
    assert_all(&rt, rt.alloc(), &PACKET_RELEASED)
}

static SCALARS_RECEIVED: [Event; 9] = [
    Came(0, CONNECT_SCALARS, Fate::Owed),
    Made(Open(Kind::Scalar)),
    Came(1, SCALAR, Fate::Queued),
    Came(2, SCALAR, Fate::Queued),
    Came(3, SCALAR, Fate::Queued),
    Made(ReceiveByte),
    Back(1, &[0, 1]),
    Made(Close),
    Back(1, &[0, 1, 2, 3]),
];

#[test]
fn scalars_are_given_back_as_they_are_received_and_by_the_close(
    rt: HostRuntime,
) -> Result<(), Fail> {
    assert_all(&rt, rt.alloc(), &SCALARS_RECEIVED)
}

static WHOLE_DELETED: [Event; 7] = [
    Came(3, FIRST_TWO, Fate::Part),
    Came(4, NEXT_TWO, Fate::Part),
    Queued(2),
    Came(5, LAST_TWO, Fate::Queued),
    Queued(3),
    Made(Delete),
    Back(1, &[3, 4, 5]),
];

#[test]
fn a_delete_drops_a_message_of_several_frames(rt: HostRuntime) -> Result<(), Fail> {
    assert_all(&rt, rt.alloc(), &WHOLE_DELETED)
}

static WHOLE_HANDED: [Event; 10] = [
    Made(Request),
    Came(3, FIRST_TWO, Fate::Part),
    Came(4, NEXT_TWO, Fate::Part),
    Came(5, FIFTH, Fate::Part),
    Queued(3),
    Back(1, &[]),
    Came(6, SIXTH, Fate::Handed),
    Queued(0),
    Made(Test(0)),
    Back(1, &[3, 4, 5, 6]),
];

#[test]
fn a_message_is_handed_once_it_is_whole(rt: HostRuntime) -> Result<(), Fail> {
    assert_all(&rt, rt.alloc(), &WHOLE_HANDED)
}

static PART_ENDED: [Event; 7] = [
    Came(3, FIRST_TWO, Fate::Part),
    Came(4, NEXT_TWO, Fate::Part),
    Came(5, LATE, Fate::Queued),
    Back(1, &[3, 4]),
    Queued(1),
    Came(6, LAST_TWO, Fate::Stray),
    Back(1, &[3, 4, 6]),
];

#[test]
fn another_frame_ends_the_open_part(rt: HostRuntime) -> Result<(), Fail> {
    assert_all(&rt, rt.alloc(), &PART_ENDED)
}

static STRAY: [Event; 9] = [
    Came(3, FIRST_TWO, Fate::Part),
    Came(4, NEXT_TWO, Fate::Part),
    Came(5, OTHER_TWO, Fate::Stray),
    Back(1, &[3, 4, 5]),
    Came(6, FIRST_TWO, Fate::Part),
    Came(7, FIRST_TWO, Fate::Part),
    Back(1, &[3, 4, 5, 6]),
    Came(8, BOTH, Fate::Queued),
    Back(1, &[3, 4, 5, 6, 7]),
];

#[test]
fn a_piece_of_another_message_ends_the_open_part(rt: HostRuntime) -> Result<(), Fail> {
    assert_all(&rt, rt.alloc(), &STRAY)
}

static WHOLE_DROPPED: [Event; 5] = [
    Made(Delete),
    Came(3, FIRST_TWO, Fate::Part),
    Came(4, NEXT_TWO, Fate::Part),
    Came(5, LAST_TWO, Fate::NoEndpoint),
    Back(1, &[3, 4, 5]),
];

#[test]
fn all_frames_of_a_message_that_nobody_has_are_given_back(rt: HostRuntime) -> Result<(), Fail> {
    assert_all(&rt, rt.alloc(), &WHOLE_DROPPED)
}

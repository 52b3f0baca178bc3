//! Channels inside one domain: how they are made, opened and closed, and what is refused.

use super::*;
use Kind::{Packet, Scalar};

const CHANNELS: [Row; 20] = [
    (Plain(Create(0, 1)), Ok(Number(1024)), NONE_HELD),
    (Plain(Create(0, 2)), Ok(Number(1025)), NONE_HELD),
    (Connect(1, 3, 2, Packet), Ok(Connected(0, 1)), NONE_HELD),
    (Test(0, 0), Err(Refusal::Pending), NONE_HELD),
    (Test(0, 0), Ok(Accepted), NONE_HELD),
    (
        Plain(Send(1, 2, 0, 7, 2)),
        Err(Refusal::OnChannel),
        NONE_HELD,
    ),
    (OpenSend(1, Packet), Ok(Number(0)), NONE_HELD),
    (OpenRecv(2, Packet), Ok(Number(0)), NONE_HELD),
    (CloseSend(1), Ok(Number(0)), NONE_HELD),
    (Delete(0, 2), Err(Refusal::ChanConnected), NONE_HELD),
    // Its queue is empty.
    (CloseRecv(2), Ok(Number(0)), NONE_HELD),
    (Turn, Ok(Idle(false)), NONE_HELD),
    // The channel ended, and the next has another number.
    (Connect(1, 3, 2, Scalar), Ok(Connected(1, 2)), NONE_HELD),
    (Turn, Ok(Idle(false)), NONE_HELD),
    (Test(1, 0), Ok(Accepted), NONE_HELD),
    (OpenSend(1, Scalar), Ok(Number(0)), NONE_HELD),
    (CloseRecv(2), Ok(Number(0)), NONE_HELD),
    (ChannelsGiven, Ok(Number(2)), NONE_HELD),
    (QueuedOn(1), Ok(Number(0)), NONE_HELD),
    (QueuedOn(2), Ok(Number(0)), NONE_HELD),
];

const REFUSED_CONNECTS: [Row; 14] = [
    (Plain(Create(0, 1)), Ok(Number(1024)), NONE_HELD),
    (Plain(Create(0, 2)), Ok(Number(1025)), NONE_HELD),
    (Plain(Create(0, 3)), Ok(Number(1026)), NONE_HELD),
    (
        Connect(9, 3, 9, Packet),
        Err(Refusal::EndpInvalid),
        NONE_HELD,
    ),
    (
        Connect(1, 3, 9, Packet),
        Err(Refusal::PeerInvalid),
        NONE_HELD,
    ),
    (
        Connect(1, 4, 1, Packet),
        Err(Refusal::PeerInvalid),
        NONE_HELD,
    ),
    // A receive waits at the one, and a message at the other.
    (Begin(3, 8), Ok(Number(0)), NONE_HELD),
    (Connect(3, 3, 9, Packet), Err(Refusal::EndpBusy), NONE_HELD),
    (Plain(Send(1, 2, 0, 7, 2)), Ok(Number(0)), NONE_HELD),
    (Connect(2, 3, 9, Packet), Err(Refusal::EndpBusy), (1, 0)),
    (Plain(Receive(2, 488, 7)), Ok(Number(2)), NONE_HELD),
    (Connect(1, 3, 2, Packet), Ok(Connected(1, 1)), NONE_HELD),
    (
        Connect(1, 3, 9, Packet),
        Err(Refusal::ChanConnected),
        NONE_HELD,
    ),
    (Delete(0, 1), Err(Refusal::ChanConnected), NONE_HELD),
];

const AT_THE_LIMITS: [Row; 8] = [
    (Plain(Create(0, 1)), Ok(Number(1024)), NONE_HELD),
    (Plain(Send(1, 1, 0, 7, 2)), Ok(Number(0)), NONE_HELD),
    (Plain(Create(0, 2)), Ok(Number(1025)), (1, 0)),
    (Connect(2, 3, 9, Packet), Err(Refusal::PeerInvalid), (1, 0)),
    (Connect(2, 3, 1, Packet), Err(Refusal::RequestLimit), (1, 0)),
    (Cancel(0), Ok(Number(0)), (1, 0)),
    (Connect(2, 3, 1, Packet), Err(Refusal::NoBuffer), (1, 0)),
    (Plain(Receive(1, 488, 7)), Ok(Number(2)), NONE_HELD),
];

/// Begins 64 lookups.
fn fill(lone: &mut Lone) -> Result<(), NoMemory> {
    for _ in 0..64 {
        lone.journal.reserve(176, 90_112)?;
        stepped(
            &mut lone.domain,
            &mut lone.journal,
            &mut lone.ids,
            Lookup(7, 0),
        )?;
    }
    Ok(())
}

#[test]
fn a_connect_needs_a_request_and_a_buffer(rt: HostRuntime) -> Result<(), Fail> {
    assert_of(Lone::open(rt.alloc(), 1, 1), |lone| {
        fill(lone)?;
        assert_rows(&rt, lone, "at the limits", &AT_THE_LIMITS)
    })
}

const REFUSED_AT_ENDS: [Row; 27] = [
    (Plain(Create(0, 1)), Ok(Number(1024)), NONE_HELD),
    (Plain(Create(0, 2)), Ok(Number(1025)), NONE_HELD),
    (OpenSend(9, Packet), Err(Refusal::EndpInvalid), NONE_HELD),
    (CloseRecv(9), Err(Refusal::EndpInvalid), NONE_HELD),
    (OpenSend(1, Packet), Err(Refusal::NotConnected), NONE_HELD),
    (CloseSend(1), Err(Refusal::NotConnected), NONE_HELD),
    (Connect(1, 3, 2, Packet), Ok(Connected(0, 1)), NONE_HELD),
    // It is not accepted yet.
    (OpenRecv(1, Scalar), Err(Refusal::NotConnected), NONE_HELD),
    (OpenRecv(1, Scalar), Err(Refusal::ChanDirection), NONE_HELD),
    (CloseRecv(1), Err(Refusal::ChanDirection), NONE_HELD),
    (OpenSend(2, Scalar), Err(Refusal::ChanDirection), NONE_HELD),
    (CloseSend(2), Err(Refusal::ChanDirection), NONE_HELD),
    (OpenSend(1, Scalar), Err(Refusal::ChanType), NONE_HELD),
    (OpenRecv(2, Scalar), Err(Refusal::ChanType), NONE_HELD),
    (OpenSend(1, Packet), Ok(Number(0)), NONE_HELD),
    (OpenSend(1, Packet), Err(Refusal::AlreadyOpen), NONE_HELD),
    (OpenSend(1, Scalar), Err(Refusal::ChanType), NONE_HELD),
    (CloseSend(1), Ok(Number(0)), NONE_HELD),
    (CloseSend(1), Err(Refusal::ChanClosed), NONE_HELD),
    (CloseRecv(1), Err(Refusal::ChanDirection), NONE_HELD),
    (OpenSend(1, Packet), Err(Refusal::ChanClosed), NONE_HELD),
    (OpenSend(1, Scalar), Err(Refusal::ChanType), NONE_HELD),
    // A receiver may open its end although the sender's is closed.
    (OpenRecv(2, Packet), Ok(Number(0)), NONE_HELD),
    (OpenRecv(2, Packet), Err(Refusal::AlreadyOpen), NONE_HELD),
    (CloseRecv(2), Ok(Number(0)), NONE_HELD),
    (CloseRecv(2), Err(Refusal::NotConnected), NONE_HELD),
    (CloseSend(1), Err(Refusal::NotConnected), NONE_HELD),
];

const RECEIVER_FIRST: [Row; 9] = [
    (Plain(Create(0, 1)), Ok(Number(1024)), NONE_HELD),
    (Plain(Create(0, 2)), Ok(Number(1025)), NONE_HELD),
    (Connect(1, 3, 2, Scalar), Ok(Connected(0, 1)), NONE_HELD),
    (CloseRecv(2), Ok(Number(0)), NONE_HELD),
    (CloseRecv(2), Err(Refusal::ChanClosed), NONE_HELD),
    (OpenRecv(2, Scalar), Err(Refusal::ChanClosed), NONE_HELD),
    (OpenSend(1, Scalar), Err(Refusal::ChanClosed), NONE_HELD),
    (CloseSend(1), Ok(Number(0)), NONE_HELD),
    (CloseSend(1), Err(Refusal::NotConnected), NONE_HELD),
];

/// The only buffer of the pool is in the queue of another endpoint.
const NO_BUFFER_AT_ENDS: [Row; 13] = [
    (Plain(Create(0, 1)), Ok(Number(1024)), NONE_HELD),
    (Plain(Create(0, 2)), Ok(Number(1025)), NONE_HELD),
    (Plain(Create(0, 3)), Ok(Number(1026)), NONE_HELD),
    (Connect(1, 3, 2, Packet), Ok(Connected(0, 1)), NONE_HELD),
    (Turn, Ok(Idle(false)), NONE_HELD),
    (Test(0, 0), Ok(Accepted), NONE_HELD),
    (Plain(Send(3, 3, 0, 7, 2)), Ok(Number(0)), NONE_HELD),
    (OpenSend(1, Packet), Err(Refusal::NoBuffer), (1, 0)),
    (OpenRecv(2, Packet), Err(Refusal::NoBuffer), (1, 0)),
    (CloseSend(1), Err(Refusal::NoBuffer), (1, 0)),
    (CloseRecv(2), Err(Refusal::NoBuffer), (1, 0)),
    (Plain(Receive(3, 488, 7)), Ok(Number(2)), NONE_HELD),
    (CloseRecv(2), Ok(Number(0)), NONE_HELD),
];

const REJECTED: [Row; 15] = [
    (Plain(Create(0, 1)), Ok(Number(1024)), NONE_HELD),
    (Plain(Create(0, 2)), Ok(Number(1025)), NONE_HELD),
    (Plain(Create(0, 3)), Ok(Number(1026)), NONE_HELD),
    // To itself: it has a channel when the Connect comes.
    (Connect(1, 3, 1, Packet), Ok(Connected(0, 1)), NONE_HELD),
    (Turn, Ok(Idle(false)), NONE_HELD),
    (Test(0, 0), Ok(Rejected(Reason::Connected)), NONE_HELD),
    (Begin(2, 8), Ok(Number(1)), NONE_HELD),
    (Connect(1, 3, 2, Packet), Ok(Connected(2, 2)), NONE_HELD),
    (Turn, Ok(Idle(false)), NONE_HELD),
    (Test(2, 0), Ok(Rejected(Reason::Busy)), NONE_HELD),
    (Cancel(1), Ok(Number(0)), NONE_HELD),
    (Connect(1, 3, 2, Packet), Ok(Connected(3, 3)), NONE_HELD),
    (Connect(3, 3, 2, Packet), Ok(Connected(4, 4)), NONE_HELD),
    (Test(3, 0), Ok(Accepted), NONE_HELD),
    (Test(4, 0), Ok(Rejected(Reason::Connected)), NONE_HELD),
];

const CANCELLED: [Row; 7] = [
    (Plain(Create(0, 1)), Ok(Number(1024)), NONE_HELD),
    (Plain(Create(0, 2)), Ok(Number(1025)), NONE_HELD),
    (Connect(1, 3, 2, Packet), Ok(Connected(0, 1)), NONE_HELD),
    (Cancel(0), Ok(Number(0)), NONE_HELD),
    // It is accepted all the same.
    (OpenSend(1, Packet), Ok(Number(0)), NONE_HELD),
    (
        Connect(1, 3, 2, Packet),
        Err(Refusal::ChanConnected),
        NONE_HELD,
    ),
    (Test(0, 0), Err(Refusal::RequestInvalid), NONE_HELD),
];

static CASES: [Case; 7] = [
    (
        "a channel is made, opened and closed",
        2,
        None,
        &CHANNELS,
        &[],
    ),
    (
        "connects are refused in order",
        2,
        None,
        &REFUSED_CONNECTS,
        &[],
    ),
    (
        "calls at ends are refused in order",
        2,
        None,
        &REFUSED_AT_ENDS,
        &[],
    ),
    ("a receiver may close first", 2, None, &RECEIVER_FIRST, &[]),
    (
        "calls at ends need a buffer",
        1,
        None,
        &NO_BUFFER_AT_ENDS,
        &[],
    ),
    ("a connect may be rejected", 2, None, &REJECTED, &[]),
    (
        "a cancelled connect leaves its channel",
        2,
        None,
        &CANCELLED,
        &[],
    ),
];

#[test]
fn calls_of_channels(rt: HostRuntime) -> Result<(), Fail> {
    assert_cases(&rt, rt.alloc(), &CASES)
}

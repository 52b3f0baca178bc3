//! Waits for requests.

use super::*;
use Kind::Packet;

/// The line that begins a wait.
const BEGUN: Line = (b'v', 7, 0, 0);

/// A wait makes as many turns as it needs, and at most its limit.
const FOR_ONE: [Row; 13] = [
    (Plain(Create(0, 1)), Ok(Number(1024)), NONE_HELD),
    (Plain(Create(0, 2)), Ok(Number(1025)), NONE_HELD),
    (Begin(1, 488), Ok(Number(0)), NONE_HELD),
    (Wait(0, 0, 0), Err(Refusal::Timeout), NONE_HELD),
    (Wait(3, 0, 0), Err(Refusal::Timeout), NONE_HELD),
    (Wait(3, 9, 0), Err(Refusal::RequestInvalid), NONE_HELD),
    (Plain(Send(2, 1, 1, 7, 5)), Ok(Number(0)), NONE_HELD),
    // Its own turn completes the request.
    (Wait(u32::MAX, 0, 7), Ok(Message(5, 5)), NONE_HELD),
    (Wait(3, 0, 7), Err(Refusal::RequestInvalid), NONE_HELD),
    (Lookup(3, 1), Ok(Number(1)), NONE_HELD),
    (Lookup(3, 2), Ok(Number(2)), NONE_HELD),
    // These need no turn.
    (Wait(0, 1, 0), Ok(Address(1024)), NONE_HELD),
    (Wait(3, 2, 0), Ok(Address(1025)), NONE_HELD),
];

const LINES_FOR_ONE: [Line; 12] = [
    (b'i', 0, 3, 0),
    BEGUN,
    BEGUN,
    (b'i', 0, 4, 0),
    (b'p', 3, 0, 29),
    BEGUN,
    (b't', 0, 0, 0),
    (b's', 3, 1, 0),
    (b'q', 3, 2, 29),
    (b't', 0, 0, 0),
    (b'b', 3, 1, 0),
    (b'i', 0, 1, 0),
];

/// Of eight requests, the same one at the last six places.
const EIGHT: [u64; 8] = [0, 1, 2, 2, 2, 2, 2, 2];

/// The first place counts, from 1, and that request alone ends.
const FOR_SEVERAL: [Row; 21] = [
    (Plain(Create(0, 1)), Ok(Number(1024)), NONE_HELD),
    (Plain(Create(0, 2)), Ok(Number(1025)), NONE_HELD),
    (Begin(1, 488), Ok(Number(0)), NONE_HELD),
    (Begin(2, 2), Ok(Number(1)), NONE_HELD),
    (Lookup(3, 3), Ok(Number(2)), NONE_HELD),
    (Settled(EIGHT), Ok(Number(0)), NONE_HELD),
    (WaitAny(0, EIGHT, 0, 0), Err(Refusal::Timeout), NONE_HELD),
    (WaitAny(2, EIGHT, 0, 0), Err(Refusal::Timeout), NONE_HELD),
    (Plain(Send(1, 2, 1, 7, 5)), Ok(Number(0)), NONE_HELD),
    (WaitAny(2, EIGHT, 2, 7), Ok(Message(5, 2)), NONE_HELD),
    // The second ended, so it does not matter which of the others is complete.
    (Plain(Create(0, 3)), Ok(Number(1026)), NONE_HELD),
    (Settled(EIGHT), Ok(Number(3)), NONE_HELD),
    (
        WaitAny(2, EIGHT, 0, 0),
        Err(Refusal::RequestInvalid),
        NONE_HELD,
    ),
    (Lookup(3, 1), Ok(Number(3)), NONE_HELD),
    (Settled([0, 0, 3, 2, 3, 2, 3, 2]), Ok(Number(3)), NONE_HELD),
    (
        WaitAny(9, [0, 0, 3, 2, 3, 2, 3, 2], 3, 0),
        Ok(Address(1024)),
        NONE_HELD,
    ),
    (Test(3, 0), Err(Refusal::RequestInvalid), NONE_HELD),
    (WaitAny(0, [2; 8], 1, 0), Ok(Address(1026)), NONE_HELD),
    (
        WaitAny(0, [2; 8], 0, 0),
        Err(Refusal::RequestInvalid),
        NONE_HELD,
    ),
    (Delete(0, 1), Ok(Number(0)), NONE_HELD),
    (
        WaitAny(0, [0; 8], 1, 0),
        Ok(Ended(Refusal::EndpInvalid)),
        NONE_HELD,
    ),
];

/// Eight requests that are apart, of which the last is complete.
const EIGHT_APART: [Row; 11] = [
    (Plain(Create(0, 1)), Ok(Number(1024)), NONE_HELD),
    (Begin(1, 8), Ok(Number(0)), NONE_HELD),
    (Begin(1, 8), Ok(Number(1)), NONE_HELD),
    (Begin(1, 8), Ok(Number(2)), NONE_HELD),
    (Begin(1, 8), Ok(Number(3)), NONE_HELD),
    (Begin(1, 8), Ok(Number(4)), NONE_HELD),
    (Begin(1, 8), Ok(Number(5)), NONE_HELD),
    (Begin(1, 8), Ok(Number(6)), NONE_HELD),
    (Lookup(3, 1), Ok(Number(7)), NONE_HELD),
    (
        WaitAny(0, [0, 1, 2, 3, 4, 5, 6, 7], 8, 0),
        Ok(Address(1024)),
        NONE_HELD,
    ),
    (
        WaitAny(1, [0, 1, 2, 3, 4, 5, 6, 0], 0, 0),
        Err(Refusal::Timeout),
        NONE_HELD,
    ),
];

/// A connection is made, packets are lent, and a request ends where its channel closes.
const ON_A_CHANNEL: [Row; 18] = [
    (Plain(Create(0, 1)), Ok(Number(1024)), NONE_HELD),
    (Plain(Create(0, 2)), Ok(Number(1025)), NONE_HELD),
    (Connect(1, 3, 2, Packet), Ok(Connected(0, 1)), NONE_HELD),
    (Wait(1, 0, 0), Err(Refusal::Timeout), NONE_HELD),
    (Wait(1, 0, 0), Ok(Accepted), NONE_HELD),
    (OpenSend(1, Packet), Ok(Number(0)), NONE_HELD),
    (OpenRecv(2, Packet), Ok(Number(0)), NONE_HELD),
    (BeginPacket(2), Ok(Number(1)), NONE_HELD),
    (BeginPacket(2), Ok(Number(2)), NONE_HELD),
    (BeginPacket(2), Ok(Number(3)), NONE_HELD),
    (SendPacket(1, 5, 3), Ok(Number(0)), NONE_HELD),
    (Wait(9, 1, 5), Ok(Lent(0, 0, 3)), ONE_LENT),
    (ReadPacket(0, 0, 5), Ok(Lent(0, 0, 3)), ONE_LENT),
    (Release(0, 0), Ok(Number(0)), NONE_HELD),
    (SendPacket(1, 6, 488), Ok(Number(0)), NONE_HELD),
    (
        WaitAny(9, [3, 2, 3, 2, 3, 2, 3, 2], 2, 6),
        Ok(Lent(1, 1, 488)),
        ONE_LENT,
    ),
    (CloseRecv(2), Ok(Number(0)), ONE_LENT),
    (Wait(0, 3, 0), Ok(Ended(Refusal::ChanClosed)), ONE_LENT),
];

static CASES: [Case; 4] = [
    (
        "a wait makes the turns that it needs",
        2,
        None,
        &FOR_ONE,
        &LINES_FOR_ONE,
    ),
    (
        "a wait for several ends the first that is complete",
        2,
        None,
        &FOR_SEVERAL,
        &[],
    ),
    ("a wait for eight", 2, None, &EIGHT_APART, &[]),
    ("waits on a channel", 2, None, &ON_A_CHANNEL, &[]),
];

#[test]
fn waits_for_requests(rt: HostRuntime) -> Result<(), Fail> {
    assert_cases(&rt, rt.alloc(), &CASES)
}

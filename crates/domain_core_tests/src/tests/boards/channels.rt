//! Channels between linked domains.

use super::*;
use Kind::{Packet, Scalar};

const OVER_A_LINK: [Row; 19] = [
    (Three(Plain(Create(0, 1))), Ok(Number(1024))),
    (Four(Plain(Create(0, 1))), Ok(Number(1024))),
    (Four(Turn), Ok(Idle(false))),
    CARRIED,
    (Three(Connect(1, 4, 1, Packet)), Ok(Connected(0, 1))),
    CARRIED,
    (Four(Turn), Ok(Idle(false))),
    (Four(Turn), Ok(Idle(false))),
    (Three(Test(0, 0)), Err(Refusal::Pending)),
    CARRIED,
    (Three(Test(0, 0)), Ok(Accepted)),
    (Three(OpenSend(1, Packet)), Ok(Number(0))),
    (Four(OpenRecv(1, Packet)), Ok(Number(0))),
    CARRIED,
    (Three(CloseSend(1)), Ok(Number(0))),
    CARRIED,
    (Four(CloseRecv(1)), Ok(Number(0))),
    CARRIED,
    // The channel ended, and the next has another number.
    (Three(Connect(1, 4, 1, Scalar)), Ok(Connected(1, 2))),
];

/// Packets of the least and the greatest size, which wait until the receiver closes.
const PACKETS: [Row; 24] = [
    (Three(Plain(Create(0, 1))), Ok(Number(1024))),
    (Four(Plain(Create(0, 1))), Ok(Number(1024))),
    (Four(Turn), Ok(Idle(false))),
    CARRIED,
    (Three(Connect(1, 4, 1, Packet)), Ok(Connected(0, 1))),
    CARRIED,
    (Four(Turn), Ok(Idle(false))),
    (Four(Turn), Ok(Idle(false))),
    CARRIED,
    (Three(Test(0, 0)), Ok(Accepted)),
    (Three(OpenSend(1, Packet)), Ok(Number(0))),
    (Four(OpenRecv(1, Packet)), Ok(Number(0))),
    CARRIED,
    (Three(SendPacket(1, 7, 0)), Ok(Number(0))),
    (Three(SendPacket(1, 8, 488)), Ok(Number(0))),
    CARRIED,
    (Four(Turn), Ok(Idle(false))),
    (FourHolds(3), Ok(Held(2, 0))),
    (Four(CloseRecv(1)), Ok(Number(2))),
    (FourHolds(3), Ok(Held(0, 0))),
    CARRIED,
    (Three(SendPacket(1, 9, 1)), Err(Refusal::ChanClosed)),
    (Three(CloseSend(1)), Ok(Number(0))),
    (Three(SendPacket(1, 9, 1)), Err(Refusal::NotConnected)),
];

const TO_NO_ENDPOINT: [Row; 12] = [
    (Three(Plain(Create(0, 1))), Ok(Number(1024))),
    (Four(Plain(Create(0, 1))), Ok(Number(1024))),
    (Four(Turn), Ok(Idle(false))),
    CARRIED,
    (Three(Connect(1, 4, 1, Packet)), Ok(Connected(0, 1))),
    (Four(Delete(0, 1)), Ok(Number(0))),
    CARRIED,
    (Four(Turn), Ok(Idle(false))),
    (Four(Turn), Ok(Idle(false))),
    CARRIED,
    (Three(Test(0, 0)), Ok(Rejected(Reason::NoEndpoint))),
    (Three(Delete(0, 1)), Ok(Number(0))),
];

static CASES: [Case; 3] = [
    ("a channel goes over a link", 8, &OVER_A_LINK),
    ("packets wait at the other domain", 8, &PACKETS),
    ("a connect comes to no endpoint", 8, &TO_NO_ENDPOINT),
];

#[test]
fn channels_over_a_link(rt: HostRuntime) -> Result<(), Fail> {
    assert_cases(&rt, rt.alloc(), &CASES)
}

//! Messages between linked domains, and the buffers that carry them.

use super::*;

const FULL: [Row; 20] = [
    (Four(Plain(Create(0, 1))), Ok(Number(1024))),
    (Four(Turn), Ok(Idle(false))),
    CARRIED,
    (Three(Plain(Create(0, 1))), Ok(Number(1024))),
    // The announcement of the own endpoint takes one of the two buffers.
    (Three(Plain(SendAbroad(1, 1))), Ok(Number(0))),
    (Three(Plain(SendAbroad(1, 1))), Err(Refusal::NoBuffer)),
    CARRIED,
    (Three(Plain(SendAbroad(1, 1))), Err(Refusal::NoBuffer)),
    (Four(Turn), Ok(Idle(false))),
    (Three(Plain(SendAbroad(1, 1))), Err(Refusal::NoBuffer)),
    CARRIED,
    (Three(Plain(SendAbroad(1, 1))), Ok(Number(0))),
    (Three(Plain(SendAbroad(1, 1))), Err(Refusal::NoBuffer)),
    CARRIED,
    (Four(Available(1)), Ok(Number(2))),
    (Three(Plain(SendAbroad(1, 1))), Err(Refusal::NoBuffer)),
    (Four(Plain(Receive(1, 488, 0))), Ok(Number(2))),
    CARRIED,
    (Three(Plain(SendAbroad(1, 1))), Ok(Number(0))),
    (FourHolds(3), Ok(Held(1, 0))),
];

const FULL_OF_OWED: [Row; 12] = [
    (Four(Plain(Create(0, 1))), Ok(Number(1024))),
    (Four(Turn), Ok(Idle(false))),
    CARRIED,
    (Three(Plain(Create(0, 1))), Ok(Number(1024))),
    (Three(Plain(Create(0, 2))), Ok(Number(1025))),
    (Three(Plain(Create(0, 3))), Ok(Number(1026))),
    // Two of three announcements have all the buffers.
    (Three(Plain(SendAbroad(1, 1))), Err(Refusal::NoBuffer)),
    CARRIED,
    (Four(Turn), Ok(Idle(false))),
    CARRIED,
    (Three(Plain(SendAbroad(1, 1))), Ok(Number(0))),
    (Three(Plain(SendAbroad(1, 1))), Err(Refusal::NoBuffer)),
];

/// A message in each direction and one inside, on links of one buffer.
const ONE_BUFFER: [Row; 16] = [
    (Three(Plain(Create(0, 1))), Ok(Number(1024))),
    (Four(Plain(Create(0, 1))), Ok(Number(1024))),
    (Three(Turn), Ok(Idle(false))),
    (Four(Turn), Ok(Idle(false))),
    CARRIED,
    (Three(Plain(SendAbroad(1, 1))), Err(Refusal::NoBuffer)),
    (Four(Plain(Send(1, 1, 1, 7, 3))), Err(Refusal::NoBuffer)),
    CARRIED,
    (Three(Plain(SendAbroad(1, 1))), Ok(Number(0))),
    (Four(Plain(Send(1, 1, 1, 7, 3))), Ok(Number(0))),
    (Three(Plain(Send(1, 1, 3, 5, 1))), Ok(Number(0))),
    CARRIED,
    (Three(Plain(Receive(1, 488, 7))), Ok(Number(3))),
    (Four(Plain(Receive(1, 488, 0))), Ok(Number(2))),
    (ThreeHolds(3), Ok(Held(1, 0))),
    (ThreeHolds(4), Ok(Held(0, 0))),
];

const HANDED: [Row; 19] = [
    (Four(Plain(Create(0, 1))), Ok(Number(1024))),
    (Four(Begin(1, 488)), Ok(Number(0))),
    (Four(Begin(1, 1)), Ok(Number(1))),
    CARRIED,
    (Three(Plain(Create(0, 1))), Ok(Number(1024))),
    (Three(Plain(SendAbroad(1, 1))), Ok(Number(0))),
    CARRIED,
    (Four(Plain(Receive(1, 488, 0))), Err(Refusal::Empty)),
    (Four(Test(1, 0)), Err(Refusal::Pending)),
    CARRIED,
    // The announcement's buffer came back, and the message's is lent until the request is tested.
    (Three(Plain(SendAbroad(1, 1))), Ok(Number(0))),
    (Three(Plain(SendAbroad(1, 1))), Err(Refusal::NoBuffer)),
    (FourHolds(3), Ok(Held(0, 1))),
    (Four(Test(0, 0)), Ok(Message(2, 2))),
    CARRIED,
    (Four(Test(1, 0)), Ok(Message(2, 1))),
    (Three(Plain(SendAbroad(1, 1))), Ok(Number(0))),
    (Four(Test(0, 0)), Err(Refusal::RequestInvalid)),
    (FourHolds(3), Ok(Held(0, 0))),
];

/// A message of several frames is put whole or not at all, and its buffers come back once it is received.
const LARGE: [Row; 15] = [
    (Four(Plain(Create(0, 1))), Ok(Number(1024))),
    (Four(Turn), Ok(Idle(false))),
    CARRIED,
    (Three(Plain(Create(0, 1))), Ok(Number(1024))),
    // The announcement of the own endpoint takes one of the four buffers.
    (Three(Plain(SendLong(1, 1, 7, 1937))), Err(Refusal::MsgSize)),
    (
        Three(Plain(SendLong(1, 1, 7, 1936))),
        Err(Refusal::NoBuffer),
    ),
    (Three(Plain(SendLong(1, 1, 7, 1000))), Ok(Number(0))),
    CARRIED,
    (Four(Turn), Ok(Idle(false))),
    (FourHolds(3), Ok(Held(3, 0))),
    (Four(Available(1)), Ok(Number(1))),
    (Four(Plain(Receive(1, 8192, 7))), Ok(Number(1000))),
    CARRIED,
    (Three(Plain(SendLong(1, 1, 8, 1936))), Ok(Number(0))),
    (FourHolds(3), Ok(Held(0, 0))),
];

static CASES: [Case; 5] = [
    ("a link of two runs out of buffers", 2, &FULL),
    ("owed frames come before messages", 2, &FULL_OF_OWED),
    ("messages over links of one buffer", 1, &ONE_BUFFER),
    ("a message of several frames", 4, &LARGE),
    (
        "a receive that waits gets the message of a link",
        2,
        &HANDED,
    ),
];

#[test]
fn messages_over_a_link(rt: HostRuntime) -> Result<(), Fail> {
    assert_cases(&rt, rt.alloc(), &CASES)
}

//! Waits for what comes over a link.

use super::*;

/// A wait goes on until the link is carried, and its own turn then completes its request.
const OVER_A_LINK: [Row; 14] = [
    (Three(Plain(Create(0, 1))), Ok(Number(1024))),
    (Three(Lookup(4, 1)), Ok(Number(0))),
    (Four(Plain(Create(0, 1))), Ok(Number(1024))),
    (Four(Begin(1, 488)), Ok(Number(0))),
    (Three(Wait(3, 0, 0)), Err(Refusal::Timeout)),
    CARRIED,
    (Three(Wait(3, 0, 0)), Ok(Address(1024))),
    (Three(Plain(SendAbroad(1, 1))), Ok(Number(0))),
    (Four(Wait(3, 0, 0)), Err(Refusal::Timeout)),
    CARRIED,
    (Four(Wait(0, 0, 0)), Err(Refusal::Timeout)),
    (Four(Wait(3, 0, 0)), Ok(Message(2, 2))),
    (FourHolds(3), Ok(Held(0, 0))),
    (Four(Wait(3, 0, 0)), Err(Refusal::RequestInvalid)),
];

static CASES: [Case; 1] = [("a wait is over once the link is carried", 8, &OVER_A_LINK)];

#[test]
fn waits_over_a_link(rt: HostRuntime) -> Result<(), Fail> {
    assert_cases(&rt, rt.alloc(), &CASES)
}

//! Receives that wait, and what becomes of them.

use super::*;

const WAITING: [Row; 12] = [
    (Plain(Create(0, 1)), Ok(Number(1024)), (0, 0)),
    (Plain(Create(0, 2)), Ok(Number(1025)), (0, 0)),
    (Begin(1, 488), Ok(Number(0)), (0, 0)),
    (Begin(1, 2), Ok(Number(1)), (0, 0)),
    (Test(0, 0), Err(Refusal::Pending), (0, 0)),
    (Plain(Send(2, 1, 3, 7, 5)), Ok(Number(0)), (0, 0)),
    (Plain(Send(2, 1, 0, 8, 6)), Ok(Number(0)), (0, 1)),
    (Plain(Receive(1, 488, 0)), Err(Refusal::Empty), (0, 2)),
    (Test(0, 7), Ok(Message(5, 5)), (0, 1)),
    (Test(1, 8), Ok(Message(6, 2)), (0, 0)),
    (Test(1, 8), Err(Refusal::RequestInvalid), (0, 0)),
    (Plain(Receive(1, 488, 0)), Err(Refusal::Empty), (0, 0)),
];

const BEST_THAT_IS_THERE: [Row; 12] = [
    (Plain(Create(0, 1)), Ok(Number(1024)), (0, 0)),
    (Begin(9, 8), Err(Refusal::EndpInvalid), (0, 0)),
    (Available(9), Err(Refusal::EndpInvalid), (0, 0)),
    (Available(1), Ok(Number(0)), (0, 0)),
    (Plain(Send(1, 1, 2, 20, 1)), Ok(Number(0)), (0, 0)),
    (Plain(Send(1, 1, 0, 1, 2)), Ok(Number(0)), (1, 0)),
    (Available(1), Ok(Number(2)), (2, 0)),
    (Begin(1, 0), Ok(Number(0)), (1, 1)),
    (Available(1), Ok(Number(1)), (1, 1)),
    (Cancel(0), Err(Refusal::TooLate), (1, 1)),
    (Test(0, 1), Ok(Message(2, 0)), (1, 0)),
    (Plain(Receive(1, 488, 20)), Ok(Number(1)), (0, 0)),
];

const CANCELLED: [Row; 17] = [
    (Plain(Create(0, 1)), Ok(Number(1024)), (0, 0)),
    (Plain(Create(0, 2)), Ok(Number(1025)), (0, 0)),
    (Begin(1, 488), Ok(Number(0)), (0, 0)),
    (Begin(1, 488), Ok(Number(1)), (0, 0)),
    (Begin(2, 488), Ok(Number(2)), (0, 0)),
    (Cancel(0), Ok(Number(0)), (0, 0)),
    (Cancel(0), Err(Refusal::RequestInvalid), (0, 0)),
    (Plain(Send(2, 1, 1, 7, 3)), Ok(Number(0)), (0, 0)),
    (Available(1), Ok(Number(0)), (0, 1)),
    (Test(0, 0), Err(Refusal::RequestInvalid), (0, 1)),
    (Test(2, 0), Err(Refusal::Pending), (0, 1)),
    // The key of the first request is given again.
    (Begin(1, 488), Ok(Number(3)), (0, 1)),
    (Test(0, 0), Err(Refusal::RequestInvalid), (0, 1)),
    (Cancel(0), Err(Refusal::RequestInvalid), (0, 1)),
    (Test(1, 7), Ok(Message(3, 3)), (0, 0)),
    (Test(3, 0), Err(Refusal::Pending), (0, 0)),
    (Test(9, 0), Err(Refusal::RequestInvalid), (0, 0)),
];

const LIMIT: [Row; 3] = [
    (Begin(1, 8), Err(Refusal::RequestLimit), (0, 0)),
    (Cancel(63), Ok(Number(0)), (0, 0)),
    (Begin(1, 8), Ok(Number(64)), (0, 0)),
];

/// Makes an endpoint, and requests 64 messages there.
fn assert_filled(rt: &impl Abort, lone: &mut Lone) -> Result<(), Fail> {
    let creation = (Plain(Create(0, 1)), Ok(Number(1024)), NONE_HELD);
    assert!(rt; holds(lone, creation)?);
    for serial in 0..64 {
        let row = (Begin(1, 8), Ok(Number(serial)), (0, 0));
        assert!(rt; holds(lone, row)?, "{serial}");
    }
    Ok(())
}

#[test]
fn sixty_four_requests_at_once(rt: HostRuntime) -> Result<(), Fail> {
    assert_of(Lone::open(rt.alloc(), 1, 1), |lone| {
        assert_filled(&rt, lone)?;
        assert_rows(&rt, lone, "the limit", &LIMIT)
    })
}

const HANDED: [Row; 4] = [
    (Plain(Create(0, 1)), Ok(Number(1024)), (0, 0)),
    (Begin(1, 8), Ok(Number(0)), (0, 0)),
    (Plain(Send(1, 1, 1, 7, 2)), Ok(Number(0)), (0, 0)),
    (Available(1), Ok(Number(0)), (0, 1)),
];

const LINES_OF_HANDED: [Line; 5] = [
    (b'i', 0, 3, 0),
    (b'p', 3, 0, 26),
    (b't', 0, 0, 0),
    (b's', 3, 1, 0),
    (b'q', 3, 2, 26),
];

static CASES: [Case; 4] = [
    ("receives that wait come first", 2, None, &WAITING, &[]),
    (
        "a receive takes the best that is there",
        2,
        None,
        &BEST_THAT_IS_THERE,
        &[],
    ),
    (
        "a cancelled receive takes nothing",
        2,
        None,
        &CANCELLED,
        &[],
    ),
    (
        "a handed message is noted",
        1,
        None,
        &HANDED,
        &LINES_OF_HANDED,
    ),
];

#[test]
fn requests_for_messages(rt: HostRuntime) -> Result<(), Fail> {
    assert_cases(&rt, rt.alloc(), &CASES)
}

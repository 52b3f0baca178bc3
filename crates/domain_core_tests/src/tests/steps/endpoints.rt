//! Endpoints that end, and lookups of those to come.

use super::*;

const DELETED: [Row; 13] = [
    (Plain(Create(0, 1)), Ok(Number(1024)), (0, 0)),
    (Plain(Create(0, 2)), Ok(Number(1025)), (0, 0)),
    (Delete(0, 3), Err(Refusal::EndpInvalid), (0, 0)),
    (Delete(1, 1), Err(Refusal::EndpInvalid), (0, 0)),
    (Plain(Send(1, 2, 3, 7, 5)), Ok(Number(0)), (0, 0)),
    (Plain(Send(1, 2, 0, 8, 6)), Ok(Number(0)), (1, 0)),
    (Delete(0, 2), Ok(Number(2)), (0, 0)),
    (Delete(0, 2), Err(Refusal::EndpInvalid), (0, 0)),
    (Plain(Send(1, 1, 1, 9, 3)), Ok(Number(0)), (0, 0)),
    (Plain(Send(1, 1, 0, 4, 2)), Ok(Number(0)), (1, 0)),
    (Plain(Send(1, 1, 0, 5, 1)), Err(Refusal::NoBuffer), (2, 0)),
    (Plain(Create(0, 2)), Ok(Number(1026)), (2, 0)),
    (Available(2), Ok(Number(0)), (2, 0)),
];

const RECEIVES_OF_DELETED: [Row; 12] = [
    (Plain(Create(0, 1)), Ok(Number(1024)), (0, 0)),
    (Plain(Create(0, 2)), Ok(Number(1025)), (0, 0)),
    (Begin(1, 488), Ok(Number(0)), (0, 0)),
    (Begin(1, 488), Ok(Number(1)), (0, 0)),
    (Begin(2, 488), Ok(Number(2)), (0, 0)),
    (Plain(Send(2, 1, 1, 7, 5)), Ok(Number(0)), (0, 0)),
    (Delete(0, 1), Ok(Number(0)), (0, 1)),
    (Cancel(1), Err(Refusal::TooLate), (0, 1)),
    (Test(1, 0), Ok(Ended(Refusal::EndpInvalid)), (0, 1)),
    (Test(2, 0), Err(Refusal::Pending), (0, 1)),
    (Test(0, 7), Ok(Message(5, 5)), (0, 0)),
    (Test(0, 7), Err(Refusal::RequestInvalid), (0, 0)),
];

const LOOKED_UP: [Row; 17] = [
    (Lookup(3, 1), Ok(Number(0)), (0, 0)),
    (Lookup(3, 1), Ok(Number(1)), (0, 0)),
    (Lookup(3, 2), Ok(Number(2)), (0, 0)),
    (Lookup(4, 1), Ok(Number(3)), (0, 0)),
    (Test(0, 0), Err(Refusal::Pending), (0, 0)),
    (Plain(Create(0, 1)), Ok(Number(1024)), (0, 0)),
    (Test(0, 0), Ok(Address(1024)), (0, 0)),
    (Test(0, 0), Err(Refusal::RequestInvalid), (0, 0)),
    (Cancel(1), Err(Refusal::TooLate), (0, 0)),
    (Delete(0, 1), Ok(Number(0)), (0, 0)),
    (Test(1, 0), Ok(Address(1024)), (0, 0)),
    (Cancel(2), Ok(Number(0)), (0, 0)),
    (Test(2, 0), Err(Refusal::RequestInvalid), (0, 0)),
    (Plain(Create(0, 2)), Ok(Number(1025)), (0, 0)),
    (Lookup(3, 2), Ok(Number(4)), (0, 0)),
    (Test(4, 0), Ok(Address(1025)), (0, 0)),
    (Test(3, 0), Err(Refusal::Pending), (0, 0)),
];

const LIMITS: [Row; 9] = [
    (Lookup(3, 99), Err(Refusal::RequestLimit), (0, 0)),
    (Lookup(3, 7), Err(Refusal::RequestLimit), (0, 0)),
    (Cancel(9), Ok(Number(0)), (0, 0)),
    (Lookup(3, 7), Ok(Number(64)), (0, 0)),
    (Plain(Create(0, 99)), Err(Refusal::EndpLimit), (0, 0)),
    (Delete(0, 7), Ok(Number(0)), (0, 0)),
    (Plain(Create(0, 99)), Ok(Number(1088)), (0, 0)),
    (Test(63, 0), Ok(Address(1088)), (0, 0)),
    (Test(64, 0), Ok(Address(1031)), (0, 0)),
];

/// Begins 64 lookups of an endpoint, and makes 64 others.
fn assert_filled(rt: &impl Abort, lone: &mut Lone) -> Result<(), Fail> {
    for port in 0..64u16 {
        let serial = u64::from(port);
        let lookup = (Lookup(3, 99), Ok(Number(serial)), (0, 0));
        let create = (Plain(Create(0, port)), Ok(Number(1024 + serial)), (0, 0));
        assert!(rt; holds(lone, lookup)? && holds(lone, create)?, "{port}");
    }
    Ok(())
}

#[test]
fn sixty_four_lookups_and_endpoints(rt: HostRuntime) -> Result<(), Fail> {
    assert_of(Lone::open(rt.alloc(), 1, 1), |lone| {
        assert_filled(&rt, lone)?;
        assert_rows(&rt, lone, "the limits", &LIMITS)
    })
}

const TURNS: [Row; 6] = [
    (Turn, Ok(Idle(true)), (0, 0)),
    (Plain(Create(0, 1)), Ok(Number(1024)), (0, 0)),
    (Plain(Send(1, 1, 1, 7, 2)), Ok(Number(0)), (0, 0)),
    (Turn, Ok(Idle(false)), (1, 0)),
    (Turn, Ok(Idle(true)), (1, 0)),
    (Plain(Receive(1, 488, 7)), Ok(Number(2)), (0, 0)),
];

static CASES: [Case; 4] = [
    (
        "a deleted endpoint drops its messages",
        2,
        None,
        &DELETED,
        &[],
    ),
    (
        "receives end with their endpoint",
        2,
        None,
        &RECEIVES_OF_DELETED,
        &[],
    ),
    (
        "lookups are complete once it is there",
        2,
        None,
        &LOOKED_UP,
        &[],
    ),
    ("turns tell whether they were idle", 2, None, &TURNS, &[]),
];

#[test]
fn endpoints_and_lookups(rt: HostRuntime) -> Result<(), Fail> {
    assert_cases(&rt, rt.alloc(), &CASES)
}

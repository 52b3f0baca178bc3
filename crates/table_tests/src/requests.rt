use mc_base::{EndName, Local, Reason, Refusal, RequestId, RequestLimit, Slot};
use request_set::{Ask, Complete, RequestSet, may_cross_threads};
use std::alloc::AllocError;
use std::process::Abort;
use std::test::Fail;

const HERE: Local = Local { node: 0, port: 1 };

const THERE: Local = Local { node: 1, port: 1 };

const NAME: EndName = EndName {
    domain: 2,
    node: 0,
    port: 1,
};

const SLOT: Slot = Slot { peer: 3, buffer: 7 };

/// A call. It names a request by its serial.
#[derive(Clone, Copy)]
enum Call {
    Add(Ask),
    /// Makes a request complete where it is pending, or else tests it.
    End(u64, Complete),
    Test(u64),
    Cancel(u64),
}

use Call::{Add, Cancel, End, Test};

/// The id with this serial, or one that was never given.
fn id_of(ids: &[RequestId], serial: u64) -> RequestId {
    for id in ids {
        if id.serial == serial {
            return *id;
        }
    }
    RequestId { key: 0, serial }
}

/// Makes a call, and answers its refusal, or how the request was complete.
fn made(
    set: &mut RequestSet,
    ids: &mut Vec<RequestId>,
    call: Call,
) -> Result<Result<Option<Complete>, Refusal>, AllocError> {
    match call {
        Add(ask) => match set.add(ask) {
            Ok(id) => {
                ids.push(id)?;
                Ok(Ok(None))
            }
            Err(RequestLimit) => Ok(Err(Refusal::RequestLimit)),
        },
        End(serial, with) => Ok(completed(set, id_of(ids, serial), with)),
        Test(serial) => Ok(set.test(id_of(ids, serial)).map(Some)),
        Cancel(serial) => Ok(set.cancel(id_of(ids, serial)).map(|()| None)),
    }
}

/// Makes a request complete where it is pending, or else tests it.
fn completed(
    set: &mut RequestSet,
    id: RequestId,
    with: Complete,
) -> Result<Option<Complete>, Refusal> {
    match set.test(id) {
        Err(Refusal::Pending) => {
            set.complete(id, with);
            Ok(None)
        }
        answer => answer.map(Some),
    }
}

/// Whether just the requests with these serials stand, in this order.
fn stand(set: &RequestSet, serials: &[u64]) -> bool {
    let mut at = 0u32;
    for serial in serials {
        match set.listed(at) {
            Some((id, _, _)) if id.serial == *serial => at = at.saturating_add(1),
            _ => return false,
        }
    }
    set.listed(at).is_none()
}

/// What a call answers: how a request was complete that it ended, or its refusal.
type Answer = Result<Option<Complete>, Refusal>;

/// A call, its answer, the serial of the receive that waits at `HERE` from then on, and the serials of what stands.
type Row = (Call, Answer, Option<u64>, &'static [u64]);

const MESSAGE: Complete = Complete::Message(SLOT, 8);

const ADDRESS: Complete = Complete::Address(1024);

const CALLS: [Row; 18] = [
    (Add(Ask::Lookup(NAME)), Ok(None), None, &[0]),
    (Add(Ask::Message(THERE, 8)), Ok(None), None, &[0, 1]),
    (Add(Ask::Message(HERE, 8)), Ok(None), Some(2), &[0, 1, 2]),
    (Add(Ask::Packet(HERE)), Ok(None), Some(2), &[0, 1, 2, 3]),
    (End(2, MESSAGE), Ok(None), Some(3), &[0, 1, 2, 3]),
    (Cancel(2), Err(Refusal::TooLate), Some(3), &[0, 1, 2, 3]),
    (Cancel(3), Ok(None), None, &[0, 1, 2]),
    (Cancel(3), Err(Refusal::RequestInvalid), None, &[0, 1, 2]),
    (Add(Ask::Connect(5)), Ok(None), None, &[0, 1, 2, 4]),
    (Test(3), Err(Refusal::RequestInvalid), None, &[0, 1, 2, 4]),
    (Cancel(3), Err(Refusal::RequestInvalid), None, &[0, 1, 2, 4]),
    (Test(4), Err(Refusal::Pending), None, &[0, 1, 2, 4]),
    (Test(2), Ok(Some(MESSAGE)), None, &[0, 1, 4]),
    (Test(2), Err(Refusal::RequestInvalid), None, &[0, 1, 4]),
    (End(0, ADDRESS), Ok(None), None, &[0, 1, 4]),
    (Test(0), Ok(Some(ADDRESS)), None, &[1, 4]),
    (Cancel(1), Ok(None), None, &[4]),
    (Cancel(4), Ok(None), None, &[]),
];

/// Whether a call answers what it must, and this stands from then on.
fn holds(
    set: &mut RequestSet,
    ids: &mut Vec<RequestId>,
    (call, answer, waiting, serials): Row,
) -> Result<bool, AllocError> {
    Ok(
        made(set, ids, call)? == answer
            && set.waiting(HERE).map(|id| id.serial) == waiting
            && stand(set, serials),
    )
}

fn assert_rows(
    rt: &impl Abort,
    set: &mut RequestSet,
    ids: &mut Vec<RequestId>,
    rows: &[Row],
) -> Result<(), Fail> {
    for (i, row) in rows.iter().enumerate() {
        assert!(rt; holds(set, ids, *row)?, "row {i}");
    }
    Ok(())
}

#[test]
fn calls_answer_and_leave_the_others(rt: HostRuntime) -> Result<(), Fail> {
    may_cross_threads();
    let mut set = RequestSet::new(rt.alloc())?;
    let mut ids = Vec::new(rt.alloc());
    assert_rows(&rt, &mut set, &mut ids, &CALLS)
}

const FULL: [(Call, Answer); 64] = [(Add(Ask::Packet(HERE)), Ok(None)); 64];

/// Calls where 64 requests stand.
const LIMIT: [(Call, Answer); 5] = [
    (Add(Ask::Packet(HERE)), Err(Refusal::RequestLimit)),
    (Cancel(63), Ok(None)),
    (Add(Ask::Packet(HERE)), Ok(None)),
    (Add(Ask::Packet(HERE)), Err(Refusal::RequestLimit)),
    (Test(64), Err(Refusal::Pending)),
];

/// Asserts what each call answers.
fn assert_answers(
    rt: &impl Abort,
    set: &mut RequestSet,
    ids: &mut Vec<RequestId>,
    rows: &[(Call, Answer)],
) -> Result<(), Fail> {
    for (i, (call, answer)) in rows.iter().enumerate() {
        assert!(rt; made(set, ids, *call)? == *answer, "row {i}");
    }
    Ok(())
}

/// Whether 64 requests stand, the last of them with this serial.
fn is_last(set: &RequestSet, serial: u64) -> bool {
    set.listed(63).map(|(id, _, _)| id.serial) == Some(serial) && set.listed(64).is_none()
}

#[test]
fn sixty_four_stand_and_no_more(rt: HostRuntime) -> Result<(), Fail> {
    let mut set = RequestSet::new(rt.alloc())?;
    let mut ids = Vec::new(rt.alloc());
    assert!(rt; !set.is_full());
    assert_answers(&rt, &mut set, &mut ids, &FULL)?;
    assert!(rt; set.is_full());
    assert_answers(&rt, &mut set, &mut ids, &LIMIT)?;
    assert!(rt; is_last(&set, 64) && set.is_full());
    Ok(())
}

/// Whether a request that got the place of another tells what was asked and how it is complete.
fn tells_all(set: &mut RequestSet) -> Result<bool, RequestLimit> {
    let first = set.add(Ask::Connect(1))?;
    let _done = set.cancel(first);
    let ask = Ask::Packet(HERE);
    let complete = Complete::Packet(SLOT);
    let id = set.add(ask)?;
    set.complete(id, complete);
    Ok(
        (id.key, id.serial) == (first.key, 1)
            && set.listed(0) == Some((id, ask, Some(complete)))
            && set.listed(1).is_none(),
    )
}

#[test]
fn a_place_tells_what_was_asked_and_how_it_is_complete(rt: HostRuntime) -> Result<(), Fail> {
    let mut set = RequestSet::new(rt.alloc())?;
    assert!(rt; tells_all(&mut set)?);
    Ok(())
}

/// A request that is complete, one that is pending, another that is complete, and one that ended.
fn four_requests(set: &mut RequestSet) -> Result<[RequestId; 4], RequestLimit> {
    let done = set.add(Ask::Packet(HERE))?;
    set.complete(done, Complete::Packet(SLOT));
    let pending = set.add(Ask::Connect(1))?;
    let next = set.add(Ask::Lookup(NAME))?;
    set.complete(next, ADDRESS);
    let ended = set.add(Ask::Connect(2))?;
    let _done = set.cancel(ended);
    Ok([done, pending, next, ended])
}

/// Whether the first place whose request is complete is the due one, and nothing changes.
fn first_places_are_due(set: &RequestSet, [done, pending, next, ended]: [RequestId; 4]) -> bool {
    set.first_done(&[]).is_none()
        && set.first_done(&[pending, ended]).is_none()
        && set.first_done(&[done]) == Some(0)
        && set.first_done(&[next, done]) == Some(0)
        && set.first_done(&[pending, ended, next, done]) == Some(2)
        && set.first_done(&[
            ended, pending, pending, pending, pending, pending, pending, done,
        ]) == Some(7)
        && stand(set, &[0, 1, 2])
}

#[test]
fn the_first_place_that_is_complete_is_found(rt: HostRuntime) -> Result<(), Fail> {
    let mut set = RequestSet::new(rt.alloc())?;
    let ids = four_requests(&mut set)?;
    assert!(rt; first_places_are_due(&set, ids));
    Ok(())
}

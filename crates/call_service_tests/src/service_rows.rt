use crate::rows::{DONE, GAP, OLD, OVER, Row, first_wrong};
use call_service::{
    Carried, Service, ServiceFault, calls_are_carried_out_once, may_cross_threads,
    repeats_change_nothing, repeats_get_the_first_reply,
};
use std::test::Fail;

const MOST: u64 = u64::MAX;

/// Two calls on one cell, each sent twice.
const REPEATS: [Row; 4] = [
    ((1, 0, 1, 5), Ok((DONE, 5))),
    ((1, 0, 1, 5), Ok((DONE, 5))),
    ((1, 0, 2, 7), Ok((DONE, 12))),
    ((1, 0, 2, 7), Ok((DONE, 12))),
];

/// The call of client 1 on cell 0 that adds this.
fn entry(number: u32, amount: u64, over: bool, value: u64) -> Option<Carried> {
    Some(Carried {
        client: 1,
        number,
        cell: 0,
        amount,
        over,
        value,
    })
}

/// Whether a service has these two entries and no third.
fn has_entries(service: &Service, first: Option<Carried>, second: Option<Carried>) -> bool {
    service.entry(0) == first
        && service.entry(1) == second
        && service.entry(2).is_none()
        && service.len() == 2
}

#[test]
fn a_repeated_call_is_carried_out_once(rt: HostRuntime) -> Result<(), Fail> {
    calls_are_carried_out_once();
    repeats_get_the_first_reply();
    repeats_change_nothing();
    may_cross_threads();
    let mut service = Service::new(rt.alloc(), 2)?;
    assert_eq!(rt; first_wrong(&mut service, &REPEATS), None);
    assert!(rt; has_entries(&service, entry(1, 5, false, 5), entry(2, 7, false, 12)));
    Ok(())
}

/// Numbers that are not the next, numbers that were, and the last one again, also behind another client's call.
const NUMBERS: [Row; 12] = [
    ((1, 0, 2, 7), Ok((GAP, 0))),
    ((1, 0, 0, 7), Ok((GAP, 0))),
    ((1, 0, u32::MAX, 7), Ok((GAP, 0))),
    ((1, 0, 1, 5), Ok((DONE, 5))),
    ((1, 0, 3, 7), Ok((GAP, 0))),
    ((1, 0, 2, 7), Ok((DONE, 12))),
    ((1, 0, 1, 5), Ok((OLD, 0))),
    ((1, 0, 0, 5), Ok((GAP, 0))),
    ((1, 0, 2, 7), Ok((DONE, 12))),
    ((7, 0, 2, 1), Ok((GAP, 0))),
    ((7, 0, 1, 1), Ok((DONE, 13))),
    ((1, 9, 2, 100), Ok((DONE, 12))),
];

#[test]
fn each_number_has_its_status(rt: HostRuntime) -> Result<(), Fail> {
    let mut service = Service::new(rt.alloc(), 10)?;
    assert_eq!(rt; first_wrong(&mut service, &NUMBERS), None);
    assert!(rt; service.entry(2).is_some() && service.entry(3).is_none());
    Ok(())
}

/// A sum that is the greatest `u64`, sums over it, and a call that adds nothing.
const SUMS: [Row; 7] = [
    ((1, 0, 1, MOST), Ok((DONE, MOST))),
    ((1, 0, 2, 1), Ok((OVER, MOST))),
    ((1, 0, 2, 1), Ok((OVER, MOST))),
    ((2, 0, 1, MOST), Ok((OVER, MOST))),
    ((2, 0, 2, 0), Ok((DONE, MOST))),
    ((2, 1, 3, 1), Ok((DONE, 1))),
    ((2, 0, 3, 1), Ok((DONE, 1))),
];

#[test]
fn a_sum_over_the_greatest_number_adds_nothing(rt: HostRuntime) -> Result<(), Fail> {
    let mut service = Service::new(rt.alloc(), 5)?;
    assert_eq!(rt; first_wrong(&mut service, &SUMS[..2]), None);
    assert!(rt;
        has_entries(
            &service,
            entry(1, MOST, false, MOST),
            entry(2, 1, true, MOST)
        )
    );
    assert_eq!(rt; first_wrong(&mut service, &SUMS[2..]), None);
    Ok(())
}

const FULL: Result<(u8, u64), ServiceFault> = Err(ServiceFault::Full);

/// The calls of a service that is made for two.
const TWO_AND_FULL: [Row; 7] = [
    ((1, 0, 1, 5), Ok((DONE, 5))),
    ((2, 0, 1, 1), Ok((DONE, 6))),
    ((1, 0, 2, 7), FULL),
    ((3, 1, 1, 7), FULL),
    ((1, 0, 1, 5), Ok((DONE, 5))),
    ((1, 0, 3, 7), Ok((GAP, 0))),
    ((1, 0, 2, 7), FULL),
];

/// The calls of a service that is made for none.
const NONE_AND_FULL: [Row; 3] = [
    ((1, 0, 2, 5), Ok((GAP, 0))),
    ((1, 0, 1, 5), FULL),
    ((1, 0, 1, 5), FULL),
];

#[test]
fn a_full_service_still_replies_to_repeats(rt: HostRuntime) -> Result<(), Fail> {
    let mut service = Service::new(rt.alloc(), 2)?;
    assert_eq!(rt; first_wrong(&mut service, &TWO_AND_FULL), None);
    assert!(rt; service.entry(1).is_some() && service.entry(2).is_none());
    let mut empty = Service::new(rt.alloc(), 0)?;
    assert_eq!(rt; first_wrong(&mut empty, &NONE_AND_FULL), None);
    assert!(rt; empty.entry(0).is_none());
    Ok(())
}

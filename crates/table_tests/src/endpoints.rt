use endpoint_table::{EndpointTable, Local, Refusal, may_cross_threads};
use mc_base::NoMemory;
use std::alloc::Global;
use std::process::Abort;
use std::test::Fail;

fn at(node: u8, port: u16) -> Local {
    Local { node, port }
}

/// Creates the endpoints of node 0 with the ports 0 to 63, and tells whether they got the addresses from 1024 on.
fn fill(table: &mut EndpointTable) -> bool {
    for port in 0u16..64 {
        if table.create(at(0, port)) != Ok(1024 + u32::from(port)) {
            return false;
        }
    }
    true
}

/// Deletes the endpoints of node 0 with the ports 0 to 63, and tells whether each was live.
fn empty(table: &mut EndpointTable) -> bool {
    for port in 0u16..64 {
        if table.delete(at(0, port)).is_err() {
            return false;
        }
    }
    true
}

/// Whether this is what is owed to a peer.
fn is_owed(table: &EndpointTable, peer: u8, name: &[u8], addr: u32, create: bool) -> bool {
    match table.owed(peer) {
        Some(ns) => ns.name.as_slice() == name && ns.addr == addr && ns.create == create,
        None => false,
    }
}

/// Pays all that is owed to a peer, and tells how many announcements it was.
fn pay_all(table: &mut EndpointTable, peer: u8) -> u32 {
    let mut count = 0u32;
    for _ in 0..200 {
        if table.owed(peer).is_none() {
            return count;
        }
        table.paid(peer);
        count = count.saturating_add(1);
    }
    count
}

/// Creates and deletes an endpoint so many times, and tells whether it went well.
fn churn(table: &mut EndpointTable, times: u32) -> bool {
    for _ in 0..times {
        if table.create(at(0, 1)).is_err() || table.delete(at(0, 1)).is_err() {
            return false;
        }
    }
    true
}

/// A call, and what it answers. An endpoint is its node and port.
#[derive(Clone, Copy)]
enum Step {
    Create(u8, u16, Result<u32, Refusal>),
    Delete(u8, u16, Result<(), Refusal>),
    Find(u8, u16, Option<u32>),
    ByAddress(u32, Option<Local>),
    /// What is owed to a peer: the name, the address, and whether the endpoint is there.
    Owed(u8, &'static [u8], u32, bool),
    /// Nothing is owed to a peer.
    NoneOwed(u8),
    Paid(u8),
    /// Pays so many announcements to a peer, which are all that are owed.
    PaidAll(u8, u32),
    /// Creates 64 endpoints.
    Filled,
    /// Deletes 64 endpoints.
    Emptied,
    /// Creates and deletes an endpoint so many times.
    Churned(u32),
}

use Step::{
    ByAddress, Churned, Create, Delete, Emptied, Filled, Find, NoneOwed, Owed, Paid, PaidAll,
};

/// Makes a call, and tells whether it answers what it must.
fn holds(table: &mut EndpointTable, step: Step) -> bool {
    match step {
        Create(node, port, due) => table.create(at(node, port)) == due,
        Delete(node, port, due) => table.delete(at(node, port)) == due,
        Find(node, port, due) => table.find(at(node, port)) == due,
        ByAddress(address, due) => table.by_address(address) == due,
        Owed(peer, name, addr, create) => is_owed(table, peer, name, addr, create),
        NoneOwed(peer) => table.owed(peer).is_none(),
        Paid(peer) => {
            table.paid(peer);
            true
        }
        PaidAll(peer, count) => pay_all(table, peer) == count,
        Filled => fill(table),
        Emptied => empty(table),
        Churned(times) => churn(table, times),
    }
}

/// Asserts what each call answers of the table of domain 1 with two nodes, linked to these.
fn assert_steps(rt: &impl Abort, alloc: Global, peers: &[u8], steps: &[Step]) -> Result<(), Fail> {
    let mut table = EndpointTable::new(alloc, 1, 2, peers)?;
    for (i, step) in steps.iter().enumerate() {
        assert!(rt; holds(&mut table, *step), "step {i}");
    }
    Ok(())
}

const FOUND_AND_DELETED: [Step; 28] = [
    Create(1, 7, Ok(1024)),
    Create(0, 7, Ok(1025)),
    Find(1, 7, Some(1024)),
    Find(0, 7, Some(1025)),
    Find(0, 8, None),
    ByAddress(1024, Some(Local { node: 1, port: 7 })),
    ByAddress(1025, Some(Local { node: 0, port: 7 })),
    ByAddress(1023, None),
    ByAddress(1026, None),
    Delete(1, 7, Ok(())),
    Find(1, 7, None),
    ByAddress(1024, None),
    Find(0, 7, Some(1025)),
    Delete(1, 7, Err(Refusal::EndpInvalid)),
    // An address is never given again.
    Create(1, 7, Ok(1026)),
    ByAddress(1026, Some(Local { node: 1, port: 7 })),
    // Each is found, in whatever order they were created.
    Create(1, 0, Ok(1027)),
    Create(0, 65_535, Ok(1028)),
    Create(0, 0, Ok(1029)),
    Create(1, 65_535, Ok(1030)),
    Find(0, 0, Some(1029)),
    Find(0, 7, Some(1025)),
    Find(0, 65_535, Some(1028)),
    Find(1, 0, Some(1027)),
    Find(1, 7, Some(1026)),
    Find(1, 65_535, Some(1030)),
    Delete(0, 65_535, Ok(())),
    Find(0, 65_535, None),
];

#[test]
fn an_endpoint_is_created_found_and_deleted(rt: HostRuntime) -> Result<(), Fail> {
    may_cross_threads();
    assert_steps(&rt, rt.alloc(), &[], &FOUND_AND_DELETED)
}

const REFUSALS: [Step; 9] = [
    Create(2, 0, Err(Refusal::NodeInvalid)),
    Filled,
    Create(2, 0, Err(Refusal::NodeInvalid)),
    Create(0, 63, Err(Refusal::ExistsAlready)),
    Create(1, 63, Err(Refusal::EndpLimit)),
    Create(0, 64, Err(Refusal::EndpLimit)),
    Delete(0, 0, Ok(())),
    Create(1, 63, Ok(1088)),
    Create(0, 0, Err(Refusal::EndpLimit)),
];

#[test]
fn refusals_come_in_their_order(rt: HostRuntime) -> Result<(), Fail> {
    assert_steps(&rt, rt.alloc(), &[], &REFUSALS)
}

const LAST_ADDRESS: [Step; 6] = [
    Churned(59_999),
    Create(0, 1, Ok(61_023)),
    Create(0, 1, Err(Refusal::ExistsAlready)),
    Create(0, 2, Err(Refusal::AddressSpent)),
    Delete(0, 1, Ok(())),
    Create(0, 1, Err(Refusal::AddressSpent)),
];

#[test]
fn the_addresses_end(rt: HostRuntime) -> Result<(), Fail> {
    assert_steps(&rt, rt.alloc(), &[], &LAST_ADDRESS)
}

const TOLD_IN_ORDER: [Step; 22] = [
    NoneOwed(0),
    Create(0, 5, Ok(1024)),
    Create(1, 6, Ok(1025)),
    Delete(0, 5, Ok(())),
    Owed(3, b"mcapi:1:0:5", 1024, true),
    Paid(3),
    Owed(3, b"mcapi:1:1:6", 1025, true),
    Paid(3),
    Owed(3, b"mcapi:1:0:5", 1024, false),
    Paid(3),
    NoneOwed(3),
    Owed(0, b"mcapi:1:0:5", 1024, true),
    Paid(0),
    Owed(0, b"mcapi:1:1:6", 1025, true),
    Paid(0),
    Owed(0, b"mcapi:1:0:5", 1024, false),
    Paid(0),
    NoneOwed(0),
    // A domain that is not linked is owed nothing.
    Create(0, 5, Ok(1026)),
    NoneOwed(1),
    Paid(1),
    Owed(0, b"mcapi:1:0:5", 1026, true),
];

#[test]
fn each_peer_is_told_all_in_order(rt: HostRuntime) -> Result<(), Fail> {
    assert_steps(&rt, rt.alloc(), &[0, 3], &TOLD_IN_ORDER)
}

const IN_USE: [Step; 13] = [
    Filled,
    PaidAll(0, 64),
    Delete(0, 9, Ok(())),
    Create(0, 9, Err(Refusal::EndpLimit)),
    PaidAll(0, 1),
    Create(0, 9, Err(Refusal::EndpLimit)),
    PaidAll(3, 65),
    Create(0, 9, Ok(1088)),
    // All 64 go, and 64 creations and ends at most are owed.
    Emptied,
    Create(0, 0, Err(Refusal::EndpLimit)),
    PaidAll(3, 65),
    PaidAll(0, 65),
    Create(0, 0, Ok(1089)),
];

#[test]
fn a_record_is_in_use_until_all_were_told(rt: HostRuntime) -> Result<(), Fail> {
    assert_steps(&rt, rt.alloc(), &[0, 3], &IN_USE)
}

/// The name that is owed after the creation of an endpoint.
fn name_is(alloc: Global, domain: u8, local: Local, name: &[u8]) -> Result<bool, NoMemory> {
    let mut table = EndpointTable::new(alloc, domain, 16, &[2])?;
    Ok(table.create(local) == Ok(1024) && is_owed(&table, 2, name, 1024, true))
}

/// The domain, the node and the port of an endpoint, and its name.
const NAMES: [(u8, u8, u16, &[u8]); 3] = [
    (7, 15, 65_535, b"mcapi:7:15:65535"),
    (0, 0, 0, b"mcapi:0:0:0"),
    (1, 10, 100, b"mcapi:1:10:100"),
];

#[test]
fn names_are_decimal(rt: HostRuntime) -> Result<(), Fail> {
    for (domain, node, port, name) in &NAMES {
        assert!(rt; name_is(rt.alloc(), *domain, at(*node, *port), name)?);
    }
    Ok(())
}

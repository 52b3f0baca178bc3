use mc_base::{EndName, Full};
use name_service::{KnownNames, known_names_are_a_map, may_cross_threads};
use std::process::Abort;
use std::test::Fail;

/// The steps in which 64 names are gone through: in rising order, in falling order, and mixed.
const STEPS: [u16; 3] = [1, 63, 37];

fn name(domain: u8, node: u8, port: u16) -> EndName {
    EndName { domain, node, port }
}

/// One of 64 names, of four domains with four nodes each.
fn stepped(i: u16, step: u16) -> EndName {
    let number = i.wrapping_mul(step) % 64;
    name((number / 16) as u8, (number / 4 % 4) as u8, number % 4)
}

/// Learns the 64 names in these steps, each with its place among them as its address.
fn learn_all(known: &mut KnownNames, step: u16) -> Result<(), Full> {
    for i in 0u16..64 {
        known.learn(stepped(i, step), u32::from(i))?;
    }
    Ok(())
}

/// Whether each of the 64 names has its place as its address, but for these two, which have an address of their own.
fn all_are_found(known: &KnownNames, step: u16, others: [(EndName, Option<u32>); 2]) -> bool {
    for i in 0u16..64 {
        let name = stepped(i, step);
        let mut addr = Some(u32::from(i));
        for (other, other_addr) in others {
            if name == other {
                addr = other_addr;
            }
        }
        if known.find(name) != addr {
            return false;
        }
    }
    for (other, addr) in others {
        if known.find(other) != addr {
            return false;
        }
    }
    true
}

/// What is done with the first of the 64 names, or with one beside them, and what comes of it.
#[derive(Clone, Copy)]
enum Deed {
    LearnFirst(u32, Result<(), Full>),
    LearnOther(u32, Result<(), Full>),
    ForgetFirst(bool),
    ForgetOther(bool),
}

use Deed::{ForgetFirst, ForgetOther, LearnFirst, LearnOther};

/// A deed, and the addresses of the two names after it.
type Row = (Deed, Option<u32>, Option<u32>);

const DEEDS: [Row; 6] = [
    // No more are learned, and nothing changes. A known name gets its new address.
    (LearnOther(7, Err(Full)), Some(0), None),
    (LearnFirst(8, Ok(())), Some(8), None),
    (ForgetOther(false), Some(8), None),
    // Where one is forgotten, there is room for another.
    (ForgetFirst(true), None, None),
    (LearnOther(9, Ok(())), None, Some(9)),
    (LearnFirst(10, Err(Full)), None, Some(9)),
];

/// Whether a deed comes to what it must.
fn holds(known: &mut KnownNames, first: EndName, other: EndName, deed: Deed) -> bool {
    match deed {
        LearnFirst(addr, due) => known.learn(first, addr) == due,
        LearnOther(addr, due) => known.learn(other, addr) == due,
        ForgetFirst(due) => known.forget(first) == due,
        ForgetOther(due) => known.forget(other) == due,
    }
}

fn assert_deeds(rt: &impl Abort, known: &mut KnownNames, step: u16, rows: &[Row]) {
    let first = stepped(0, step);
    let other = name(255, 255, 65535);
    for (i, (deed, addr, other_addr)) in rows.iter().enumerate() {
        let due = [(first, *addr), (other, *other_addr)];
        assert!(rt;
            holds(known, first, other, *deed) && all_are_found(known, step, due),
            "{step}: row {i}"
        );
    }
}

#[test]
fn sixty_four_names_are_known_in_any_order(rt: HostRuntime) -> Result<(), Fail> {
    for step in STEPS {
        let mut known = KnownNames::new(rt.alloc())?;
        learn_all(&mut known, step)?;
        assert_deeds(&rt, &mut known, step, &DEEDS);
    }
    known_names_are_a_map();
    may_cross_threads();
    Ok(())
}

/// The domain, node and port of a name, and its address.
type Named = (u8, u8, u16, u32);

const APART: [Named; 9] = [
    (0, 0, 0, 0),
    (0, 0, 1, 1),
    (0, 0, 65535, 2),
    (0, 1, 0, 3),
    (0, 255, 0, 4),
    (0, 255, 65535, 5),
    (1, 0, 0, 6),
    (255, 0, 0, 7),
    (255, 255, 65535, 8),
];

/// Whether a name is not known, until it is learned with an address.
fn is_new(known: &mut KnownNames, name: EndName, addr: u32) -> bool {
    known.find(name).is_none() && known.learn(name, addr).is_ok() && known.find(name) == Some(addr)
}

/// Whether a name is known with an address, until it is forgotten, once.
fn is_forgotten_once(known: &mut KnownNames, name: EndName, addr: u32) -> bool {
    known.find(name) == Some(addr)
        && known.forget(name)
        && !known.forget(name)
        && known.find(name).is_none()
}

/// Asserts that each of these names is new, or known and forgotten.
fn assert_apart(rt: &impl Abort, known: &mut KnownNames, rows: &[Named], are_new: bool) {
    for (i, (domain, node, port, addr)) in rows.iter().enumerate() {
        let name = name(*domain, *node, *port);
        let is_due = if are_new {
            is_new(known, name, *addr)
        } else {
            is_forgotten_once(known, name, *addr)
        };
        assert!(rt; is_due, "name {i}");
    }
}

#[test]
fn names_that_differ_in_one_part_are_apart(rt: HostRuntime) -> Result<(), Fail> {
    let mut known = KnownNames::new(rt.alloc())?;
    // What was forgotten is learned again.
    for are_new in [true, false, true, false] {
        assert_apart(&rt, &mut known, &APART, are_new);
    }
    Ok(())
}

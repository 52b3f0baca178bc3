//! The words by which calls are refused at a domain that has just been opened.

use mc_base::{EndName, Kind, NoMemory, Priority, Refusal, Side};
use report_replay::{DomainCall, State};
use std::alloc::Global;
use std::process::Abort;
use std::test::Fail;

/// An endpoint of domain 1, which is not known.
const FAR: EndName = EndName {
    domain: 1,
    node: 0,
    port: 7,
};

/// Domain 0 with one node, whose lanes to itself have two buffers, and to domain 1 four.
fn opened(alloc: Global) -> Result<State, NoMemory> {
    State::open(alloc, 0, 1, &[(0, 2), (1, 4)])
}

/// A node and a call there, and the word by which it is refused, if it is.
type Row<'a> = (u8, DomainCall<'a>, Option<Refusal>);

fn assert_refusals(rt: &impl Abort, state: &State, rows: &[Row<'_>]) {
    for (i, (node, call, word)) in rows.iter().enumerate() {
        assert!(rt; state.refusal(*node, call) == *word, "row {i}");
    }
}

#[test]
fn calls_are_refused_by_their_first_word(rt: HostRuntime) -> Result<(), Fail> {
    let state = opened(rt.alloc())?;
    let priority = Priority::new(1).ok_or("1 is a priority")?;
    let send = DomainCall::Send {
        port: 1,
        to: FAR,
        priority,
        bytes: b"hello",
    };
    let connect = DomainCall::Connect {
        port: 1,
        to: FAR,
        kind: Kind::Packet,
    };
    let close = DomainCall::Close {
        port: 1,
        side: Side::Sender,
    };
    let rows = [
        (0, DomainCall::Create { port: 1 }, None),
        (
            1,
            DomainCall::Create { port: 1 },
            Some(Refusal::NodeInvalid),
        ),
        (
            0,
            DomainCall::Receive { port: 1, max: 9 },
            Some(Refusal::EndpInvalid),
        ),
        (0, send, Some(Refusal::EndpInvalid)),
        (0, connect, Some(Refusal::EndpInvalid)),
        (0, close, Some(Refusal::EndpInvalid)),
    ];
    assert_refusals(&rt, &state, &rows);
    Ok(())
}

#[test]
fn calls_that_name_nothing_are_refused(rt: HostRuntime) -> Result<(), Fail> {
    let state = opened(rt.alloc())?;
    let rows = [
        (
            0,
            DomainCall::Test { request: None },
            Some(Refusal::RequestInvalid),
        ),
        (
            0,
            DomainCall::Cancel { request: Some(0) },
            Some(Refusal::RequestInvalid),
        ),
        (
            0,
            DomainCall::Release { packet: None },
            Some(Refusal::BufInvalid),
        ),
        (
            0,
            DomainCall::Raw { to: 5, bytes: &[0] },
            Some(Refusal::LinkInvalid),
        ),
        (0, DomainCall::Raw { to: 1, bytes: &[0] }, None),
        (0, DomainCall::Turn, None),
    ];
    assert_refusals(&rt, &state, &rows);
    Ok(())
}

use actor_lang::{InputFault, InputReason, RelayText, read_relay};
use std::alloc::Global;

/// A text of a relay, and the line and the reason of its refusal.
type Refusal = (&'static [u8], u32, InputReason);

static REFUSED: [Refusal; 46] = [
    (b"", 1, InputReason::Form),
    (b"\n", 1, InputReason::Form),
    (b"\nrelay 2 size 4\n", 1, InputReason::Form),
    (b"relay\n", 1, InputReason::Form),
    (b"relay 2 size\n", 1, InputReason::Form),
    (b"relay 2 size \n", 1, InputReason::Form),
    (b"relay 2 size 4 \n", 1, InputReason::Form),
    (b" relay 2 size 4\n", 1, InputReason::Form),
    (b"relay  size 4\n", 1, InputReason::Form),
    (b"relay  2 size 4\n", 1, InputReason::Form),
    (b"relay\t2 size 4\n", 1, InputReason::Form),
    (b"relay 2 size 4 61\n", 1, InputReason::Form),
    (b"relay 2 size 4 repeat 1 1\n", 1, InputReason::Form),
    (b"Relay 2 size 4\n", 1, InputReason::Form),
    (b"relays 2 size 4\n", 1, InputReason::Form),
    (b"relay 2 sizes 4\n", 1, InputReason::Form),
    (b"calls 1 size 4 repeat 2\n", 1, InputReason::Form),
    (b"relay 8 sizes 3\n", 1, InputReason::Form),
    (b"relay 0 size 4\n", 1, InputReason::Number),
    (b"relay 8 size 2\n", 1, InputReason::Number),
    (b"relay 02 size 4\n", 1, InputReason::Number),
    (b"relay +2 size 4\n", 1, InputReason::Number),
    (b"relay two size 4\n", 1, InputReason::Number),
    (
        b"relay 18446744073709551618 size 4\n",
        1,
        InputReason::Number,
    ),
    (b"relay 2 size 0\n", 1, InputReason::Number),
    (b"relay 2 size 1\n", 1, InputReason::Number),
    (b"relay 2 size 6\n", 1, InputReason::Number),
    (b"relay 2 size 04\n", 1, InputReason::Number),
    (b"relay 2 size 512\n", 1, InputReason::Number),
    (b"relay 2 size 4\r", 1, InputReason::Number),
    (b"relay 2 size 4\r\n61\n", 1, InputReason::Number),
    (b"relay 8 size 4\n6", 1, InputReason::Number),
    (b"relay 2 size 4\n\n", 2, InputReason::Bytes),
    (b"relay 2 size 4\n\n61\n", 2, InputReason::Bytes),
    (b"relay 2 size 4\n6\n", 2, InputReason::Bytes),
    (b"relay 2 size 4\n616\n", 2, InputReason::Bytes),
    (b"relay 2 size 4\n6g\n", 2, InputReason::Bytes),
    (b"relay 2 size 4\n61 62\n", 2, InputReason::Bytes),
    (b"relay 2 size 4\n 61\n", 2, InputReason::Bytes),
    (b"relay 2 size 4\n61 \n", 2, InputReason::Bytes),
    (b"relay 2 size 4\n61\r\n", 2, InputReason::Bytes),
    (b"relay 2 size 4\n--\n", 2, InputReason::Bytes),
    (b"relay 2 size 4\n-\r\n", 2, InputReason::Bytes),
    (b"relay 2 size 4\n# 61\n", 2, InputReason::Bytes),
    (b"relay 2 size 4\n61\n62\n\n", 4, InputReason::Bytes),
    (b"relay 2 size 4\n61\n6\n7\n", 3, InputReason::Bytes),
];

/// A text of a relay, and what it says.
type Read = (&'static [u8], u8, u32, &'static [&'static [u8]]);

static READ: [Read; 7] = [
    (b"relay 2 size 4", 2, 4, &[]),
    (b"relay 7 size 256\n", 7, 256, &[]),
    (b"relay 1 size 2\n-", 1, 2, &[b""]),
    (b"relay 2 size 4\n61\n62\n", 2, 4, &[b"a", b"b"]),
    (b"relay 2 size 4\n61\n62", 2, 4, &[b"a", b"b"]),
    (
        b"relay 2 size 4\naBcD\n-\n00\n",
        2,
        4,
        &[b"\xab\xcd", b"", b"\x00"],
    ),
    (b"relay 2 size 4\n62\n61\n62\n", 2, 4, &[b"b", b"a", b"b"]),
];

fn are_packets(packets: &[Vec<u8>], expected: &[&[u8]]) -> bool {
    packets.len() == expected.len()
        && packets
            .iter()
            .zip(expected.iter())
            .all(|(packet, bytes)| packet.as_slice() == *bytes)
}

fn says(relay: &RelayText, hops: u8, size: u32, packets: &[&[u8]]) -> bool {
    relay.hops == hops && relay.size == size && are_packets(relay.packets.as_slice(), packets)
}

fn is_read(alloc: Global, (text, hops, size, packets): Read) -> bool {
    if text.len() >= 1_000_000 {
        return false;
    }
    match read_relay(alloc, text) {
        Ok(relay) => says(&relay, hops, size, packets),
        Err(_) => false,
    }
}

/// Whether a text of a relay is refused so.
pub fn is_relay_refused(alloc: Global, text: &[u8], line: u32, reason: InputReason) -> bool {
    if text.len() >= 1_000_000 {
        return false;
    }
    match read_relay(alloc, text) {
        Ok(_) => false,
        Err(fault) => fault == InputFault::Refused { line, reason },
    }
}

#[test]
fn relays_are_refused_at_their_first_line_that_has_a_reason(rt: HostRuntime) {
    for (i, (text, line, reason)) in REFUSED.iter().enumerate() {
        assert!(rt;
            is_relay_refused(rt.alloc(), text, *line, *reason),
            "row {i}"
        );
    }
}

#[test]
fn relays_are_read(rt: HostRuntime) {
    for (i, row) in READ.iter().enumerate() {
        assert!(rt; is_read(rt.alloc(), *row), "row {i}");
    }
}

//! Texts at the limits of packets and lines.

use crate::calls::are_calls_refused;
use crate::relays::is_relay_refused;
use actor_lang::{InputReason, read_calls, read_relay};
use std::alloc::{AllocError, Global};
use std::test::Fail;

/// The first line of a relay, how many bytes its one packet has, and whether it is read.
type Packet = (&'static [u8], u32, bool);

static PACKETS: [Packet; 9] = [
    (b"relay 7 size 2\n", 488, true),
    (b"relay 7 size 2\n", 489, true),
    (b"relay 7 size 2\n", 968, true),
    (b"relay 7 size 2\n", 969, false),
    (b"relay 1 size 4\n", 1936, true),
    (b"relay 1 size 4\n", 1937, false),
    (b"relay 1 size 32\n", 8192, true),
    (b"relay 1 size 16\n", 8192, false),
    (b"relay 1 size 256\n", 8193, false),
];

fn is_packet_read(alloc: Global, (first, bytes, read): Packet) -> Result<bool, AllocError> {
    let mut text = Vec::from_slice(alloc, first)?;
    for _ in 0..bytes {
        text.extend_from_slice(b"5a")?;
    }
    text.push(b'\n')?;
    if !read {
        return Ok(is_relay_refused(alloc, &text, 2, InputReason::Bytes));
    }
    Ok(text.len() < 1_000_000 && read_relay(alloc, &text).is_ok())
}

/// A text with 100,000 equal lines behind the first, and one more line.
fn longest(alloc: Global, first: &[u8], line: &[u8], last: &[u8]) -> Result<Vec<u8>, AllocError> {
    let mut text = Vec::from_slice(alloc, first)?;
    for _ in 0..100_000 {
        text.extend_from_slice(line)?;
    }
    text.extend_from_slice(last)?;
    Ok(text)
}

fn reads_longest_relay(alloc: Global) -> Result<bool, AllocError> {
    let text = longest(alloc, b"relay 2 size 4\n", b"-\n", b"")?;
    if text.len() >= 1_000_000 {
        return Ok(false);
    }
    match read_relay(alloc, &text) {
        Ok(relay) => Ok(relay.packets.as_slice().len() == 100_000),
        Err(_) => Ok(false),
    }
}

fn reads_longest_calls(alloc: Global) -> Result<bool, AllocError> {
    let text = longest(alloc, b"calls 1 size 4 repeat 1\n", b"1 0 5\n", b"")?;
    if text.len() >= 1_000_000 {
        return Ok(false);
    }
    match read_calls(alloc, &text) {
        Ok(read) => Ok(read.calls.as_slice().len() == 100_000),
        Err(_) => Ok(false),
    }
}

/// What stands before and behind 100,000 packets without bytes, and the line and the reason of the refusal.
type LongRelay = (&'static [u8], &'static [u8], u32, InputReason);

static LONG_RELAYS: [LongRelay; 4] = [
    (b"relay 2 size 4\n", b"-", 100_002, InputReason::Many),
    (b"relay 2 size 4\n", b"\n", 100_002, InputReason::Many),
    (b"relay 2 size 4\n", b"6\n6\n", 100_002, InputReason::Many),
    (b"relay 2 size 4\n-\n6\n", b"-\n", 3, InputReason::Bytes),
];

/// The line behind 100,000 calls, and the reason of its refusal.
type LongCalls = (&'static [u8], InputReason);

static LONG_CALLS: [LongCalls; 4] = [
    (b"1 0 5", InputReason::Many),
    (b"1 0 5\n1 0\n", InputReason::Many),
    (b"1 0 x\n", InputReason::Number),
    (b"1 0\n", InputReason::Form),
];

fn is_long_relay_refused(
    alloc: Global,
    (first, last, line, reason): LongRelay,
) -> Result<bool, AllocError> {
    let text = longest(alloc, first, b"-\n", last)?;
    Ok(is_relay_refused(alloc, &text, line, reason))
}

fn are_long_calls_refused(alloc: Global, (last, reason): LongCalls) -> Result<bool, AllocError> {
    let text = longest(alloc, b"calls 1 size 4 repeat 1\n", b"1 0 5\n", last)?;
    Ok(are_calls_refused(alloc, &text, 100_002, reason))
}

#[test]
fn packets_at_the_limits_of_their_rings(rt: HostRuntime) -> Result<(), Fail> {
    for (i, row) in PACKETS.iter().enumerate() {
        assert!(rt; is_packet_read(rt.alloc(), *row)?, "row {i}");
    }
    Ok(())
}

#[test]
fn texts_of_a_hundred_thousand_lines(rt: HostRuntime) -> Result<(), Fail> {
    assert!(rt; reads_longest_relay(rt.alloc())?);
    assert!(rt; reads_longest_calls(rt.alloc())?);
    for (i, row) in LONG_RELAYS.iter().enumerate() {
        assert!(rt; is_long_relay_refused(rt.alloc(), *row)?, "relay {i}");
    }
    for (i, row) in LONG_CALLS.iter().enumerate() {
        assert!(rt; are_long_calls_refused(rt.alloc(), *row)?, "calls {i}");
    }
    Ok(())
}

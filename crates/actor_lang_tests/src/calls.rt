use actor_lang::{CallsText, InputFault, InputReason, read_calls};
use call_logs::NumberedCall;
use std::alloc::Global;

/// A text of numbered calls, and the line and the reason of its refusal.
type Refusal = (&'static [u8], u32, InputReason);

static REFUSED: [Refusal; 42] = [
    (b"", 1, InputReason::Form),
    (b"\n", 1, InputReason::Form),
    (b"calls 1 size 4\n", 1, InputReason::Form),
    (b"calls 1 size 4 repeat\n", 1, InputReason::Form),
    (b"calls 1 size 4 repeat \n", 1, InputReason::Form),
    (b"calls 1 size 4 repeat 2 \n", 1, InputReason::Form),
    (b"calls  size 4 repeat 2\n", 1, InputReason::Form),
    (b"calls 1 size 4  repeat 2\n", 1, InputReason::Form),
    (b" calls 1 size 4 repeat 2\n", 1, InputReason::Form),
    (b"calls 1 size 4 repeat 2 3\n", 1, InputReason::Form),
    (b"call 1 size 4 repeat 2\n", 1, InputReason::Form),
    (b"calls 1 Size 4 repeat 2\n", 1, InputReason::Form),
    (b"calls 1 size 4 times 2\n", 1, InputReason::Form),
    (b"relay 2 size 4\n", 1, InputReason::Form),
    (b"calls 9 size 3 times 5\n", 1, InputReason::Form),
    (b"calls 0 size 4 repeat 2\n", 1, InputReason::Number),
    (b"calls 8 size 4 repeat 2\n", 1, InputReason::Number),
    (b"calls 01 size 4 repeat 2\n", 1, InputReason::Number),
    (b"calls 1 size 2 repeat 2\n", 1, InputReason::Number),
    (b"calls 1 size 12 repeat 2\n", 1, InputReason::Number),
    (b"calls 1 size 512 repeat 2\n", 1, InputReason::Number),
    (b"calls 1 size 4 repeat 0\n", 1, InputReason::Number),
    (b"calls 1 size 4 repeat 5\n", 1, InputReason::Number),
    (
        b"calls 1 size 4 repeat 2\r\n1 0 5\n",
        1,
        InputReason::Number,
    ),
    (b"calls 8 size 4 repeat 2\n1 0\n", 1, InputReason::Number),
    (b"calls 1 size 4 repeat 2\n\n", 2, InputReason::Form),
    (b"calls 1 size 4 repeat 2\n1 0\n", 2, InputReason::Form),
    (b"calls 1 size 4 repeat 2\n1 0 5 6\n", 2, InputReason::Form),
    (b"calls 1 size 4 repeat 2\n 1 0 5\n", 2, InputReason::Form),
    (b"calls 1 size 4 repeat 2\n1 0 5 \n", 2, InputReason::Form),
    (b"calls 1 size 4 repeat 2\n1  0 5\n", 2, InputReason::Form),
    (b"calls 1 size 4 repeat 2\n9 99\n", 2, InputReason::Form),
    (b"calls 1 size 4 repeat 2\n0 0 5\n", 2, InputReason::Number),
    (b"calls 1 size 4 repeat 2\n2 0 5\n", 2, InputReason::Number),
    (b"calls 1 size 4 repeat 2\n1 16 5\n", 2, InputReason::Number),
    (b"calls 1 size 4 repeat 2\n1 0 05\n", 2, InputReason::Number),
    (b"calls 1 size 4 repeat 2\n1 0 -5\n", 2, InputReason::Number),
    (
        b"calls 1 size 4 repeat 2\n1 0 18446744073709551616\n",
        2,
        InputReason::Number,
    ),
    (
        b"calls 1 size 4 repeat 2\n1 0 5\r\n",
        2,
        InputReason::Number,
    ),
    (
        b"calls 1 size 4 repeat 2\n1 0 5\n\n1 0 7\n",
        3,
        InputReason::Form,
    ),
    (
        b"calls 1 size 4 repeat 2\n1 0 5\n1 0 x\n1 0\n",
        3,
        InputReason::Number,
    ),
    (
        b"calls 1 size 4 repeat 2\n1 0 5\n1 0\n1 0 x\n",
        3,
        InputReason::Form,
    ),
];

/// The client, the cell and the amount of a call.
type Asked = (u8, u8, u64);

/// A text of numbered calls, and what it says.
type Read = (&'static [u8], u8, u32, u8, &'static [Asked]);

static READ: [Read; 4] = [
    (b"calls 1 size 4 repeat 1", 1, 4, 1, &[]),
    (b"calls 7 size 256 repeat 4\n", 7, 256, 4, &[]),
    (
        b"calls 1 size 4 repeat 2\n1 0 5\n1 0 7",
        1,
        4,
        2,
        &[(1, 0, 5), (1, 0, 7)],
    ),
    (
        b"calls 3 size 8 repeat 3\n3 15 18446744073709551615\n1 0 0\n2 7 1\n1 0 0\n",
        3,
        8,
        3,
        &[
            (3, 15, 18_446_744_073_709_551_615),
            (1, 0, 0),
            (2, 7, 1),
            (1, 0, 0),
        ],
    ),
];

fn are_calls(calls: &[NumberedCall], expected: &[Asked]) -> bool {
    calls.len() == expected.len()
        && calls.iter().zip(expected.iter()).all(|(call, asked)| (
            call.client,
            call.cell,
            call.amount,
        ) == *asked)
}

fn says(text: &CallsText, (_, clients, size, repeat, calls): Read) -> bool {
    (text.clients, text.size, text.repeat) == (clients, size, repeat)
        && are_calls(text.calls.as_slice(), calls)
}

fn is_read(alloc: Global, row: Read) -> bool {
    if row.0.len() >= 1_000_000 {
        return false;
    }
    match read_calls(alloc, row.0) {
        Ok(read) => says(&read, row),
        Err(_) => false,
    }
}

/// Whether a text of numbered calls is refused so.
pub fn are_calls_refused(alloc: Global, text: &[u8], line: u32, reason: InputReason) -> bool {
    if text.len() >= 1_000_000 {
        return false;
    }
    match read_calls(alloc, text) {
        Ok(_) => false,
        Err(fault) => fault == InputFault::Refused { line, reason },
    }
}

#[test]
fn calls_are_refused_at_their_first_line_that_has_a_reason(rt: HostRuntime) {
    for (i, (text, line, reason)) in REFUSED.iter().enumerate() {
        assert!(rt;
            are_calls_refused(rt.alloc(), text, *line, *reason),
            "row {i}"
        );
    }
}

#[test]
fn calls_are_read(rt: HostRuntime) {
    for (i, row) in READ.iter().enumerate() {
        assert!(rt; is_read(rt.alloc(), *row), "row {i}");
    }
}

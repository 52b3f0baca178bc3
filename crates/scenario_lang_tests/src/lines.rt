use crate::reading::{Refusal, assert_refused};
use scenario_lang::LineReason;

/// Texts that are refused before the calls are read.
static REFUSED_LINES: [Refusal; 48] = [
    (b"", 1, LineReason::Domain),
    (b"\n", 2, LineReason::Domain),
    (b"# nothing\n \t\n", 3, LineReason::Domain),
    (b"# nothing\n# more", 3, LineReason::Domain),
    (b"domain 0 nodes 0 pool 2", 1, LineReason::Number),
    (b"domain 0 nodes 17 pool 2\n", 1, LineReason::Number),
    (b"domain 8 nodes 1 pool 2\n", 1, LineReason::Number),
    (b"domain 0 nodes 1 pool 0\n", 1, LineReason::Number),
    (b"domain 0 nodes 1 pool 257\n", 1, LineReason::Number),
    (b"domain 00 nodes 1 pool 2\n", 1, LineReason::Number),
    (b"domain 0 nodes 01 pool 2\n", 1, LineReason::Number),
    (b"domain -1 nodes 1 pool 2\n", 1, LineReason::Number),
    (
        b"domain 0 nodes 1 pool 18446744073709551617\n",
        1,
        LineReason::Number,
    ),
    (b"domain\n", 1, LineReason::Form),
    (b"domain 0\n", 1, LineReason::Form),
    (b"domain 0 nodes 1 pool\n", 1, LineReason::Form),
    (b"domain 0 nodes 1 pool 2 3\n", 1, LineReason::Form),
    (b"domain 9 node 1 pool 2\n", 1, LineReason::Form),
    (b"domain 0 nodes 1 pools 2\n", 1, LineReason::Form),
    (b"Domain 0 nodes 1 pool 2\n", 1, LineReason::Form),
    (b"domain 0 nodes 1 pool 2\n\x01\n", 2, LineReason::Byte),
    (b"domain 0 nodes 1 pool 2\n#\x7f\n", 2, LineReason::Byte),
    (b"domain 0 nodes 1 pool 2\n#\x80\n", 2, LineReason::Byte),
    (b"domain 0 nodes 1 pool 2\r", 1, LineReason::Byte),
    (b"domain 0 nodes 1 pool 2\r\r\n", 1, LineReason::Byte),
    (b"domain 0\r nodes 1 pool 2\n", 1, LineReason::Byte),
    (
        b"domain 0 nodes 1 pool 2\ndomain 0 nodes 1 pool 2\n",
        2,
        LineReason::Domain,
    ),
    (
        b"domain 0 nodes 1 pool 2\nlink 0 1 size 2\n",
        2,
        LineReason::Domain,
    ),
    (
        b"domain 1 nodes 1 pool 2\nlink 0 1 size 2\n",
        2,
        LineReason::Domain,
    ),
    (
        b"link 0 1 size 2\ndomain 0 nodes 1 pool 2\n",
        1,
        LineReason::Domain,
    ),
    (
        b"domain 0 nodes 1 pool 2\nlink 0 1 size 3\n",
        2,
        LineReason::Domain,
    ),
    (
        b"domain 0 nodes 1 pool 2\nlink 0 0 size 2\n",
        2,
        LineReason::Link,
    ),
    (
        b"domain 0 nodes 1 pool 2\ndomain 1 nodes 1 pool 2\nlink 0 1 size 1\n",
        3,
        LineReason::Link,
    ),
    (
        b"domain 0 nodes 1 pool 2\ndomain 1 nodes 1 pool 2\nlink 0 1 size 3\n",
        3,
        LineReason::Link,
    ),
    (
        b"domain 0 nodes 1 pool 2\ndomain 1 nodes 1 pool 2\nlink 0 1 size 0\n",
        3,
        LineReason::Link,
    ),
    (
        b"domain 0 nodes 1 pool 2\ndomain 1 nodes 1 pool 2\nlink 0 1 size 512\n",
        3,
        LineReason::Link,
    ),
    (
        b"domain 0 nodes 1 pool 2\ndomain 1 nodes 1 pool 2\nlink 0 1 size 18446744073709551615\n",
        3,
        LineReason::Link,
    ),
    (
        b"domain 0 nodes 1 pool 2\ndomain 1 nodes 1 pool 2\nlink 0 1 size 18446744073709551616\n",
        3,
        LineReason::Number,
    ),
    (
        b"domain 0 nodes 1 pool 2\ndomain 1 nodes 1 pool 2\nlink 0 1 size 4294967298\n",
        3,
        LineReason::Link,
    ),
    (
        b"domain 0 nodes 1 pool 2\ndomain 1 nodes 1 pool 2\nlink 0 1 size 2\nlink 0 1 size 4\n",
        4,
        LineReason::Link,
    ),
    (
        b"domain 0 nodes 1 pool 2\ndomain 1 nodes 1 pool 2\nlink 0 1 size 2\nlink 1 0 size 2\n",
        4,
        LineReason::Link,
    ),
    (
        b"domain 0 nodes 1 pool 2\ndomain 1 nodes 1 pool 2\nlink 0 1 size 2\ndomain 1 nodes 1 pool 2\n",
        4,
        LineReason::Order,
    ),
    (
        b"domain 0 nodes 1 pool 2\n0.0 turn\ndomain 0 nodes 1 pool 2\n",
        3,
        LineReason::Order,
    ),
    (
        b"domain 0 nodes 1 pool 2\n0.0 turn\nlink 0 0 size 3\n",
        3,
        LineReason::Order,
    ),
    (
        b"domain 0 nodes 1 pool 2\n0.0 turn\nlink 8 0 size 3\n",
        3,
        LineReason::Number,
    ),
    (
        b"domain 0 nodes 1 pool 2\nlink 0 1 size\n",
        2,
        LineReason::Form,
    ),
    (
        b"domain 0 nodes 1 pool 2\nlink 0 1 sizes 2\n",
        2,
        LineReason::Form,
    ),
    (
        b"domain 0 nodes 1 pool 2\nlink 0 1 size 2 2\n",
        2,
        LineReason::Form,
    ),
];

#[test]
fn lines_are_refused_with_their_first_reason(rt: HostRuntime) {
    assert_refused(&rt, rt.alloc(), &REFUSED_LINES);
}

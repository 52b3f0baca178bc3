//! Texts that are no scenario.

use super::{Outcome, SERIAL, assert_outcomes};
use std::test::Fail;

/// Texts of no scenario, each with the first line that is refused and its first reason.
static REFUSALS: [Outcome<'static>; 14] = [
    (SERIAL, b"", 3, b"refused 1 domain\n"),
    (
        SERIAL,
        b"domain 0 nodes 0 pool 2\n",
        3,
        b"refused 1 number\n",
    ),
    (
        SERIAL,
        b"domain 0 nodes 1 pool 1\n0.0 wait a 1\n",
        3,
        b"refused 2 label\n",
    ),
    (
        SERIAL,
        b"domain 0 nodes 1 pool 1\n0.0 foo 1\n",
        3,
        b"refused 2 form\n",
    ),
    (
        SERIAL,
        b"domain 0 nodes 1 pool 1\nlink 0 1 size 2\ndomain 1 nodes 1 pool 1\n",
        3,
        b"refused 2 domain\n",
    ),
    (
        SERIAL,
        b"domain 0 nodes 1 pool 1\ndomain 1 nodes 1 pool 1\nlink 0 1 size 1\n",
        3,
        b"refused 3 link\n",
    ),
    (
        SERIAL,
        b"domain 0 nodes 1 pool 1\ndomain 1 nodes 1 pool 1\n\nlink 0 1 size 3\n",
        3,
        b"refused 4 link\n",
    ),
    (
        SERIAL,
        b"domain 0 nodes 1 pool 1\n0.0 test a\n",
        3,
        b"refused 2 label\n",
    ),
    (
        SERIAL,
        b"domain 0 nodes 1 pool 1\n0.0 create 1\ndomain 1 nodes 1 pool 1\n",
        3,
        b"refused 3 order\n",
    ),
    (
        SERIAL,
        b"domain 0 nodes 1 pool 1\n0.0 msg_send 1 0:0:1 0 6\n",
        3,
        b"refused 2 bytes\n",
    ),
    (
        SERIAL,
        b"domain 0 nodes 1 pool 1\n0.0 msg_send 1 0:0:1 4 6\n",
        3,
        b"refused 2 number\n",
    ),
    (
        SERIAL,
        b"domain 0 nodes 1 pool 1\n0.0 raw 1 0004000001040000000000000a0000004d010101000000006869\n",
        3,
        b"refused 2 sound\n",
    ),
    (
        SERIAL,
        b"domain 0 nodes 1 pool 1\n0.0 raw 1 -\n",
        3,
        b"refused 2 bytes\n",
    ),
    (
        SERIAL,
        b"domain 0 nodes 1 pool 1\n0.0 create \x07\n",
        3,
        b"refused 2 byte\n",
    ),
];

#[test]
fn lines_that_are_refused(rt: HostRuntime) -> Result<(), Fail> {
    assert_outcomes(&rt, rt.alloc(), &REFUSALS)
}

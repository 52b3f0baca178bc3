//! Each read of a text and each write of a report fails in turn, where a call carries one byte.

use super::{Given, MESSAGE_REPORT, ONE_MESSAGE, comes_out};
use std::test::Fail;

/// Of 97 bytes each is a read, and so is the end.
const READS: u64 = 98;

#[test]
fn each_read_fails_in_turn(rt: HostRuntime) -> Result<(), Fail> {
    for k in 0..READS {
        let given = Given {
            failing_read: k,
            step: 1,
            ..ONE_MESSAGE
        };
        assert!(rt; comes_out(&rt, rt.alloc(), given, 4, b"")?, "read {k}");
    }
    let none = Given {
        failing_read: READS,
        step: 1,
        ..ONE_MESSAGE
    };
    assert!(rt; comes_out(&rt, rt.alloc(), none, 0, MESSAGE_REPORT)?);
    Ok(())
}

#[test]
fn each_write_fails_in_turn(rt: HostRuntime) -> Result<(), Fail> {
    for k in 0..MESSAGE_REPORT.len() {
        let given = Given {
            failing_write: k as u64,
            step: 1,
            ..ONE_MESSAGE
        };
        let written = MESSAGE_REPORT.get(..k).ok_or("length")?;
        assert!(rt; comes_out(&rt, rt.alloc(), given, 5, written)?, "write {k}");
    }
    Ok(())
}

//! Lines after one domain that are refused.

use crate::reading::{is_refused, reason_of};
use scenario_lang::LineReason;
use std::alloc::{AllocError, Global};
use std::process::Abort;
use std::test::Fail;

/// Whether a line after one domain is refused, also where another line follows that is refused.
fn is_refused_call(alloc: Global, line: &[u8], reason: LineReason) -> Result<bool, AllocError> {
    let mut text = Vec::from_slice(alloc, b"domain 0 nodes 1 pool 1\n")?;
    text.extend_from_slice(line)?;
    if !is_refused(alloc, &text, 2, reason) {
        return Ok(false);
    }
    text.extend_from_slice(b"\n0.0 test nothing\n")?;
    Ok(is_refused(alloc, &text, 2, reason))
}

/// Whether a row holds: the word of a reason, and a line after one domain that is refused for it.
fn holds(alloc: Global, row: &str) -> Result<bool, AllocError> {
    let Some((word, line)) = row.split_once(": ") else {
        return Ok(false);
    };
    match reason_of(word) {
        Some(reason) => is_refused_call(alloc, line.as_bytes(), reason),
        None => Ok(false),
    }
}

/// Asserts that each row holds. They are lines of one text, since each text of a table is proved to be valid apart from all
/// others.
pub fn assert_refused_calls(rt: &impl Abort, alloc: Global, rows: &str) -> Result<(), Fail> {
    for row in rows.lines() {
        assert!(rt; holds(alloc, row)?, "{row}");
    }
    Ok(())
}

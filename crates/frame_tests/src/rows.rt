use std::process::Abort;

/// Asserts that each row holds.
pub fn assert_rows(rt: &impl Abort, rows: &[bool]) {
    for (i, holds) in rows.iter().enumerate() {
        assert!(rt; *holds, "row {i}");
    }
}

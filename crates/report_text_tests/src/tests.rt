use crate::changes::{
    ANSWERS, BOARD_LINES, Change, HEADING, JOURNAL_HEADINGS, LOOKS, NUMBERS, PUTS, RAW_LINES,
    RING_LINES, ROWS_OF_TURNS, SCENARIO,
};
use crate::reports::{BOARD, MESSAGE, NO_CALL, RAW, RINGS};
use report_text::{TextFault, read_text};
use std::alloc::{AllocError, Global};
use std::process::Abort;
use std::test::Fail;

/// Whether this is the first wrong line of a text, or it has none.
fn is_found(alloc: Global, text: &[u8], wrong: Option<u32>) -> bool {
    if text.len() >= 1_000_000 {
        return false;
    }
    match read_text(alloc, text) {
        Ok(_) => wrong.is_none(),
        Err(fault) => match wrong {
            Some(line) => fault == TextFault::Wrong { line },
            None => false,
        },
    }
}

/// A report with these bytes in place of a line.
fn changed(
    alloc: Global,
    report: &[u8],
    number: usize,
    line: &[u8],
) -> Result<Vec<u8>, AllocError> {
    let mut text = Vec::new(alloc);
    let mut at = 1usize;
    for byte in report {
        if at != number {
            text.push(*byte)?;
        }
        if *byte == b'\n' {
            if at == number {
                text.extend_from_slice(line)?;
            }
            at = at.saturating_add(1);
        }
    }
    Ok(text)
}

fn is_change_found(
    alloc: Global,
    report: &[u8],
    (number, line, wrong): Change,
) -> Result<bool, AllocError> {
    let text = changed(alloc, report, number, line)?;
    Ok(is_found(alloc, &text, wrong))
}

fn assert_changes(
    rt: &impl Abort,
    alloc: Global,
    report: &[u8],
    rows: &[Change],
) -> Result<(), Fail> {
    for (i, row) in rows.iter().enumerate() {
        assert!(rt; is_change_found(alloc, report, *row)?, "row {i}");
    }
    Ok(())
}

fn assert_tables(
    rt: &impl Abort,
    alloc: Global,
    tables: &[(&[u8], &[Change])],
) -> Result<(), Fail> {
    for (report, rows) in tables {
        assert_changes(rt, alloc, *report, *rows)?;
    }
    Ok(())
}

#[test]
fn first_wrong_line_of_a_text_is_found(rt: HostRuntime) -> Result<(), Fail> {
    let tables: [(&[u8], &[Change]); 4] = [
        (MESSAGE, &HEADING),
        (MESSAGE, &SCENARIO),
        (MESSAGE, &NUMBERS),
        (RINGS, &RING_LINES),
    ];
    assert_tables(&rt, rt.alloc(), &tables)
}

#[test]
fn first_wrong_line_of_a_journal_is_found(rt: HostRuntime) -> Result<(), Fail> {
    let tables: [(&[u8], &[Change]); 7] = [
        (MESSAGE, &JOURNAL_HEADINGS),
        (MESSAGE, &ROWS_OF_TURNS),
        (MESSAGE, &PUTS),
        (MESSAGE, &LOOKS),
        (MESSAGE, &ANSWERS),
        (BOARD, &BOARD_LINES),
        (RAW, &RAW_LINES),
    ];
    assert_tables(&rt, rt.alloc(), &tables)
}

/// Whether a text that ends early is wrong at the line of its end, wherever that is.
fn are_cuts_found(alloc: Global, report: &[u8]) -> bool {
    let mut line = 1u32;
    let mut end = 0usize;
    for byte in report {
        let (front, _) = report.split_at(end.min(report.len()));
        if !is_found(alloc, front, Some(line)) {
            return false;
        }
        end = end.saturating_add(1);
        if *byte == b'\n' {
            line = line.saturating_add(1);
        }
    }
    is_found(alloc, report, None)
}

#[test]
fn each_front_of_a_report_is_wrong_where_it_ends(rt: HostRuntime) {
    for (i, report) in [MESSAGE, BOARD, RAW, RINGS, NO_CALL].iter().enumerate() {
        assert!(rt; are_cuts_found(rt.alloc(), *report), "report {i}");
    }
}

/// Texts, and their first wrong line.
static TEXTS: [(&[u8], u32); 8] = [
    (b"", 1),
    (b"\n", 1),
    (b"right\n", 1),
    (b"mcapi-report 1 serial\n", 2),
    (b"mcapi-report 1 serial\njournal 0\n", 2),
    (b"mcapi-report 1 serial\n# nothing\njournal 0\n", 2),
    (b"mcapi-report 1 threads\ndomain 0 nodes 1 pool 1\n", 3),
    (b"mcapi-report 1 serial\nlink 0 1 size 2\njournal 0\n", 2),
];

#[test]
fn texts_without_a_scenario_are_wrong(rt: HostRuntime) {
    for (i, (text, line)) in TEXTS.iter().enumerate() {
        assert!(rt; is_found(rt.alloc(), text, Some(*line)), "row {i}");
    }
}

/// The lines of a domain whose script puts nothing.
static QUIET: [Change; 6] = [
    (3, b"journal 5\nidle 1\n", None),
    (3, b"journal 5\nidle 1\nput 5 00\nidle 1\n", Some(6)),
    (
        3,
        b"journal 5\nidle 1\nput 5 00\nput 5 00\ncall 1 ok\n",
        Some(7),
    ),
    (3, b"journal 5\nput 5 00\n", Some(5)),
    (3, b"journal 5\nturn\nput 5 00\n", None),
    (3, b"journal 5\ncall 1 ok\n", None),
];

#[test]
fn puts_without_a_call_are_wrong_at_the_line_behind(rt: HostRuntime) -> Result<(), Fail> {
    assert_changes(&rt, rt.alloc(), NO_CALL, &QUIET)
}

/// A put line with a frame of so many bytes.
fn put_of(alloc: Global, size: u32) -> Result<Vec<u8>, AllocError> {
    let mut line = Vec::from_slice(alloc, b"put 0 ")?;
    for _ in 0..size {
        line.extend_from_slice(b"5a")?;
    }
    line.push(b'\n')?;
    Ok(line)
}

fn is_put_read(alloc: Global, size: u32) -> Result<bool, AllocError> {
    let line = put_of(alloc, size)?;
    let text = changed(alloc, MESSAGE, 13, &line)?;
    Ok(is_found(alloc, &text, None))
}

#[test]
fn frames_of_any_size_have_the_form(rt: HostRuntime) -> Result<(), Fail> {
    for size in [1, 512, 513, 4097, 20_000] {
        assert!(rt; is_put_read(rt.alloc(), size)?, "{size} bytes");
    }
    Ok(())
}

/// Whether what a text tells is behind so many lines, and begins so.
fn is_behind(alloc: Global, text: &[u8], line: u32, front: &[u8]) -> bool {
    if text.len() >= 1_000_000 {
        return false;
    }
    match read_text(alloc, text) {
        Ok(told) => told.line == line && told.behind.starts_with(front),
        Err(_) => false,
    }
}

#[test]
fn text_is_left_from_the_first_journal_on(rt: HostRuntime) {
    assert!(rt; is_behind(rt.alloc(), MESSAGE, 7, b"journal 0\nidle 1\n"));
    assert!(rt; is_behind(rt.alloc(), BOARD, 18, b"journal 0\nturn\n"));
    assert!(rt; is_behind(rt.alloc(), NO_CALL, 3, b"journal 5\nmessages "));
}

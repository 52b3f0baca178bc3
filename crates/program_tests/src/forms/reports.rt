//! Reports that are checked: which are right, and which line of the others is the first that is wrong.

use super::{
    CHECK, EMPTY, Given, MESSAGE, MESSAGE_REPORT, NO_CALL_REPORT, ONE_BUFFER_REPORT, SERIAL, USAGE,
    assert_lines, assert_outcomes, comes_out, is_right, words_of,
};
use outer_io::{Failed, MemSink, Source};
use scenario_cli::mcrun;
use std::alloc::{AllocError, Global};
use std::process::Abort;
use std::sync::Wait;
use std::test::Fail;
use std::thread::Threads;

/// The form `check` on a report, with streams that fail nowhere.
fn check(text: &[u8]) -> Given<'_> {
    Given {
        words: CHECK,
        text,
        ..EMPTY
    }
}

static RIGHT: [&[u8]; 3] = [MESSAGE_REPORT, ONE_BUFFER_REPORT, NO_CALL_REPORT];

#[test]
fn right_reports(rt: HostRuntime) -> Result<(), Fail> {
    for (i, report) in RIGHT.iter().enumerate() {
        assert!(rt; is_right(&rt, rt.alloc(), *report)?, "row {i}");
    }
    Ok(())
}

/// A line of the report of one message, by its number, what stands in its place, and what is told.
type Changed<'a> = (usize, &'a [u8], &'a [u8]);

static CHANGED: [Changed<'static>; 17] = [
    (1, b"mcapi-report 2 serial\n", b"wrong 1 text\n"),
    (2, b"domain 0 nodes 1 pool  2\n", b"wrong 2 text\n"),
    (3, b"", b"wrong 13 text\n"),
    (6, b"0.0 msg_recv 2 1\n", b"wrong 18 step\n"),
    (7, b"journal 1\n", b"wrong 7 text\n"),
    (8, b"idle 0\n", b"wrong 8 text\n"),
    (8, b"idle 2\n", b"right\n"),
    (9, b"call 1 ok 1025\n", b"wrong 9 step\n"),
    (
        13,
        b"put 0 0004000001040000000000000a0000004d010101000000006868\n",
        b"wrong 13 step\n",
    ),
    (
        17,
        b"take 0 0004000001040000000000000a0000004d010101000000006868 queued\n",
        b"wrong 18 step\n",
    ),
    (
        17,
        b"take 0 0004000001040000000000000a0000004d010101000000006869 handed\n",
        b"wrong 17 step\n",
    ),
    (18, b"call 4 ok 2 6868\n", b"wrong 18 step\n"),
    (18, b"", b"wrong 18 script\n"),
    (
        19,
        b"messages accepted 1 taken 0 dropped 1 queued 0 ring 0\n",
        b"wrong 19 total\n",
    ),
    (
        20,
        b"lane 0 0 free 1 ring 1 queue 0 lent 0\n",
        b"wrong 20 total\n",
    ),
    (
        20,
        b"lane 0 1 free 2 ring 0 queue 0 lent 0\n",
        b"wrong 20 text\n",
    ),
    (21, b"", b"wrong 21 text\n"),
];

/// A report with another line in the place of one.
fn changed(
    alloc: Global,
    report: &[u8],
    number: usize,
    line: &[u8],
) -> Result<Vec<u8>, AllocError> {
    let mut text = Vec::new(alloc);
    let mut at: usize = 1;
    for byte in report {
        if at != number {
            text.push(*byte)?;
        }
        if *byte == b'\n' {
            if at == number {
                text.extend_from_slice(line)?;
            }
            at = at.saturating_add(1);
        }
    }
    Ok(text)
}

#[test]
fn changed_lines(rt: HostRuntime) -> Result<(), Fail> {
    for (i, (number, line, verdict)) in CHANGED.iter().enumerate() {
        let report = changed(rt.alloc(), MESSAGE_REPORT, *number, *line)?;
        let status = u8::from(*verdict != b"right\n".as_slice());
        assert!(rt;
            comes_out(&rt, rt.alloc(), check(&report), status, *verdict)?,
            "row {i}"
        );
    }
    Ok(())
}

/// A report that is cut is wrong behind its last whole line, wherever it is cut.
#[test]
fn reports_that_are_cut(rt: HostRuntime) -> Result<(), Fail> {
    let mut lines: u8 = 0;
    for end in 0..MESSAGE_REPORT.len() {
        let report = MESSAGE_REPORT.get(..end).ok_or("length")?;
        if report.ends_with(b"\n") {
            lines = lines.saturating_add(1);
        }
        let verdict = wrong_text(rt.alloc(), lines.saturating_add(1))?;
        assert!(rt;
            comes_out(&rt, rt.alloc(), check(report), 1, &verdict)?,
            "length {end}"
        );
    }
    Ok(())
}

/// The verdict that the format does not allow the line of this number, of at most two digits.
fn wrong_text(alloc: Global, line: u8) -> Result<Vec<u8>, AllocError> {
    let mut verdict = Vec::from_slice(alloc, b"wrong ")?;
    if line >= 10 {
        verdict.push(b'0' + line / 10 % 10)?;
    }
    verdict.push(b'0' + line % 10)?;
    verdict.extend_from_slice(b" text\n")?;
    Ok(verdict)
}

/// What comes behind the end of a report.
#[test]
fn bytes_behind_the_end(rt: HostRuntime) -> Result<(), Fail> {
    for more in [b"\n".as_slice(), b"end\n", b"x"] {
        let mut report = Vec::from_slice(rt.alloc(), MESSAGE_REPORT)?;
        report.extend_from_slice(more)?;
        assert!(rt; comes_out(&rt, rt.alloc(), check(&report), 1, b"wrong 22 text\n")?);
    }
    Ok(())
}

/// Words that are like those of the form.
#[test]
fn words_of_another_form(rt: HostRuntime) -> Result<(), Fail> {
    assert_outcomes(
        &rt,
        rt.alloc(),
        &[
            (&["Check"], MESSAGE_REPORT, 2, USAGE),
            (&["check", "check"], MESSAGE_REPORT, 2, USAGE),
            (&["run", "check"], MESSAGE_REPORT, 2, USAGE),
            (&["check", "--serial"], MESSAGE_REPORT, 2, USAGE),
            (CHECK, b"", 1, b"wrong 1 text\n"),
            (CHECK, MESSAGE, 1, b"wrong 1 text\n"),
            (SERIAL, MESSAGE_REPORT, 3, b"refused 1 form\n"),
        ],
    )
}

/// A report that is right, and one that is wrong.
const RIGHT_REPORT: Given<'static> = Given {
    words: CHECK,
    text: MESSAGE_REPORT,
    ..EMPTY
};

const WRONG_REPORT: Given<'static> = Given {
    words: CHECK,
    text: MESSAGE,
    ..EMPTY
};

/// What a stream that fails leaves: the status, and the first bytes of what was due.
static CUTS: [(Given<'static>, u8, &str); 8] = [
    (
        Given {
            failing_read: 0,
            ..RIGHT_REPORT
        },
        4,
        "",
    ),
    (
        Given {
            failing_read: 1,
            ..WRONG_REPORT
        },
        4,
        "",
    ),
    (
        Given {
            failing_write: 0,
            ..RIGHT_REPORT
        },
        5,
        "",
    ),
    (
        Given {
            failing_write: 7,
            step: 1,
            ..WRONG_REPORT
        },
        5,
        "wrong 1",
    ),
    (
        Given {
            room: 6,
            ..RIGHT_REPORT
        },
        0,
        "right\n",
    ),
    (
        Given {
            room: 5,
            ..RIGHT_REPORT
        },
        5,
        "right",
    ),
    (
        Given {
            room: 13,
            ..WRONG_REPORT
        },
        1,
        "wrong 1 text\n",
    ),
    (
        Given {
            room: 12,
            ..WRONG_REPORT
        },
        5,
        "wrong 1 text",
    ),
];

#[test]
fn streams_that_fail(rt: HostRuntime) -> Result<(), Fail> {
    assert_lines(&rt, rt.alloc(), &CUTS)
}

/// A source of so many bytes, all of them zero.
#[derive(Drop)]
struct Zeros {
    left: usize,
}

impl Source for Zeros {
    ghost use Rattle.std.specs.Prelude.{None};

    ghost rest = { λ _. None };

    ghost faults = { λ _. 0 };

    fn read(&mut self, buf: &mut [u8]) -> Result<usize, Failed> {
        let count = buf.len().min(self.left);
        buf[..count].fill(0);
        self.left -= count;
        Ok(count)
    }
}

/// Whether this status and this output come of so many zero bytes.
fn zeros_come_out<T: Threads + Wait + Sync + Abort>(
    rt: &T,
    alloc: Global,
    count: usize,
    status: u8,
    written: &[u8],
) -> Result<bool, AllocError> {
    let words = words_of(alloc, CHECK)?;
    let mut input = Zeros { left: count };
    let Ok(mut output) = MemSink::new(alloc, Vec::new(alloc), 64, 64) else {
        return Err(AllocError);
    };
    let answer = mcrun(rt, alloc, &words, &mut input, &mut output);
    Ok(answer == status && output.written() == written)
}

/// More bytes than a scenario may have are read, and one more than a report may have is not.
#[test]
fn limit_of_a_report(rt: HostRuntime) -> Result<(), Fail> {
    assert!(rt; zeros_come_out(&rt, rt.alloc(), 8_388_609, 1, b"wrong 1 text\n")?);
    assert!(rt; zeros_come_out(&rt, rt.alloc(), 268_435_457, 7, b"")?);
    Ok(())
}

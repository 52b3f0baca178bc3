//! The forms of the program `mcview`, and reports with slips.

use super::reports::{
    COMPARED, EXPECTED, NO_SCENARIO, ONE_BUFFER, ONE_BUFFER_LINE, ONE_BUFFER_REFUSED,
    ONE_BUFFER_TEXT, ONE_EXPECTED, OTHER_SCENARIO, QUEUED, QUEUED_WAIT, TAKEN, TAKEN_TEXT,
    TOGETHER, UNSEEN_WAIT, USAGE, WAIT, WAIT_TEXT,
};
use outer_io::{MemSink, MemSource};
use std::alloc::{AllocError, Global};
use std::test::Fail;
use view_cli::mcview;

/// The number of no call of a source or sink.
const NEVER: u64 = 1_000_000_000;

/// A call of the program: the words, the input, the scenario file, and which read of the input and which write fail.
#[derive(Clone, Copy)]
struct Given<'a> {
    words: &'a [&'a str],
    text: &'a [u8],
    file: &'a [u8],
    failing_read: u64,
    failing_write: u64,
}

fn words_of(alloc: Global, texts: &[&str]) -> Result<Vec<String>, AllocError> {
    let mut words = Vec::new(alloc);
    for text in texts {
        words.push(String::from_str(alloc, text)?)?;
    }
    Ok(words)
}

/// The status and the output of a call.
fn outcome_of(alloc: Global, given: Given<'_>) -> Result<(u8, MemSink), AllocError> {
    let words = words_of(alloc, given.words)?;
    let text = Vec::from_slice(alloc, given.text)?;
    let failing_reads = Vec::from_slice(alloc, &[given.failing_read])?;
    let failing_writes = Vec::from_slice(alloc, &[given.failing_write])?;
    let mut input = MemSource::new(text, failing_reads, 4096);
    let named = Vec::from_slice(alloc, given.file)?;
    let mut file = MemSource::new(named, Vec::new(alloc), 4096);
    let Ok(mut output) = MemSink::new(alloc, failing_writes, 4096, 1_000_000) else {
        return Err(AllocError);
    };
    let status = mcview(alloc, &words, &mut input, &mut file, &mut output);
    Ok((status, output))
}

/// Whether this status and this output come of words and a text.
fn comes_out(
    alloc: Global,
    given: Given<'_>,
    status: u8,
    written: &[u8],
) -> Result<bool, AllocError> {
    let (answer, output) = outcome_of(alloc, given)?;
    Ok(answer == status && output.written() == written)
}

/// Words and a text, with streams that fail nowhere.
fn unfailing<'a>(words: &'a [&'a str], text: &'a [u8]) -> Given<'a> {
    Given {
        words,
        text,
        file: b"",
        failing_read: NEVER,
        failing_write: NEVER,
    }
}

/// Words and a text, and the status and the output that come of them.
type Outcome<'a> = (&'a [&'a str], &'a str, u8, &'a str);

static OUTCOMES: [Outcome<'static>; 38] = [
    (&["refused"], ONE_BUFFER, 1, ONE_BUFFER_REFUSED),
    (&["refused"], WAIT, 1, "6 0 2 0.0 wait far 3: timeout\n"),
    (&["text"], ONE_BUFFER, 0, ONE_BUFFER_TEXT),
    (&["text", "--domain", "3"], ONE_BUFFER, 0, ONE_BUFFER_TEXT),
    (&["text", "--domain", "0"], ONE_BUFFER, 0, ""),
    (&["text", "--line", "5"], ONE_BUFFER, 0, ONE_BUFFER_LINE),
    (
        &["text", "--line", "5", "--refused"],
        ONE_BUFFER,
        0,
        ONE_BUFFER_LINE,
    ),
    (
        &["text", "--line", "4", "--refused"],
        ONE_BUFFER,
        0,
        "domain 3\n",
    ),
    (
        &["text", "--channel", "3", "1"],
        ONE_BUFFER,
        0,
        "domain 3\n",
    ),
    (&["text", "--refused"], WAIT, 0, WAIT_TEXT),
    (&["text", "--together"], WAIT, 0, TOGETHER),
    (
        &["text", "--together", "--line", "8"],
        QUEUED,
        0,
        QUEUED_WAIT,
    ),
    (&["text"], TAKEN, 0, TAKEN_TEXT),
    // A report that is not right is not shown where it is checked.
    (&["text", "--check"], TAKEN, 3, "wrong 7 step\n"),
    (&["refused", "--check"], ONE_BUFFER, 1, ONE_BUFFER_REFUSED),
    (&["sequence", "--check"], TAKEN, 3, "wrong 7 step\n"),
    (&["lanes", "--check"], TAKEN, 3, "wrong 7 step\n"),
    (&["trace", "--check"], TAKEN, 3, "wrong 7 step\n"),
    (&["text", "--together"], TAKEN, 3, "wrong 7 order\n"),
    // An option counts as it is given last.
    (
        &[
            "text",
            "--line",
            "4",
            "--refused",
            "--domain",
            "0",
            "--line",
            "5",
            "--domain",
            "3",
        ],
        ONE_BUFFER,
        0,
        ONE_BUFFER_LINE,
    ),
    (&["text"], "", 3, "wrong 1 text\n"),
    (&["refused"], "mcapi-report 1 serial\n", 3, "wrong 2 text\n"),
    (&[], ONE_BUFFER, 2, USAGE),
    (&["refused", "--refused"], ONE_BUFFER, 2, USAGE),
    (&["text", "--domain"], ONE_BUFFER, 2, USAGE),
    (&["text", "--domain", "8"], ONE_BUFFER, 2, USAGE),
    (&["text", "--channel", "1"], ONE_BUFFER, 2, USAGE),
    (&["text", "--lines", "1"], ONE_BUFFER, 2, USAGE),
    (&["sequence", "--from"], ONE_BUFFER, 2, USAGE),
    (&["lanes", "--from", "1"], ONE_BUFFER, 2, USAGE),
    (&["trace"], "", 3, "wrong 1 text\n"),
    (&["text", "--line", "01"], ONE_BUFFER, 2, USAGE),
    (&["text", "--line", "4294967296"], ONE_BUFFER, 2, USAGE),
    (&["text", "--refused", "1"], ONE_BUFFER, 2, USAGE),
    (&["--refused", "text"], ONE_BUFFER, 2, USAGE),
    (&["Text"], ONE_BUFFER, 2, USAGE),
    (&["expect"], ONE_BUFFER, 2, USAGE),
    (&["expect", "file", "--refused"], ONE_BUFFER, 2, USAGE),
];

#[test]
fn forms_show_reports(rt: HostRuntime) -> Result<(), Fail> {
    for (i, (words, text, status, written)) in OUTCOMES.iter().enumerate() {
        assert!(rt;
            comes_out(
                rt.alloc(),
                unfailing(*words, text.as_bytes()),
                *status,
                written.as_bytes()
            )?,
            "row {i}"
        );
    }
    Ok(())
}

/// A scenario file and a report, and the status and the output that come of them.
type Comparison<'a> = (&'a str, &'a str, u8, &'a str);

static COMPARISONS: [Comparison<'static>; 6] = [
    (EXPECTED, ONE_BUFFER, 1, COMPARED),
    (ONE_EXPECTED, WAIT, 0, "1..1\nok - line 5: 0.0 wait far 3\n"),
    (OTHER_SCENARIO, ONE_BUFFER, 3, "wrong 4 scenario\n"),
    (ONE_EXPECTED, ONE_BUFFER, 3, "wrong 2 scenario\n"),
    (NO_SCENARIO, WAIT, 3, "refused 1: the words fit no form\n"),
    (EXPECTED, "mcapi-report 1 serial\n", 3, "wrong 2 text\n"),
];

#[test]
fn answers_are_compared(rt: HostRuntime) -> Result<(), Fail> {
    for (i, (file, report, status, written)) in COMPARISONS.iter().enumerate() {
        let given = Given {
            file: file.as_bytes(),
            ..unfailing(&["expect", "file"], report.as_bytes())
        };
        assert!(rt;
            comes_out(rt.alloc(), given, *status, written.as_bytes())?,
            "row {i}"
        );
    }
    Ok(())
}

/// Words that draw a picture, and with what its text begins and ends.
type Picture<'a> = (&'a [&'a str], &'a [u8], &'a [u8]);

static PICTURES: [Picture<'static>; 4] = [
    (&["trace"], b"{\"displayTimeUnit\":\"ns\",", b"\n]}\n"),
    (&["lanes"], b"<svg xmlns=", b"</svg>\n"),
    (&["sequence"], b"<svg xmlns=", b"</svg>\n"),
    (
        &["sequence", "--from", "3", "--to", "5"],
        b"<svg xmlns=",
        b"</svg>\n",
    ),
];

#[test]
fn forms_draw_reports(rt: HostRuntime) -> Result<(), Fail> {
    for (i, (words, front, end)) in PICTURES.iter().enumerate() {
        for text in [ONE_BUFFER, WAIT] {
            let (status, output) = outcome_of(rt.alloc(), unfailing(*words, text.as_bytes()))?;
            assert_eq!(rt; status, 0, "row {i}");
            assert!(rt; output.written().starts_with(*front), "row {i}");
            assert!(rt; output.written().ends_with(*end), "row {i}");
        }
    }
    Ok(())
}

/// Words that draw a picture, and the same words with `--check`.
type Checked<'a> = (&'a [&'a str], &'a [&'a str]);

static CHECKED: [Checked<'static>; 3] = [
    (&["sequence"], &["sequence", "--check"]),
    (&["lanes"], &["lanes", "--check"]),
    (&["trace"], &["trace", "--check"]),
];

#[test]
fn a_right_report_is_drawn_where_it_is_checked(rt: HostRuntime) -> Result<(), Fail> {
    for (i, (words, checked)) in CHECKED.iter().enumerate() {
        let (status, drawn) = outcome_of(rt.alloc(), unfailing(*words, ONE_BUFFER.as_bytes()))?;
        assert_eq!(rt; status, 0, "row {i}");
        assert!(rt;
            comes_out(
                rt.alloc(),
                unfailing(*checked, ONE_BUFFER.as_bytes()),
                0,
                drawn.written()
            )?,
            "row {i}"
        );
    }
    Ok(())
}

#[test]
fn a_failing_stream_is_told(rt: HostRuntime) -> Result<(), Fail> {
    let unread = Given {
        failing_read: 0,
        ..unfailing(&["text"], ONE_BUFFER.as_bytes())
    };
    assert!(rt; comes_out(rt.alloc(), unread, 4, b"")?);
    let unwritten = Given {
        failing_write: 0,
        ..unfailing(&["text"], ONE_BUFFER.as_bytes())
    };
    assert!(rt; comes_out(rt.alloc(), unwritten, 5, b"")?);
    Ok(())
}

/// A text in which another byte stands at a place.
fn changed(alloc: Global, text: &[u8], place: usize, byte: u8) -> Result<Vec<u8>, AllocError> {
    let mut copy = Vec::from_slice(alloc, text)?;
    if let Some(found) = copy.get_mut(place) {
        *found = byte;
    }
    Ok(copy)
}

/// Whether words end with one of their own statuses at a text.
fn is_read(alloc: Global, words: &[&str], text: &[u8]) -> Result<bool, AllocError> {
    let (status, output) = outcome_of(alloc, unfailing(words, text))?;
    Ok(match status {
        0 | 1 => output.written().is_empty() || output.written().ends_with(b"\n"),
        3 => {
            output.written().starts_with(b"wrong ")
                && (output.written().ends_with(b" text\n")
                    || output.written().ends_with(b" order\n"))
        }
        _ => false,
    })
}

/// The front of a text up to some words, other ones, and the text from others on.
fn replaced(
    alloc: Global,
    text: &str,
    front: &str,
    other: &str,
    behind: &str,
) -> Result<String, AllocError> {
    let (Some(begin), Some(end)) = (text.find(front), text.find(behind)) else {
        return String::from_str(alloc, text);
    };
    format!(in alloc; "{}{}{}", &text[..begin], other, &text[end..])
}

#[test]
fn frames_on_the_way_are_told(rt: HostRuntime) -> Result<(), Fail> {
    let unseen = replaced(
        rt.alloc(),
        QUEUED,
        "idle 1\nturn\nsee 1 3",
        "idle 2\n",
        "call 4 timeout",
    )?;
    let given = unfailing(&["text", "--together", "--line", "8"], unseen.as_bytes());
    assert!(rt; comes_out(rt.alloc(), given, 0, UNSEEN_WAIT.as_bytes())?);
    Ok(())
}

/// One place of so many is changed.
const STEP: usize = 7;

/// Whether reports with another byte at a place are read, or have a wrong line.
fn are_read(alloc: Global, text: &[u8], place: usize) -> Result<bool, AllocError> {
    let digit = changed(alloc, text, place, b'9')?;
    let newline = changed(alloc, text, place, b'\n')?;
    Ok(
        is_read(alloc, &["text"], &digit)?
            && is_read(alloc, &["refused"], &digit)?
            && is_read(alloc, &["text", "--together"], &digit)?
            && is_read(alloc, &["text"], &newline)?,
    )
}

#[test]
fn changed_reports_are_read_or_wrong(rt: HostRuntime) -> Result<(), Fail> {
    for text in [ONE_BUFFER.as_bytes(), WAIT.as_bytes()] {
        for place in 0..text.len() {
            if place % STEP == 0 {
                assert!(rt; are_read(rt.alloc(), text, place)?, "{place}");
            }
        }
    }
    Ok(())
}

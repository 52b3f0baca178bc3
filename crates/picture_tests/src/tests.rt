mod drawing;
mod reports;

use drawing::{Form, count_of, drawn};
use event_order::{Event, Lane, What};
use report_events::{EventFault, events_of};
use report_pictures::{Caption, FrameKind, LaneBuffers, kind_of, lane_of};
use report_view::read_view;
use reports::{CHANNEL, CROSSED, TRIES, UNGIVEN, UNPUT, bare_report, lines_of};
use std::alloc::{AllocError, Global};
use std::test::Fail;

/// Reports with channels, waits, tries and raw frames.
const REPORTS: [&str; 2] = [CHANNEL, TRIES];

/// The events of a report, where it has an order.
fn listed(alloc: Global, report: &str) -> Result<Option<Vec<Event>>, AllocError> {
    let text = report.as_bytes();
    if text.len() > 100_000 {
        return Ok(None);
    }
    let Ok(view) = read_view(alloc, text) else {
        return Ok(None);
    };
    match events_of(alloc, text, &view) {
        Ok(events) => Ok(Some(events)),
        Err(EventFault::NoCause { .. }) => Ok(None),
        Err(EventFault::NoMemory) => Err(AllocError),
    }
}

/// How many lines of a report's journals say an event that a picture shows.
fn count_lines(report: &str) -> usize {
    let words = [
        "put ", "take ", "back ", "wait ", "again ", "spin ", "call ",
    ];
    let mut count: usize = 0;
    for word in words {
        count = count.saturating_add(lines_of(report, word));
    }
    count
}

/// How many buffers are given back in these events, and in how many events.
fn count_given(events: &[Event]) -> (u64, usize) {
    let mut buffers: u64 = 0;
    let mut count: usize = 0;
    for event in events {
        if let What::Give { count: more, .. } = event.what {
            buffers = buffers.saturating_add(u64::from(more));
            count = count.saturating_add(1);
        }
    }
    (buffers, count)
}

/// A line of a report that says where the buffers of a lane are.
#[derive(Clone, Copy)]
struct LaneLine {
    lane: Lane,
    free: u32,
    ring: u32,
    held: u32,
}

/// The number that the word at a place of a line writes.
fn number_at(line: &str, place: usize) -> u32 {
    match line.split_whitespace().nth(place) {
        Some(word) => word.parse::<u32>().unwrap_or(u32::MAX),
        None => u32::MAX,
    }
}

/// Reads a line, if it is one of a lane.
fn lane_line(line: &str) -> Option<LaneLine> {
    if !line.starts_with("lane ") {
        return None;
    }
    Some(LaneLine {
        lane: Lane {
            sender: u8::try_from(number_at(line, 1)).unwrap_or(u8::MAX),
            receiver: u8::try_from(number_at(line, 2)).unwrap_or(u8::MAX),
        },
        free: number_at(line, 4),
        ring: number_at(line, 6),
        held: number_at(line, 8).saturating_add(number_at(line, 10)),
    })
}

/// How many of these lines take a frame, less how many buffers the lines of lanes say are held: so many were given back.
fn due_given(report: &str) -> u64 {
    let mut held: u64 = 0;
    for line in report.lines() {
        if let Some(found) = lane_line(line) {
            held = held.saturating_add(u64::from(found.held));
        }
    }
    (lines_of(report, "take ") as u64).saturating_sub(held)
}

#[test]
fn events_are_what_the_lines_say(rt: HostRuntime) -> Result<(), Fail> {
    for (row, report) in REPORTS.iter().enumerate() {
        let events = listed(rt.alloc(), report)?;
        assert!(rt; events.is_some(), "row {row}");
        let events = events.unwrap_or(Vec::new(rt.alloc()));
        let (buffers, count) = count_given(&events);
        assert_eq!(rt;
            events.len(),
            count_lines(report).saturating_add(count),
            "row {row}"
        );
        assert_eq!(rt; buffers, due_given(report), "row {row}");
    }
    Ok(())
}

/// Whether the buffers of a lane are where a line says, after these events.
fn ends_so(lanes: &LaneBuffers, due: &LaneLine) -> bool {
    let buffers = lanes.on(due.lane);
    buffers.free.saturating_add(buffers.returned) == due.free
        && buffers.on_way == due.ring
        && buffers.held == due.held
}

/// How many lines of lanes a report has whose buffers are elsewhere after its events, and how many lines it has in all.
fn count_lanes(alloc: Global, report: &str) -> Result<(usize, usize), AllocError> {
    let text = report.as_bytes();
    let Some(events) = listed(alloc, report)? else {
        return Ok((1, 0));
    };
    if text.len() > 100_000 {
        return Ok((1, 0));
    }
    let Ok(view) = read_view(alloc, text) else {
        return Ok((1, 0));
    };
    let Ok(mut lanes) = LaneBuffers::new(alloc, &view.told.scenario) else {
        return Err(AllocError);
    };
    for event in &events {
        let _moved = lanes.pass(event);
    }
    let mut others: usize = 0;
    let mut all: usize = 0;
    for line in report.lines() {
        if let Some(due) = lane_line(line) {
            all = all.saturating_add(1);
            if !ends_so(&lanes, &due) {
                others = others.saturating_add(1);
            }
        }
    }
    Ok((others, all))
}

#[test]
fn lanes_end_as_the_report_says(rt: HostRuntime) -> Result<(), Fail> {
    for (row, report) in REPORTS.iter().enumerate() {
        let (others, all) = count_lanes(rt.alloc(), report)?;
        assert_eq!(rt; others, 0, "row {row}");
        assert_eq!(rt; all, lines_of(report, "lane "), "row {row}");
    }
    Ok(())
}

/// How many of these events move buffers of lanes, and how many are drawn in a sequence diagram.
fn count_drawn(events: &[Event]) -> (usize, usize) {
    let mut moves: usize = 0;
    let mut drawn: usize = 0;
    for event in events {
        if lane_of(event).is_some() {
            moves = moves.saturating_add(1);
        }
        if !matches!(event.what, What::Give { .. } | What::Back { .. }) {
            drawn = drawn.saturating_add(1);
        }
    }
    (moves, drawn)
}

#[test]
fn each_event_has_its_mark(rt: HostRuntime) -> Result<(), Fail> {
    for (row, report) in REPORTS.iter().enumerate() {
        let events = listed(rt.alloc(), report)?.unwrap_or(Vec::new(rt.alloc()));
        let (moves, marks) = count_drawn(&events);
        let trace = drawn(rt.alloc(), report, Form::Trace)?;
        assert_eq!(rt; count_of(&trace, b"\"line\":"), events.len(), "row {row}");
        let lanes = drawn(rt.alloc(), report, Form::Lanes)?;
        assert_eq!(rt; count_of(&lanes, b"data-line="), moves, "row {row}");
        let all = Form::Sequence { from: 0, to: 1000 };
        let sequence = drawn(rt.alloc(), report, all)?;
        assert_eq!(rt; count_of(&sequence, b"data-line="), marks, "row {row}");
    }
    Ok(())
}

/// Parts of an order of events, from one place to before another, which are all of it.
const PARTS: [(u32, u32); 4] = [(0, 1), (1, 20), (20, 21), (21, 1000)];

#[test]
fn parts_have_all_marks_together(rt: HostRuntime) -> Result<(), Fail> {
    for (row, report) in REPORTS.iter().enumerate() {
        let events = listed(rt.alloc(), report)?.unwrap_or(Vec::new(rt.alloc()));
        let (_, marks) = count_drawn(&events);
        let mut sum: usize = 0;
        for (from, to) in PARTS {
            let part = drawn(rt.alloc(), report, Form::Sequence { from, to })?;
            sum = sum.saturating_add(count_of(&part, b"data-line="));
        }
        assert_eq!(rt; sum, marks, "row {row}");
    }
    Ok(())
}

#[test]
fn boards_of_each_size_are_drawn(rt: HostRuntime) -> Result<(), Fail> {
    for domains in 1..9 {
        let report = bare_report(rt.alloc(), domains)?;
        let trace = drawn(rt.alloc(), &report, Form::Trace)?;
        assert_eq!(rt;
            count_of(&trace, b"thread_name"),
            usize::from(domains),
            "{domains}"
        );
        let all = Form::Sequence { from: 0, to: 200 };
        let sequence = drawn(rt.alloc(), &report, all)?;
        assert_eq!(rt;
            count_of(&sequence, b"data-line="),
            usize::from(domains),
            "{domains}"
        );
        let lanes = drawn(rt.alloc(), &report, Form::Lanes)?;
        assert_eq!(rt; count_of(&lanes, b"data-line="), 0, "{domains}");
    }
    Ok(())
}

/// Reports without an order, and the line of the first event that has no place.
const UNORDERED: [(&str, u32); 3] = [(UNPUT, 7), (UNGIVEN, 6), (CROSSED, 10)];

#[test]
fn events_without_causes_are_refused(rt: HostRuntime) -> Result<(), Fail> {
    for (report, line) in UNORDERED {
        let text = report.as_bytes();
        assert!(rt; text.len() < 100_000);
        let Ok(view) = read_view(rt.alloc(), text) else {
            return Err(Fail::from(AllocError));
        };
        let fault = events_of(rt.alloc(), text, &view).err();
        assert!(rt; fault == Some(EventFault::NoCause { line }), "{line}");
    }
    Ok(())
}

/// The most bytes of a caption, what is added to it, and what it is then.
const CAPTIONS: [(usize, &[u8], &[u8]); 6] = [
    (64, b"", b""),
    (64, b"lane 0 1", b"lane 0 1"),
    (8, b"lane 0 1", b"lane 0 1"),
    (7, b"lane 0 1", b"lane .."),
    (1, b"lane", b"."),
    (0, b"lane", b""),
];

#[test]
fn long_captions_are_cut(rt: HostRuntime) -> Result<(), Fail> {
    for (row, (limit, text, due)) in CAPTIONS.iter().enumerate() {
        let mut caption = Caption::limited(*limit);
        caption.add(text);
        assert!(rt; caption.as_slice() == *due, "row {row}");
    }
    let mut caption = Caption::new();
    caption.add_number(18_446_744_073_709_551_615);
    assert!(rt; caption.as_slice() == b"18446744073709551615".as_slice());
    Ok(())
}

/// Frames and their kinds: a message, a connect, an announcement, one byte, and a letter that begins with another byte than its mark.
const KINDS: [(&[u8], FrameKind); 5] = [
    (
        b"\x00\x04\x00\x00\x01\x04\x00\x00\x00\x00\x00\x00\x09\x00\x00\x00\x4d\x01\x01\x00\x00\x00\x00\x00\x61",
        FrameKind::Data,
    ),
    (
        b"\x00\x04\x00\x00\x00\x04\x00\x00\x00\x00\x00\x00\x08\x00\x00\x00\x4d\x01\x02\x00\x01\x00\x00\x00",
        FrameKind::Control,
    ),
    (
        b"\x00\x04\x00\x00\x35\x00\x00\x00\x00\x00\x00\x00\x28\x00\x00\x00\x6d\x63\x61\x70\x69\x3a\x30\x3a\x30\x3a\x31\x00\x00\x00\x00\x00\x00\x00\x00\x00\x00\x00\x00\x00\x00\x00\x00\x00\x00\x00\x00\x00\x00\x04\x00\x00\x00\x00\x00\x00",
        FrameKind::Name,
    ),
    (b"\x00", FrameKind::Fault),
    (
        b"\x00\x04\x00\x00\x00\x04\x00\x00\x00\x00\x00\x00\x08\x00\x00\x00\x00\x01\x01\x00\x00\x00\x00\x00",
        FrameKind::Fault,
    ),
];

#[test]
fn frames_have_their_kinds(rt: HostRuntime) -> Result<(), Fail> {
    for (row, (frame, kind)) in KINDS.iter().enumerate() {
        assert!(rt; kind_of(frame) == *kind, "row {row}");
    }
    Ok(())
}

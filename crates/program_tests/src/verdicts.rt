use crate::verdicts::changes::{Change, link, right, script, step, text, total};
use crate::verdicts::reports::{
    CHANNELS, EACH_AFTER_THE_OTHER, EIGHT_DOMAINS, MESSAGE, NO_CALL, OUT_OF_ORDER,
    OWN_OUT_OF_ORDER, RAW_FRAMES, RINGS, TAKEN_BEFORE_IT_IS_PUT, WAITS,
};
use report_check::{CheckReason, Verdict, check};
use std::alloc::{AllocError, Global};
use std::process::Abort;
use std::test::Fail;

mod changes;
mod cursor;
mod due_lines;
mod reports;

/// The lines of rings of `OUT_OF_ORDER`, each with the other's image.
const FIRST_WITH_SECOND: &[u8] =
    b"ring 0 1 0 00080000000000001c00000000000000000a0000000000001900000000000000000c0000000000001a00000000000000000e0000000000001b00000000000000000005000000010002000300000000000000050000000000000000000300000000000000020000000000000001000000000000000000\n";

const SECOND_WITH_FIRST: &[u8] =
    b"ring 0 1 1 00000000000000000002000002000000000200000000000000020000020000000004000000000000000200000200000000060000000000000002000002000000000006000000010002000300000000000000020000000000380000000100000038000000000000000000000000000000000000000000\n";

fn has_verdict(alloc: Global, report: &[u8], verdict: Verdict) -> bool {
    if report.len() >= 1_000_000 {
        return false;
    }
    match check(alloc, report) {
        Ok(found) => found == verdict,
        Err(_) => false,
    }
}

/// A report with these bytes in place of a line.
fn changed(
    alloc: Global,
    report: &[u8],
    number: usize,
    line: &[u8],
) -> Result<Vec<u8>, AllocError> {
    let mut text = Vec::new(alloc);
    let mut at = 1usize;
    for byte in report {
        if at != number {
            text.push(*byte)?;
        }
        if *byte == b'\n' {
            if at == number {
                text.extend_from_slice(line)?;
            }
            at = at.saturating_add(1);
        }
    }
    Ok(text)
}

/// Asserts that each of these changes of a report is wrong for a reason.
fn assert_wrong(
    rt: &impl Abort,
    alloc: Global,
    report: &[u8],
    changes: &[Change],
    reason: CheckReason,
) -> Result<(), Fail> {
    for (i, (number, bytes, line)) in changes.iter().enumerate() {
        let text = changed(alloc, report, *number, *bytes)?;
        let verdict = Verdict::Wrong {
            line: *line,
            reason,
        };
        assert!(rt; has_verdict(alloc, &text, verdict), "row {i}");
    }
    Ok(())
}

/// Asserts that each of these changes leaves a report right.
fn assert_right(
    rt: &impl Abort,
    alloc: Global,
    report: &[u8],
    changes: &[(usize, &[u8])],
) -> Result<(), Fail> {
    for (i, (number, bytes)) in changes.iter().enumerate() {
        let text = changed(alloc, report, *number, *bytes)?;
        assert!(rt; has_verdict(alloc, &text, Verdict::Right), "row {i}");
    }
    Ok(())
}

#[test]
fn reports_of_runs_are_right(rt: HostRuntime) {
    let reports = [
        MESSAGE,
        WAITS,
        RAW_FRAMES,
        CHANNELS,
        EIGHT_DOMAINS,
        NO_CALL,
        TAKEN_BEFORE_IT_IS_PUT,
        EACH_AFTER_THE_OTHER,
        RINGS,
        OUT_OF_ORDER,
        OWN_OUT_OF_ORDER,
    ];
    for (i, report) in reports.iter().enumerate() {
        assert!(rt;
            has_verdict(rt.alloc(), *report, Verdict::Right),
            "report {i}"
        );
    }
}

#[test]
fn changes_that_leave_a_report_right(rt: HostRuntime) -> Result<(), Fail> {
    let alloc = rt.alloc();
    assert_right(&rt, alloc, MESSAGE, &right::IN_MESSAGE)?;
    assert_right(&rt, alloc, WAITS, &right::IN_WAITS)?;
    assert_right(&rt, alloc, RAW_FRAMES, &right::IN_RAW_FRAMES)?;
    assert_right(&rt, alloc, CHANNELS, &right::IN_CHANNELS)?;
    assert_right(&rt, alloc, EIGHT_DOMAINS, &right::IN_EIGHT_DOMAINS)
}

#[test]
fn lines_that_the_format_does_not_allow(rt: HostRuntime) -> Result<(), Fail> {
    let (alloc, reason) = (rt.alloc(), CheckReason::Text);
    assert_wrong(&rt, alloc, MESSAGE, &text::IN_MESSAGE, reason)?;
    assert_wrong(&rt, alloc, MESSAGE, &text::NUMBERS_IN_MESSAGE, reason)?;
    assert_wrong(&rt, alloc, WAITS, &text::IN_WAITS, reason)?;
    assert_wrong(&rt, alloc, RAW_FRAMES, &text::IN_RAW_FRAMES, reason)?;
    assert_wrong(&rt, alloc, CHANNELS, &text::IN_CHANNELS, reason)?;
    assert_wrong(&rt, alloc, EIGHT_DOMAINS, &text::IN_EIGHT_DOMAINS, reason)?;
    assert_wrong(&rt, alloc, RINGS, &text::IN_RINGS, reason)
}

#[test]
fn steps_of_a_message_that_are_not_due(rt: HostRuntime) -> Result<(), Fail> {
    assert_wrong(
        &rt,
        rt.alloc(),
        MESSAGE,
        &step::IN_MESSAGE,
        CheckReason::Step,
    )
}

#[test]
fn steps_of_waits_that_are_not_due(rt: HostRuntime) -> Result<(), Fail> {
    assert_wrong(&rt, rt.alloc(), WAITS, &step::IN_WAITS, CheckReason::Step)
}

#[test]
fn steps_of_raw_frames_that_are_not_due(rt: HostRuntime) -> Result<(), Fail> {
    assert_wrong(
        &rt,
        rt.alloc(),
        RAW_FRAMES,
        &step::IN_RAW_FRAMES,
        CheckReason::Step,
    )
}

#[test]
fn steps_of_channels_that_are_not_due(rt: HostRuntime) -> Result<(), Fail> {
    assert_wrong(
        &rt,
        rt.alloc(),
        CHANNELS,
        &step::IN_CHANNELS,
        CheckReason::Step,
    )
}

#[test]
fn steps_of_eight_domains_that_are_not_due(rt: HostRuntime) -> Result<(), Fail> {
    assert_wrong(
        &rt,
        rt.alloc(),
        EIGHT_DOMAINS,
        &step::IN_EIGHT_DOMAINS,
        CheckReason::Step,
    )
}

#[test]
fn journals_that_end_before_their_scripts(rt: HostRuntime) -> Result<(), Fail> {
    let (alloc, reason) = (rt.alloc(), CheckReason::Script);
    assert_wrong(&rt, alloc, MESSAGE, &script::IN_MESSAGE, reason)?;
    assert_wrong(&rt, alloc, WAITS, &script::IN_WAITS, reason)?;
    assert_wrong(&rt, alloc, RAW_FRAMES, &script::IN_RAW_FRAMES, reason)?;
    assert_wrong(&rt, alloc, CHANNELS, &script::IN_CHANNELS, reason)?;
    assert_wrong(&rt, alloc, EIGHT_DOMAINS, &script::IN_EIGHT_DOMAINS, reason)
}

#[test]
fn lines_that_do_not_fit_the_other_domain(rt: HostRuntime) -> Result<(), Fail> {
    let (alloc, reason) = (rt.alloc(), CheckReason::Link);
    assert_wrong(&rt, alloc, MESSAGE, &link::IN_MESSAGE, reason)?;
    assert_wrong(&rt, alloc, WAITS, &link::IN_WAITS, reason)?;
    assert_wrong(&rt, alloc, RAW_FRAMES, &link::IN_RAW_FRAMES, reason)?;
    assert_wrong(&rt, alloc, CHANNELS, &link::IN_CHANNELS, reason)?;
    assert_wrong(&rt, alloc, EIGHT_DOMAINS, &link::IN_EIGHT_DOMAINS, reason)
}

#[test]
fn numbers_that_the_journals_do_not_give(rt: HostRuntime) -> Result<(), Fail> {
    let (alloc, reason) = (rt.alloc(), CheckReason::Total);
    assert_wrong(&rt, alloc, MESSAGE, &total::IN_MESSAGE, reason)?;
    assert_wrong(&rt, alloc, WAITS, &total::IN_WAITS, reason)?;
    assert_wrong(&rt, alloc, RAW_FRAMES, &total::IN_RAW_FRAMES, reason)?;
    assert_wrong(&rt, alloc, CHANNELS, &total::IN_CHANNELS, reason)?;
    assert_wrong(&rt, alloc, EIGHT_DOMAINS, &total::IN_EIGHT_DOMAINS, reason)?;
    assert_wrong(&rt, alloc, RINGS, &total::IN_RINGS, reason)?;
    assert_wrong(&rt, alloc, OUT_OF_ORDER, &total::IN_OUT_OF_ORDER, reason)?;
    assert_wrong(
        &rt,
        alloc,
        OWN_OUT_OF_ORDER,
        &total::IN_OWN_OUT_OF_ORDER,
        reason,
    )
}

#[test]
fn images_of_rings_that_are_swapped(rt: HostRuntime) -> Result<(), Fail> {
    let alloc = rt.alloc();
    let first = changed(alloc, OUT_OF_ORDER, 92, FIRST_WITH_SECOND)?;
    let text = changed(alloc, &first, 93, SECOND_WITH_FIRST)?;
    let verdict = Verdict::Wrong {
        line: 92,
        reason: CheckReason::Total,
    };
    assert!(rt; has_verdict(alloc, &text, verdict));
    Ok(())
}

/// A serial run has no rings, so there is no buffer that could come back too early.
#[test]
fn buffers_that_come_back_before_their_frames_in_a_serial_run(rt: HostRuntime) -> Result<(), Fail> {
    let alloc = rt.alloc();
    let early = changed(alloc, OUT_OF_ORDER, 41, b"turn\nback 1 1\n")?;
    let serial = changed(alloc, &early, 1, b"mcapi-report 1 serial\n")?;
    let without_first = changed(alloc, &serial, 93, b"")?;
    let without_rings = changed(alloc, &without_first, 93, b"")?;
    assert!(rt; has_verdict(alloc, &without_rings, Verdict::Right));
    let own_early = changed(alloc, OWN_OUT_OF_ORDER, 17, b"turn\nback 0 1\n")?;
    let own_serial = changed(alloc, &own_early, 1, b"mcapi-report 1 serial\n")?;
    assert!(rt; has_verdict(alloc, &own_serial, Verdict::Right));
    Ok(())
}

/// A put line with a frame of so many bytes.
fn put_of(alloc: Global, size: u32) -> Result<Vec<u8>, AllocError> {
    let mut line = Vec::from_slice(alloc, b"put 0 ")?;
    for _ in 0..size {
        line.extend_from_slice(b"5a")?;
    }
    line.push(b'\n')?;
    Ok(line)
}

fn is_put_another(alloc: Global, size: u32) -> Result<bool, AllocError> {
    let line = put_of(alloc, size)?;
    let text = changed(alloc, MESSAGE, 13, &line)?;
    let verdict = Verdict::Wrong {
        line: 13,
        reason: CheckReason::Step,
    };
    Ok(has_verdict(alloc, &text, verdict))
}

#[test]
fn frames_of_any_size_have_the_form(rt: HostRuntime) -> Result<(), Fail> {
    for size in [1, 512, 513, 4097] {
        assert!(rt; is_put_another(rt.alloc(), size)?, "{size} bytes");
    }
    Ok(())
}

/// Whether each front of a report is wrong at the line of its end: each that ends with a line, or wherever it ends.
fn are_fronts_found(alloc: Global, report: &[u8], within_lines: bool) -> bool {
    let mut line = 1u32;
    let mut end = 0usize;
    let mut at_line = true;
    for byte in report {
        let (front, _) = report.split_at(end.min(report.len()));
        let verdict = Verdict::Wrong {
            line,
            reason: CheckReason::Text,
        };
        if (at_line || within_lines) && !has_verdict(alloc, front, verdict) {
            return false;
        }
        end = end.saturating_add(1);
        at_line = *byte == b'\n';
        if at_line {
            line = line.saturating_add(1);
        }
    }
    true
}

#[test]
fn each_front_of_a_report_is_wrong_where_it_ends(rt: HostRuntime) {
    let alloc = rt.alloc();
    assert!(rt; are_fronts_found(alloc, MESSAGE, true));
    assert!(rt; are_fronts_found(alloc, NO_CALL, true));
    assert!(rt; are_fronts_found(alloc, RINGS, false));
    assert!(rt; are_fronts_found(alloc, WAITS, false));
    assert!(rt; are_fronts_found(alloc, RAW_FRAMES, false));
    assert!(rt; are_fronts_found(alloc, CHANNELS, false));
    assert!(rt; are_fronts_found(alloc, EIGHT_DOMAINS, false));
}

//! The form `load N`: what it writes, and that a run of the same board tells the same.

ghost use Rattle.std.specs.Prelude.{◌≤◌};

use super::{EMPTY, Given, NEVER, SERIAL, USAGE, comes_out, outcome_of};
use scenario_lang::{load_scenario, write_scenario};
use std::alloc::Global;
use std::test::Fail;

const LOAD_3: &[&str] = &["load", "3"];

const LOAD_2000: &[&str] = &["load", "2000"];

const THREADS: &[&str] = &["run"];

const THREE: &[u8] = b"load 3
channel 0 1 accepted 3 taken 3 dropped 0 queued 0 ring 0
channel 1 1 accepted 3 taken 3 dropped 0 queued 0 ring 0
channel 2 1 accepted 3 taken 3 dropped 0 queued 0 ring 0
channel 3 1 accepted 3 taken 3 dropped 0 queued 0 ring 0
messages accepted 0 taken 0 dropped 0 queued 0 ring 0
end
";

/// What becomes of 2,000 packets on each channel.
const SUMMARY: &[u8] = b"channel 0 1 accepted 2000 taken 2000 dropped 0 queued 0 ring 0
channel 1 1 accepted 2000 taken 2000 dropped 0 queued 0 ring 0
channel 2 1 accepted 2000 taken 2000 dropped 0 queued 0 ring 0
channel 3 1 accepted 2000 taken 2000 dropped 0 queued 0 ring 0
messages accepted 0 taken 0 dropped 0 queued 0 ring 0
";

/// How the report of a serial run of that board ends.
const REPORT_END: &[u8] = b"channel 0 1 accepted 2000 taken 2000 dropped 0 queued 0 ring 0
channel 1 1 accepted 2000 taken 2000 dropped 0 queued 0 ring 0
channel 2 1 accepted 2000 taken 2000 dropped 0 queued 0 ring 0
channel 3 1 accepted 2000 taken 2000 dropped 0 queued 0 ring 0
messages accepted 0 taken 0 dropped 0 queued 0 ring 0
lane 0 0 free 2 ring 0 queue 0 lent 0
lane 0 1 free 16 ring 0 queue 0 lent 0
lane 0 3 free 16 ring 0 queue 0 lent 0
lane 1 0 free 15 ring 1 queue 0 lent 0
lane 1 1 free 2 ring 0 queue 0 lent 0
lane 1 2 free 16 ring 0 queue 0 lent 0
lane 2 1 free 15 ring 1 queue 0 lent 0
lane 2 2 free 2 ring 0 queue 0 lent 0
lane 2 3 free 16 ring 0 queue 0 lent 0
lane 3 0 free 15 ring 1 queue 0 lent 0
lane 3 2 free 15 ring 1 queue 0 lent 0
lane 3 3 free 2 ring 0 queue 0 lent 0
end
";

/// What becomes of the packets of a load board that is run on threads. It has 100, since domains that wait for each other poll, and a
/// test has a minute on a machine with other work.
const ON_THREADS: &[u8] = b"channel 0 1 accepted 100 taken 100 dropped 0 queued 0 ring 0
channel 1 1 accepted 100 taken 100 dropped 0 queued 0 ring 0
channel 2 1 accepted 100 taken 100 dropped 0 queued 0 ring 0
channel 3 1 accepted 100 taken 100 dropped 0 queued 0 ring 0
messages accepted 0 taken 0 dropped 0 queued 0 ring 0
";

/// What `load 2000` writes before and after.
const HEADING: &[u8] = b"load 2000\n";

const ENDING: &[u8] = b"end\n";

/// Words, with a source whose first read fails.
fn unread<'a>(words: &'a [&'a str]) -> Given<'a> {
    Given {
        words,
        failing_read: 0,
        ..EMPTY
    }
}

#[test]
fn three_packets_on_each_channel(rt: HostRuntime) -> Result<(), Fail> {
    let given = unread(LOAD_3);
    assert!(rt; comes_out(&rt, rt.alloc(), given, 0, THREE)?);
    Ok(())
}

#[test]
fn two_thousand_packets_on_each_channel(rt: HostRuntime) -> Result<(), Fail> {
    let (status, output) = outcome_of(&rt, rt.alloc(), unread(LOAD_2000))?;
    let written = output.written();
    assert!(rt; status == 0);
    assert!(rt; written.len() == HEADING.len() + SUMMARY.len() + ENDING.len());
    assert!(rt; written.starts_with(HEADING));
    let (_, rest) = written.split_at(HEADING.len());
    assert!(rt; rest.starts_with(SUMMARY));
    assert!(rt; rest.ends_with(ENDING));
    Ok(())
}

/// The text of a load board, or nothing where an allocation fails.
fn load_text(alloc: Global, packets: u32) -> Option<Vec<u8>>
    requires some { 1 ≤ packets }
    requires few { packets ≤ 100000 }
{
    let Ok(scenario) = load_scenario(alloc, packets) else {
        return None;
    };
    write_scenario(alloc, &scenario).ok()
}

#[test]
fn the_report_of_its_serial_run_has_the_same_totals(rt: HostRuntime) -> Result<(), Fail> {
    let text = load_text(rt.alloc(), 2000).ok_or("memory")?;
    let given = Given {
        words: SERIAL,
        text: &text,
        room: 4_000_000,
        ..EMPTY
    };
    let (status, output) = outcome_of(&rt, rt.alloc(), given)?;
    assert!(rt; status == 0);
    assert!(rt; output.written().ends_with(REPORT_END));
    Ok(())
}

/// On threads each journal may be another, but the totals are the same.
#[test]
fn a_run_on_threads_has_the_same_totals(rt: HostRuntime) -> Result<(), Fail> {
    let text = load_text(rt.alloc(), 100).ok_or("memory")?;
    let given = Given {
        words: THREADS,
        text: &text,
        room: 4_000_000,
        ..EMPTY
    };
    let (status, output) = outcome_of(&rt, rt.alloc(), given)?;
    assert!(rt; status == 0);
    assert!(rt;
        output
            .written()
            .windows(ON_THREADS.len())
            .any(|part| part == ON_THREADS)
    );
    Ok(())
}

/// Words that are near those of a load.
static OTHERS: [&[&str]; 14] = [
    &["load", "0"],
    &["load", "07"],
    &["load"],
    &["load", "100001"],
    &["load", "4294967297"],
    &["load", "18446744073709551617"],
    &["load", ""],
    &["load", "+3"],
    &["load", "3 "],
    &["load", "0x3"],
    &["load", "3", "3"],
    &["3", "load"],
    &["Load", "3"],
    &["load 3"],
];

#[test]
fn words_of_no_load_give_the_usage(rt: HostRuntime) -> Result<(), Fail> {
    for (i, words) in OTHERS.iter().enumerate() {
        assert!(rt;
            comes_out(&rt, rt.alloc(), unread(*words), 2, USAGE)?,
            "row {i}"
        );
    }
    Ok(())
}

#[test]
fn a_load_breaks_off_where_a_write_fails(rt: HostRuntime) -> Result<(), Fail> {
    let given = Given {
        failing_write: 9,
        step: 1,
        ..unread(LOAD_3)
    };
    let (front, _) = THREE.split_at(9);
    assert!(rt; comes_out(&rt, rt.alloc(), given, 5, front)?);
    let given = Given {
        room: THREE.len() - 1,
        failing_write: NEVER,
        ..unread(LOAD_3)
    };
    let (front, _) = THREE.split_at(THREE.len() - 1);
    assert!(rt; comes_out(&rt, rt.alloc(), given, 5, front)?);
    Ok(())
}

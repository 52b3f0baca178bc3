//! Whether texts are read, and how.

use scenario_lang::{LineReason, ScenarioFault, read_scenario, write_scenario};
use std::alloc::Global;
use std::process::Abort;

/// A text, and the line and the reason of its refusal.
pub type Refusal = (&'static [u8], u32, LineReason);

/// The words for the reasons of refusals.
static REASONS: [(&str, LineReason); 10] = [
    ("byte", LineReason::Byte),
    ("long", LineReason::Long),
    ("form", LineReason::Form),
    ("number", LineReason::Number),
    ("bytes", LineReason::Bytes),
    ("order", LineReason::Order),
    ("domain", LineReason::Domain),
    ("link", LineReason::Link),
    ("label", LineReason::Label),
    ("sound", LineReason::Sound),
];

/// The reason with this word.
pub fn reason_of(word: &str) -> Option<LineReason> {
    for (name, reason) in &REASONS {
        if *name == word {
            return Some(*reason);
        }
    }
    None
}

pub fn is_refused(alloc: Global, text: &[u8], line: u32, reason: LineReason) -> bool {
    if text.len() >= 1_000_000 {
        return false;
    }
    match read_scenario(alloc, text) {
        Err(fault) => fault == ScenarioFault::Refused { line, reason },
        Ok(_) => false,
    }
}

pub fn is_read(alloc: Global, text: &[u8]) -> bool {
    if text.len() >= 1_000_000 {
        return false;
    }
    read_scenario(alloc, text).is_ok()
}

pub fn is_read_as(alloc: Global, text: &[u8], canonical: &[u8]) -> bool {
    if text.len() >= 1_000_000 {
        return false;
    }
    let Ok(scenario) = read_scenario(alloc, text) else {
        return false;
    };
    match write_scenario(alloc, &scenario) {
        Ok(written) => written.as_slice() == canonical,
        Err(_) => false,
    }
}

/// Whether a case holds: the number of a line and the word of the reason for which it is refused, and the lines of the text.
fn holds(alloc: Global, case: &str) -> bool {
    let Some((head, text)) = case.split_once('\n') else {
        return false;
    };
    let Some((number, word)) = head.split_once(' ') else {
        return false;
    };
    match (number.parse::<u32>(), reason_of(word)) {
        (Ok(line), Some(reason)) => is_refused(alloc, text.as_bytes(), line, reason),
        _ => false,
    }
}

/// Asserts that each case of one text holds. A line of two dashes stands between two.
pub fn assert_cases(rt: &impl Abort, alloc: Global, cases: &str) {
    for case in cases.split("--\n") {
        assert!(rt; holds(alloc, case), "{case}");
    }
}

pub fn assert_refused(rt: &impl Abort, alloc: Global, rows: &[Refusal]) {
    for (i, (text, line, reason)) in rows.iter().enumerate() {
        assert!(rt; is_refused(alloc, text, *line, *reason), "row {i}");
    }
}

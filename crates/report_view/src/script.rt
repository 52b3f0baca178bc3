//! The lines of scripts, as they stand in a report.

use board_model::Scenario;
use mc_base::NoMemory;
use report_text::cut;
use std::alloc::Global;

/// A line of a domain's script: its number in the report, counted from 1, its text, and its place among the calls of the scenario.
#[derive(Clone, Copy, Debug)]
pub struct ScriptLine<'a> {
    pub number: u32,
    pub text: &'a [u8],
    pub call: usize,
}

/// A text behind some lines, and the number of its first line.
#[derive(Clone, Copy)]
struct Behind<'a> {
    number: u32,
    text: &'a [u8],
}

/// Passes over so many lines of a text, or over all where it has fewer.
fn behind_lines(text: &[u8], lines: usize) -> Behind<'_> {
    let mut behind = Behind { number: 1, text };
    for _done in 0..lines {
        let Some((_, after)) = cut(b'\n', behind.text) else {
            return behind;
        };
        behind = Behind {
            number: behind.number.saturating_add(1),
            text: after,
        };
    }
    behind
}

/// Passes over the heading, the domains and the links of a report.
fn behind_board<'a>(report: &'a [u8], scenario: &Scenario) -> Behind<'a> {
    let domains = scenario.domains.as_slice().len();
    let links = scenario.links.as_slice().len();
    behind_lines(report, domains.saturating_add(links).saturating_add(1))
}

/// Returns the script of a domain, as it stands in the report that has this scenario.
pub fn script_of<'a>(
    alloc: Global,
    report: &'a [u8],
    scenario: &Scenario,
    domain: u8,
) -> Result<Vec<ScriptLine<'a>>, NoMemory> {
    let mut script = Vec::new(alloc);
    let Behind {
        mut number,
        text: mut rest,
    } = behind_board(report, scenario);
    for (call, line) in scenario.calls.as_slice().iter().enumerate() {
        let Some((text, after)) = cut(b'\n', rest) else {
            return Ok(script);
        };
        if line.domain == domain {
            if script.push(ScriptLine { number, text, call }).is_err() {
                return Err(NoMemory);
            }
        }
        number = number.saturating_add(1);
        rest = after;
    }
    Ok(script)
}

//! The second pass over a report: a domain's way through its journal.

ghost use Rattle.std.specs.Prelude.{◌≡◌, ◌≤◌, IfOk, length, map};
ghost use Rattle.board_model.specs.Language.{IsLawfulBoard};
ghost use Rattle.board_model.specs.Scenario.{script};
ghost use Rattle.board_model.specs.State.{opening};
ghost use Rattle.report_replay.specs.Replayed.{neighbour_of};
ghost use Rattle.report_text.specs.LaneLeft.{IsShort};
ghost use Rattle.report_text.specs.Texts.{neighbours_of};
ghost use Rattle.report_check.specs.Walked.{IsInOrder, IsWalked, journal_read};

use crate::part_walk::{PartsWalked, walk_parts};
use crate::run::Run;
use board_model::{CallLine, DomainLine, Scenario};
use mc_base::NoMemory;
use report_replay::{FrameNames, State};
use report_text::{
    CheckReason, JournalLines, Numbered, SpelledText, neighbours_of_domain, numbers, script_puts,
    spelled_lines,
};
use std::alloc::Global;

/// What the second pass finds of a domain's journal.
#[derive(Drop)]
pub enum Walked<'a> {
    /// Each line is the one that was due, and the script is at its end. The domain is left in this state, it gave back the buffers of the
    /// frames with these places among those taken from each peer, and behind its journal stands this text, which begins with the line of this
    /// number.
    Right {
        state: State,
        given: FrameNames,
        line: u32,
        behind: &'a [u8],
    },
    /// The line is the first that is not the one due, with the reason `Step`; or the one behind the journal, which ends before the script
    /// does, with the reason `Script`.
    Wrong {
        line: u32,
        reason: CheckReason,
    },
}

/// The lines of a domain's script.
fn script_lines<'s>(
    alloc: Global,
    scenario: &'s Scenario,
    domain: u8,
) -> Result<Vec<&'s CallLine>, NoMemory>
    ensures { IfOk result (λ v. map (λ l. l.now) v.items ≡ script scenario.now domain) }
{
    let mut lines = Vec::new(alloc);
    let mut rest = scenario.calls.as_slice();
    while let [line, after @ ..] = rest {
        if line.domain == domain {
            if lines.push(line).is_err() {
                return Err(NoMemory);
            }
        }
        rest = after;
    }
    Ok(lines)
}

/// The lanes to neighbours, each by the number at its other end and by its buffers.
fn lanes(alloc: Global, found: &[Numbered]) -> Result<Vec<(u8, u32)>, NoMemory>
    ensures { IfOk result (λ v. map neighbour_of v.items ≡ neighbours_of found.now) }
{
    let mut lanes = Vec::new(alloc);
    for neighbour in found {
        if lanes.push((neighbour.number, neighbour.size)).is_err() {
            return Err(NoMemory);
        }
    }
    Ok(lanes)
}

/// Opens a domain that has these neighbours.
fn opened(alloc: Global, line: DomainLine, found: &[Numbered]) -> Result<State, NoMemory>
    ensures { IfOk result (λ s. s ≡ opening line.domain line.nodes (neighbours_of found.now)) }
{
    let lanes = lanes(alloc, found)?;
    let state = State::open(alloc, line.domain, line.nodes, &lanes)?;
    Ok(state)
}

/// Makes a domain's way through its journal, and compares each line with the one that is due. `room` is as long as the longest line.
///
/// # Errors
///
/// `NoMemory` where an allocation fails.
pub fn walk<'a>(
    alloc: Global,
    scenario: &Scenario,
    line: DomainLine,
    journal: JournalLines<'a>,
    room: &mut [u8],
) -> Result<Walked<'a>, NoMemory>
    requires lawful { IsLawfulBoard scenario.now }
    requires domain { line.domain ≡ journal.domain }
    requires order { IsInOrder scenario.now (journal_read line journal) }
    requires short { IsShort (length room.old) journal }
    ensures { IfOk result (IsWalked scenario.now (journal_read line journal.entry) journal.entry.text.now) }
{
    let found = neighbours_of_domain(alloc, scenario, line)?;
    let state = opened(alloc, line, &found)?;
    let script = script_lines(alloc, scenario, line.domain)?;
    let mut run = Run::new(alloc, state, &script);
    let peers = numbers(alloc, &found)?;
    let puts = script_puts(alloc, scenario, line.domain)?;
    let read = spelled_lines(alloc, journal.text)?;
    let text = SpelledText {
        text: journal.text,
        lines: read.as_slice(),
    };
    match walk_parts(&mut run, alloc, &peers, &puts, text, room)? {
        PartsWalked::Wrong { place } => Ok(Walked::Wrong {
            line: journal.number + place as u32,
            reason: CheckReason::Step,
        }),
        PartsWalked::Right { lines, behind } => {
            let number = journal.number + lines as u32;
            if run.lines_left() > 0 {
                return Ok(Walked::Wrong {
                    line: number,
                    reason: CheckReason::Script,
                });
            }
            let (state, given) = run.into_state();
            Ok(Walked::Right {
                state,
                given,
                line: number,
                behind,
            })
        }
    }
}

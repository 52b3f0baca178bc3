//! The journals and the numbers of a report: whether each line has its form, and which is the first that has not.

ghost use Rattle.std.specs.Prelude.{◌≡◌, ◌+◌, ◌<◌, ◌≤◌, ◌^◌, IfOk, length, map};
ghost use Rattle.board_model.specs.Scenario.{lane_to, rising};
ghost use Rattle.report_text.specs.TextPass.{board_from, board_lanes_from, channels_from, ending_from, journal_from, journals_from, lanes_from, one_line, nothing_behind as nothing_left, numbers_from, rings_from, rings_in};
ghost use Rattle.report_text.specs.Modes.{mode_of};
ghost use Rattle.report_text.specs.ReportLines.{messages_form};
ghost use Rattle.report_text.specs.Texts.{IsBehind, IsReached, longest_line, neighbours_of, rest_of, seen};

use crate::board::{Numbered, neighbours_of_domain, numbers, rising_domains, script_puts};
use crate::journal::read_entries;
use crate::lines::Unread;
use crate::mode::Mode;
use crate::report_lines::{
    read_channel, read_ending, read_journal_heading, read_lane, read_messages, read_ring,
};
use board_model::{DomainLine, LinkLine, Scenario};
use mc_base::NoMemory;
use std::alloc::Global;

/// Reads the journal of a domain.
#[tactic(auto, using(crate::proofs::Reached::reached_past))]
fn read_journal<'a>(
    alloc: Global,
    scenario: &Scenario,
    line: DomainLine,
    unread: Unread<'a>,
) -> Result<Result<Unread<'a>, u32>, NoMemory>
    requires few { unread.number + length unread.text.now < 2 ^ 32 }
    ensures value { IfOk result (λ r. seen r ≡ journal_from scenario.now line (rest_of unread.entry)) }
    ensures behind { IfOk result (λ r. IsReached unread.entry r) }
{
    let found = neighbours_of_domain(alloc, scenario, line)?;
    let peers = numbers(alloc, &found)?;
    let puts = script_puts(alloc, scenario, line.domain)?;
    match read_journal_heading(line.domain, unread) {
        Ok(entries) => read_entries(alloc, entries, &peers, &puts),
        Err(number) => Ok(Err(number)),
    }
}

/// Reads the journals of these domains.
#[tactic(auto, using(crate::proofs::Reached::reached_behind))]
pub fn read_journals<'a>(
    alloc: Global,
    scenario: &Scenario,
    lines: &[DomainLine],
    unread: Unread<'a>,
) -> Result<Result<Unread<'a>, u32>, NoMemory>
    requires few { unread.number + length unread.text.now < 2 ^ 32 }
    ensures value { IfOk result (λ r. seen r ≡ journals_from scenario.now lines.now (rest_of unread.entry)) }
    ensures behind { IfOk result (λ r. IsReached unread.entry r) }
{
    let [line, others @ ..] = lines else {
        return Ok(Ok(unread));
    };
    match read_journal(alloc, scenario, *line, unread)? {
        Ok(behind) => read_journals(alloc, scenario, others, behind),
        Err(number) => Ok(Err(number)),
    }
}

/// Passes over lines of channels.
#[tactic(auto, using(crate::proofs::Reached::behind_past, crate::proofs::Reached::channels_more, crate::proofs::Reached::channels_end))]
fn skip_channels(unread: Unread<'_>) -> Unread<'_>
    requires few { unread.number + length unread.text.now < 2 ^ 32 }
    ensures value { rest_of result ≡ channels_from unread.entry.number (rest_of unread.entry).lines }
    ensures behind { IsBehind unread.entry result }
{
    let mut rest = unread;
    while let Ok(behind) = read_channel(rest) {
        rest = behind;
    }
    rest
}

/// Reads the lines of the lanes from a domain to its neighbours.
#[tactic(auto, using(crate::proofs::Reached::reached_past))]
fn read_lanes_of<'a>(sender: u8, found: &[Numbered], unread: Unread<'a>) -> Result<Unread<'a>, u32>
    requires few { unread.number + length unread.text.now < 2 ^ 32 }
    ensures value { seen result ≡ lanes_from (map (lane_to sender) (neighbours_of found.now)) (rest_of unread.entry) }
    ensures behind { IsReached unread.entry result }
{
    match found {
        [neighbour, others @ ..] => {
            let behind = read_lane(sender, neighbour.number, unread)?;
            read_lanes_of(sender, others, behind)
        }
        [] => Ok(unread),
    }
}

/// Reads the lines of the lanes from these domains.
#[tactic(auto, using(crate::proofs::Reached::reached_behind))]
fn read_lanes<'a>(
    alloc: Global,
    scenario: &Scenario,
    lines: &[DomainLine],
    unread: Unread<'a>,
) -> Result<Result<Unread<'a>, u32>, NoMemory>
    requires few { unread.number + length unread.text.now < 2 ^ 32 }
    ensures value { IfOk result (λ r. seen r ≡ board_lanes_from scenario.now lines.now (rest_of unread.entry)) }
    ensures behind { IfOk result (λ r. IsReached unread.entry r) }
{
    let [line, others @ ..] = lines else {
        return Ok(Ok(unread));
    };
    let found = neighbours_of_domain(alloc, scenario, *line)?;
    match read_lanes_of(line.domain, &found, unread) {
        Ok(behind) => read_lanes(alloc, scenario, others, behind),
        Err(number) => Ok(Err(number)),
    }
}

/// Reads the lines of these links' rings.
#[tactic(auto, using(crate::proofs::Reached::reached_past))]
fn read_link_rings<'a>(links: &[LinkLine], unread: Unread<'a>) -> Result<Unread<'a>, u32>
    requires few { unread.number + length unread.text.now < 2 ^ 32 }
    ensures value { seen result ≡ rings_from links.now (rest_of unread.entry) }
    ensures behind { IsReached unread.entry result }
{
    match links {
        [link, others @ ..] => {
            let first = read_ring(*link, 0, unread)?;
            let second = read_ring(*link, 1, first)?;
            read_link_rings(others, second)
        }
        [] => Ok(unread),
    }
}

/// Reads the lines of rings. A run on one thread has none.
fn read_rings<'a>(mode: Mode, scenario: &Scenario, unread: Unread<'a>) -> Result<Unread<'a>, u32>
    requires few { unread.number + length unread.text.now < 2 ^ 32 }
    ensures value { seen result ≡ rings_in (mode_of mode) scenario.now (rest_of unread.entry) }
    ensures behind { IsReached unread.entry result }
{
    match mode {
        Mode::Serial => Ok(unread),
        Mode::Threads => read_link_rings(scenario.links.as_slice(), unread),
    }
}

/// Answers with the number of the next line, if there is one.
fn nothing_behind(unread: Unread<'_>) -> Result<Unread<'_>, u32>
    ensures { seen result ≡ nothing_left (rest_of unread.entry) }
{
    if unread.text.is_empty() {
        Ok(unread)
    } else {
        Err(unread.number)
    }
}

/// Reads the last line, behind which nothing stands.
fn read_end(unread: Unread<'_>) -> Result<Unread<'_>, u32>
    requires few { unread.number + length unread.text.now < 2 ^ 32 }
    ensures { seen result ≡ ending_from (rest_of unread.entry) }
{
    nothing_behind(read_ending(unread)?)
}

/// Reads the line of the messages, behind those of channels.
#[tactic(auto, using(crate::proofs::Reached::reached_behind, crate::proofs::Reached::reached_read))]
fn read_totals(unread: Unread<'_>) -> Result<Unread<'_>, u32>
    requires few { unread.number + length unread.text.now < 2 ^ 32 }
    ensures value { seen result ≡ one_line messages_form (channels_from unread.entry.number (rest_of unread.entry).lines) }
    ensures behind { IsReached unread.entry result }
{
    read_messages(skip_channels(unread))
}

/// Reads the lines of numbers, behind the journals.
#[tactic(auto, using(crate::proofs::Reached::reached_behind))]
fn read_numbers<'a>(
    alloc: Global,
    mode: Mode,
    scenario: &Scenario,
    lines: &[DomainLine],
    unread: Unread<'a>,
) -> Result<Result<Unread<'a>, u32>, NoMemory>
    requires few { unread.number + length unread.text.now < 2 ^ 32 }
    requires all { lines.now ≡ rising scenario.now }
    ensures { IfOk result (λ r. seen r ≡ numbers_from (mode_of mode) scenario.now (rest_of unread.entry)) }
{
    let messages = match read_totals(unread) {
        Ok(behind) => behind,
        Err(number) => return Ok(Err(number)),
    };
    let lanes = match read_lanes(alloc, scenario, lines, messages)? {
        Ok(behind) => behind,
        Err(number) => return Ok(Err(number)),
    };
    match read_rings(mode, scenario, lanes) {
        Ok(behind) => Ok(read_end(behind)),
        Err(number) => Ok(Err(number)),
    }
}

/// Reads the journals and the numbers behind the scenario of a report.
pub fn read_board<'a>(
    alloc: Global,
    mode: Mode,
    scenario: &Scenario,
    unread: Unread<'a>,
) -> Result<Result<Unread<'a>, u32>, NoMemory>
    requires few { unread.number + length unread.text.now < 2 ^ 32 }
    ensures { IfOk result (λ r. seen r ≡ board_from (mode_of mode) scenario.now (rest_of unread.entry)) }
{
    let lines = rising_domains(alloc, scenario.domains.as_slice())?;
    match read_journals(alloc, scenario, &lines, unread)? {
        Ok(numbers) => read_numbers(alloc, mode, scenario, &lines, numbers),
        Err(number) => Ok(Err(number)),
    }
}

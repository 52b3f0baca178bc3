//! A board by its scenario: its domains and the neighbours of each, in rising number, and how many frames the lines of a script put.

ghost use Rattle.std.specs.Prelude.{◌≡◌, ◌≤◌, IfOk, OnOk, length, map};
ghost use Rattle.board_model.specs.Scenario.{all_ranked, linked_by, neighbours, ranked, ranked_domain, rising_from, script};
ghost use Rattle.board_model.specs.Unjoined.{frames_put as puts_on_success};
ghost use Rattle.std.specs.List.{flat_map};
ghost use Rattle.report_text.specs.TextPass.{puts_of_script};
ghost use Rattle.report_text.specs.Ranks.{domain_rank as rank_of_domain, neighbour_rank as rank_of_neighbour};
ghost use Rattle.report_text.specs.Texts.{neighbour_of, neighbours_of};

use board_model::{Call, CallLine, DomainLine, LinkLine, Scenario};
use mc_base::{NoMemory, frames_needed};
use std::alloc::Global;

/// A domain to which another has a lane, and the buffers of the lane.
#[derive(Clone, Copy)]
pub struct Numbered {
    pub number: u8,
    pub size: u32,
}

/// Counts the domains that stand before one of this number.
fn domain_rank(number: u8, lines: &[DomainLine]) -> usize
    ensures value { result ≡ rank_of_domain number lines.now }
    ensures within { result ≤ length lines.now }
{
    let mut count = 0;
    let mut rest = lines;
    while let [line, after @ ..] = rest {
        if number < line.domain {
            return count;
        }
        count += 1;
        rest = after;
    }
    count
}

/// Puts a domain where the numbers rise.
fn rank_domain(lines: &mut Vec<DomainLine>, line: DomainLine) -> Result<(), NoMemory>
    ensures { OnOk result (lines.new.items ≡ ranked_domain line lines.old.items) }
{
    let rank = domain_rank(line.domain, lines);
    if lines.insert(rank, line).is_err() {
        return Err(NoMemory);
    }
    Ok(())
}

/// Returns domains in rising number.
pub fn rising_domains(alloc: Global, lines: &[DomainLine]) -> Result<Vec<DomainLine>, NoMemory>
    ensures { IfOk result (λ v. v.items ≡ rising_from lines.now) }
{
    let [first, others @ ..] = lines else {
        return Ok(Vec::new(alloc));
    };
    let mut found = rising_domains(alloc, others)?;
    rank_domain(&mut found, *first)?;
    Ok(found)
}

/// Counts the neighbours that stand before one of this number.
fn neighbour_rank(number: u8, found: &[Numbered]) -> usize
    ensures value { result ≡ rank_of_neighbour number (neighbours_of found.now) }
    ensures within { result ≤ length found.now }
{
    let mut count = 0;
    let mut rest = found;
    while let [other, after @ ..] = rest {
        if number < other.number {
            return count;
        }
        count += 1;
        rest = after;
    }
    count
}

/// Puts a neighbour where the numbers rise.
fn rank_neighbour(found: &mut Vec<Numbered>, neighbour: Numbered) -> Result<(), NoMemory>
    ensures { OnOk result (neighbours_of found.new.items ≡ ranked (neighbour_of neighbour) (neighbours_of found.old.items)) }
{
    let rank = neighbour_rank(neighbour.number, found);
    if found.insert(rank, neighbour).is_err() {
        return Err(NoMemory);
    }
    Ok(())
}

/// Returns the domains that links join to this one, in rising number.
fn linked(alloc: Global, domain: u8, links: &[LinkLine]) -> Result<Vec<Numbered>, NoMemory>
    ensures { IfOk result (λ v. neighbours_of v.items ≡ all_ranked (flat_map (linked_by domain) links.now)) }
{
    let [first, others @ ..] = links else {
        return Ok(Vec::new(alloc));
    };
    let mut found = linked(alloc, domain, others)?;
    if first.driver == domain {
        rank_neighbour(
            &mut found,
            Numbered {
                number: first.device,
                size: first.size,
            },
        )?;
    } else if first.device == domain {
        rank_neighbour(
            &mut found,
            Numbered {
                number: first.driver,
                size: first.size,
            },
        )?;
    }
    Ok(found)
}

/// Returns the neighbours of a domain in rising number, itself among them.
pub fn neighbours_of_domain(
    alloc: Global,
    scenario: &Scenario,
    line: DomainLine,
) -> Result<Vec<Numbered>, NoMemory>
    ensures { IfOk result (λ v. neighbours_of v.items ≡ neighbours scenario.now line) }
{
    let mut found = linked(alloc, line.domain, scenario.links.as_slice())?;
    rank_neighbour(
        &mut found,
        Numbered {
            number: line.domain,
            size: line.pool,
        },
    )?;
    Ok(found)
}

/// Returns the numbers of neighbours.
pub fn numbers(alloc: Global, found: &[Numbered]) -> Result<Vec<u8>, NoMemory>
    ensures { IfOk result (λ v. v.items ≡ map (λ n. n.number) (neighbours_of found.now)) }
{
    let mut numbers = Vec::new(alloc);
    for neighbour in found {
        if numbers.push(neighbour.number).is_err() {
            return Err(NoMemory);
        }
    }
    Ok(numbers)
}

/// Counts the frames that a call puts where it succeeds.
fn frames_put(call: &Call) -> u64
    ensures { result ≡ puts_on_success call.now }
{
    match call {
        Call::MsgSend { bytes, .. } | Call::PktSend { bytes, .. } => {
            frames_needed(bytes.as_slice().len())
        }
        Call::Connect { .. }
        | Call::OpenSend { .. }
        | Call::OpenRecv { .. }
        | Call::SclSend { .. }
        | Call::CloseSend { .. }
        | Call::CloseRecv { .. }
        | Call::Raw { .. } => 1,
        Call::Create { .. }
        | Call::Delete { .. }
        | Call::Lookup { .. }
        | Call::MsgRecv { .. }
        | Call::MsgRecvI { .. }
        | Call::MsgAvailable { .. }
        | Call::PktRecv { .. }
        | Call::PktRecvI { .. }
        | Call::Release { .. }
        | Call::SclRecv { .. }
        | Call::Test { .. }
        | Call::Wait { .. }
        | Call::WaitAny { .. }
        | Call::Cancel { .. }
        | Call::Turn => 0,
    }
}

/// Counts the frames that each line of a domain's script puts where it succeeds.
pub fn script_puts(alloc: Global, scenario: &Scenario, domain: u8) -> Result<Vec<u64>, NoMemory>
    ensures { IfOk result (λ v. v.items ≡ puts_of_script (script scenario.now domain)) }
{
    let mut puts = Vec::new(alloc);
    let mut rest = scenario.calls.as_slice();
    while let [line, after @ ..] = rest {
        if line.domain == domain {
            if puts.push(frames_put(&line.call)).is_err() {
                return Err(NoMemory);
            }
        }
        rest = after;
    }
    Ok(puts)
}

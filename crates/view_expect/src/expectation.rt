//! The answers that a scenario file expects.

ghost use Rattle.std.specs.Prelude.{◌≡◌, ◌++◌, IfOk, OnOk, map};
ghost use Rattle.view_expect.specs.Expected.{caller_in, calls_behind, expected_at, expected_by, expected_in, told};

use crate::lines::{arrow, caller, first_line, trim};
use mc_base::NoMemory;
use std::alloc::Global;

/// An answer that is expected of a call: the number of its line in the file, counted from 1, the line, its domain, its number in the domain's script,
/// and the answer.
#[derive(Clone, Copy, Debug)]
pub struct Expectation<'f> {
    pub line: u64,
    pub call: &'f [u8],
    pub domain: u8,
    pub number: u64,
    pub answer: &'f [u8],
}

/// Adds the answer that a line of a domain expects, if it expects one. The line has this number in the file, and its call this one in the script.
fn add<'f>(
    expectations: &mut Vec<Expectation<'f>>,
    line: &'f [u8],
    at: u64,
    domain: u8,
    number: u64,
) -> Result<(), NoMemory>
    ensures { OnOk result (map told expectations.new.items ≡ map told expectations.old.items ++ expected_by at domain number line.now) }
{
    let Some((call, answer)) = arrow(line) else {
        return Ok(());
    };
    let expectation = Expectation {
        line: at,
        call: trim(call),
        domain,
        number,
        answer: trim(answer),
    };
    if expectations.push(expectation).is_err() {
        return Err(NoMemory);
    }
    Ok(())
}

/// Adds the answer that a line expects, if it makes a call and expects one, and counts the call. The line has this number in the file.
fn add_line<'f>(
    expectations: &mut Vec<Expectation<'f>>,
    calls: &mut [u64; 8],
    line: &'f [u8],
    at: u64,
) -> Result<(), NoMemory>
    ensures expected { OnOk result (map told expectations.new.items ≡ map told expectations.old.items ++ expected_at at calls.old line.now (caller_in line.now)) }
    ensures calls { OnOk result (calls.new ≡ calls_behind (caller_in line.now) calls.old) }
{
    let Some(domain) = caller(line) else {
        return Ok(());
    };
    let place = usize::from(domain);
    let number = calls[place].saturating_add(1);
    calls[place] = number;
    add(expectations, line, at, domain, number)
}

/// Returns the answers that a scenario file expects, in the order of its lines.
///
/// # Errors
///
/// `NoMemory` where an allocation fails.
pub fn expectations_of(alloc: Global, file: &[u8]) -> Result<Vec<Expectation<'_>>, NoMemory>
    ensures { IfOk result (λ v. map told v.items ≡ expected_in file.now) }
{
    let mut expectations = Vec::new(alloc);
    let mut calls = [0u64; 8];
    let mut at: u64 = 1;
    let mut rest = file;
    while !rest.is_empty() {
        let (line, after) = first_line(rest);
        add_line(&mut expectations, &mut calls, line, at)?;
        at = at.saturating_add(1);
        rest = after;
    }
    Ok(expectations)
}

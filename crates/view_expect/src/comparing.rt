//! Whether the answers of a report are those that are expected.

ghost use Rattle.std.specs.Prelude.{◌≡◌, ◌++◌, ◌-◌, ◌==◌, ◌∷◌, [], IfOk, OnOk, bytes_eq, find, length, map, option_map, slice_get};
ghost use Rattle.std.specs.List.{AllByRecursion};
ghost use Rattle.view_expect.specs.Answers.{answer_line as line_due, answers_of, is_line as is_the_line, of_domain as answers_at, told_answers};
ghost use Rattle.view_expect.specs.Outcomes.{outcome_on, verdict_of};

use crate::answers::{Answers, all_answers};
use crate::expectation::Expectation;
use crate::file::add_bytes;
use mc_base::NoMemory;
use report_view::{View, answer_in};
use std::alloc::Global;

/// What became of an expectation: whether the report answers so, and what it answers.
#[derive(Clone, Copy, Debug)]
pub struct Outcome<'o> {
    pub expectation: Expectation<'o>,
    pub is_met: bool,
    /// The answer, or `none` where the report has none.
    pub answer: &'o [u8],
}

/// Returns the line of a journal that answers a call so.
fn answer_line(alloc: Global, number: u64, answer: &[u8]) -> Result<Vec<u8>, NoMemory>
    ensures { IfOk result (λ v. v.items ≡ line_due number answer.now) }
{
    let mut line = Vec::new(alloc);
    add_bytes(&mut line, b"call ")?;
    add_bytes(&mut line, itoa::Buffer::new().format(number).as_bytes())?;
    add_bytes(&mut line, b" ")?;
    add_bytes(&mut line, answer)?;
    add_bytes(&mut line, b"\n")?;
    Ok(line)
}

/// Returns the lines that answer the calls of a domain.
fn answers_to<'l, 'a>(all: &'l [Answers<'a>], domain: u8) -> &'l [&'a [u8]]
    ensures { map (λ l. l.now) result.now ≡ answers_at (map told_answers all.now) domain }
{
    let [first, others @ ..] = all else {
        return &[];
    };
    if first.domain == domain {
        return &first.lines;
    }
    answers_to(others, domain)
}

/// Returns the line that answers the call of this number, counted from 1.
fn line_numbered<'a>(lines: &[&'a [u8]], number: u64) -> Option<&'a [u8]>
    ensures { option_map (λ l. l.now) result ≡ slice_get (map (λ l. l.now) lines.now) (number - 1) }
{
    lines.get(number.saturating_sub(1) as usize).copied()
}

/// Whether there is a line, and it is this one.
fn is_line(due: &[u8], line: Option<&[u8]>) -> bool
    ensures { result ≡ is_the_line due.now (option_map (λ l. l.now) line.entry) }
{
    match line {
        Some(line) => line == due,
        None => false,
    }
}

/// The answer in a line, for people.
fn told_answer(line: Option<&[u8]>) -> &[u8] {
    match line {
        Some(line) => answer_in(line),
        None => b"none",
    }
}

/// Returns what became of an expectation.
fn outcome_of<'o>(
    alloc: Global,
    all: &[Answers<'o>],
    expectation: Expectation<'o>,
) -> Result<Outcome<'o>, NoMemory>
    ensures { IfOk result (λ o. verdict_of o ≡ outcome_on (map told_answers all.now) expectation.entry) }
{
    let due = answer_line(alloc, expectation.number, expectation.answer)?;
    let line = line_numbered(answers_to(all, expectation.domain), expectation.number);
    Ok(Outcome {
        expectation,
        is_met: is_line(&due, line),
        answer: told_answer(line),
    })
}

/// Adds what became of an expectation.
fn add_outcome<'o>(outcomes: &mut Vec<Outcome<'o>>, outcome: Outcome<'o>) -> Result<(), NoMemory>
    ensures { OnOk result (map verdict_of outcomes.new.items ≡ map verdict_of outcomes.old.items ++ verdict_of outcome.entry ∷ []) }
{
    if outcomes.push(outcome).is_err() {
        return Err(NoMemory);
    }
    Ok(())
}

/// Adds what became of these expectations.
fn add_outcomes<'o>(
    alloc: Global,
    outcomes: &mut Vec<Outcome<'o>>,
    all: &[Answers<'o>],
    expectations: &[Expectation<'o>],
) -> Result<(), NoMemory>
    ensures { OnOk result (map verdict_of outcomes.new.items ≡ map verdict_of outcomes.old.items ++ map (outcome_on (map told_answers all.now)) expectations.now) }
{
    let mut rest = expectations;
    while let [expectation, after @ ..] = rest {
        let found = outcome_of(alloc, all, *expectation)?;
        add_outcome(outcomes, found)?;
        rest = after;
    }
    Ok(())
}

/// Returns what became of each of these expectations in a report, in their order.
///
/// # Errors
///
/// `NoMemory` where an allocation fails.
pub fn compare<'o>(
    alloc: Global,
    view: &View<'o>,
    expectations: &[Expectation<'o>],
) -> Result<Vec<Outcome<'o>>, NoMemory>
    ensures { IfOk result (λ v. map verdict_of v.items ≡ map (outcome_on (map answers_of view.now.domains.items)) expectations.now) }
{
    let all = all_answers(alloc, &view.domains)?;
    let mut outcomes = Vec::new(alloc);
    add_outcomes(alloc, &mut outcomes, &all, expectations)?;
    Ok(outcomes)
}

//! An actor at the station of its domain.

ghost use Rattle.std.specs.Prelude.{◌≡◌, ◌≤◌, ◌*◌, ◌^◌, ◌++◌, ◌∷◌, [], None, IfOk, OnOk, length, option_map};
ghost use Rattle.mc_base.specs.Limits.{asked_limit};
ghost use Rattle.mc_journal.specs.Entry.{plain_answer};
ghost use Rattle.board_runner.specs.Acting.{Asks, HasActed, MayStart, last_answer as answer_in};
ghost use Rattle.board_runner.specs.ActorLogs.{IsToldFor};
ghost use Rattle.board_runner.specs.Answered.{IsAnswered};
ghost use Rattle.board_runner.specs.Lines.{HasFitNumbers};
ghost use Rattle.board_runner.specs.OwnRun.{CountsOneLine, RunsNextLine};
ghost use Rattle.board_runner.specs.Runs.{MayCount};

use crate::actor::Actor;
use crate::script::run_own_line;
use crate::station::Station;
use board_model::CallLine;
use board_numbers::append;
use domain_core::{Answer, Entry, Journal};
use mc_base::{MAX_ASKED, NoMemory};
use station_ends::Polls;
use std::alloc::Global;

/// An actor at its end, with its station and the lines that it gave.
#[derive(Drop)]
pub struct Acted<'a, A> {
    pub actor: A,
    pub station: Station<'a>,
    pub lines: Vec<CallLine>,
}

/// Runs the lines of an actor at the station of its domain, until it gives no further line.
///
/// # Errors
///
/// `NoMemory`, at any time.
pub fn run_actor<'a, A: Actor>(
    alloc: Global,
    actor: A,
    station: Station<'a>,
) -> Result<Acted<'a, A>, NoMemory>
    requires { MayStart A.Actor actor station }
    ensures { IfOk result (HasActed A.Actor actor station.entry) }
{
    let Ok(mut bytes) = Vec::from_elem(alloc, 0u8, MAX_ASKED) else {
        return Err(NoMemory);
    };
    let room: &mut [u8] = &mut bytes;
    let mut actor = actor;
    let mut station = station;
    let mut lines = Vec::new(alloc);
    let mut next = first_line(&mut actor)?;
    while let Some(line) = next {
        run_given_line(&mut station, &mut lines, line, room)?;
        next = line_after(&mut actor, &station.journal)?;
    }
    Ok(Acted {
        actor,
        station,
        lines,
    })
}

/// The first line of an actor, or `None` where it gives none.
fn first_line<A: Actor>(actor: &mut A) -> Result<Option<CallLine>, NoMemory>
    requires { A.asked actor.old ≡ None }
    ensures { IfOk result (λ next. Asks A.Actor actor.old None next actor.new) }
{
    actor.next(None)
}

/// The line of an actor after the answer in the last line of its journal, or `None` where it gives none.
fn line_after<A: Actor>(actor: &mut A, journal: &Journal) -> Result<Option<CallLine>, NoMemory>
    requires { IsToldFor (A.asked actor.old) (answer_in journal.now.lines) }
    ensures { IfOk result (λ next. Asks A.Actor actor.old (answer_in journal.now.lines) next actor.new) }
{
    let told = last_answer(journal);
    actor.next(told.as_ref())
}

/// The answer in the last line of a journal, where the line has one.
fn last_answer(journal: &Journal) -> Option<Answer<'_>>
    ensures { option_map plain_answer result ≡ answer_in journal.now.lines }
{
    match journal.entry(journal.len().saturating_sub(1)) {
        Some(Entry::Called { answer, .. }) => Some(answer),
        _ => None,
    }
}

/// Runs a line at its station, and appends it to the lines that were run there.
fn run_given_line(
    station: &mut Station<'_>,
    lines: &mut Vec<CallLine>,
    line: CallLine,
    room: &mut [u8],
) -> Result<(), NoMemory>
    requires count { MayCount station.old }
    requires drops { station.old.dropped ≤ 2 ^ 32 * station.old.number }
    requires asks { HasFitNumbers asked_limit line.call }
    requires room { length room.old ≡ asked_limit }
    ensures run { OnOk result (RunsNextLine line station.old station.new) }
    ensures counts { OnOk result (CountsOneLine station.old station.new) }
    ensures answered { OnOk result (IsAnswered line.call station.old station.new) }
    ensures lines { OnOk result (lines.new.items ≡ lines.old.items ++ line ∷ []) }
{
    let mut pace: Option<Polls> = None;
    run_own_line(station, &line, &mut pace, room)?;
    append(lines, line)
}

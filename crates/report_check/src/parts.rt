//! The parts of a journal, each compared with what is due.

ghost use Rattle.std.specs.Prelude.{◌≡◌, ◌∷◌, [], ◌+◌, ◌-◌, ◌<◌, ◌≤◌, ◌^◌, ◌==◌, ℕ, true, List, None, Some, IfOk, OnOk, length, map};
ghost use Rattle.std.specs.List.{AllByRecursion, flat_map};
ghost use Rattle.board_model.specs.Journal.{Line, PlainAnswer, visit_lines, again, called, turned, turn_line, waits};
ghost use Rattle.board_model.specs.Step.{RunState};
ghost use Rattle.board_model.specs.Unjoined.{idle_turn, times as many, visit_in};
ghost use Rattle.mc_base.specs.declared.refusal.Refusal.{Refusal as Word};
ghost use Rattle.report_text.specs.StepPass.{before_last, due_call, due_lines as due_of, due_visits, idle_place, idle_visits, other_than, spin_due};
ghost use Rattle.report_text.specs.TextLines.{or_else};
ghost use Rattle.report_check.specs.Meeting.{Meets};
ghost use Rattle.report_check.specs.Doing.{HasPeers};
ghost use Rattle.report_check.specs.NamedStates.{GoesOn, plain, turn_deeds};
ghost use Rattle.report_check.specs.ToldTurns.{AreShort, IsToldTurn};
ghost use Rattle.report_replay.specs.Effects.{HasOwnAddresses};
ghost use Rattle.report_check.specs.Runs.{HasFitLines, IsAt, Makes, script_of, told_by};

use crate::due_call::place_after;
use crate::due_lines::DueLines;
use crate::named_state::NamedState;
use crate::run::{Run, Waiting, capped};
use crate::told_turn::{ToldTurn, told_idle};
use crate::turn::turn;
use mc_base::NoMemory;
use mc_journal::Entry;
use report_text::SpelledText;
use std::alloc::Global;

impl Run<'_> {
    /// The place of the first line that is not the one due, where no turn is.
    fn place(
        &self,
        times: Option<u64>,
        lines: &mut DueLines<'_, '_>,
    ) -> Result<Option<usize>, NoMemory>
        ghost r: { RunState }
        requires at { IsAt self.now r }
        requires few { length self.now.script.now < 2 ^ 32 }
        requires first { lines.old.place ≡ 0 }
        requires lines { HasFitLines self.now }
        ensures { IfOk result (λ place. place ≡ other_than (told_by times (due_call (script_of self.now) r)) lines.old.texts) }
    {
        let next = self.next_call();
        self.place_of_call(next.as_ref(), times, lines)
    }

    /// Makes a try that a line tells. Returns the place of the line that is due instead, if another is.
    pub fn tries(&mut self, lines: &mut DueLines<'_, '_>) -> Result<Option<usize>, NoMemory>
        ghost r: { RunState }
        requires at { IsAt self.old r }
        requires few { length self.old.script.now < 2 ^ 32 }
        requires first { lines.old.place ≡ 0 }
        requires lines { HasFitLines self.old }
        ensures place { IfOk result (λ place. place ≡ other_than (due_call (script_of self.old) r) lines.old.texts) }
        ensures run { (word : Word) → OnOk result (Makes (script_of self.old) r (again word ∷ []) self.old self.new) }
        ensures script { self.new.script ≡ self.old.script }
    {
        let place = self.place(None, lines)?;
        self.note_tries(1);
        Ok(place)
    }

    /// Begins the wait that a line tells.
    pub fn waits(&mut self, lines: &mut DueLines<'_, '_>) -> Result<Option<usize>, NoMemory>
        ghost r: { RunState }
        requires at { IsAt self.old r }
        requires few { length self.old.script.now < 2 ^ 32 }
        requires first { lines.old.place ≡ 0 }
        requires lines { HasFitLines self.old }
        ensures place { IfOk result (λ place. place ≡ other_than (due_call (script_of self.old) r) lines.old.texts) }
        ensures run { (k : ℕ) → OnOk result (Makes (script_of self.old) r (waits k ∷ []) self.old self.new) }
        ensures script { self.new.script ≡ self.old.script }
    {
        let place = self.place(None, lines)?;
        self.waited = Some(Waiting {
            turns: 0,
            done_before: false,
        });
        Ok(place)
    }

    /// Makes the call that a line tells.
    pub fn calls(
        &mut self,
        alloc: Global,
        lines: &mut DueLines<'_, '_>,
    ) -> Result<Option<usize>, NoMemory>
        ghost r: { RunState }
        requires at { IsAt self.old r }
        requires few { length self.old.script.now < 2 ^ 32 }
        requires first { lines.old.place ≡ 0 }
        requires some { 0 < length lines.old.texts }
        requires own { HasOwnAddresses r.state }
        requires lines { HasFitLines self.old }
        ensures place { IfOk result (λ place. place ≡ other_than (due_call (script_of self.old) r) lines.old.texts) }
        ensures run { (k : ℕ) (a : PlainAnswer) → IfOk result (λ place. place ≡ None → Makes (script_of self.old) r (called k a ∷ []) self.old self.new) }
        ensures script { IfOk result (λ place. self.new.script ≡ self.old.script) }
    {
        let next = self.next_call();
        let place = self.place_of_call(next.as_ref(), None, lines)?;
        if place.is_some() {
            return Ok(place);
        }
        if let Some(next) = next {
            self.make_call(alloc, next)?;
        }
        Ok(None)
    }

    /// Whether no line is due in a turn in which the lanes show nothing.
    fn is_idle(&mut self, alloc: Global, peers: &[u8], room: &mut [u8]) -> Result<bool, NoMemory>
        requires peers { AllByRecursion (λ n. n < 8) peers.now }
        requires known { HasPeers (plain self.old.state) peers.now }
        ensures idle { IfOk result (λ is. is ≡ (length (flat_map visit_lines (due_visits (plain self.old.state) (idle_visits peers.now))) == 0)) }
        ensures run { self.new ≡ record self.old { state = self.new.state } }
        ensures script { IfOk result (λ is. self.new.script ≡ self.old.script) }
        ensures deeds { IfOk result (λ is. is ≡ true → GoesOn self.old.state self.new.state (turn_deeds (idle_visits peers.now))) }
    {
        let none = SpelledText {
            text: &[],
            lines: &[],
        };
        let mut lines = DueLines::new(alloc, none, 0);
        let told = told_idle();
        let is = turn(&mut self.state, alloc, peers, &told, &mut lines, room)?;
        Ok(is)
    }

    /// Makes the idle turns that a line tells.
    pub fn idles(
        &mut self,
        alloc: Global,
        peers: &[u8],
        count: u64,
        room: &mut [u8],
    ) -> Result<Option<usize>, NoMemory>
        ghost r: { RunState }
        requires at { IsAt self.old r }
        requires peers { AllByRecursion (λ n. n < 8) peers.now }
        requires known { HasPeers r.state peers.now }
        requires some { 1 ≤ count }
        ensures place { IfOk result (λ place. place ≡ idle_place peers.now r) }
        ensures run { IfOk result (λ place. place ≡ None → Makes (script_of self.old) r (many count (idle_turn peers.now ∷ [])) self.old self.new) }
        ensures script { IfOk result (λ place. self.new.script ≡ self.old.script) }
    {
        if !self.is_idle(alloc, peers, room)? {
            return Ok(Some(0));
        }
        self.note_turns(count);
        Ok(None)
    }

    /// Makes the tries in a row that a line tells, each behind an idle turn.
    pub fn spins(
        &mut self,
        alloc: Global,
        peers: &[u8],
        count: u64,
        lines: &mut DueLines<'_, '_>,
        room: &mut [u8],
    ) -> Result<Option<usize>, NoMemory>
        ghost r: { RunState }
        requires at { IsAt self.old r }
        requires few { length self.old.script.now < 2 ^ 32 }
        requires peers { AllByRecursion (λ n. n < 8) peers.now }
        requires known { HasPeers r.state peers.now }
        requires some { 1 ≤ count }
        requires first { lines.old.place ≡ 0 }
        requires lines { HasFitLines self.old }
        ensures place { IfOk result (λ place. place ≡ or_else (idle_place peers.now r) (other_than (spin_due count (due_call (script_of self.old) (before_last (script_of self.old) peers.now count r))) lines.old.texts)) }
        ensures run { (word : Word) → IfOk result (λ place. place ≡ None → Makes (script_of self.old) r (many count (idle_turn peers.now ∷ again word ∷ [])) self.old self.new) }
        ensures script { IfOk result (λ place. self.new.script ≡ self.old.script) }
    {
        if !self.is_idle(alloc, peers, room)? {
            return Ok(Some(0));
        }
        self.note_turns(1);
        self.made = capped(self.made, count - 1);
        let place = self.place(Some(count), lines)?;
        self.note_turns(count - 1);
        self.note_tries(1);
        Ok(place)
    }

    /// Makes the turn that lines tell, as it is due where the lanes show what they tell.
    pub fn turns(
        &mut self,
        alloc: Global,
        peers: &[u8],
        told: &ToldTurn<'_>,
        lines: &mut DueLines<'_, '_>,
        room: &mut [u8],
    ) -> Result<Option<usize>, NoMemory>
        ghost r: { RunState }
        requires at { IsAt self.old r }
        requires peers { AllByRecursion (λ n. n < 8) peers.now }
        requires room { AreShort (length room.old) told.now }
        requires known { HasPeers r.state peers.now }
        requires first { lines.old.place ≡ 0 }
        ensures place { (ls : List Line) → IsToldTurn told.now ls → IfOk result (λ place. place ≡ other_than (turn_line ∷ due_of r (map (visit_in ls) peers.now)) lines.old.texts) }
        ensures run { (ls : List Line) → IsToldTurn told.now ls → IfOk result (λ place. place ≡ None → Makes (script_of self.old) r (turned (due_visits r.state (map (visit_in ls) peers.now)) ∷ []) self.old self.new) }
        ensures script { IfOk result (λ place. self.new.script ≡ self.old.script) }
    {
        self.note_turns(1);
        let met = meets_turn(&mut self.state, alloc, peers, told, lines, room)?;
        Ok(place_after(lines, met))
    }
}

/// Compares the next lines with those of the turn that is due, and makes it.
fn meets_turn(
    state: &mut NamedState,
    alloc: Global,
    peers: &[u8],
    told: &ToldTurn<'_>,
    lines: &mut DueLines<'_, '_>,
    room: &mut [u8],
) -> Result<bool, NoMemory>
    requires peers { AllByRecursion (λ n. n < 8) peers.now }
    requires room { AreShort (length room.old) told.now }
    ensures lines { (ls : List Line) → IsToldTurn told.now ls → HasPeers (plain state.old) peers.now → IfOk result (λ is. Meets lines.old lines.new (turn_line ∷ flat_map visit_lines (due_visits (plain state.old) (map (visit_in ls) peers.now))) is) }
    ensures state { (ls : List Line) → IsToldTurn told.now ls → HasPeers (plain state.old) peers.now → IfOk result (λ is. is ≡ true → GoesOn state.old state.new (turn_deeds (due_visits (plain state.old) (map (visit_in ls) peers.now)))) }
{
    if !lines.meets(Entry::Turn)? {
        return Ok(false);
    }
    turn(state, alloc, peers, told, lines, room)
}

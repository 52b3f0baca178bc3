//! The second pass over all journals of a report.

ghost use Rattle.std.specs.Prelude.{◌≡◌, ◌+◌, ◌-◌, ◌<◌, ◌≤◌, ◌^◌, ◌++◌, ◌∷◌, [], None, IfOk, IsOk, OnOk, length};
ghost use Rattle.std.specs.List.{AllByRecursion};
ghost use Rattle.board_model.specs.Language.{IsLawfulBoard};
ghost use Rattle.board_model.specs.Grammar.{IsLawfulDomain};
ghost use Rattle.report_text.specs.TextPass.{journals_from};
ghost use Rattle.report_check.specs.Walks.{AreReady, WalksOn, left_of};

use crate::steps::{Walked, walk};
use board_model::{DomainLine, Scenario};
use mc_base::NoMemory;
use report_replay::{FrameNames, State};
use report_text::{JournalLines, Verdict, cut};
use std::alloc::Global;

/// The journals that were walked, each with the state in which it leaves its domain and the places of the frames whose buffers the domain gave
/// back, and the text behind them, with the number of its first line.
#[derive(Drop)]
pub struct Walks<'a> {
    pub journals: Vec<JournalLines<'a>>,
    pub states: Vec<State>,
    pub given: Vec<FrameNames>,
    pub line: u32,
    pub behind: &'a [u8],
}

impl<'a> Walks<'a> {
    /// Adds a journal that was walked.
    fn add(
        &mut self,
        journal: JournalLines<'a>,
        state: State,
        given: FrameNames,
    ) -> Result<(), NoMemory>
        ensures journals { OnOk result (self.new.journals.items ≡ self.old.journals.items ++ journal.entry ∷ []) }
        ensures states { OnOk result (self.new.states.items ≡ self.old.states.items ++ state ∷ []) }
        ensures given { OnOk result (self.new.given.items ≡ self.old.given.items ++ given ∷ []) }
        ensures line { self.new.line ≡ self.old.line }
        ensures behind { self.new.behind ≡ self.old.behind }
    {
        if self.journals.push(journal).is_err() {
            return Err(NoMemory);
        }
        if self.states.push(state).is_err() {
            return Err(NoMemory);
        }
        if self.given.push(given).is_err() {
            return Err(NoMemory);
        }
        Ok(())
    }

    /// Walks the journals of these domains. Returns the verdict on the first that is wrong.
    ///
    /// # Errors
    ///
    /// `NoMemory` where an allocation fails.
    pub fn walk_on(
        &mut self,
        alloc: Global,
        scenario: &Scenario,
        lines: &[DomainLine],
        room: &mut [u8],
    ) -> Result<Option<Verdict>, NoMemory>
        requires lawful { IsLawfulBoard scenario.now }
        requires domains { AllByRecursion IsLawfulDomain lines.now }
        requires text { IsOk (journals_from scenario.now lines.now (left_of self.old)) }
        requires ready { AreReady (length room.old) (2 ^ 32 - 1) self.old }
        ensures walks { IfOk result (λ v. WalksOn scenario.now lines.now self.old self.new v) }
        ensures ready { IfOk result (λ v. v ≡ None → AreReady (length room.old) (2 ^ 32 - 1) self.new) }
    {
        let [line, others @ ..] = lines else {
            return Ok(None);
        };
        let Some((_, text)) = cut(b'\n', self.behind) else {
            return Ok(None);
        };
        let journal = JournalLines {
            domain: line.domain,
            number: self.line + 1,
            text,
        };
        match walk(alloc, scenario, *line, journal, room)? {
            Walked::Right {
                state,
                given,
                line,
                behind,
            } => {
                self.add(journal, state, given)?;
                self.line = line;
                self.behind = behind;
                self.walk_on(alloc, scenario, others, room)
            }
            Walked::Wrong { line, reason } => Ok(Some(Verdict::Wrong { line, reason })),
        }
    }
}

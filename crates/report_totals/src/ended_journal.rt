//! The domains of a report at the ends of their journals.

ghost use Rattle.std.specs.Prelude.{◌≡◌, IfOk, length};
ghost use Rattle.report_totals.specs.EndedJournals.{AreEnded};

use board_model::Scenario;
use board_numbers::EndedDomain;
use mc_base::NoMemory;
use report_replay::State;
use report_text::JournalLines;
use std::alloc::Global;

/// A domain of a report at its journal's end: the journal, and the state in which it leaves the domain.
#[derive(Clone, Copy)]
pub struct EndedJournal<'a, 't> {
    pub scenario: &'a Scenario,
    pub journal: JournalLines<'t>,
    pub state: &'a State,
}

impl EndedDomain for EndedJournal<'_, '_> {
    ghost use Rattle.report_totals.specs.EndedJournals.{ended_by};

    ghost ended = { ended_by };

    fn number(&self) -> u8 {
        self.journal.domain
    }

    fn channels_given(&self) -> u32 {
        self.state.channels_given()
    }

    fn queued(&self, owner: u8, number: u32) -> u64 {
        self.state.queued(owner, number)
    }
}

/// Puts each journal with the state at its place.
///
/// # Errors
///
/// `NoMemory` where an allocation fails.
pub fn ended_journals<'a, 't>(
    alloc: Global,
    scenario: &'a Scenario,
    journals: &[JournalLines<'t>],
    states: &'a [State],
) -> Result<Vec<EndedJournal<'a, 't>>, NoMemory>
    requires { length journals.now ≡ length states.now }
    ensures { IfOk result (λ v. AreEnded scenario.now journals.now states.now v.items) }
{
    let [journal, others @ ..] = journals else {
        return Ok(Vec::new(alloc));
    };
    let [state, other_states @ ..] = states else {
        return Ok(Vec::new(alloc));
    };
    let mut ended = ended_journals(alloc, scenario, others, other_states)?;
    let first = EndedJournal {
        scenario,
        journal: *journal,
        state,
    };
    if ended.insert(0, first).is_err() {
        return Err(NoMemory);
    }
    Ok(ended)
}

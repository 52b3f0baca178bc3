//! How many buffers the domains of a report give back.

ghost use Rattle.std.specs.Prelude.{◌≡◌, ◌-◌, ◌<◌, ℕ, [], List, slice_index};
ghost use Rattle.std.specs.List.{AllByRecursion};
ghost use Rattle.board_model.specs.Language.{IsLawfulBoard};
ghost use Rattle.board_model.specs.State.{held_from};
ghost use Rattle.board_model.specs.declared.scenario.Scenario.{Scenario};
ghost use Rattle.report_text.specs.JournalLanes.{HasLanes, journals_of};
ghost use Rattle.report_text.specs.JournalRead.{JournalText};
ghost use Rattle.report_text.specs.LaneLeft.{AreTold, GiveBack};
ghost use Rattle.report_totals.specs.EndedJournals.{AreLeftBehind};
ghost use Rattle.report_check.specs.RightSteps.{HaveRightSteps};

use report_replay::State;
use report_text::JournalLanes;

/// How many buffers a domain gives back to each peer: those of the frames that it takes, but for the ones that it holds at the end.
fn given_by(takes: &[u64; 8], state: &State) -> [u64; 8]
    ensures { (p : ℕ) → p < 8 → slice_index result p ≡ slice_index takes.now p - held_from p state.now }
{
    let mut given = [0; 8];
    for peer in 0..8 {
        given[peer] = takes[peer].saturating_sub(state.held_from(peer as u8));
    }
    given
}

/// Notes how many buffers the domains of these journals give back to each other in their whole journals, by the numbers of the domain that
/// gives back and of the other. Each state is the one in which a journal leaves its domain.
pub fn note_given(journals: &[JournalLanes<'_>], states: &[State], given: &mut [[u64; 8]; 8])
    requires domains { AllByRecursion (λ c. c.domain < 8) (journals_of journals.now) }
    requires lanes { AllByRecursion HasLanes journals.now }
    ensures { (s : Scenario) (js : List JournalText) → IsLawfulBoard s → HaveRightSteps s js → AreTold js (journals_of journals.now) → AreLeftBehind s js states.now → GiveBack s [] given.old → GiveBack s js given.new }
{
    let [first, others @ ..] = journals else {
        return;
    };
    let [state, other_states @ ..] = states else {
        return;
    };
    note_given(others, other_states, given);
    given[usize::from(first.journal.domain)] = given_by(&first.takes, state);
}

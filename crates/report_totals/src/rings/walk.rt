//! The journals of a report read once, with the buffers of all lanes.

ghost use Rattle.std.specs.Prelude.{◌≡◌, ◌+◌, ◌<◌, ◌≤◌, ◌^◌, ◌∷◌, List, length, None, Some, IfErr, IfOk, IfSome};
ghost use Rattle.std.specs.List.{AllByRecursion};
ghost use Rattle.board_model.specs.Language.{IsLawfulBoard};
ghost use Rattle.report_text.specs.JournalRead.{JournalText};
ghost use Rattle.report_text.specs.LaneLeft.{AreTold, IsTold};
ghost use Rattle.report_text.specs.LaneLines.{lanes_told};
ghost use Rattle.report_text.specs.Texts.{longest_line as length_of_longest};
ghost use Rattle.report_totals.specs.LaneWalks.{HoldsOfOne, HoldsOfSome, LeadAlong, TellsPlace};
ghost use Rattle.report_text.specs.RingPass.{wrong_back, wrong_back_among};
ghost use Rattle.report_totals.specs.SenderLanes.{AreJournals, AreWalked, IsWalked};

use crate::rings::lanes::{DomainLanes, note_entry, open_lanes};
use board_model::Scenario;
use mc_base::NoMemory;
use report_replay::FrameNames;
use report_text::{JournalLines, longest_line, next_entry};
use ring_numbers::SenderNumbers;
use std::alloc::Global;

/// Reads a domain's journal, with the buffers of its lanes. Returns the place of the first line, counted from 0, by which a buffer comes back before
/// its frame was put.
fn back_place(
    text: &[u8],
    lanes: &mut [SenderNumbers],
    room: &mut [u8],
) -> Result<Option<usize>, NoMemory>
    requires many { length lanes.old ≡ 8 }
    requires fits { length_of_longest text.now ≤ length room.old }
    requires few { length text.now < 2 ^ 32 }
    ensures within { IfOk result (λ place. IfSome place (λ n. n < length text.now)) }
    ensures place { IfOk result (TellsPlace (lanes_told text.now) lanes.old) }
    ensures lanes { IfOk result (λ place. place ≡ None → LeadAlong (lanes_told text.now) lanes.old lanes.new) }
{
    let mut place = 0;
    let mut rest = text;
    while let Some((entry, after)) = next_entry(rest, room) {
        if !note_entry(lanes, entry)? {
            return Ok(Some(place));
        }
        place += 1;
        rest = after;
    }
    Ok(None)
}

/// Reads a journal, one of these. Returns the buffers of its domain's lanes behind it, or the number of its first line by which a buffer comes back
/// before its frame was put.
fn walk_journal(
    alloc: Global,
    scenario: &Scenario,
    journals: &[JournalLines<'_>],
    given: &[FrameNames],
    journal: JournalLines<'_>,
) -> Result<Result<DomainLanes, u32>, NoMemory>
    requires lawful { IsLawfulBoard scenario.now }
    requires domain { journal.domain < 8 }
    requires few { journal.number + length journal.text.now < 2 ^ 32 }
    ensures wrong { IfOk result (λ r. IfErr r (λ line. HoldsOfOne scenario.now journals.now given.now journal.entry (λ js t. wrong_back scenario.now js t ≡ Some line))) }
    ensures none { IfOk result (λ r. IfOk r (λ _. HoldsOfOne scenario.now journals.now given.now journal.entry (λ js t. wrong_back scenario.now js t ≡ None))) }
    ensures walked { IfOk result (λ r. IfOk r (λ w. (js : List JournalText) (t : JournalText) → AreJournals scenario.now js journals.now given.now → IsTold t journal.entry → IsWalked scenario.now js t w)) }
{
    let mut lanes = open_lanes(alloc, scenario, journals, given, journal.domain)?;
    let Ok(mut room) = vec![in alloc; 0u8; longest_line(journal.text)] else {
        return Err(NoMemory);
    };
    match back_place(journal.text, &mut lanes, &mut room)? {
        Some(place) => Ok(Err(journal.number + place as u32)),
        None => Ok(Ok(DomainLanes {
            domain: journal.domain,
            lanes,
        })),
    }
}

/// Reads the journals of these domains, each once. Returns the buffers of their lanes behind their journals, or the number of the first line, in
/// the first journal that has one, by which a buffer comes back before its frame was put.
pub fn walk_journals(
    alloc: Global,
    scenario: &Scenario,
    journals: &[JournalLines<'_>],
    given: &[FrameNames],
    rest: &[JournalLines<'_>],
) -> Result<Result<Vec<DomainLanes>, u32>, NoMemory>
    requires lawful { IsLawfulBoard scenario.now }
    requires domains { AllByRecursion (λ c. c.domain < 8) rest.now }
    requires few { AllByRecursion (λ c. c.number + length c.text.now < 2 ^ 32) rest.now }
    ensures wrong { IfOk result (λ r. IfErr r (λ line. HoldsOfSome scenario.now journals.now given.now rest.now (λ js ts. wrong_back_among scenario.now js ts ≡ Some line))) }
    ensures none { IfOk result (λ r. IfOk r (λ _. HoldsOfSome scenario.now journals.now given.now rest.now (λ js ts. wrong_back_among scenario.now js ts ≡ None))) }
    ensures walked { IfOk result (λ r. IfOk r (λ v. (js ts : List JournalText) → AreJournals scenario.now js journals.now given.now → AreTold ts rest.now → AreWalked scenario.now js ts v.items)) }
{
    let [first, others @ ..] = rest else {
        return Ok(Ok(Vec::new(alloc)));
    };
    let lanes = match walk_journal(alloc, scenario, journals, given, *first)? {
        Ok(lanes) => lanes,
        Err(line) => return Ok(Err(line)),
    };
    match walk_journals(alloc, scenario, journals, given, others)? {
        Ok(walked) => Ok(Ok(before_others(walked, lanes)?)),
        Err(line) => Ok(Err(line)),
    }
}

/// Puts a domain's lanes before those of others.
fn before_others(
    mut walked: Vec<DomainLanes>,
    lanes: DomainLanes,
) -> Result<Vec<DomainLanes>, NoMemory>
    ensures { IfOk result (λ v. v.items ≡ lanes ∷ walked.items) }
{
    if walked.insert(0, lanes).is_err() {
        return Err(NoMemory);
    }
    Ok(walked)
}

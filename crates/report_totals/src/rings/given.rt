//! Which buffers the domains of a report give back.

ghost use Rattle.std.specs.Prelude.{◌≡◌, ◌<◌, List, map};
ghost use Rattle.board_model.specs.declared.scenario.Scenario.{Scenario};
ghost use Rattle.ring_numbers.specs.BoardRings.{places_of};
ghost use Rattle.report_text.specs.JournalRead.{JournalText};
ghost use Rattle.report_text.specs.LinkPass.{journal_told};
ghost use Rattle.report_totals.specs.SenderLanes.{AreJournals};

use report_replay::FrameNames;
use report_text::JournalLines;

/// The places of the frames of a domain whose buffers another gives back. A domain that is not there gives none back.
pub fn given_back<'a>(
    journals: &[JournalLines<'_>],
    given: &'a [FrameNames],
    receiver: u8,
    sender: u8,
) -> &'a [u32]
    ensures { (s : Scenario) (js : List JournalText) → AreJournals s js journals.now given.now → sender < 8 → result.now ≡ places_of s (map (journal_told s) js) receiver sender }
{
    let [journal, others @ ..] = journals else {
        return &[];
    };
    let [first, rest @ ..] = given else {
        return &[];
    };
    if journal.domain == receiver {
        return first.from_peer(sender);
    }
    given_back(others, rest, receiver, sender)
}

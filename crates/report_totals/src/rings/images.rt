//! The images of the rings that the journals of a report come to.

ghost use Rattle.std.specs.Prelude.{◌≡◌, ◌<◌, ◌∷◌, [], ℕ, List, IfOk, length};
ghost use Rattle.board_model.specs.declared.scenario.Scenario.{Scenario};
ghost use Rattle.report_text.specs.JournalRead.{JournalText};
ghost use Rattle.report_text.specs.LaneLines.{LaneLine};
ghost use Rattle.report_totals.specs.ReadJournals.{Reads, ReadsLane, ReadsLinks, image_told, ring_told};
ghost use Rattle.report_totals.specs.SenderLanes.{AreAfter, AreWalked, numbers_after, numbers_told};

use crate::rings::given::given_back;
use crate::rings::lanes::DomainLanes;
use board_model::LinkLine;
use mc_base::NoMemory;
use report_replay::FrameNames;
use report_text::JournalLines;
use ring_numbers::{SenderNumbers, image_left};
use std::alloc::Global;

/// The journals of a report that were read: with the places of the frames whose buffers each domain gives back, and the buffers of the lanes from
/// each domain at its journal's end.
#[derive(Clone, Copy)]
pub struct ReadJournals<'a> {
    pub journals: &'a [JournalLines<'a>],
    pub given: &'a [FrameNames],
    pub lanes: &'a [DomainLanes],
}

/// The buffers in which a domain put frames to a peer.
fn used_at(lanes: &[SenderNumbers], peer: u8) -> &[(u16, u32)]
    ensures { (s : Scenario) (js : List JournalText) (domain : ℕ) (lines : List LaneLine) → AreAfter s js domain lines lanes.now → peer < 8 → result.now ≡ (numbers_after s js domain lines peer).used }
{
    match lanes.get(usize::from(peer)) {
        Some(numbers) => numbers.used(),
        None => &[],
    }
}

/// The buffers in which a domain put frames to another, each with its frame's length. A domain that is not there put none.
fn used_by(walked: &[DomainLanes], sender: u8, receiver: u8) -> &[(u16, u32)]
    ensures { (s : Scenario) (js ts : List JournalText) → AreWalked s js ts walked.now → receiver < 8 → result.now ≡ (numbers_told s js ts sender receiver).used }
{
    let [first, others @ ..] = walked else {
        return &[];
    };
    if first.domain == sender {
        return used_at(&first.lanes, receiver);
    }
    used_by(others, sender, receiver)
}

/// The image that the ring of a lane is left with, by its queue.
fn image_of_lane(
    alloc: Global,
    read: ReadJournals<'_>,
    size: u32,
    queue: u8,
    sender: u8,
    receiver: u8,
) -> Result<Vec<u8>, NoMemory>
    requires queue { queue < 2 }
    requires read { ReadsLane read size sender receiver }
    ensures image { IfOk result (λ v. (s : Scenario) (js : List JournalText) → Reads s js read.entry → v.items ≡ ring_told s js queue sender receiver size) }
    ensures some { IfOk result (λ v. 0 < length v.items) }
{
    let used = used_by(read.lanes, sender, receiver);
    let given = given_back(read.journals, read.given, receiver, sender);
    image_left(alloc, size as u16, queue, used, given)
}

/// The image that a queue of a link is left with.
pub fn image_of_queue(
    alloc: Global,
    read: ReadJournals<'_>,
    link: &LinkLine,
    queue: u8,
) -> Result<Vec<u8>, NoMemory>
    requires { ReadsLinks (link.now ∷ []) read }
    ensures image { IfOk result (λ v. (s : Scenario) (js : List JournalText) → Reads s js read.entry → v.items ≡ image_told s js link.now queue) }
    ensures some { IfOk result (λ v. 0 < length v.items) }
{
    if queue == 0 {
        image_of_lane(alloc, read, link.size, 0, link.device, link.driver)
    } else {
        image_of_lane(alloc, read, link.size, 1, link.driver, link.device)
    }
}

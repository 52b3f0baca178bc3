//! The buffers of the lanes from a domain, while its journal is read.

ghost use Rattle.std.specs.Prelude.{◌≡◌, ◌<◌, [], List, length, true, IfOk};
ghost use Rattle.board_model.specs.Language.{IsLawfulBoard};
ghost use Rattle.mc_journal.specs.Entry.{line_of_entry};
ghost use Rattle.report_text.specs.JournalRead.{JournalText};
ghost use Rattle.report_text.specs.LaneLines.{lane_of};
ghost use Rattle.report_totals.specs.LaneWalks.{LeadsOn, TellsFit};
ghost use Rattle.report_totals.specs.SenderLanes.{AreAfter, AreJournals, HasShortFrame, size_to};

use crate::rings::given::given_back;
use board_model::Scenario;
use board_numbers::{append, buffers_between};
use mc_base::NoMemory;
use mc_journal::Entry;
use report_replay::FrameNames;
use report_text::JournalLines;
use ring_numbers::SenderNumbers;
use std::alloc::Global;

/// The buffers of the lanes from a domain, by the numbers of the domains that they lead to.
#[derive(Debug, Drop)]
pub struct DomainLanes {
    pub domain: u8,
    pub lanes: Vec<SenderNumbers>,
}

/// How many buffers the lane from one domain to another has, and 0 where there is no such lane.
fn size_between(scenario: &Scenario, sender: u8, receiver: u8) -> u16
    requires { IsLawfulBoard scenario.now }
    ensures { result ≡ size_to scenario.now sender receiver }
{
    match buffers_between(scenario, sender, receiver) {
        Some(size) => size as u16,
        None => 0,
    }
}

/// The lanes from a domain before its journal is read: all buffers are free.
pub fn open_lanes(
    alloc: Global,
    scenario: &Scenario,
    journals: &[JournalLines<'_>],
    given: &[FrameNames],
    sender: u8,
) -> Result<Vec<SenderNumbers>, NoMemory>
    requires lawful { IsLawfulBoard scenario.now }
    requires sender { sender < 8 }
    ensures many { IfOk result (λ v. length v.items ≡ 8) }
    ensures lanes { IfOk result (λ v. (js : List JournalText) → AreJournals scenario.now js journals.now given.now → AreAfter scenario.now js sender [] v.items) }
{
    let mut lanes = Vec::new(alloc);
    for receiver in 0..8 {
        let size = size_between(scenario, sender, receiver);
        let places = given_back(journals, given, receiver, sender);
        append(&mut lanes, SenderNumbers::new(alloc, size, places)?)?;
    }
    Ok(lanes)
}

/// Notes what an entry of a domain does at its lanes. Returns whether the buffers that come back by it are those of frames that were put.
pub fn note_entry(lanes: &mut [SenderNumbers], entry: Entry<'_>) -> Result<bool, NoMemory>
    requires many { length lanes.old ≡ 8 }
    requires short { HasShortFrame (lane_of (line_of_entry entry)) }
    ensures many { length lanes.new ≡ 8 }
    ensures put { IfOk result (TellsFit (lane_of (line_of_entry entry.entry)) lanes.old) }
    ensures lanes { IfOk result (λ is. is ≡ true → LeadsOn (lane_of (line_of_entry entry.entry)) lanes.old lanes.new) }
{
    match entry {
        Entry::Put { peer, frame } if peer < 8 => {
            lanes[usize::from(peer)].put(frame.len() as u32)?;
            Ok(true)
        }
        Entry::Back { peer, count } if peer < 8 => lanes[usize::from(peer)].come_back(count),
        _ => Ok(true),
    }
}

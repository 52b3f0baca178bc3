//! The ids of the requests that were given for labels, and of the packets that were lent under them.

ghost use Rattle.std.specs.Prelude.{◌≡◌, ◌≤◌, Some, IfOk, OnOk, length, map, option_map};
ghost use Rattle.board_model.specs.Scenario.{label_in};
ghost use Rattle.mc_journal.specs.Entry.{plain_answer};
ghost use Rattle.board_runner.specs.Held.{id_or_none, packet_or_none, TellsId};
ghost use Rattle.board_runner.specs.LendingLabels.{label_told, lending_label_by};
ghost use Rattle.board_runner.specs.Waits.{ids_named};

use arrayvec::ArrayVec;
use board_model::{Call, CallLine, Label, LabelGroup};
use domain_core::Answer;
use mc_base::{NoMemory, PacketId, RequestId};
use std::collections::HashMap;

/// The id of no request: no key is so great.
const NO_ID: RequestId = RequestId {
    key: u32::MAX,
    serial: 0,
};

/// The id of no packet: no peer has this number, and so many packets are never lent.
const NO_PACKET: PacketId = PacketId {
    peer: u8::MAX,
    buffer: 0,
    serial: u64::MAX,
};

/// The id that is held for a label. Where its call was refused there is none, and then it is an id that names no request.
pub fn id_of(ids: &HashMap<Label, RequestId>, label: &Label) -> RequestId
    ensures { result ≡ id_or_none ids.now label.now.items }
{
    match ids.get(label) {
        Some(id) => *id,
        None => NO_ID,
    }
}

/// The ids of the requests that a wait names: of one, or of several.
pub fn ids_of(ids: &HashMap<Label, RequestId>, call: &Call) -> ArrayVec<RequestId, 8>
    ensures { result.items ≡ ids_named ids.now call.now }
{
    match call {
        Call::Wait { label, .. } => {
            let mut one = ArrayVec::new();
            one.push(id_of(ids, label));
            one
        }
        Call::WaitAny { labels, .. } => ids_for(ids, labels.as_slice()),
        _ => ArrayVec::new(),
    }
}

/// The ids that are held for labels, in their order.
fn ids_for(ids: &HashMap<Label, RequestId>, labels: &[Label]) -> ArrayVec<RequestId, 8>
    requires { length labels.now ≤ 8 }
    ensures { result.items ≡ map (λ l. id_or_none ids.now l.items) labels.now }
{
    let mut named = ArrayVec::new();
    for label in labels {
        named.push(id_of(ids, label));
    }
    named
}

/// The id of the packet that was lent under a label. Where none was, it is an id that names no packet.
pub fn packet_of(packets: &HashMap<Label, PacketId>, label: &Label) -> PacketId
    ensures { result ≡ packet_or_none packets.now label.now.items }
{
    match packets.get(label) {
        Some(id) => *id,
        None => NO_PACKET,
    }
}

/// The label that a packet is lent under by a line that was answered so: its own, or that of the request which it tests, or which its
/// wait ended with.
pub fn lending_label_of<'a>(line: &'a CallLine, answer: Answer<'_>) -> Option<&'a Label>
    ensures { option_map (λ l. l.now.items) result ≡ lending_label_by line.now.call (plain_answer answer.entry) (label_in line.now) }
{
    match (&line.call, answer) {
        (Call::Test { label } | Call::Wait { label, .. }, _) => Some(label),
        (Call::WaitAny { labels, .. }, Answer::Done { place, .. }) => label_at(labels, place),
        (Call::WaitAny { .. }, _) => None,
        _ => line.label.as_ref(),
    }
}

/// The label at a place of a list, counted from 1.
fn label_at(labels: &LabelGroup, place: Option<u8>) -> Option<&Label>
    ensures { option_map (λ l. l.now.items) result ≡ label_told (map (λ l. l.items) labels.now.items) place }
{
    let place = usize::from(place?).checked_sub(1)?;
    labels.as_slice().get(place)
}

/// Holds the id that was given for a label. One that is held for the label already stays.
pub fn hold<I: Drop>(
    ids: &mut HashMap<Label, I>,
    label: Option<&Label>,
    given: Option<I>,
) -> Result<(), NoMemory>
    ensures { OnOk result (TellsId (option_map (λ l. l.now.items) label.entry) given ids.old ids.new) }
{
    let (Some(label), Some(id)) = (label, given) else {
        return Ok(());
    };
    hold_for(ids, label, id)
}

fn hold_for<I: Drop>(ids: &mut HashMap<Label, I>, label: &Label, id: I) -> Result<(), NoMemory>
    ensures { OnOk result (TellsId (Some label.now.items) (Some id) ids.old ids.new) }
{
    if ids.contains_key(label) {
        return Ok(());
    }
    let key = copy_of(label)?;
    match ids.insert(key, id) {
        Ok(_) => Ok(()),
        Err(_) => Err(NoMemory),
    }
}

fn copy_of(label: &Label) -> Result<Label, NoMemory>
    ensures { IfOk result (λ copy. copy.items ≡ label.now.items) }
{
    match label.clone() {
        Ok(copy) => Ok(copy),
        Err(_) => Err(NoMemory),
    }
}

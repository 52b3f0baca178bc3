//! Finished rings beside the journals of the domains that ran over them.

use domain_core::{Entry, Journal};
use split_ring::Closed;

/// How many turns a journal holds, how many frames its looks showed, and how many buffers came back.
fn counts(journal: &Journal) -> (u64, u64, u64) {
    let (mut turns, mut seen, mut back) = (0u64, 0u64, 0u64);
    for i in 0..journal.len() {
        match journal.entry(i) {
            Some(Entry::Turn) => turns = turns.saturating_add(1),
            Some(Entry::Idle { turns: idle }) => turns = turns.saturating_add(idle),
            Some(Entry::See { count, .. }) => seen = seen.saturating_add(u64::from(count)),
            Some(Entry::Back { count, .. }) => back = back.saturating_add(u64::from(count)),
            _ => {}
        }
    }
    (turns, seen, back)
}

/// How many buffers are in the four lists of a finished ring.
fn buffers_in(closed: &Closed) -> usize {
    let offered = closed
        .offered_left()
        .len()
        .saturating_add(closed.driver_held().len());
    let returned = closed
        .returned_left()
        .len()
        .saturating_add(closed.device_held().len());
    offered.saturating_add(returned)
}

/// Whether a ring has its two buffers, and its driver and its device looked so often and saw so many entries.
fn is_finished(closed: &Closed, driver: (u64, u64), device: (u64, u64)) -> bool {
    buffers_in(closed) == 2
        && (closed.driver_looks(), closed.driver_saw()) == driver
        && (closed.device_looks(), closed.device_saw()) == device
}

/// Whether the two rings of a link are as the journals of its driver and its device say, whose frames and buffers all go over it. In each
/// turn a domain looks once at each ring.
pub fn are_as_noted(rings: &[Closed], journals: &[Journal]) -> Option<bool> {
    let (driver_turns, driver_saw, driver_back) = counts(journals.first()?);
    let (device_turns, device_saw, device_back) = counts(journals.get(1)?);
    let queue0 = is_finished(
        rings.first()?,
        (driver_turns, driver_saw),
        (device_turns, device_back),
    );
    let queue1 = is_finished(
        rings.get(1)?,
        (driver_turns, driver_back),
        (device_turns, device_saw),
    );
    Some(queue0 && queue1 && rings.len() == 2)
}

//! What events need of others: a frame that is taken was put, and a buffer that comes back was given back.

ghost use Rattle.std.specs.Prelude.{◌≡◌, ◌<◌, IfSome, None, length};
ghost use Rattle.event_order.specs.Causes.{IsBacked, IsOverdrawn, back_from, gained as gained_by, given_to, lost as lost_by, put_to, taken_from};

use crate::event::{Event, What};

/// A way in which events depend on others: frames go from a sender to a receiver, and their buffers come back.
#[derive(Clone, Copy)]
pub enum Cause {
    Frames,
    Buffers,
}

/// A lane, by the domains at its ends.
#[derive(Clone, Copy)]
pub struct Lane {
    pub sender: u8,
    pub receiver: u8,
}

fn frames_put(receiver: u8, what: What) -> u32
    ensures { result ≡ put_to receiver what }
{
    match what {
        What::Put { peer } => if peer == receiver { 1 } else { 0 },
        _ => 0,
    }
}

fn frames_taken(sender: u8, what: What) -> u32
    ensures { result ≡ taken_from sender what }
{
    match what {
        What::Take { peer } => if peer == sender { 1 } else { 0 },
        _ => 0,
    }
}

fn buffers_given(sender: u8, what: What) -> u32
    ensures { result ≡ given_to sender what }
{
    match what {
        What::Give { peer, count } => if peer == sender { count } else { 0 },
        _ => 0,
    }
}

fn buffers_back(receiver: u8, what: What) -> u32
    ensures { result ≡ back_from receiver what }
{
    match what {
        What::Back { peer, count } => if peer == receiver { count } else { 0 },
        _ => 0,
    }
}

/// What an event adds to a lane: a frame that was put, or buffers that were given back.
pub fn gained(cause: Cause, lane: Lane, event: &Event) -> u32
    ensures { result ≡ gained_by cause lane event.now }
{
    match cause {
        Cause::Frames => if event.domain == lane.sender {
            frames_put(lane.receiver, event.what)
        } else {
            0
        },
        Cause::Buffers => if event.domain == lane.receiver {
            buffers_given(lane.sender, event.what)
        } else {
            0
        },
    }
}

/// What an event takes off a lane: a frame that was taken, or buffers that came back.
pub fn lost(cause: Cause, lane: Lane, event: &Event) -> u32
    ensures { result ≡ lost_by cause lane event.now }
{
    match cause {
        Cause::Frames => if event.domain == lane.receiver {
            frames_taken(lane.sender, event.what)
        } else {
            0
        },
        Cause::Buffers => if event.domain == lane.sender {
            buffers_back(lane.receiver, event.what)
        } else {
            0
        },
    }
}

/// The place of the first event that takes something off a lane before it was added.
pub fn first_unbacked(cause: Cause, lane: Lane, events: &[Event]) -> Option<usize>
    ensures none { result ≡ None → IsBacked cause lane events.now }
    ensures some { IfSome result (λ p. (p < length events.now) × IsOverdrawn cause lane events.now p) }
{
    let mut left: u128 = 0;
    let mut place = 0;
    for event in events {
        let more = left + u128::from(gained(cause, lane, event));
        let Some(less) = more.checked_sub(u128::from(lost(cause, lane, event))) else {
            return Some(place);
        };
        left = less;
        place += 1;
    }
    None
}

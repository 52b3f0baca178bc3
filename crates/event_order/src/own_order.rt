//! Whether the events of a domain stand in their own order, and the calls of all in that of the scenario.

ghost use Rattle.std.specs.Prelude.{◌≡◌, ◌<◌, ◌+◌, IfSome, None, false, length, take, true};
ghost use Rattle.event_order.specs.OwnOrder.{IsOutOfTurn, in_turn, rise};

use crate::event::{Event, What};

/// The place of the first event of a domain whose number does not rise.
pub fn first_falling(domain: u8, events: &[Event]) -> Option<usize>
    ensures none { result ≡ None → rise domain 0 events.now ≡ true }
    ensures some { IfSome result (λ p. (p < length events.now) × (rise domain 0 (take p events.now) ≡ true) × (rise domain 0 (take (p + 1) events.now) ≡ false)) }
{
    let mut least: u64 = 0;
    let mut place = 0;
    for event in events {
        if event.domain == domain {
            if u64::from(event.number) < least {
                return Some(place);
            }
            least = u64::from(event.number) + 1;
        }
        place += 1;
    }
    None
}

/// The place of the first event that answers another call than that of the scenario's next line.
pub fn first_out_of_turn(events: &[Event]) -> Option<usize>
    ensures none { result ≡ None → in_turn 0 events.now ≡ true }
    ensures some { IfSome result (λ p. (p < length events.now) × IsOutOfTurn events.now p) }
{
    let mut next: u64 = 0;
    let mut place = 0;
    for event in events {
        if let What::Answer { call, .. } = event.what {
            if u64::from(call) != next {
                return Some(place);
            }
            next += 1;
        }
        place += 1;
    }
    None
}

//! What a domain that receives packets keeps.

ghost use Rattle.std.specs.Prelude.{◌≡◌, ◌≤◌, ◌+◌, None, true};
ghost use Rattle.hop_relay.specs.declared.step.Step.TheVariants.{Opening as opening_step};
ghost use Rattle.hop_relay.specs.Steps.{are_of_opening, least_receives, most_receives, packet_limit, receives_at, step_for};

use crate::progress::Progress;
use crate::step::Step;
use board_model::CallLine;

/// A domain that receives packets: its numbers, and how far it has come. It keeps no packet.
#[derive(Drop)]
pub struct Taker {
    pub domain: u8,
    /// The most packets that it receives.
    pub most: u32,
    /// How many receives it asked for.
    pub receives: u32,
    pub progress: Progress,
    ghost few: { most ≤ packet_limit },
    ghost some: { least_receives progress.step ≤ receives },
    ghost within: { receives ≤ most_receives most progress.step },
}

impl Taker {
    /// A domain before its first line.
    pub fn new(domain: u8, most: u32, opening: Vec<CallLine>) -> Taker
        requires few { most ≤ packet_limit }
        requires plain { are_of_opening opening.items ≡ true }
        ensures domain { result.domain ≡ domain }
        ensures most { result.most ≡ most }
        ensures receives { result.receives ≡ 0 }
        ensures step { result.progress.step ≡ opening_step }
        ensures opening { result.progress.opening ≡ opening.items }
        ensures asked { result.progress.asked.value ≡ None }
    {
        Taker {
            domain,
            most,
            receives: 0,
            progress: Progress::new(opening),
        }
    }

    /// Goes on to a line, or ends where there is none.
    pub fn turn_to(&mut self, line: &Option<CallLine>)
        requires some { least_receives (step_for line.now) ≤ self.old.receives + receives_at (step_for line.now) }
        requires within { self.old.receives + receives_at (step_for line.now) ≤ most_receives self.old.most (step_for line.now) }
        ensures domain { self.new.domain ≡ self.old.domain }
        ensures most { self.new.most ≡ self.old.most }
        ensures receives { self.new.receives ≡ self.old.receives + receives_at (step_for line.now) }
        ensures step { self.new.progress.step ≡ step_for line.now }
        ensures opening { self.new.progress.opening ≡ self.old.progress.opening }
        ensures asked { self.new.progress.asked.value ≡ line.now }
    {
        self.receives += receives_of(Step::of(line));
        self.progress.turn_to(line);
    }
}

/// One where a packet is received.
fn receives_of(step: Step) -> u32
    ensures { result ≡ receives_at step }
{
    match step {
        Step::Receiving => 1,
        _ => 0,
    }
}

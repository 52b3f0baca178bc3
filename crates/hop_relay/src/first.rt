//! The first domain, which sends packets.

ghost use Rattle.std.specs.Prelude.{◌≡◌, ◌≤◌, [], IfOk, IfSome, None, Some, drop, length};
ghost use Rattle.std.specs.List.{All};
ghost use Rattle.mc_base.specs.Limits.{item_size};
ghost use Rattle.hop_relay.specs.declared.role.Role.TheVariants.{First as first_of};
ghost use Rattle.hop_relay.specs.declared.step.Step.TheVariants.{Opening as opening_step};
ghost use Rattle.hop_relay.specs.NextLines.{behind_first, contents, next_of_first, opening_then};
ghost use Rattle.hop_relay.specs.Roles.{opening as opening_of};
ghost use Rattle.hop_relay.specs.Steps.{FitsSend, heard, next_of, sends_at, step_for};

use crate::lines::{close_send, send};
use crate::opening::opening_of_first;
use crate::packets::Packets;
use crate::progress::{Progress, is_ok};
use crate::role::Role;
use crate::step::Step;
use board_model::CallLine;
use board_runner::Actor;
use domain_core::Answer;
use mc_base::NoMemory;
use std::alloc::Global;
use std::snapshot::Snapshot;

/// The first domain, with the packets that it has not sent yet.
#[derive(Drop)]
pub struct First {
    progress: Progress,
    packets: Packets,
    /// All packets, which only contracts see.
    all: Snapshot<Vec<Vec<u8>>>,
    ghost sizes: { All (λ p. length p.items ≤ item_size) packets },
}

impl First {
    /// The first domain before its first line.
    ///
    /// # Errors
    ///
    /// `NoMemory` where an allocation fails.
    pub fn new(alloc: Global, packets: Vec<Vec<u8>>) -> Result<First, NoMemory>
        requires { All (λ p. length p.items ≤ item_size) packets.items }
        ensures step { IfOk result (λ f. f.progress.step ≡ opening_step) }
        ensures opening { IfOk result (λ f. f.progress.opening ≡ opening_of (first_of [])) }
        ensures asked { IfOk result (λ f. f.progress.asked.value ≡ None) }
        ensures packets { IfOk result (λ f. f.packets ≡ packets.items) }
        ensures all { IfOk result (λ f. f.all.value ≡ packets) }
    {
        let opening = opening_of_first(alloc)?;
        Ok(First {
            progress: Progress::new(opening),
            all: Snapshot::of(&packets),
            packets: Packets::new(packets),
        })
    }

    /// Takes the next line.
    fn line_after(&mut self, told: Option<&Answer<'_>>) -> Option<CallLine>
        ensures line { result ≡ next_of_first self.old.progress self.old.packets (heard told.entry) }
        ensures step { self.new.progress.step ≡ self.old.progress.step }
        ensures opening { self.new.progress.opening ≡ opening_then self.old.progress (heard told.entry) }
        ensures packets { contents self.new.packets ≡ drop (sends_at (step_for result)) (contents self.old.packets) }
        ensures sends { IfSome result (λ l. FitsSend l.call) }
        ensures all { contents self.new.all.value.items ≡ contents self.old.all.value.items }
    {
        if let Some(line) = self.progress.opening_line(told) {
            return Some(line);
        }
        self.line_behind(told)
    }

    /// The line behind the opening.
    fn line_behind(&mut self, told: Option<&Answer<'_>>) -> Option<CallLine>
        ensures line { result ≡ behind_first self.old.progress self.old.packets (heard told.entry) }
        ensures packets { contents self.new.packets ≡ drop (sends_at (step_for result)) (contents self.old.packets) }
        ensures sends { IfSome result (λ l. FitsSend l.call) }
        ensures progress { self.new.progress ≡ self.old.progress }
        ensures all { contents self.new.all.value.items ≡ contents self.old.all.value.items }
    {
        match self.progress.step {
            Step::Opening | Step::Sending => {
                if is_ok(told) {
                    Some(self.next_packet())
                } else {
                    None
                }
            }
            _ => None,
        }
    }

    /// The send of the next packet, and after the last the close.
    fn next_packet(&mut self) -> CallLine
        ensures line { result ≡ next_of (contents self.old.packets) }
        ensures packets { contents self.new.packets ≡ drop (sends_at (step_for (Some result))) (contents self.old.packets) }
        ensures sends { FitsSend result.call }
        ensures progress { self.new.progress ≡ self.old.progress }
        ensures all { contents self.new.all.value.items ≡ contents self.old.all.value.items }
    {
        match self.packets.take() {
            Some(bytes) => send(0, bytes),
            None => close_send(0),
        }
    }
}

impl Actor for First {
    ghost use Rattle.std.specs.Prelude.{◌≡◌, None};
    ghost use Rattle.hop_relay.specs.Places.{place_of_first, as_first};
    ghost use Rattle.hop_relay.specs.Roles.{HasEnded};
    ghost use Rattle.hop_relay.specs.Steps.{FitsRelay, left_to_ask};

    type Role = Role;

    ghost role = { as_first };

    ghost domain = { λ f. 0 };

    ghost todo = { λ f. left_to_ask 0 (place_of_first f) };

    ghost asked = { λ f. f.progress.asked.value };

    ghost Fits = { λ f log. FitsRelay (as_first f) (place_of_first f) f.progress.asked.value log };

    ghost Ends = { λ f log. HasEnded (as_first f) log };

    fn next(&mut self, told: Option<&Answer<'_>>) -> Result<Option<CallLine>, NoMemory> {
        let line = self.line_after(told);
        self.progress.turn_to(&line);
        Ok(line)
    }
}

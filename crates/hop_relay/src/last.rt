//! The last domain, which receives packets.

ghost use Rattle.std.specs.Prelude.{◌≡◌, ◌≤◌, IfOk, None};
ghost use Rattle.hop_relay.specs.declared.role.Role.TheVariants.{Last as last_of};
ghost use Rattle.hop_relay.specs.declared.step.Step.TheVariants.{Opening as opening_step};
ghost use Rattle.hop_relay.specs.NextLines.{behind_taker, ok_taker, opening_then};
ghost use Rattle.hop_relay.specs.Places.{as_last, place_of_taker};
ghost use Rattle.hop_relay.specs.Roles.{opening as opening_of};
ghost use Rattle.hop_relay.specs.Steps.{after_receive as line_after_receive, heard, next_line, packet_limit};

use crate::lines::{close_recv, receive, release};
use crate::opening::opening_of_last;
use crate::progress::{is_chan_closed, is_ok};
use crate::role::Role;
use crate::step::Step;
use crate::taker::Taker;
use board_model::CallLine;
use board_runner::Actor;
use domain_core::Answer;
use mc_base::NoMemory;
use std::alloc::Global;

/// The last domain.
#[derive(Drop)]
pub struct Last {
    taker: Taker,
    ghost low: { taker.domain ≤ 7 },
}

impl Last {
    /// The last domain before its first line.
    ///
    /// # Errors
    ///
    /// `NoMemory` where an allocation fails.
    pub fn new(alloc: Global, domain: u8, most: u32) -> Result<Last, NoMemory>
        requires domain { domain ≤ 7 }
        requires few { most ≤ packet_limit }
        ensures domain { IfOk result (λ m. m.taker.domain ≡ domain) }
        ensures most { IfOk result (λ m. m.taker.most ≡ most) }
        ensures receives { IfOk result (λ m. m.taker.receives ≡ 0) }
        ensures step { IfOk result (λ m. m.taker.progress.step ≡ opening_step) }
        ensures opening { IfOk result (λ m. m.taker.progress.opening ≡ opening_of (last_of domain 0)) }
        ensures asked { IfOk result (λ m. m.taker.progress.asked.value ≡ None) }
    {
        let opening = opening_of_last(alloc, domain)?;
        let taker = Taker::new(domain, most, opening);
        Ok(Last { taker })
    }

    /// Takes the next line.
    fn line_after(&mut self, told: Option<&Answer<'_>>) -> Option<CallLine>
        ensures line { result ≡ next_line (as_last self.old.taker) (place_of_taker self.old.taker) (heard told.entry) }
        ensures opening { self.new.taker.progress.opening ≡ opening_then self.old.taker.progress (heard told.entry) }
        ensures step { self.new.taker.progress.step ≡ self.old.taker.progress.step }
        ensures domain { self.new.taker.domain ≡ self.old.taker.domain }
        ensures most { self.new.taker.most ≡ self.old.taker.most }
        ensures receives { self.new.taker.receives ≡ self.old.taker.receives }
    {
        if let Some(line) = self.taker.progress.opening_line(told) {
            return Some(line);
        }
        self.line_behind(told)
    }

    /// The line behind the opening.
    fn line_behind(&self, told: Option<&Answer<'_>>) -> Option<CallLine>
        ensures line { result ≡ behind_taker (as_last self.now.taker) self.now.taker (heard told.entry) }
    {
        match self.taker.progress.step {
            Step::Receiving => self.after_receive(told),
            _ => { if is_ok(told) { self.after_ok() } else { None } }
        }
    }

    /// The line after a call that was answered `ok`, other than a receive.
    fn after_ok(&self) -> Option<CallLine>
        ensures line { result ≡ ok_taker (as_last self.now.taker) self.now.taker }
    {
        let domain = self.taker.domain;
        let packet = self.taker.receives;
        match self.taker.progress.step {
            Step::Opening => Some(receive(domain, 1)),
            Step::Releasing => Some(receive(domain, packet + 1)),
            _ => None,
        }
    }

    /// The line after a receive.
    fn after_receive(&self, told: Option<&Answer<'_>>) -> Option<CallLine>
        ensures line { result ≡ line_after_receive (as_last self.now.taker) self.now.taker.receives (heard told.entry) }
    {
        let domain = self.taker.domain;
        let Some(answer) = told else {
            return None;
        };
        match answer {
            Answer::Bytes { .. } => {
                if self.taker.most < self.taker.receives {
                    None
                } else {
                    Some(release(domain, self.taker.receives))
                }
            }
            Answer::Refused(word) => {
                if is_chan_closed(*word) {
                    Some(close_recv(domain))
                } else {
                    None
                }
            }
            Answer::Ok | Answer::Number(_) | Answer::Channel { .. } | Answer::Done { .. } => None,
        }
    }
}

impl Actor for Last {
    ghost use Rattle.std.specs.Prelude.{◌≡◌, None};
    ghost use Rattle.hop_relay.specs.Places.{as_last, place_of_taker};
    ghost use Rattle.hop_relay.specs.Roles.{HasEnded};
    ghost use Rattle.hop_relay.specs.Steps.{FitsRelay, left_to_ask};

    type Role = Role;

    ghost role = { λ m. as_last m.taker };

    ghost domain = { λ m. m.taker.domain };

    ghost todo = { λ m. left_to_ask m.taker.most (place_of_taker m.taker) };

    ghost asked = { λ m. m.taker.progress.asked.value };

    ghost Fits = { λ m log. FitsRelay (as_last m.taker) (place_of_taker m.taker) m.taker.progress.asked.value log };

    ghost Ends = { λ m log. HasEnded (as_last m.taker) log };

    fn next(&mut self, told: Option<&Answer<'_>>) -> Result<Option<CallLine>, NoMemory> {
        let line = self.line_after(told);
        self.taker.turn_to(&line);
        Ok(line)
    }
}

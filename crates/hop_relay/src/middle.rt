//! A domain between, which sends on what it receives.

ghost use Rattle.std.specs.Prelude.{◌≡◌, ◌≤◌, IfOk, IfSome, None};
ghost use Rattle.hop_relay.specs.declared.role.Role.TheVariants.{Middle as middle_of};
ghost use Rattle.hop_relay.specs.declared.step.Step.TheVariants.{Opening as opening_step};
ghost use Rattle.hop_relay.specs.NextLines.{behind_taker, ok_taker, opening_then};
ghost use Rattle.hop_relay.specs.Places.{as_middle, place_of_taker};
ghost use Rattle.hop_relay.specs.Roles.{opening as opening_of};
ghost use Rattle.hop_relay.specs.Steps.{SendsBytes, after_receive as line_after_receive, heard, next_line, packet_limit};

use crate::lines::{close_recv, close_send, receive, release, send};
use crate::opening::opening_of_middle;
use crate::progress::{is_chan_closed, is_ok};
use crate::role::Role;
use crate::step::Step;
use crate::taker::Taker;
use board_model::CallLine;
use board_runner::Actor;
use domain_core::Answer;
use mc_base::NoMemory;
use std::alloc::Global;

/// A domain between. A packet that it received is copied into the line that sends it, and kept nowhere else.
#[derive(Drop)]
pub struct Middle {
    alloc: Global,
    taker: Taker,
    ghost low: { taker.domain ≤ 6 },
}

impl Middle {
    /// A domain between before its first line.
    ///
    /// # Errors
    ///
    /// `NoMemory` where an allocation fails.
    pub fn new(alloc: Global, domain: u8, most: u32) -> Result<Middle, NoMemory>
        requires domain { domain ≤ 6 }
        requires few { most ≤ packet_limit }
        ensures domain { IfOk result (λ m. m.taker.domain ≡ domain) }
        ensures most { IfOk result (λ m. m.taker.most ≡ most) }
        ensures receives { IfOk result (λ m. m.taker.receives ≡ 0) }
        ensures step { IfOk result (λ m. m.taker.progress.step ≡ opening_step) }
        ensures opening { IfOk result (λ m. m.taker.progress.opening ≡ opening_of (middle_of domain 0)) }
        ensures asked { IfOk result (λ m. m.taker.progress.asked.value ≡ None) }
    {
        let opening = opening_of_middle(alloc, domain)?;
        let taker = Taker::new(domain, most, opening);
        Ok(Middle { alloc, taker })
    }

    /// Takes the next line.
    fn line_after(&mut self, told: Option<&Answer<'_>>) -> Result<Option<CallLine>, NoMemory>
        ensures line { IfOk result (λ line. line ≡ next_line (as_middle self.old.taker) (place_of_taker self.old.taker) (heard told.entry)) }
        ensures opening { IfOk result (λ line. self.new.taker.progress.opening ≡ opening_then self.old.taker.progress (heard told.entry)) }
        ensures step { IfOk result (λ line. self.new.taker.progress.step ≡ self.old.taker.progress.step) }
        ensures domain { IfOk result (λ line. self.new.taker.domain ≡ self.old.taker.domain) }
        ensures most { IfOk result (λ line. self.new.taker.most ≡ self.old.taker.most) }
        ensures receives { IfOk result (λ line. self.new.taker.receives ≡ self.old.taker.receives) }
        ensures sends { IfOk result (λ line. IfSome line (λ l. SendsBytes l.call)) }
    {
        if let Some(line) = self.taker.progress.opening_line(told) {
            return Ok(Some(line));
        }
        self.line_behind(told)
    }

    /// The line behind the opening.
    fn line_behind(&self, told: Option<&Answer<'_>>) -> Result<Option<CallLine>, NoMemory>
        ensures line { IfOk result (λ line. line ≡ behind_taker (as_middle self.now.taker) self.now.taker (heard told.entry)) }
        ensures sends { IfOk result (λ line. IfSome line (λ l. SendsBytes l.call)) }
    {
        match self.taker.progress.step {
            Step::Receiving => self.after_receive(told),
            _ => {
                if is_ok(told) {
                    Ok(self.after_ok())
                } else {
                    Ok(None)
                }
            }
        }
    }

    /// The line after a call that was answered `ok`, other than a receive.
    fn after_ok(&self) -> Option<CallLine>
        ensures line { result ≡ ok_taker (as_middle self.now.taker) self.now.taker }
        ensures sends { IfSome result (λ l. SendsBytes l.call) }
    {
        let domain = self.taker.domain;
        let packet = self.taker.receives;
        match self.taker.progress.step {
            Step::Opening => Some(receive(domain, 1)),
            Step::Sending => Some(release(domain, packet)),
            Step::Releasing => Some(receive(domain, packet + 1)),
            Step::ClosingSender => Some(close_recv(domain)),
            _ => None,
        }
    }

    /// The line after a receive.
    fn after_receive(&self, told: Option<&Answer<'_>>) -> Result<Option<CallLine>, NoMemory>
        ensures line { IfOk result (λ line. line ≡ line_after_receive (as_middle self.now.taker) self.now.taker.receives (heard told.entry)) }
        ensures sends { IfOk result (λ line. IfSome line (λ l. SendsBytes l.call)) }
    {
        let domain = self.taker.domain;
        let Some(answer) = told else {
            return Ok(None);
        };
        match answer {
            Answer::Bytes { size: _, bytes } => {
                if self.taker.most < self.taker.receives {
                    Ok(None)
                } else {
                    Ok(Some(send(domain, copy_of(self.alloc, bytes)?)))
                }
            }
            Answer::Refused(word) => {
                if is_chan_closed(*word) {
                    Ok(Some(close_send(domain)))
                } else {
                    Ok(None)
                }
            }
            Answer::Ok | Answer::Number(_) | Answer::Channel { .. } | Answer::Done { .. } => {
                Ok(None)
            }
        }
    }
}

/// A copy of the bytes of a packet.
fn copy_of(alloc: Global, bytes: &[u8]) -> Result<Vec<u8>, NoMemory>
    ensures { IfOk result (λ copy. copy.items ≡ bytes.now) }
{
    let Ok(copy) = Vec::from_slice(alloc, bytes) else {
        return Err(NoMemory);
    };
    Ok(copy)
}

impl Actor for Middle {
    ghost use Rattle.std.specs.Prelude.{◌≡◌, None};
    ghost use Rattle.hop_relay.specs.Places.{as_middle, place_of_taker};
    ghost use Rattle.hop_relay.specs.Roles.{HasEnded};
    ghost use Rattle.hop_relay.specs.Steps.{FitsRelay, left_to_ask};

    type Role = Role;

    ghost role = { λ m. as_middle m.taker };

    ghost domain = { λ m. m.taker.domain };

    ghost todo = { λ m. left_to_ask m.taker.most (place_of_taker m.taker) };

    ghost asked = { λ m. m.taker.progress.asked.value };

    ghost Fits = { λ m log. FitsRelay (as_middle m.taker) (place_of_taker m.taker) m.taker.progress.asked.value log };

    ghost Ends = { λ m log. HasEnded (as_middle m.taker) log };

    fn next(&mut self, told: Option<&Answer<'_>>) -> Result<Option<CallLine>, NoMemory> {
        let line = self.line_after(told)?;
        self.taker.turn_to(&line);
        Ok(line)
    }
}

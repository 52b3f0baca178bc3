//! Answers to an actor.

ghost use Rattle.mc_journal.specs.Entry.{plain_answer};
ghost use Rattle.board_runner.specs.AnswerForms.{IsAnswerTo};

use board_model::Call;
use domain_core::{Answer, Told};
use mc_base::Refusal;

/// The board as an actor sees it: how many of its calls succeed, and how many packets it receives before its channel is closed.
#[derive(Clone, Copy, Debug)]
pub struct FarSide {
    pub calls: u32,
    pub packets: u32,
}

impl FarSide {
    /// Answers a call.
    pub fn answer(&mut self, call: &Call) -> Answer<'static>
        ensures { IsAnswerTo call.now (plain_answer result) }
    {
        if self.calls == 0 {
            return Answer::Refused(Refusal::NoBuffer);
        }
        self.calls -= 1;
        match call {
            Call::Create { .. } | Call::Lookup { .. } => Answer::Number(1),
            Call::Wait { .. } => Answer::Done {
                place: None,
                result: Told::Accepted,
            },
            Call::Connect { .. } => Answer::Channel {
                request: 2,
                channel: 1,
            },
            Call::PktRecv { .. } => {
                if self.packets == 0 {
                    return Answer::Refused(Refusal::ChanClosed);
                }
                self.packets -= 1;
                Answer::Bytes {
                    size: 2,
                    bytes: b"ab",
                }
            }
            Call::OpenSend { .. } | Call::OpenRecv { .. } | Call::PktSend { .. } => Answer::Ok,
            Call::Release { .. } | Call::CloseSend { .. } => Answer::Ok,
            Call::CloseRecv { .. } => Answer::Number(0),
            _ => Answer::Refused(Refusal::NoBuffer),
        }
    }
}

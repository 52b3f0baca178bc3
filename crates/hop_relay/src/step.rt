//! What the lines of an actor ask for.

ghost use Rattle.std.specs.Prelude.{◌≡◌};
ghost use Rattle.hop_relay.specs.Steps.{step_for, step_of as step_of_call};

use board_model::{Call, CallLine};

/// What the last line of an actor asked for.
#[derive(Clone, Copy, Debug)]
pub enum Step {
    /// A call of the opening, or nothing yet.
    Opening,
    /// The receive of a packet.
    Receiving,
    /// The send of one.
    Sending,
    /// The release of one.
    Releasing,
    /// The close of the end that sends.
    ClosingSender,
    /// The close of the end that receives.
    ClosingReceiver,
    /// Nothing, since there is no further line.
    Ended,
}

impl Step {
    /// Returns what a line asks for.
    pub fn of(line: &Option<CallLine>) -> Step
        ensures { result ≡ step_for line.now }
    {
        match line {
            None => Step::Ended,
            Some(line) => Step::of_call(&line.call),
        }
    }

    /// Returns what a call asks for.
    fn of_call(call: &Call) -> Step
        ensures { result ≡ step_of_call call.now }
    {
        match call {
            Call::PktRecv { .. } => Step::Receiving,
            Call::PktSend { .. } => Step::Sending,
            Call::Release { .. } => Step::Releasing,
            Call::CloseSend { .. } => Step::ClosingSender,
            Call::CloseRecv { .. } => Step::ClosingReceiver,
            _ => Step::Opening,
        }
    }
}

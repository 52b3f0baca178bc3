//! The input texts of a relay and of numbered calls, read.
//!
//! `specs/` is to be read in this order: InputLines, InputNumbers, InputFaults, RelayInput, CallsInput, Texts. `relay_told` and
//! `calls_told` say what a text tells, or the line for which it is refused.
#![tactic(auto)]

mod calls;
mod fault;
mod lines;
mod numbers;
mod relay;

pub use calls::{CallsText, read_calls};
pub use fault::{InputFault, InputReason};
pub use relay::{RelayText, read_relay};

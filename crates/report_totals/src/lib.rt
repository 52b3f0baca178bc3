//! The fourth pass over a report: whether its lines behind the journals are those that the journals come to, and of a run on threads whether each
//! buffer came back only after its frame was put.
#![tactic(auto)]

mod counting;
mod deletes;
mod due_text;
mod ended_journal;
mod held;
mod pass;
mod rings;
mod tallies;
mod text_sink;

pub use pass::{NumbersText, wrong_number};
pub use rings::ring_lines;

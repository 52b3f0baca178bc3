//! What the domains of a report did, in words: domain by domain, or all in one order.
#![tactic(auto)]

mod answer;
mod course;
mod filter;
mod missing;
mod place;
mod queues;
mod standing;
mod survey;
mod text;
mod told;
mod words;

pub use filter::Filter;
pub use text::write_text;
pub use told::{ToldText, read_text};

//! A report as a sequence diagram: what its domains did, from above to below, and the frames between them.
#![tactic(auto)]

mod frames;
mod pairs;
mod plan;
mod sequence;
mod sheet;
mod turns;

pub use plan::{Plan, plan_of};
pub use sequence::put_sequence;

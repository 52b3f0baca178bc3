//! A scenario with expected answers, and whether the answers of a report are those.
#![tactic(auto)]

mod answers;
mod comparing;
mod expectation;
mod file;
mod lines;
mod same;
mod tap;

pub use comparing::{Outcome, compare};
pub use expectation::{Expectation, expectations_of};
pub use file::bare_text;
pub use same::other_scenario;
pub use tap::{are_met, write_outcomes};

//! Scenario files: a text is read as a scenario, and a scenario is written as its canonical text.
//!
//! The grammar is defined in `board_model`: `told_by` says which scenario a text is, and `canonical` is the
//! text of a scenario. `specs/` here says how the readers go over a text. That they find exactly the scenarios of the
//! grammar is proved, and the contract of `read_scenario` says so without them.
#![tactic(auto)]

mod above;
mod arguments;
mod calls;
mod canonical;
mod fault;
mod forms;
mod groups;
mod kinds;
mod labels;
mod lines;
mod load;
mod numerals;
mod reading;
mod table;
mod writing;

pub use board_model::{Call, CallLine, DomainLine, LineReason, LinkLine, Scenario};
pub use canonical::put_scenario;
pub use fault::ScenarioFault;
pub use kinds::kind_word;
pub use load::{load_boards_are_lawful, load_scenario};
pub use reading::{canonical_text_is_read_back, read_scenario};
pub use writing::write_scenario;

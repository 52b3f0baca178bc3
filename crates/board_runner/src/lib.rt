//! Runs the domains of a scenario, and writes the report of the run.
//!
//! [`run_serial`] runs all lines on one thread in the file's order; [`run_threads`] runs each domain's lines on a thread of its
//! own, and so does [`run_bells`], whose domains sleep where they wait without end. [`run_actors`] runs domains whose lines come from
//! [`Actor`]s, and makes their scenario meanwhile. All return an [`Outcome`], of which [`write_report`] writes the report (docs/FORMATS.md,
//! "Report") without taking memory.
#![tactic(auto)]

mod acting;
mod actor;
mod actors;
mod answers;
mod bells;
mod carrying;
mod ended;
mod ending;
mod finishing;
mod gate;
mod labels;
mod line;
mod links;
mod opening;
mod outcome;
mod owned;
mod packets;
mod report;
mod rings;
mod script;
mod serial;
mod station;
mod stations;
mod threads;
mod wires;

pub use actor::Actor;
pub use actors::run_actors;
pub use board_model::{ChannelTotals, LanePlaces, Totals};
pub use gate::{Gate, NoGate};
pub use outcome::Outcome;
pub use report::{put_report, put_summary, write_report};
pub use serial::run_serial;
pub use threads::{run_bells, run_threads};

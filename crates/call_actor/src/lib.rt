//! The clients and the server of numbered calls, as actors: each gives the line that is due after the answers that it was told.
//!
//! [`CallActor`] is an actor for each domain of a board of numbered calls, and [`run_calls`] runs them.
#![tactic(auto)]

mod board;
mod bytes;
mod call_actor;
mod client;
mod desk;
mod following;
mod laws;
mod lines;
mod place;
mod role;
mod rules;
mod run;
mod server;
mod task;
mod told;

pub use board::calls_board;
pub use call_actor::{CallActor, call_actors_may_move};
pub use laws::calls_outcomes_are_calls_runs;
pub use role::CallRole;
pub use run::run_calls;

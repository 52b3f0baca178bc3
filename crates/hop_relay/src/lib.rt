//! Relays: packets that go between two domains without a link, by way of the domains between them.
//!
//! [`run_relay`] runs a relay, with a [`RelayActor`] for each of its domains. The definitions in `specs/` are read in this order: `Roles`, `Hop`,
//! `LogDeeds`, `RelayBoard`, `RelayLaw`, `RelayRun`; then `Steps`, `NextLines`, `Places` and `RelayActors` say what an actor holds and gives.
#![tactic(auto)]

mod board;
mod first;
mod last;
mod laws;
mod lines;
mod middle;
mod opening;
mod packets;
mod progress;
mod queue;
mod relay_actor;
mod role;
mod run;
mod step;
mod taker;

pub use board::relay_board;
pub use laws::{
    hops_fit_their_logs, logs_have_the_packets_of_runs, middle_logs_are_hops,
    relay_outcomes_are_relay_runs, relays_keep_order, unnumbered_channels_are_empty,
};
pub use relay_actor::{RelayActor, relay_actors_may_move};
pub use role::Role;
pub use run::run_relay;

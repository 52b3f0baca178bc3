//! One domain of a board: its endpoints, messages, channels and requests, over a lane to itself and links to other domains. A
//! journal records what it does.
//!
//! [`Domain`] has the calls; docs/PROFILE.md says in full what each does. Only [`Domain::open`] allocates, and the waits, which
//! make room in the journal for their turns. A domain's inside is the crate `domain_parts`, of which a user names nothing.
#![tactic(auto)]

mod domain;
mod keeping;
mod threads;

pub use domain::{Domain, carry, carry as carry_rings};
pub use domain_parts::{
    CALL_BYTES, CALL_ENTRIES, Ends, Link, PeerLane, Places, WaitFault, fault_fate,
};
pub use keeping::{calls_move_ends, domains_stay_linked, waits_move_ends};
pub use mc_journal::{Answer, Entry, Journal, Told};
pub use threads::{domain_may_cross_threads, domain_may_move, may_cross_threads};

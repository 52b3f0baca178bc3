//! The name announcements of the RPMsg name service (`struct rpmsg_ns_msg` of Linux): read with their first fault, and
//! written in their one spelling. `read_frame` reads a whole frame: its first fault, its announcement, or its letter.
//! `endpoint_named` reads the full names of endpoints, and `KnownNames` holds the addresses that were learned of names.
//!
//! No call takes memory but `KnownNames::new`, and none panics. `mc_base` defines what an announcement is.
#![tactic(auto)]

mod full_names;
mod known;
mod laws;
mod name;
mod reading;
mod said;
mod threads;
mod writing;

pub use full_names::endpoint_named;
pub use known::KnownNames;
pub use laws::{
    announcements_read_back, frames_say_what_they_carry, full_names_read_back,
    known_names_are_a_map, no_payload_has_two_announcements,
};
pub use mc_base::{Fault, Ns, NsFault};
pub use name::is_legal;
pub use reading::read_ns;
pub use said::{Said, fault_of, read_frame};
pub use threads::may_cross_threads;
pub use writing::write_ns;

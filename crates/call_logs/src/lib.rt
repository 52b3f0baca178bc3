//! Numbered calls on a board: what the clients and the server are to do, as lines that are due, and the law of what is carried out.
//!
//! The crate has definitions and laws alone, and the types that they speak of. `specs/` is read in this order: `LogMessages`, `MessageDeeds`, `Following`, `CallBytes`,
//! `Roles`, `CallsBoard`, `CallsLaw`.
#![tactic(auto)]

mod got;
mod laws;
mod numbered;

pub use got::Got;
pub use laws::{
    calls_are_carried_in_order, clients_get_what_was_carried, logs_have_the_messages_of_runs,
    no_call_lacks_room, received_messages_were_sent,
};
pub use numbered::NumberedCall;

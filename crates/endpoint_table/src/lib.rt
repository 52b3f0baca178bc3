//! The endpoints of a domain: which are live, at which addresses, and what is still to be announced of them to the linked
//! domains.
//!
//! A table takes memory where it is made, and no other call takes any. `specs/` is to be read in this order: Table,
//! InTable.
#![tactic(auto)]

mod announced;
mod debts;
mod name;
mod record;
mod records;
mod table;
mod threads;

pub use mc_base::{Local, NoMemory, Ns, Refusal};
pub use table::EndpointTable;
pub use threads::may_cross_threads;

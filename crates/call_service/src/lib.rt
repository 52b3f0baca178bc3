//! A server of numbered calls: sixteen cells, to which clients add by requests that they may repeat. Each call is carried out once.
//!
//! Memory is taken where a service is made, and in no other call. `specs/` is read in this order: `Bytes`, `Served`, `Handled`, `OnceLaw`.
#![tactic(auto)]

mod carried;
mod laws;
mod reply;
mod request;
mod service;
mod threads;

pub use carried::Carried;
pub use laws::{calls_are_carried_out_once, repeats_change_nothing, repeats_get_the_first_reply};
pub use request::ServiceFault;
pub use service::Service;
pub use threads::may_cross_threads;

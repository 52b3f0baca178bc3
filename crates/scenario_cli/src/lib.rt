//! The program `mcrun` as a call: words and a source in, a sink and a status out.
#![tactic(auto)]

mod calls;
mod form;
mod frame;
mod hex;
mod image;
mod input_fault;
mod load;
mod place_line;
mod refused;
mod relay;
mod report;
mod run;
mod status;
mod top;
mod wrong;

pub use top::mcrun;

//! The program `mcview` as a call: words, the report of a board and what is expected of it in, a view of it and a status out.
#![tactic(auto)]

mod asked;
mod expect;
mod form;
mod pictures;
mod refused;
mod status;
mod text;
mod top;
mod wrong;

pub use asked::file_asked;
pub use top::mcview;

//! The lines of numbered calls, which stand behind the report of a run of their board: the calls that were carried out, what the clients got,
//! and the cells (docs/FORMATS.md, "Lines of numbered calls").
//!
//! All lines together are `calls_text` (`specs/CallsText.antt`): [`put_carried`], then [`put_gots`] for each client in rising number, then
//! [`put_cells`]. No call takes memory.
#![tactic(auto)]

mod lines;

pub use lines::{put_carried, put_cells, put_gots};

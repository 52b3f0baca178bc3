//! Scalars as the content of a channel's frames and items: 1, 2, 4 or 8 bytes, the lowest first.
//!
//! No call takes memory, and none panics.
#![tactic(auto)]

mod laws;
mod value;

pub use laws::scalars_are_read_back;
pub use mc_base::SclSize;
pub use value::{read_scalar, write_scalar};

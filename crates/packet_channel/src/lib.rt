//! One end of a channel: its stage, which calls it allows, and what a letter does to it.
//!
//! Packets and scalars go over the same ends. No call takes memory. `board_model`, `ChannelEnds`, has the table of words and
//! the table of letters; `specs/End.antt` says which end a record stands for, and `specs/Parts.antt` serves what is inside.
#![tactic(auto)]

mod channel;
mod end;
mod letters;

pub use channel::{Channel, Stage};

//! The letters that endpoints send each other, by version 1 of the payload header, and parts of messages and packets, by version 2:
//! read with their first fault, and written in their one spelling.
//!
//! No call takes memory, and none panics. `mc_base` defines what a letter is, and its table of letters.
#![tactic(auto)]

mod content;
mod laws;
mod parts;
mod reading;
mod writing;

pub use laws::{letters_read_back, no_payload_has_two_letters};
pub use mc_base::{Letter, LetterFault};
pub use reading::read_letter;
pub use writing::write_letter;

/// What the first byte of each letter is.
const MAGIC: u8 = 0x4d;

/// The version of the payload header of a letter, its second byte, and that of a part of one.
const VERSION: u8 = 1;

const PART_VERSION: u8 = 2;

/// What stands before the bytes of a part, after the header of a letter: the two numbers.
const PART_HEADER_SIZE: usize = 4;

//! Whether a report is that of a whole run of its board: [`check`] goes over it in four passes. The second of them stands here, a domain on its
//! way through its script, part by part of its journal, each compared with what is due.
#![tactic(auto)]

mod cursor;
mod due_call;
mod due_lines;
mod given;
mod named_state;
mod next_call;
mod part_walk;
mod parts;
mod passes;
mod run;
mod same_entries;
mod steps;
mod told_turn;
mod turn;
mod walks;

pub use cursor::{Head, NextPart, next_part};
pub use due_lines::DueLines;
pub use given::note_given;
pub use passes::check;
pub use report_text::{CheckReason, SpelledText, Verdict, spelled_lines};
pub use run::Run;
pub use steps::{Walked, walk};
pub use told_turn::{ToldTurn, read_told};

//! Whether a report is that of a whole run of its board.
#![tactic(auto)]

mod board;
mod entries;
mod fault;
mod joins;
mod journal;
mod journal_lanes;
mod laws;
mod lines;
mod link_pass;
mod mode;
mod outline;
mod pass;
mod pieces;
mod reading;
mod report_lines;
mod scenario;
mod spelled_text;
mod text;
mod turn_order;
mod verdict;

pub use board::{Numbered, neighbours_of_domain, numbers, rising_domains, script_puts};
pub use entries::next_entry;
pub use fault::TextFault;
pub use journal::puts_of_line;
pub use journal_lanes::{JournalLanes, PutLine, lanes_of};
pub use laws::{
    due_visits_are_allowed, idle_turns_keep, journal_examples_hold, right_numbers_are_due,
    right_reports_tell_runs, right_steps_tell_runs, verdict_examples_hold,
};
pub use lines::cut;
pub use link_pass::{JournalLines, wrong_lanes};
pub use mode::Mode;
pub use outline::Outline;
pub use pass::{ReportText, longest_line, read_text};
pub use reading::next_line;
pub use scenario::{first_bytes, other_line};
pub use spelled_text::{SpelledLine, SpelledText, spelled_lines};
pub use turn_order::is_under;
pub use verdict::{CheckReason, Verdict};

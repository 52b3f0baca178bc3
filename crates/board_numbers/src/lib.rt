//! The numbers of a board's run: what became of the items of channels, of the messages, and of the buffers of lanes.
//!
//! They are counted from the journals of the domains, entry by entry ([`Counts`], [`count_items`]), and from what each domain holds at
//! its end ([`HeldBuffers`], [`EndedDomain`]). Whoever has a domain's journal and its state can count, so a runner and a check of its
//! report share this crate. [`write_numbers`] writes the lines of a report (docs/FORMATS.md, "Report").
#![tactic(auto)]

mod adding;
mod board;
mod channels;
mod counts;
mod ended_domain;
mod items;
mod number_lines;
mod numbers;
mod parts;
mod tally;

pub use adding::{add, append};
pub use board::{buffers_between, line_of, rising_numbers, size_between};
pub use channels::channels_of;
pub use counts::{Counts, count};
pub use ended_domain::EndedDomain;
pub use items::{ChannelKey, ItemCounts, count_items, count_journal, no_items};
pub use number_lines::{put_numbers, put_summary, write_numbers};
pub use numbers::{places_of, totals_of};
pub use tally::{HeldBuffers, Tally};

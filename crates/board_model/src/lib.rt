//! What a board is and does: scenarios as plain types, and in `specs/` the definitions that everything is proved
//! against. The only code beyond the types and the laws parses single words.
//!
//! `specs/` is to be read in this order: Lists, Scenario, FileLines, FileWords, Numerals, Forms, Grammar, LineReasons, Language,
//! LinkedBoard, Words, Journal, State, Renamed, Unnamed, Choice, DomainCall, Answer, Change, Dealing, TakenFrames, ChannelEnds,
//! Queues, CallChanges, Deeds, Turn, Labels, Step, Run, Traffic, Board, JournalDeeds, Given, Channels, Messages, Takings, Drops,
//! MessageOrder, Replied, Totals, Tallies, Places, Serial, Loads, SerialRun, LoadBoard, Report, Headline, Laws, MessageLaws, ChannelLaws,
//! RunLaws, RenamedLaws, Honesty, ReadBack, SerialLaws, LanguageLaws, WordTables, Unjoined, JournalForm, JournalParts, JournalLaws, RingImage.
#![tactic(auto)]

mod form;
pub mod journal_laws;
mod label_group;
pub mod laws;
mod numeral;
mod reason;
mod scenario;
mod seq;
mod totals;

pub use form::{ArgumentKind, Callee};
pub use label_group::LabelGroup;
pub use numeral::{decode_pairs, hex_digit, is_dash, length_before, number_to};
pub use reason::LineReason;
pub use scenario::{Call, CallLine, DomainLine, Label, LinkLine, Scenario};
pub use seq::Seq;
pub use totals::{ChannelTotals, LanePlaces, Totals};

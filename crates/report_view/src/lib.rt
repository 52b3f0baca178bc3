//! A report read to be shown: the lines of its scenario with their numbers, what each domain did for each of them, and what its frames say.
#![tactic(auto)]

mod bytes;
mod channel;
mod frame;
mod group;
mod journals;
mod letter;
mod line;
mod room;
mod script;
mod view;

pub use bytes::put_bytes;
pub use channel::{Channel, channel_of};
pub use frame::put_frame;
pub use group::{Group, next_group};
pub use line::{answer_in, last_word};
pub use report_text::JournalLines;
pub use room::room_for;
pub use script::ScriptLine;
pub use view::{DomainView, View, read_view};

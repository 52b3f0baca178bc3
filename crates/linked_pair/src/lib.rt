//! Two domains over a link in one memory, as a program on one thread has them.
//!
//! [`LinkedPair`] has the calls of both domains and carries between them. It cites the laws that its calls need, so a caller
//! cites none. [`plain_link`] makes both ends of such a link, and [`reserve_call`] the room of a call in a journal.
#![tactic(auto)]

mod links;
mod member;
mod pair;
mod room;

pub use links::{PlainLink, plain_link};
pub use member::{Member, Which};
pub use pair::{LinkedPair, PlainDomain};
pub use room::reserve_call;

//! What a call answers, puts and does.

mod answers;
mod call;
mod effects;
mod ends;
mod puts;
mod queries;
mod returned;
mod serials;
mod words;

pub use call::DomainCall;

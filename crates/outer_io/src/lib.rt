//! Where bytes come from and where they go: sources and sinks that count their faults, reading to the end, writing
//! whole, and text written piece by piece.
#![tactic(auto)]

mod memory;
mod sink;
mod source;
mod standard;
mod writer;

pub use memory::{MemSink, MemSource};
pub use sink::{Sink, write_all};
pub use source::{ReadFault, Source, read_all};
pub use standard::{StdSink, StdSource};
use thiserror::Error;
pub use writer::Writer;

/// A read or a write failed.
#[derive(Clone, Copy, Debug, PartialEq, Eq, Error)]
#[error("a read or a write failed")]
pub struct Failed;

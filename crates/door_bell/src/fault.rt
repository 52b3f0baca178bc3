use std::alloc::AllocError;
use thiserror::Error;

/// Why no bell was made.
#[derive(Debug, Drop, Error)]
pub enum BellFault {
    /// The number of ringers is not 1 to 14.
    #[error("the number of ringers is not from 1 to 14")]
    Count,
    /// An allocation failed.
    #[error("out of memory")]
    NoMemory,
}

impl From<AllocError> for BellFault {
    fn from(_: AllocError) -> BellFault {
        BellFault::NoMemory
    }
}

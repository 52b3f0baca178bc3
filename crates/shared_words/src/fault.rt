use std::alloc::AllocError;
use thiserror::Error;

/// Why no ring was made.
#[derive(Debug, Drop, Error)]
pub enum RingFault {
    /// The queue is neither 0 nor 1.
    #[error("the number of the queue is neither 0 nor 1")]
    Queue,
    /// The size is not a power of two from 2 to 32,768.
    #[error("the size of the ring is not a power of two from 2 to 32768")]
    Size,
    /// The length is not a multiple of 64 from 64 to 4,096.
    #[error("the length of the buffers is not a multiple of 64 from 64 to 4096")]
    Length,
    /// An allocation failed.
    #[error("out of memory")]
    NoMemory,
}

impl From<AllocError> for RingFault {
    fn from(_: AllocError) -> RingFault {
        RingFault::NoMemory
    }
}

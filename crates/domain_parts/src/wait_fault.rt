//! Why a wait ended no request.

use mc_base::Refusal;
use thiserror::Error;

/// Why a wait ended no request.
#[derive(Clone, Copy, Debug, Error)]
pub enum WaitFault {
    /// `RequestInvalid` where one of its requests does not exist, or `Timeout` where it made all its turns and none of them is
    /// complete.
    #[error(transparent)]
    Refused(Refusal),
    /// The journal could not grow for the next turn.
    #[error("out of memory")]
    NoMemory,
}

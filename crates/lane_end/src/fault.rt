ghost use Rattle.std.specs.Prelude.{◌≡◌};
ghost use Rattle.lane_end.specs.declared.fault.LaneFault.TheVariants.{NoMemory};

use std::alloc::AllocError;
use thiserror::Error;

/// Why a lane was not made.
#[derive(Debug, Drop, Error)]
pub enum LaneFault {
    /// The size is not from 1 to 256.
    #[error("the size of a lane is not from 1 to 256 buffers")]
    Size,
    /// An allocation failed.
    #[error("out of memory")]
    NoMemory,
}

impl From<AllocError> for LaneFault {
    ghost from_gives = { λ _ e. e ≡ NoMemory };

    fn from(_: AllocError) -> LaneFault {
        LaneFault::NoMemory
    }
}

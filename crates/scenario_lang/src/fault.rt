//! Why a scenario file is not read.

use board_model::LineReason;
use thiserror::Error;

/// Why a scenario file is not read.
#[derive(Clone, Copy, Debug, PartialEq, Eq, Error)]
pub enum ScenarioFault {
    /// The line, counted from 1, is refused.
    #[error("line {line} is refused: {reason}")]
    Refused { line: u32, reason: LineReason },
    /// An allocation failed, which may happen at any time.
    #[error("out of memory")]
    NoMemory,
}

/// Why reading stopped inside a line, where memory is taken. A reader that takes none returns a `LineReason`.
#[derive(Clone, Copy)]
pub(crate) enum LineFault {
    Refused(LineReason),
    NoMemory,
}

impl From<LineReason> for LineFault {
    ghost use Rattle.std.specs.Prelude.{◌≡◌};
    ghost use Rattle.scenario_lang.specs.declared.fault.LineFault.TheVariants as line_fault;

    ghost from_gives = { λ reason e. e ≡ line_fault.Refused reason };

    fn from(reason: LineReason) -> LineFault {
        LineFault::Refused(reason)
    }
}

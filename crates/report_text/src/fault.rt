use mc_base::NoMemory;
use thiserror::Error;

/// Why the text of a report is not read.
#[derive(Clone, Copy, Debug, PartialEq, Eq, Error)]
pub enum TextFault {
    /// The line, counted from 1, is the first that the format does not allow at its place. A text that ends too early is wrong at the
    /// line behind its last.
    #[error("line {line} is not allowed at its place")]
    Wrong { line: u32 },
    /// An allocation failed, which may happen at any time.
    #[error("out of memory")]
    NoMemory,
}

impl From<NoMemory> for TextFault {
    ghost use Rattle.std.specs.Prelude.{◌≡◌};
    ghost use Rattle.report_text.specs.declared.fault.TextFault.TheVariants as text_fault;

    ghost from_gives = { λ none fault. fault ≡ text_fault.NoMemory };

    fn from(_: NoMemory) -> TextFault {
        TextFault::NoMemory
    }
}

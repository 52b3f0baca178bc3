//! Why an input text is refused.

ghost use Rattle.std.specs.Prelude.{◌≡◌};
ghost use Rattle.actor_lang.specs.declared.fault.InputFault.TheVariants as refusal;

use thiserror::Error;

/// Why a line of an input text is refused. Its text is the word that the formats have for it (docs/FORMATS.md, "Text of a relay" and "Text
/// of numbered calls").
#[derive(Clone, Copy, Debug, PartialEq, Eq, Error)]
pub enum InputReason {
    /// The line has other words than it must, or not one space between them. A text without a byte has this reason at line 1.
    #[error("form")]
    Form,
    /// A number isn't written in decimal without leading zeros, or is out of its range.
    #[error("number")]
    Number,
    /// The line stands behind 100,000 packets or calls.
    #[error("many")]
    Many,
    /// A packet isn't written in pairs of hexadecimal digits or as a dash, has more than 8,192 bytes, or needs more frames than a ring has.
    #[error("bytes")]
    Bytes,
}

/// Why an input text is not read.
#[derive(Clone, Copy, Debug, PartialEq, Eq, Error)]
pub enum InputFault {
    /// The line, counted from 1, is refused.
    #[error("line {line} is refused: {reason}")]
    Refused { line: u32, reason: InputReason },
    /// An allocation failed, which may happen at any time.
    #[error("out of memory")]
    NoMemory,
}

impl InputFault {
    /// The fault of a line.
    pub(crate) fn at(line: u32, reason: InputReason) -> InputFault
        ensures { result ≡ refusal.Refused line reason }
    {
        InputFault::Refused { line, reason }
    }
}

/// The number of the last line that may be a packet or a call: 100,000 of them stand behind the first line.
pub(crate) const LAST_LINE: u32 = 100_001;

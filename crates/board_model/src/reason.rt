use thiserror::Error;

/// Why a line of a scenario file is refused (docs/FORMATS.md, "Scenario files"). Of several reasons, the first in this order counts.
#[derive(Clone, Copy, Debug, PartialEq, Eq, Error)]
pub enum LineReason {
    /// A byte is outside 0x20 to 0x7e, and no tab.
    #[error("a byte is neither printable ASCII nor a tab")]
    Byte,
    /// The line has more than 20,000 bytes.
    #[error("the line has more than 20,000 bytes; split it")]
    Long,
    /// The words fit no form.
    #[error("the words fit no form")]
    Form,
    /// A number isn't written in decimal without leading zeros, or is out of its range.
    #[error("a number is out of its range, or has a sign or leading zeros")]
    Number,
    /// Bytes have an odd number of digits or other digits, or are more than 9,000, or those of a raw frame are not 1 to 512.
    #[error("bytes are not hexadecimal digits, two a byte, or are too many: at most 9,000, and 1 to 512 in a raw frame")]
    Bytes,
    /// A domain line comes after a link or call line, or a link line after a call line.
    #[error("a domain line comes after a link or call line, or a link line after a call line")]
    Order,
    /// A domain is declared twice, or a link or call line names one that no line above declares. A file that declares no
    /// domain has this reason at the line after its last.
    #[error("a domain is declared twice, or not declared above")]
    Domain,
    /// A domain is linked to itself, a pair is linked twice, or a size is no power of two from 2 to 256.
    #[error("a domain is linked to itself, a pair is linked twice, or the size is not a power of two from 2 to 256")]
    Link,
    /// A label is introduced twice in its domain, or by a call that takes none; or one is used that no line of the same domain
    /// above introduces by a call of the right kind.
    #[error("a label is set twice, stands where none may, or is not set above by the same domain")]
    Label,
    /// A raw frame has no fault.
    #[error("the raw frame has no fault; only faulty frames are put raw")]
    Sound,
}

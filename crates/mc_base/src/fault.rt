use thiserror::Error;

/// What is wrong with a frame, before its payload is looked at.
#[derive(Clone, Copy, Debug, PartialEq, Eq, Error)]
pub enum FrameFault {
    /// Fewer than 16 bytes.
    #[error("the frame has fewer than the 16 bytes of its header")]
    FrameShort,
    /// More than 512 bytes.
    #[error("the frame has more than 512 bytes")]
    FrameLong,
    /// The header's length is more than what follows the header.
    #[error("the header's length is more than what follows the header")]
    HeaderLen,
}

/// What is wrong with the payload of a frame to an endpoint.
#[derive(Clone, Copy, Debug, PartialEq, Eq, Error)]
pub enum LetterFault {
    /// Fewer than 8 bytes.
    #[error("the payload has fewer than the 8 bytes of its header")]
    PayloadShort,
    #[error("the first byte of the payload is not 0x4d")]
    Magic,
    #[error("the version is not 1")]
    Version,
    /// The kind is none of 1 to 10.
    #[error("the kind is none of 1 to 10")]
    Kind,
    #[error("the argument does not fit the kind")]
    Argument,
    #[error("the channel number does not fit the kind")]
    Channel,
    /// The content has another length than its kind allows.
    #[error("the content has another length than its kind allows")]
    Size,
}

/// What is wrong with the payload of a frame to the name service.
#[derive(Clone, Copy, Debug, PartialEq, Eq, Error)]
pub enum NsFault {
    /// The payload has not 40 bytes.
    #[error("the announcement does not have 40 bytes")]
    NsSize,
    /// The flags are neither 0 nor 1.
    #[error("the flags of the announcement are neither 0 nor 1")]
    NsFlags,
    /// The name is empty or has a byte outside 0x20 to 0x7e.
    #[error("the name is empty or has a byte outside 0x20 to 0x7e")]
    NsName,
}

/// The first thing that is wrong with a frame.
#[derive(Clone, Copy, Debug, PartialEq, Eq, Error)]
pub enum Fault {
    #[error(transparent)]
    Frame(FrameFault),
    #[error(transparent)]
    Letter(LetterFault),
    #[error(transparent)]
    Ns(NsFault),
}

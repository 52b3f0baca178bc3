use thiserror::Error;

/// What a channel carries.
#[derive(Clone, Copy, Debug, PartialEq, Eq)]
pub enum Kind {
    Packet,
    Scalar,
}

/// Which end of a channel.
#[derive(Clone, Copy, Debug, PartialEq, Eq)]
pub enum Side {
    Sender,
    Receiver,
}

/// How many bits a scalar has.
#[derive(Clone, Copy, Debug, PartialEq, Eq)]
pub enum Bits {
    B8,
    B16,
    B32,
    B64,
}

/// Why a connection was rejected.
#[derive(Clone, Copy, Debug, PartialEq, Eq, Error)]
pub enum Reason {
    /// No live endpoint has the address.
    #[error("no live endpoint has the address")]
    NoEndpoint,
    /// The endpoint has a channel.
    #[error("the endpoint has a channel already")]
    Connected,
    /// The endpoint's queue is not empty, or a receive is waiting.
    #[error("the endpoint has queued messages or a waiting receive")]
    Busy,
}

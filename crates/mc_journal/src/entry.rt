//! The entries of a journal, as they are noted and read.

use mc_base::{Fate, Reason, Refusal};

/// How a request ended.
#[derive(Clone, Copy, Debug)]
pub enum Told<'a> {
    /// The address of the endpoint that was looked up.
    Address(u32),
    /// The connection was accepted.
    Accepted,
    /// The connection was rejected.
    Rejected(Reason),
    /// The size of a message or packet in bytes, and those of its bytes that the caller got.
    Bytes { size: u32, bytes: &'a [u8] },
    /// The request ended with a refusal.
    Ended(Refusal),
}

/// The answer of a call.
#[derive(Clone, Copy, Debug)]
pub enum Answer<'a> {
    Refused(Refusal),
    Ok,
    /// `Ok` with one number.
    Number(u64),
    /// The request of a connection, and the number of its channel, which its domain counts from 1.
    Channel { request: u64, channel: u32 },
    /// The size of a message in bytes, and those of its bytes that the caller got.
    Bytes { size: u32, bytes: &'a [u8] },
    /// A request ended. The place, counted from 1, is that of the request among those that a wait for one of several names.
    Done { place: Option<u8>, result: Told<'a> },
}

/// An entry of a journal. A peer is named by its domain's number, 0 to 7.
#[derive(Clone, Copy, Debug)]
pub enum Entry<'a> {
    /// A turn that was not idle. What it did follows.
    Turn,
    /// Buffers that came back from a peer.
    Back {
        peer: u8,
        count: u32,
    },
    /// A frame that was put to a peer.
    Put {
        peer: u8,
        frame: &'a [u8],
    },
    /// Frames of a peer that a look showed.
    See {
        peer: u8,
        count: u32,
    },
    /// A frame that was taken from a peer, and what became of it.
    Take {
        peer: u8,
        frame: &'a [u8],
        fate: Fate,
    },
    /// Turns in a row in which nothing happened.
    Idle {
        turns: u64,
    },
    /// A call that was refused with this word and is made again.
    Again {
        word: Refusal,
    },
    /// Calls in a row that were refused with this word and are made again, each after one idle turn.
    Spin {
        times: u64,
        word: Refusal,
    },
    /// The wait of a line began: its requests exist, and none of them is complete. Its turns follow.
    WaitStart {
        number: u32,
    },
    /// A call, by the number of its line, and its answer.
    Called {
        number: u32,
        answer: Answer<'a>,
    },
}

//! Where a client stands.

use board_model::CallLine;
use call_logs::Got;

/// Which line a client asked for last.
#[derive(Clone, Copy, Debug)]
pub enum ClientPlace {
    /// None yet.
    New,
    /// The create of its endpoint.
    Created,
    /// The lookup of the server's.
    LookedUp,
    /// The wait for it.
    Waited,
    /// The send of the call at this place, counted from 0, for so many times, from 1 on.
    Sent { call: u32, times: u8 },
    /// The receive of its reply, for so many times, from 1 on.
    Received { call: u32, times: u8 },
    /// The send of its bye.
    Left,
    /// None any more.
    Ended,
}

/// Where a client goes.
#[derive(Drop)]
pub struct Going {
    pub place: ClientPlace,
    /// The first reply to its call.
    pub first: [u8; 16],
    /// What it got now.
    pub got: Option<Got>,
    pub line: Option<CallLine>,
}

/// Which line the server asked for last.
#[derive(Clone, Copy, Debug)]
pub enum ServerPlace {
    /// None yet.
    New,
    /// The create of its endpoint.
    Created,
    /// The lookup of this client's endpoint.
    LookedUp(u8),
    /// The wait for it.
    Waited(u8),
    /// The receive of a message.
    Receiving,
    /// The send of a reply.
    Replying,
    /// None any more.
    Ended,
}

/// Where the server goes.
#[derive(Drop)]
pub struct ServerStep {
    pub place: ServerPlace,
    pub line: Option<CallLine>,
}

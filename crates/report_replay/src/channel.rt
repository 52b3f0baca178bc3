use mc_base::{Kind, Side};

/// How far an end of a channel is.
#[derive(Clone, Copy, Debug, PartialEq, Eq)]
pub enum Stage {
    Connecting,
    Connected,
    Open,
    Closed,
}

/// One end of a channel.
#[derive(Clone, Copy, Debug)]
pub struct ChannelEnd {
    pub(crate) side: Side,
    pub(crate) kind: Kind,
    pub(crate) owner: u8,
    pub(crate) number: u32,
    pub(crate) peer: u8,
    pub(crate) peer_address: u32,
    pub(crate) stage: Stage,
    pub(crate) far_open: bool,
    pub(crate) far_closed: bool,
}

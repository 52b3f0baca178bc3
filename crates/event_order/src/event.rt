/// What happened at a domain. A peer is named by its domain's number.
#[derive(Clone, Copy, Debug)]
pub enum What {
    /// A frame was put to a peer.
    Put { peer: u8 },
    /// A frame was taken from a peer.
    Take { peer: u8 },
    /// Buffers were given back to a peer.
    Give { peer: u8, count: u32 },
    /// Buffers came back from a peer.
    Back { peer: u8, count: u32 },
    /// The wait of a call began. Calls are counted from 0 over all domains, in the scenario's order.
    Wait { call: u32 },
    /// A call was refused and is made again.
    Again,
    /// A call was answered.
    Answer { call: u32, refused: bool },
}

/// Something that a report says of a domain.
#[derive(Clone, Copy, Debug)]
pub struct Event {
    pub domain: u8,
    pub what: What,
    /// Its place among the events of the report, counted from 0.
    pub number: u32,
    /// The line of the report that says it, counted from 1.
    pub line: u32,
    /// Where that line begins in the report, in bytes.
    pub place: u32,
}

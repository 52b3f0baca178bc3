/// A call that a line may make (docs/FORMATS.md, "Scenario files"). The table of forms in `specs/Forms.antt` has a row for each.
#[derive(Clone, Copy, Debug, PartialEq, Eq)]
pub enum Callee {
    Create,
    Delete,
    Lookup,
    MsgSend,
    MsgRecv,
    MsgRecvI,
    MsgAvailable,
    Connect,
    OpenSend,
    OpenRecv,
    PktSend,
    PktRecv,
    PktRecvI,
    Release,
    SclSend,
    SclRecv,
    CloseSend,
    CloseRecv,
    Test,
    Wait,
    WaitAny,
    Cancel,
    Raw,
    Turn,
}

/// What an argument of a call is.
#[derive(Clone, Copy, PartialEq, Eq)]
pub enum ArgumentKind {
    /// PORT: the port of an endpoint of the caller's node, 0 to 65535.
    Port,
    /// D:N:P: the name of an endpoint.
    Name,
    /// PRIO: 0 to 3.
    Priority,
    /// BYTES: at most 9,000.
    Content,
    /// MAX: 0 to 9000.
    Maximum,
    /// KIND: `packet` or `scalar`.
    ChannelKind,
    /// BITS: 8, 16, 32 or 64.
    ScalarBits,
    /// VALUE: a number of as many bits as BITS before it says.
    ScalarValue,
    /// LABEL: that of a request.
    RequestLabel,
    /// LABEL,LABEL: one to eight, each that of a request, with commas between them.
    RequestLabels,
    /// LABEL: that of a packet.
    PacketLabel,
    /// LIMIT: 0 to 4294967295.
    Limit,
    /// D: the number of a domain, 0 to 7.
    PeerDomain,
    /// BYTES: 1 to 512, a frame that is put as it is.
    RawFrame,
}

/// What a domain did with a frame that it took: a variant for each word.
#[derive(Clone, Copy, Debug, PartialEq, Eq)]
pub enum Fate {
    FrameShort,
    FrameLong,
    HeaderLen,
    PayloadShort,
    Magic,
    Version,
    Kind,
    Argument,
    Channel,
    Size,
    NsSize,
    NsFlags,
    NsName,
    /// The name is none of the peer's endpoints.
    ForeignName,
    /// 64 names of the peer are known already.
    NamesFull,
    /// The name that is gone was not known.
    UnknownName,
    /// 64 replies to the peer are owed already.
    RepliesFull,
    /// It was acted on.
    Acted,
    /// A reply is owed from now on.
    Owed,
    /// No live endpoint has the address.
    NoEndpoint,
    /// The endpoint is on a channel, and takes no message.
    OnChannel,
    /// It went to a waiting receive.
    Handed,
    /// It is last in the queue.
    Queued,
    /// The receiver closed its end before.
    Closed,
    /// It is out of place.
    State,
    /// It is held until the rest of its item comes.
    Part,
    /// It goes on with no open item.
    Stray,
}

ghost use Rattle.std.specs.Prelude.{◌≡◌};
ghost use Rattle.report_replay.specs.Verdicts.{word_of};

use crate::channel::ChannelEnd;
use crate::peer::Reply;
use mc_base::{EndName, Fate, Reason};

/// What is to be done by a frame that is taken from a peer.
#[derive(Clone, Copy)]
pub(crate) enum Verdict {
    /// The item that it brings is kept at an endpoint: the oldest receive that waits there is complete with it where `hands`, and else it is
    /// last in the queue.
    Keep { at: u32, hands: bool },
    /// Its buffer is given back, and this is done.
    Act(Action),
}

/// What is to be done by a frame of which nothing is kept.
#[derive(Clone, Copy)]
pub(crate) enum Action {
    /// Nothing. The frame has this word.
    Nothing(Fate),
    /// The peer's name has this address from now on, and lookups of it are complete.
    Learn {
        name: EndName,
        address: u32,
    },
    /// The peer's name is forgotten.
    Forget {
        name: EndName,
    },
    /// The peer is owed a reply.
    Owe {
        reply: Reply,
    },
    /// An endpoint has a channel from now on, and the peer is owed a reply.
    Accept {
        at: u32,
        end: ChannelEnd,
        reply: Reply,
    },
    /// An item is lost, since the end of the channel is closed.
    Lose {
        at: u32,
    },
    /// An endpoint has this channel from now on, or none.
    Set {
        at: u32,
        left: Option<ChannelEnd>,
    },
    /// The same, and the request to connect on the channel is complete: rejected with a reason, or accepted.
    Settle {
        at: u32,
        left: Option<ChannelEnd>,
        number: u32,
        rejected: Option<Reason>,
    },
    /// The same, and receives that wait there end, since the sender closed the channel.
    EndReceives {
        at: u32,
        left: Option<ChannelEnd>,
    },
}

impl Action {
    /// The word of the frame.
    pub(crate) fn word(&self) -> Fate
        ensures { result ≡ word_of self.now }
    {
        match *self {
            Action::Nothing(word) => word,
            Action::Learn { .. } | Action::Forget { .. } => Fate::Acted,
            Action::Owe { .. } | Action::Accept { .. } => Fate::Owed,
            Action::Lose { .. } => Fate::Closed,
            Action::Set { .. } | Action::Settle { .. } | Action::EndReceives { .. } => Fate::Acted,
        }
    }
}

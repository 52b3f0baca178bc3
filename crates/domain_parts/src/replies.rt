//! The replies that are owed to a peer.

ghost use Rattle.std.specs.Prelude.{◌≡◌, ◌<◌, ◌==◌, [], ◌∷◌, ◌++◌, IfOk, IfSome, drop, length, nat_le, slice_get};
ghost use Rattle.mc_base.specs.Limits.{reply_limit};

use mc_base::{MAX_OWED_REPLIES, NoMemory, Reason};
use std::alloc::Global;
use std::collections::VecDeque;
use std::marker::Model;

/// The reply to a Connect: an Accept, or a Reject where `reason` is not `None`. It goes from the address to which the Connect was
/// sent, `source`, to the one from which it came, `destination`, and names the Connect's channel.
#[derive(Clone, Copy, Debug, PartialEq, Eq)]
pub struct Reply {
    pub source: u32,
    pub destination: u32,
    pub channel: u32,
    pub reason: Option<Reason>,
}

/// The replies that are owed to a peer, the oldest first: at most 64. Only making the list allocates.
#[derive(Debug, Drop)]
pub struct Replies {
    owed: VecDeque<Reply>,
}

impl Model for Replies {
    ghost use Rattle.std.specs.Prelude.{List};
    ghost use Rattle.domain_parts.specs.declared.replies.Reply.{Reply};
    ghost use Rattle.domain_parts.specs.InReplies.{AreLawful};

    ghost Value = { List Reply };

    ghost view = { λ r. r.owed.items };

    ghost invariant = { AreLawful };
}

impl Replies {
    /// Makes an empty list with room for 64 replies.
    ///
    /// # Errors
    ///
    /// `NoMemory` where an allocation fails.
    pub fn new(alloc: Global) -> Result<Replies, NoMemory>
        ensures { IfOk result (λ r. r ≡ []) }
    {
        let Ok(owed) = VecDeque::with_capacity(alloc, MAX_OWED_REPLIES) else {
            return Err(NoMemory);
        };
        Ok(Replies { owed })
    }

    /// Returns whether no reply is owed.
    pub fn is_empty(&self) -> bool
        ensures { result ≡ (length self.now == 0) }
    {
        self.owed.is_empty()
    }

    /// Returns whether 64 replies are owed.
    pub fn is_full(&self) -> bool
        ensures { result ≡ nat_le reply_limit (length self.now) }
    {
        self.owed.len() >= MAX_OWED_REPLIES
    }

    /// Returns the oldest reply, or `None` where none is owed.
    pub fn first(&self) -> Option<Reply>
        ensures first { result ≡ slice_get self.now 0 }
        ensures lawful { IfSome result (λ r. 0 < r.channel) }
    {
        Some(*self.owed.front()?)
    }

    /// Appends a reply. Fewer than 64 are owed, and its channel is not 0.
    pub fn push(&mut self, reply: Reply)
        requires few { length self.old < reply_limit }
        requires lawful { 0 < reply.channel }
        ensures { self.new ≡ self.old ++ reply ∷ [] }
    {
        self.owed.push_back_reserved(reply);
    }

    /// Removes the oldest reply, where one is owed.
    pub fn remove_first(&mut self)
        ensures { self.new ≡ drop 1 self.old }
    {
        self.owed.pop_front();
    }
}

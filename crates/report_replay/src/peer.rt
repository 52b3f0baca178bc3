ghost use Rattle.std.specs.Prelude.{◌≡◌, OnOk};
ghost use Rattle.std.specs.List.{list_any};
ghost use Rattle.board_model.specs.State.{tells_gone};
ghost use Rattle.board_model.specs.Change.{also_owed, first_put};
ghost use Rattle.report_replay.specs.Views.{announcement_of};

use crate::names::Names;
use crate::part::Part;
use mc_base::{Local, NoMemory, Reason};
use std::marker::Model;

/// What a linked domain is to be told: that an endpoint is there from now on (`create`), or gone.
#[derive(Clone, Copy, Debug)]
pub struct Announcement {
    pub(crate) local: Local,
    pub(crate) address: u32,
    pub(crate) create: bool,
}

/// The answer that is owed to a Connect: an Accept of the channel, or a Reject with its reason.
#[derive(Clone, Copy, Debug)]
pub struct Reply {
    pub(crate) source: u32,
    pub(crate) destination: u32,
    pub(crate) channel: u32,
    pub(crate) reason: Option<Reason>,
}

/// A peer, the domain itself among them: its lanes, what is owed to it, the names that are known of it, and its open part, if there is one.
#[derive(Debug, Drop)]
pub struct Peer {
    pub(crate) number: u8,
    pub(crate) size: u32,
    pub(crate) free: u32,
    pub(crate) shown: u32,
    pub(crate) announcements: Vec<Announcement>,
    pub(crate) replies: Vec<Reply>,
    pub(crate) known: Names,
    pub(crate) part: Option<Part>,
}

impl Model for Peer {
    ghost use Rattle.std.specs.Prelude.{map};
    ghost use Rattle.board_model.specs.State.{Peer as Plain};
    ghost use Rattle.report_replay.specs.Views.{announcement_of, reply_of};

    ghost Value = { Plain };

    ghost view = { λ p. record { number = p.number; size = p.size; free = p.free; shown = p.shown; announcements = map announcement_of p.announcements.items; replies = map reply_of p.replies.items; known = p.known; part = p.part } };
}

impl Peer {
    /// Whether it is still to be told that the endpoint with this address is gone.
    pub(crate) fn is_owed_end(&self, address: u32) -> bool
        ensures { result ≡ list_any (tells_gone address) self.now.announcements }
    {
        tells_end(&self.announcements, address)
    }

    /// Owes an announcement of a domain to it, unless it is that domain.
    pub(crate) fn owe(&mut self, domain: u8, announcement: Announcement) -> Result<(), NoMemory>
        ensures { OnOk result (self.new ≡ also_owed domain (announcement_of announcement) self.old) }
    {
        if self.number == domain {
            return Ok(());
        }
        let Ok(()) = self.announcements.push(announcement) else {
            return Err(NoMemory);
        };
        Ok(())
    }

    /// The first frame that is owed to it is put, an announcement before replies.
    pub(crate) fn put_first(&mut self)
        ensures { self.new ≡ first_put self.old }
    {
        self.free = self.free.saturating_sub(1);
        if !self.announcements.is_empty() {
            self.announcements.remove(0);
        } else if !self.replies.is_empty() {
            self.replies.remove(0);
        }
    }
}

/// Whether one of these announcements tells that the endpoint with this address is gone.
fn tells_end(announcements: &[Announcement], address: u32) -> bool
    ensures { result ≡ list_any (λ a. tells_gone address (announcement_of a)) announcements.now }
{
    announcements
        .iter()
        .any(|a| !a.create && a.address == address)
}

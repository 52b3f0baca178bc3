//! The calls that make, open and close channels.

ghost use Rattle.std.specs.Prelude.{◌≡◌, ◌≤◌, ◌+◌, None};
ghost use Rattle.mc_base.specs.declared.channel.Side.TheVariants.{Receiver, Sender};
ghost use Rattle.board_model.specs.DomainCall.{close_at, connect_from, open_at};
ghost use Rattle.domain_parts.specs.Calls.{Calls, connected, deleted, given_by, sent};
ghost use Rattle.domain_parts.specs.Ends.{EndsMoved};
ghost use Rattle.board_model.specs.Queues.{queued_on};
ghost use Rattle.domain_parts.specs.Room.{call_bytes, call_entries};

use crate::domain::Domain;
use lane_end::{RecvEnd, SendEnd};
use mc_base::{EndName, Kind, Local, Refusal, RequestId, Side};
use mc_journal::Journal;

impl<S: SendEnd, R: RecvEnd> Domain<S, R> {
    /// Connects a channel from an endpoint, its sender, to the named one, its receiver. Returns a request and the number of the
    /// channel, which this domain counts from 1 and never uses again. The request becomes complete when the reply of the
    /// receiver's domain is taken, an Accept or a Reject.
    ///
    /// # Errors
    ///
    /// - `EndpInvalid`: the endpoint `from` does not exist.
    /// - `ChanConnected`: it has a channel.
    /// - `EndpBusy`: a message is queued there, or a receive waits there.
    /// - `PeerInvalid`: the endpoint `to` neither exists in this domain nor is known from a linked one.
    /// - `ChanLimit`: this domain has numbered 65,535 channels.
    /// - `RequestLimit`: 64 requests exist.
    /// - `NoBuffer`: no buffer of the lane to the receiver's domain is free after the turn.
    pub fn connect(
        &mut self,
        journal: &mut Journal,
        from: Local,
        to: EndName,
        kind: Kind,
    ) -> Result<(RequestId, u32), Refusal>
        requires entry_room { call_entries ≤ journal.old.entry_room }
        requires byte_room { call_bytes ≤ journal.old.byte_room }
        ensures call { Calls (EndsMoved S.Moved R.Moved) from.node (connect_from from.port to kind) self.old self.new journal.old.lines journal.new.lines (connected result) (given_by result) }
        ensures entry_room { journal.old.entry_room ≤ journal.new.entry_room + call_entries }
        ensures byte_room { journal.old.byte_room ≤ journal.new.byte_room + call_bytes }
    {
        self.inside.take_turn(journal);
        self.inside.begin_connect(journal, from, to, kind)
    }

    /// Opens the sender's end of an endpoint's channel, for packets or for scalars. A SendOpen is sent to the receiver's end.
    ///
    /// # Errors
    ///
    /// - `EndpInvalid`: the endpoint does not exist.
    /// - `NotConnected`: it has no channel, or its connect has no reply yet.
    /// - `ChanDirection`: it is the receiver.
    /// - `ChanType`: the channel is of the other kind.
    /// - `ChanClosed`: one of the ends is closed.
    /// - `AlreadyOpen`: the end is open.
    /// - `NoBuffer`: no buffer of the lane to the receiver's domain is free after the turn.
    pub fn open_send(&mut self, journal: &mut Journal, at: Local, kind: Kind) -> Result<(), Refusal>
        requires entry_room { call_entries ≤ journal.old.entry_room }
        requires byte_room { call_bytes ≤ journal.old.byte_room }
        ensures call { Calls (EndsMoved S.Moved R.Moved) at.node (open_at at.port Sender kind) self.old self.new journal.old.lines journal.new.lines (sent result) None }
        ensures entry_room { journal.old.entry_room ≤ journal.new.entry_room + call_entries }
        ensures byte_room { journal.old.byte_room ≤ journal.new.byte_room + call_bytes }
    {
        self.inside.take_turn(journal);
        self.inside.open_end(journal, at, Side::Sender, kind)
    }

    /// Opens the receiver's end of an endpoint's channel, for packets or for scalars. A RecvOpen is sent to the sender's end.
    ///
    /// # Errors
    ///
    /// - `EndpInvalid`: the endpoint does not exist.
    /// - `NotConnected`: it has no channel, or it is a sender whose connect has no reply yet.
    /// - `ChanDirection`: it is the sender.
    /// - `ChanType`: the channel is of the other kind.
    /// - `ChanClosed`: the end is closed.
    /// - `AlreadyOpen`: the end is open.
    /// - `NoBuffer`: no buffer of the lane to the sender's domain is free after the turn.
    pub fn open_recv(&mut self, journal: &mut Journal, at: Local, kind: Kind) -> Result<(), Refusal>
        requires entry_room { call_entries ≤ journal.old.entry_room }
        requires byte_room { call_bytes ≤ journal.old.byte_room }
        ensures call { Calls (EndsMoved S.Moved R.Moved) at.node (open_at at.port Receiver kind) self.old self.new journal.old.lines journal.new.lines (sent result) None }
        ensures entry_room { journal.old.entry_room ≤ journal.new.entry_room + call_entries }
        ensures byte_room { journal.old.byte_room ≤ journal.new.byte_room + call_bytes }
    {
        self.inside.take_turn(journal);
        self.inside.open_end(journal, at, Side::Receiver, kind)
    }

    /// Closes the sender's end of an endpoint's channel. A SendClose is sent to the receiver's end, which can still receive what is
    /// queued there. Where the receiver's end is closed too, the channel ends, and the endpoint has none any more.
    ///
    /// # Errors
    ///
    /// - `EndpInvalid`: the endpoint does not exist.
    /// - `NotConnected`: it has no channel, or its connect has no reply yet.
    /// - `ChanDirection`: it is the receiver.
    /// - `ChanClosed`: the end is closed.
    /// - `NoBuffer`: no buffer of the lane to the receiver's domain is free after the turn.
    pub fn close_send(&mut self, journal: &mut Journal, at: Local) -> Result<(), Refusal>
        requires entry_room { call_entries ≤ journal.old.entry_room }
        requires byte_room { call_bytes ≤ journal.old.byte_room }
        ensures call { Calls (EndsMoved S.Moved R.Moved) at.node (close_at at.port Sender) self.old self.new journal.old.lines journal.new.lines (sent result) None }
        ensures entry_room { journal.old.entry_room ≤ journal.new.entry_room + call_entries }
        ensures byte_room { journal.old.byte_room ≤ journal.new.byte_room + call_bytes }
    {
        self.inside.take_turn(journal);
        match self.inside.close_end(journal, at, Side::Sender) {
            Ok(_) => Ok(()), // Nothing is queued at a sender's end.
            Err(word) => Err(word),
        }
    }

    /// Closes the receiver's end of an endpoint's channel, drops the items that are queued there, and returns how many these were.
    /// Their buffers are given back, the oldest first, and items that come later are dropped. Receives that wait there become
    /// complete with `ChanClosed`. A RecvClose is sent to the sender's end. Where the sender's end is closed too, the channel ends,
    /// and the endpoint has none any more.
    ///
    /// # Errors
    ///
    /// - `EndpInvalid`: the endpoint does not exist.
    /// - `NotConnected`: it has no channel, or it is a sender whose connect has no reply yet.
    /// - `ChanDirection`: it is the sender.
    /// - `ChanClosed`: the end is closed.
    /// - `NoBuffer`: no buffer of the lane to the sender's domain is free after the turn.
    pub fn close_recv(&mut self, journal: &mut Journal, at: Local) -> Result<u32, Refusal>
        requires entry_room { call_entries ≤ journal.old.entry_room }
        requires byte_room { call_bytes ≤ journal.old.byte_room }
        ensures call { Calls (EndsMoved S.Moved R.Moved) at.node (close_at at.port Receiver) self.old self.new journal.old.lines journal.new.lines (deleted result) None }
        ensures entry_room { journal.old.entry_room ≤ journal.new.entry_room + call_entries }
        ensures byte_room { journal.old.byte_room ≤ journal.new.byte_room + call_bytes }
    {
        self.inside.take_turn(journal);
        self.inside.close_end(journal, at, Side::Receiver)
    }

    /// Returns how many channels this domain has numbered, 0 to 65,535.
    pub fn channels_given(&self) -> u32
        ensures { result ≡ self.now.state.channels_given }
    {
        self.inside.channels_given()
    }

    /// Returns how many items are queued at the receiver's end of the channel that domain `owner`, its sender's, numbered
    /// `number`. It is 0 where there is no such end here.
    pub fn queued(&self, owner: u8, number: u32) -> u32
        ensures { result ≡ queued_on owner number self.now.state }
    {
        self.inside.queued_on(owner, number)
    }
}

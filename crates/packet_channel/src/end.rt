//! The calls at an end: which are allowed, and what they make of it.

ghost use Rattle.std.specs.Prelude.{◌≡◌, is_none};
ghost use Rattle.board_model.specs.ChannelEnds.{opens, sends, receives, closes, opened_end, closed_end};
ghost use Rattle.packet_channel.specs.End.{end_of, kept_end, may};
ghost use Rattle.packet_channel.specs.Parts.{connected_as};

use crate::channel::{Channel, Stage};
use mc_base::{Kind, Refusal, Side};

impl Channel {
    /// Whether the end may be opened, as this side and for this kind.
    ///
    /// # Errors
    ///
    /// `NotConnected`, `ChanDirection`, `ChanType`, `ChanClosed`, `AlreadyOpen`.
    pub fn may_open(&self, side: Side, kind: Kind) -> Result<(), Refusal>
        ensures { result ≡ may (opens side kind) (end_of self.now) }
    {
        self.is_connected_as(side)?;
        if self.kind != kind {
            return Err(Refusal::ChanType);
        }
        if self.stage == Stage::Closed || (side == Side::Sender && self.far_closed) {
            return Err(Refusal::ChanClosed);
        }
        if self.stage == Stage::Open {
            return Err(Refusal::AlreadyOpen);
        }
        Ok(())
    }

    /// Whether an item of this kind may be sent.
    ///
    /// # Errors
    ///
    /// `NotConnected`, `ChanDirection`, `ChanType`, `ChanClosed`, `NotOpen`.
    pub fn may_send(&self, kind: Kind) -> Result<(), Refusal>
        ensures { result ≡ may (sends kind) (end_of self.now) }
    {
        self.is_connected_as(Side::Sender)?;
        if self.kind != kind {
            return Err(Refusal::ChanType);
        }
        if self.stage == Stage::Closed || self.far_closed {
            return Err(Refusal::ChanClosed);
        }
        if self.stage != Stage::Open || !self.far_open {
            return Err(Refusal::NotOpen);
        }
        Ok(())
    }

    /// Whether an item of this kind may be received, where so many are queued.
    ///
    /// # Errors
    ///
    /// `NotConnected`, `ChanDirection`, `ChanType`, `ChanClosed`, `NotOpen`.
    pub fn may_recv(&self, kind: Kind, queued: u32) -> Result<(), Refusal>
        ensures { result ≡ may (receives kind queued) (end_of self.now) }
    {
        self.is_connected_as(Side::Receiver)?;
        if self.kind != kind {
            return Err(Refusal::ChanType);
        }
        let is_open = self.stage == Stage::Open;
        if self.stage == Stage::Closed || (is_open && queued == 0 && self.far_closed) {
            return Err(Refusal::ChanClosed);
        }
        if !is_open {
            return Err(Refusal::NotOpen);
        }
        Ok(())
    }

    /// Whether the end may be closed, as this side.
    ///
    /// # Errors
    ///
    /// `NotConnected`, `ChanDirection`, `ChanClosed`.
    pub fn may_close(&self, side: Side) -> Result<(), Refusal>
        ensures { result ≡ may (closes side) (end_of self.now) }
    {
        self.is_connected_as(side)?;
        if self.stage == Stage::Closed {
            return Err(Refusal::ChanClosed);
        }
        Ok(())
    }

    /// Opens the end. `may_open` has to allow it.
    pub fn opened(&mut self)
        ensures opened { end_of self.new ≡ opened_end (end_of self.old) }
        ensures number { self.new.number ≡ self.old.number }
    {
        self.stage = Stage::Open;
    }

    /// Closes the end, and returns whether the channel ended: the other end was closed before. `may_close` has to allow it.
    pub fn closed(&mut self) -> bool
        ensures ended { result ≡ is_none (closed_end (end_of self.old)) }
        ensures left { kept_end self.new ≡ closed_end (end_of self.old) }
        ensures number { self.new.number ≡ self.old.number }
    {
        self.stage = Stage::Closed;
        self.far_closed
    }

    /// Whether the channel ended.
    pub fn has_ended(&self) -> bool
        ensures { result ≡ is_none (kept_end self.now) }
    {
        self.stage == Stage::Closed && self.far_closed
    }

    /// Whether the connection was accepted and this is the named side.
    fn is_connected_as(&self, side: Side) -> Result<(), Refusal>
        ensures { result ≡ connected_as side (end_of self.now) }
    {
        if self.stage == Stage::Connecting {
            return Err(Refusal::NotConnected);
        }
        if self.side != side {
            return Err(Refusal::ChanDirection);
        }
        Ok(())
    }
}

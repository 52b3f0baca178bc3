//! A domain at the end of its run.

ghost use Rattle.std.specs.Prelude.{◌≡◌};
ghost use Rattle.board_numbers.specs.EndedDomains.{Ended};
ghost use Rattle.board_model.specs.Queues.{queued_on};

/// A domain that has ended its run, as far as the numbers of its channels need it.
pub trait EndedDomain {
    /// Its number, the lines of its journal, and its state.
    ghost ended: { Self → Ended };

    /// Returns the domain's number.
    fn number(&self) -> u8
        ensures { result ≡ (ended self.now).number };

    /// Returns how many channels the domain numbered.
    fn channels_given(&self) -> u32
        ensures { result ≡ (ended self.now).state.channels_given };

    /// Returns how many items are queued at the domain's receiving end of a channel, 0 where it has none.
    fn queued(&self, owner: u8, number: u32) -> u64
        ensures { result ≡ queued_on owner number (ended self.now).state };
}

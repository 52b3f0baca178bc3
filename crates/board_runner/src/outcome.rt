//! The outcome of a run.

use board_model::{ChannelTotals, LanePlaces, Seq, Totals};
use domain_core::Journal;
use split_ring::Closed;

/// What a run left, in the order of the report.
#[derive(Debug, Drop)]
pub struct Outcome {
    /// The journal of each domain, in rising number.
    pub journals: Seq<Journal>,
    /// After a run on threads the two finished rings of each link, in the order of the links: queue 0, from the link's device to
    /// its driver, and then queue 1. After a serial run none, since it finishes no ring.
    pub rings: Seq<Closed>,
    /// Where the buffers of each lane are: by rising sender, and then by rising receiver.
    pub places: Seq<LanePlaces>,
    /// What became of the items of each channel: by the sender's domain, and then by the channel's number.
    pub channels: Seq<ChannelTotals>,
    /// What became of the messages of the board.
    pub messages: Totals,
}

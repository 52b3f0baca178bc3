//! A domain on its way through its script.

use board_model::Label;
use board_numbers::EndedDomain;
use domain_core::{Domain, Journal};
use mc_base::{PacketId, RequestId};
use station_ends::{StationRecv, StationSend};
use std::collections::HashMap;

/// A domain with its number, its journal, the ids of the requests that were given for labels and of the packets that were lent under
/// them, how many of its lines were called, and how many messages its deletes dropped.
#[derive(Drop)]
pub struct Station<'a> {
    pub domain: Domain<StationSend<'a>, StationRecv<'a>>,
    pub domain_number: u8,
    pub journal: Journal,
    pub ids: HashMap<Label, RequestId>,
    pub packets: HashMap<Label, PacketId>,
    pub number: u32,
    pub dropped: u64,
}

impl EndedDomain for Station<'_> {
    ghost use Rattle.board_runner.specs.EndedStations.{ended_station};

    ghost ended = { ended_station };

    fn number(&self) -> u8 {
        self.domain_number
    }

    fn channels_given(&self) -> u32 {
        self.domain.channels_given()
    }

    fn queued(&self, owner: u8, number: u32) -> u64 {
        u64::from(self.domain.queued(owner, number))
    }
}

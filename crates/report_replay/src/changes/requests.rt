//! Changes of the requests and of the packets that are lent.

ghost use Rattle.std.specs.Prelude.{◌≡◌, OnOk, option_map};
ghost use Rattle.board_model.specs.State.{request_at_place, packet_at_place, is_accepted, is_rejected};
ghost use Rattle.board_model.specs.Change.{changed, request_added, item_handed, waiting_ended, name_found, connect_settled, request_gone, packet_lent, packet_gone};
ghost use Rattle.report_replay.specs.Views.{asked_of, outcome_of, settling};

use crate::item::Item;
use crate::lists::take_out;
use crate::request::{Asked, LentPacket, Outcome, Request};
use crate::state::State;
use mc_base::{EndName, NoMemory, Reason, Refusal};

impl State {
    /// Adds a request, complete or not, with the next serial.
    pub(crate) fn add_request(
        &mut self,
        asked: Asked,
        outcome: Option<Outcome>,
    ) -> Result<(), NoMemory>
        ensures { OnOk result (self.new ≡ changed self.old (request_added (asked_of asked) (option_map outcome_of outcome))) }
    {
        let request = Request {
            serial: self.requests_given,
            asked,
            outcome,
        };
        if self.requests.push(request).is_err() {
            return Err(NoMemory);
        }
        self.requests_given = self.requests_given.wrapping_add(1);
        Ok(())
    }

    /// Completes the oldest receive that waits at the endpoint with this address with an item.
    pub(crate) fn hand_item(&mut self, address: u32, item: Item)
        ensures { self.new ≡ changed self.old (item_handed address item) }
    {
        let Some(local) = self.local_of(address) else {
            return;
        };
        if let Some(at) = self.place_of_waiting(local) {
            self.requests[at].complete(Outcome::Item(item));
        }
    }

    /// Ends all receives that wait at the endpoint with this address with a word.
    pub(crate) fn end_waiting(&mut self, address: u32, word: Refusal)
        ensures { self.new ≡ changed self.old (waiting_ended address word) }
    {
        let Some(local) = self.local_of(address) else {
            return;
        };
        for request in self.requests.iter_mut() {
            request.end_waiting(local, word);
        }
    }

    /// Completes the pending lookups of a name with its address.
    pub(crate) fn find_name(&mut self, name: EndName, address: u32)
        ensures { self.new ≡ changed self.old (name_found name address) }
    {
        for request in self.requests.iter_mut() {
            request.find_name(name, address);
        }
    }

    /// Completes the pending requests to connect on a channel of this domain: accepted, or rejected with a reason.
    pub(crate) fn settle_connects(&mut self, number: u32, rejected: Option<Reason>)
        ensures { self.new ≡ changed self.old (connect_settled number (settling rejected)) }
    {
        for request in self.requests.iter_mut() {
            request.settle(number, rejected);
        }
    }

    /// Takes the request at a place away, if there is one.
    pub(crate) fn remove_request(&mut self, place: Option<usize>) -> Option<Request>
        ensures state { self.new ≡ changed self.old (request_gone place) }
        ensures request { result ≡ request_at_place self.old place }
    {
        take_out(&mut self.requests, place)
    }

    /// Lends a packet, with the next serial.
    pub(crate) fn lend(&mut self, item: Item) -> Result<(), NoMemory>
        ensures { OnOk result (self.new ≡ changed self.old (packet_lent item)) }
    {
        let packet = LentPacket {
            serial: self.packets_lent,
            item,
        };
        if self.lent.push(packet).is_err() {
            return Err(NoMemory);
        }
        self.packets_lent = self.packets_lent.wrapping_add(1);
        Ok(())
    }

    /// Takes the lent packet at a place away, if there is one.
    pub(crate) fn remove_packet(&mut self, place: Option<usize>) -> Option<LentPacket>
        ensures state { self.new ≡ changed self.old (packet_gone place) }
        ensures packet { result ≡ packet_at_place self.old place }
    {
        take_out(&mut self.lent, place)
    }
}

//! Changes of the endpoints: their queues and their ends of channels.

ghost use Rattle.std.specs.Prelude.{◌≡◌, ◌<◌, ◌^◌, OnOk, option_and_then, option_map};
ghost use Rattle.mc_base.specs.Limits.{creation_limit};
ghost use Rattle.board_model.specs.State.{endpoint_of};
ghost use Rattle.board_model.specs.Change.{changed, endpoint_made, endpoint_gone, item_queued, best_gone, oldest_gone, channel_set, queue_dropped, channel_given};
ghost use Rattle.board_model.specs.CallChanges.{best_item};
ghost use Rattle.board_model.specs.Choice.{oldest};
ghost use Rattle.report_replay.specs.Views.{end_of};

use crate::channel::ChannelEnd;
use crate::endpoint::Endpoint;
use crate::item::Item;
use crate::lists::insert_rising;
use crate::state::State;
use mc_base::{Local, NoMemory};
use std::alloc::Global;

impl State {
    /// Makes an endpoint with the next address.
    pub(crate) fn make_endpoint(&mut self, alloc: Global, at: Local) -> Result<(), NoMemory>
        requires { self.old.endpoints_given < creation_limit }
        ensures { OnOk result (self.new ≡ changed self.old (endpoint_made at)) }
    {
        let endpoint = Endpoint {
            local: at,
            address: 1024 + self.endpoints_given,
            queue: Vec::new(alloc),
            channel: None,
        };
        if self.endpoints.push(endpoint).is_err() {
            return Err(NoMemory);
        }
        self.endpoints_given += 1;
        Ok(())
    }

    /// Removes the endpoint with this address, with all that is queued there.
    pub(crate) fn remove_endpoint(&mut self, address: u32) -> Result<(), NoMemory>
        ensures { OnOk result (self.new ≡ changed self.old (endpoint_gone address)) }
    {
        self.endpoints.retain(|e| e.address != address);
        insert_rising(&mut self.ended, address)?;
        Ok(())
    }

    /// Queues an item last at the endpoint with this address.
    pub(crate) fn queue_item(&mut self, address: u32, item: Item) -> Result<(), NoMemory>
        ensures { OnOk result (self.new ≡ changed self.old (item_queued address item)) }
    {
        let Some(place) = self.place_of_address(address) else {
            return Ok(());
        };
        let Ok(()) = self.endpoints[place].queue.push(item) else {
            return Err(NoMemory);
        };
        Ok(())
    }

    /// Takes the oldest item of the best priority from the queue of the endpoint with this address.
    pub(crate) fn take_best(&mut self, address: u32) -> Option<Item>
        ensures state { self.new ≡ changed self.old (best_gone address) }
        ensures item { result ≡ option_and_then best_item (endpoint_of self.old address) }
    {
        let place = self.place_of_address(address)?;
        self.endpoints[place].take_best()
    }

    /// Takes the oldest item from the queue of the endpoint with this address.
    pub(crate) fn take_oldest(&mut self, address: u32) -> Option<Item>
        ensures state { self.new ≡ changed self.old (oldest_gone address) }
        ensures item { result ≡ option_and_then (λ e. oldest e.queue) (endpoint_of self.old address) }
    {
        let place = self.place_of_address(address)?;
        self.endpoints[place].take_oldest()
    }

    /// Sets the channel of the endpoint with this address, or takes it away.
    pub(crate) fn set_channel(&mut self, address: u32, channel: Option<ChannelEnd>)
        ensures { self.new ≡ changed self.old (channel_set address (option_map end_of channel)) }
    {
        if let Some(place) = self.place_of_address(address) {
            self.endpoints[place].channel = channel;
        }
    }

    /// Drops all that is queued at the endpoint with this address, and sets its channel or takes it away.
    pub(crate) fn drop_queue(&mut self, address: u32, channel: Option<ChannelEnd>)
        ensures { self.new ≡ changed self.old (queue_dropped address (option_map end_of channel)) }
    {
        if let Some(place) = self.place_of_address(address) {
            let endpoint = &mut self.endpoints[place];
            endpoint.queue.clear();
            endpoint.channel = channel;
        }
    }

    /// Uses the next number of a channel.
    pub(crate) fn give_channel(&mut self)
        requires { self.old.channels_given < 65535 }
        ensures { self.new ≡ changed self.old channel_given }
    {
        self.channels_given += 1;
    }
}

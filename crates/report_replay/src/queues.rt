//! What is queued at the endpoints: messages, and the items of channels.

ghost use Rattle.std.specs.Prelude.{◌≡◌, find, min, sum_by, option_map};
ghost use Rattle.board_model.specs.Queues.{hears, is_receiver_of, messages_at, queued_on};
ghost use Rattle.report_replay.specs.Replayed.{greatest};
ghost use Rattle.report_replay.specs.Views.{end_of};

use crate::channel::ChannelEnd;
use crate::endpoint::Endpoint;
use crate::state::State;
use mc_base::Side;

impl State {
    /// How many messages are queued, or the greatest `u64` where there are more.
    pub fn messages_queued(&self) -> u64
        ensures { result ≡ min greatest (sum_by messages_at self.now.endpoints) }
    {
        messages_in(&self.endpoints)
    }

    /// How many items are queued at the receiver's end of the channel that domain `owner`, its sender's, numbered `number`. It is 0 where
    /// the domain has no such end.
    pub fn queued(&self, owner: u8, number: u32) -> u64
        ensures { result ≡ queued_on owner number self.now }
    {
        match receiver_of(&self.endpoints, owner, number) {
            Some(endpoint) => endpoint.queue.len() as u64,
            None => 0,
        }
    }
}

impl Endpoint {
    /// How many messages are queued. At an endpoint with a channel only its items are.
    fn messages_queued(&self) -> u64
        ensures { result ≡ messages_at self.now }
    {
        if self.channel.is_none() {
            self.queue.len() as u64
        } else {
            0
        }
    }

    /// Whether it has the receiver's end of a channel.
    fn hears(&self, owner: u8, number: u32) -> bool
        ensures { result ≡ hears owner number self.now }
    {
        match &self.channel {
            Some(end) => end.hears_from(owner, number),
            None => false,
        }
    }
}

impl ChannelEnd {
    /// Whether it is the receiver's end of a channel.
    fn hears_from(&self, owner: u8, number: u32) -> bool
        ensures { result ≡ is_receiver_of owner number (Some (end_of self.now)) }
    {
        self.side == Side::Receiver && self.number == number && self.owner == owner
    }
}

/// How many messages are queued at these endpoints.
fn messages_in(endpoints: &[Endpoint]) -> u64
    ensures { result ≡ min greatest (sum_by messages_at endpoints.now) }
{
    let [first, others @ ..] = endpoints else {
        return 0;
    };
    messages_in(others).saturating_add(first.messages_queued())
}

/// The endpoint with the receiver's end of a channel.
fn receiver_of(endpoints: &[Endpoint], owner: u8, number: u32) -> Option<&Endpoint>
    ensures { option_map (λ e. e.now) result ≡ find (hears owner number) endpoints.now }
{
    endpoints.iter().find(|e| e.hears(owner, number))
}

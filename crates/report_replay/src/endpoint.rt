ghost use Rattle.std.specs.Prelude.{◌≡◌, drop, length, min};
ghost use Rattle.board_model.specs.State.{frames_from};
ghost use Rattle.board_model.specs.CallChanges.{best_item};
ghost use Rattle.board_model.specs.Change.{with_queue};
ghost use Rattle.board_model.specs.Choice.{best_place, least, oldest, without_best};
ghost use Rattle.report_replay.specs.Replayed.{greatest};

use crate::channel::ChannelEnd;
use crate::item::{Item, items_from};
use crate::lists::take_out;
use mc_base::Local;
use std::marker::Model;

/// A live endpoint: its name in its domain, its address, its queue, and its end of a channel.
#[derive(Debug, Drop)]
pub struct Endpoint {
    pub(crate) local: Local,
    pub(crate) address: u32,
    pub(crate) queue: Vec<Item>,
    pub(crate) channel: Option<ChannelEnd>,
}

impl Model for Endpoint {
    ghost use Rattle.std.specs.Prelude.{option_map};
    ghost use Rattle.board_model.specs.State.{Endpoint as Plain};
    ghost use Rattle.report_replay.specs.Views.{end_of};

    ghost Value = { Plain };

    ghost view = { λ e. record { local = e.local; address = e.address; queue = e.queue.items; channel = option_map end_of e.channel } };
}

impl Endpoint {
    /// How many frames from a peer brought the items in the queue, or the greatest `u64` where there are more.
    pub(crate) fn queued_from(&self, peer: u8) -> u64
        ensures { result ≡ min greatest (length (frames_from peer self.now.queue)) }
    {
        items_from(&self.queue, peer)
    }

    /// Takes the oldest item of the best priority from the queue.
    pub(crate) fn take_best(&mut self) -> Option<Item>
        ensures endpoint { self.new ≡ with_queue (without_best (λ i. i.priority)) self.old }
        ensures item { result ≡ best_item self.old }
    {
        let place = place_of_best(&self.queue);
        take_out(&mut self.queue, place)
    }

    /// Takes the oldest item from the queue.
    pub(crate) fn take_oldest(&mut self) -> Option<Item>
        ensures endpoint { self.new ≡ with_queue (drop 1) self.old }
        ensures item { result ≡ oldest self.old.queue }
    {
        take_out(&mut self.queue, Some(0))
    }
}

/// The place of the oldest item of the best priority in a queue.
pub(crate) fn place_of_best(queue: &[Item]) -> Option<usize>
    ensures { result ≡ best_place (λ i. i.priority) queue.now }
{
    let least = least_priority(queue);
    queue.iter().position(|item| item.priority == least)
}

/// The least priority number in a queue, and 0 where it is empty.
fn least_priority(queue: &[Item]) -> u8
    ensures { result ≡ least (λ i. i.priority) queue.now }
{
    let Some(first) = queue.first() else {
        return 0;
    };
    let mut least = first.priority;
    for item in queue {
        least = least.min(item.priority);
    }
    least
}

//! Connects that are answered.

ghost use Rattle.std.specs.Prelude.{◌≡◌, ◌<◌, Some, length};
ghost use Rattle.domain_parts.specs.Accepting.{Accepts, busy_at};
ghost use Rattle.domain_parts.specs.Verdicts.{Answers, beside};

use crate::dealing::Way;
use crate::endpoints::Endpoints;
use crate::replies::{Replies, Reply};
use mc_base::{Fate, Kind, Reason};
use packet_channel::Channel;
use request_set::RequestSet;

/// Appends the reply to a Connect to those that are owed to its peer, unless 64 are, and returns the word for it.
#[inline(never)] // Frames of messages, which come more often, stay short.
pub fn answer_connect(
    endpoints: &mut Endpoints,
    requests: &RequestSet,
    replies: &mut Replies,
    way: Way,
    channel: u32,
    kind: Kind,
) -> Fate
    requires numbered { 0 < channel }
    ensures { let old = beside endpoints.old requests.now replies.old in Answers way channel kind result old (beside endpoints.new requests.now replies.new) }
{
    if replies.is_full() {
        return Fate::RepliesFull;
    }
    let reason = match endpoints.place_of_address(way.destination) {
        None => Some(Reason::NoEndpoint),
        Some(place) => {
            let end = Channel::accepted(way.peer, channel, kind, way.peer, way.source);
            accept(endpoints, requests, place, end)
        }
    };
    replies.push(Reply {
        source: way.destination,
        destination: way.source,
        channel,
        reason,
    });
    Fate::Owed
}

/// Lets the endpoint at a place have a channel, or returns why not.
fn accept(
    endpoints: &mut Endpoints,
    requests: &RequestSet,
    place: usize,
    end: Channel,
) -> Option<Reason>
    requires within { place < length endpoints.old.endpoints }
    requires numbered { 0 < end.number }
    ensures { Accepts endpoints.old requests.now place end result endpoints.new }
{
    if endpoints.has_channel(place) {
        return Some(Reason::Connected);
    }
    if is_busy(endpoints, requests, place) {
        return Some(Reason::Busy);
    }
    endpoints.set_channel(place, end);
    None
}

/// Whether an item or a receive waits at the endpoint at a place.
pub fn is_busy(endpoints: &Endpoints, requests: &RequestSet, place: usize) -> bool
    requires within { place < length endpoints.now.endpoints }
    ensures { Some result ≡ busy_at endpoints.now requests.now place }
{
    endpoints.queued_at(place) != 0 || requests.waiting(endpoints.local_at(place)).is_some()
}

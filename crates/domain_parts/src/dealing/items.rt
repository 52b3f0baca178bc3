//! Messages and packets that are whole with a piece.

ghost use Rattle.std.specs.Prelude.{◌≡◌, ◌<◌, ℕ, List, length};
ghost use Rattle.mc_base.specs.Letter.{carried, packet};
ghost use Rattle.domain_parts.specs.declared.replies.Reply.{Reply};
ghost use Rattle.domain_parts.specs.Accepting.{Hears};
ghost use Rattle.domain_parts.specs.InRequests.{AreReceives};
ghost use Rattle.domain_parts.specs.Pieces.{carrier_in};
ghost use Rattle.domain_parts.specs.Verdicts.{Judges, beside};

use crate::dealing::{Verdict, Way, bring, bring_message};
use crate::endpoints::Endpoints;
use crate::parts::Carrier;
use mc_base::{Fate, Letter, Priority};
use request_set::RequestSet;

/// The verdict on a message or packet of this size, whose bytes lie in several buffers.
pub fn judge_item(
    endpoints: &Endpoints,
    requests: &RequestSet,
    way: Way,
    carrier: Carrier,
    size: u32,
) -> Verdict
    requires receives { AreReceives requests.now }
    ensures { (content : List ℕ) (replies : List Reply) → length content ≡ size
        → let at = beside endpoints.now requests.now replies in Judges way (carried (carrier_in carrier) content) result at at }
{
    let Some(place) = endpoints.place_of_address(way.destination) else {
        return Verdict::Returned(Fate::NoEndpoint);
    };
    match carrier {
        Carrier::Message(priority) => bring_message(endpoints, requests, place, priority, size),
        Carrier::Packet(channel) => {
            bring_packet(endpoints, requests, way.peer, place, channel, size)
        }
    }
}

/// Brings a packet of a channel from a peer to the endpoint at a place, unless the channel there does not take it.
fn bring_packet(
    endpoints: &Endpoints,
    requests: &RequestSet,
    peer: u8,
    place: usize,
    channel: u32,
    size: u32,
) -> Verdict
    requires receives { AreReceives requests.now }
    requires within { place < length endpoints.now.endpoints }
    ensures { (content : List ℕ) → length content ≡ size
        → Hears endpoints.now endpoints.now requests.now requests.now peer place (packet channel content) result }
{
    let Some(mut end) = endpoints.channel_at(place) else {
        return Verdict::Returned(Fate::State);
    };
    // What the channel does with a packet does not depend on its bytes.
    let letter = Letter::Packet {
        channel,
        bytes: &[],
    };
    match end.letter(peer, &letter) {
        Fate::Queued => {
            let none = Priority::new(0).unwrap();
            bring(endpoints, requests, place, none, size)
        }
        fate => Verdict::Returned(fate),
    }
}

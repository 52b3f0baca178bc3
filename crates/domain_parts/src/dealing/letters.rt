//! Letters to an end of a channel.

ghost use Rattle.std.specs.Prelude.{◌≡◌, ◌<◌, length};
ghost use Rattle.mc_base.specs.Letter.{plain_letter};
ghost use Rattle.domain_parts.specs.Accepting.{Hears, settled_by, size_of};
ghost use Rattle.domain_parts.specs.InRequests.{AreReceives};
ghost use Rattle.domain_parts.specs.Verdicts.{IsInBounds};

use crate::dealing::{Verdict, bring};
use crate::endpoints::Endpoints;
use crate::requests::{Waiters, complete_all};
use mc_base::{Bits, Fate, Letter, Local, Priority, Refusal};
use request_set::{Complete, RequestSet};

/// Does what a letter from a peer asks for at the channel of the endpoint at a place, and returns the verdict on it. A reply
/// completes the request of its connect, and receives that wait end where the sender closes.
#[inline(never)] // Frames of messages, which come more often, stay short.
pub fn act(
    endpoints: &mut Endpoints,
    requests: &mut RequestSet,
    peer: u8,
    place: usize,
    letter: &Letter<'_>,
) -> Verdict
    requires receives { AreReceives requests.old }
    requires within { place < length endpoints.old.endpoints }
    requires short { IsInBounds (plain_letter letter.now) }
    ensures { Hears endpoints.old endpoints.new requests.old requests.new peer place (plain_letter letter.now) result }
{
    let Some(mut channel) = endpoints.channel_at(place) else {
        return Verdict::Returned(Fate::State);
    };
    match channel.letter(peer, letter) {
        Fate::Queued => {
            let none = Priority::new(0).unwrap();
            bring(endpoints, requests, place, none, size_of(letter))
        }
        Fate::Acted => {
            settle(requests, endpoints.local_at(place), letter);
            endpoints.set_channel(place, channel);
            Verdict::Returned(Fate::Acted)
        }
        fate => Verdict::Returned(fate),
    }
}

/// How many bytes the item of a letter has.
fn size_of(letter: &Letter<'_>) -> u32
    requires { IsInBounds (plain_letter letter.now) }
    ensures { result ≡ size_of (plain_letter letter.now) }
{
    match *letter {
        Letter::Msg { bytes, .. }
        | Letter::Packet { bytes, .. }
        | Letter::MsgPart { bytes, .. }
        | Letter::PacketPart { bytes, .. } => bytes.len() as u32,
        Letter::Scalar { bits, .. } => match bits {
            Bits::B8 => 1,
            Bits::B16 => 2,
            Bits::B32 => 4,
            Bits::B64 => 8,
        },
        Letter::Connect { .. }
        | Letter::Accept { .. }
        | Letter::Reject { .. }
        | Letter::RecvOpen { .. }
        | Letter::SendOpen { .. }
        | Letter::SendClose { .. }
        | Letter::RecvClose { .. } => 0,
    }
}

/// Completes the requests that wait for a letter to the endpoint of this name.
fn settle(requests: &mut RequestSet, at: Local, letter: &Letter<'_>)
    requires { AreReceives requests.old }
    ensures { requests.new ≡ settled_by at (plain_letter letter.now) requests.old }
{
    match *letter {
        Letter::Accept { channel } => {
            complete_all(requests, Waiters::Connects(channel), Complete::Accepted);
        }
        Letter::Reject { channel, reason } => {
            complete_all(
                requests,
                Waiters::Connects(channel),
                Complete::Rejected(reason),
            );
        }
        Letter::SendClose { .. } => {
            complete_all(
                requests,
                Waiters::Receives(at),
                Complete::Ended(Refusal::ChanClosed),
            );
        }
        Letter::Msg { .. }
        | Letter::Connect { .. }
        | Letter::RecvOpen { .. }
        | Letter::SendOpen { .. }
        | Letter::Packet { .. }
        | Letter::Scalar { .. }
        | Letter::RecvClose { .. }
        | Letter::MsgPart { .. }
        | Letter::PacketPart { .. } => {}
    }
}

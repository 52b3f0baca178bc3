//! What becomes of a name announcement that is taken.

ghost use Rattle.std.specs.Prelude.{◌≡◌};
ghost use Rattle.mc_base.specs.FullName.{endpoint_named};
ghost use Rattle.board_model.specs.TakenFrames.{first_row, name_rows};
ghost use Rattle.domain_parts.specs.InRequests.{AreReceives};
ghost use Rattle.domain_parts.specs.Verdicts.{IsHeard};

use crate::requests::{Waiters, complete_all};
use mc_base::{Fate, Full, Ns};
use name_service::{KnownNames, endpoint_named};
use request_set::{Complete, RequestSet};

/// Deals with an announcement by a peer, and returns the word for it. `known` are the names that are known of this peer.
///
/// A created endpoint's name gets the address, and lookups of it that wait are complete; the name of one that is gone is
/// forgotten. Nothing changes where the name is that of no endpoint of the peer, where it is new and 64 are known, and where one
/// that is gone was not known.
pub fn hear(known: &mut KnownNames, requests: &mut RequestSet, peer: u8, ns: &Ns) -> Fate
    requires { AreReceives requests.old }
    ensures { IsHeard peer (first_row (name_rows peer known.old (endpoint_named ns.now.name.items) ns.now.addr ns.now.create)) result known.old known.new requests.old requests.new }
{
    let Some(name) = endpoint_named(ns.name.as_slice()) else {
        return Fate::ForeignName;
    };
    if name.domain != peer {
        return Fate::ForeignName;
    }
    if !ns.create {
        return if known.forget(name) {
            Fate::Acted
        } else {
            Fate::UnknownName
        };
    }
    match known.learn(name, ns.addr) {
        Ok(()) => {
            complete_all(requests, Waiters::Lookups(name), Complete::Address(ns.addr));
            Fate::Acted
        }
        Err(Full) => Fate::NamesFull,
    }
}

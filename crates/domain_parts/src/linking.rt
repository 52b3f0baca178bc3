//! The links with which a domain is opened, and which it gives back.

ghost use Rattle.std.specs.Prelude.{◌≡◌, ◌≤◌, ◌<◌, ◌^◌, [], ◌∷◌, IfOk, IfSome, length, map, nat_lt, option_to_list, position, sum_by};
ghost use Rattle.lane_end.specs.Loop.{new_loop};
ghost use Rattle.domain_parts.specs.AllMoved.{ends_of};
ghost use Rattle.domain_parts.specs.Opened.{linked_peer, own_place, peers_opened, sizes_opened};
ghost use Rattle.domain_parts.specs.Opening.{links_in};

use crate::ends::Ends;
use crate::link::Link;
use crate::link_room::LinkRoom;
use crate::own_lane::own_lane;
use crate::peer::Peer;
use crate::replies::Replies;
use mc_base::NoMemory;
use name_service::KnownNames;
use std::alloc::Global;

/// The numbers of the linked domains.
pub fn numbers_of<S, R>(alloc: Global, links: &[Link<S, R>]) -> Result<Vec<u8>, NoMemory>
    ensures { IfOk result (λ v. v.items ≡ map (λ l. l.peer) links.now) }
{
    let Ok(numbers) = links.iter().map(|l| l.peer).collect(alloc) else {
        return Err(NoMemory);
    };
    Ok(numbers)
}

/// The number of each peer with the size of its lane, those of the domain itself first.
pub fn sizes_of<S, R>(
    alloc: Global,
    number: u8,
    pool: u32,
    links: &[Link<S, R>],
) -> Result<Vec<(u8, u32)>, NoMemory>
    ensures { IfOk result (λ v. v.items ≡ sizes_opened number pool links.now) }
{
    let mut sizes = Vec::new(alloc);
    if sizes.push((number, pool)).is_err() {
        return Err(NoMemory);
    }
    for link in links {
        if sizes.push((link.peer, link.size)).is_err() {
            return Err(NoMemory);
        }
    }
    Ok(sizes)
}

/// How many buffers all these lanes have.
pub fn buffers_in(sizes: &[(u8, u32)]) -> u32
    requires { sum_by (λ s. s.1) sizes.now < 2 ^ 32 }
    ensures { result ≡ sum_by (λ s. s.1) sizes.now }
{
    sizes.iter().map(|s| s.1).sum()
}

/// The peers in rising number, the domain itself among them.
pub fn peers_of<S: Drop, R: Drop>(
    alloc: Global,
    number: u8,
    pool: u32,
    links: Vec<Link<S, R>>,
) -> Result<Vec<Peer<Ends<S, R>>>, NoMemory>
    requires some { 1 ≤ pool }
    requires most { pool ≤ 256 }
    ensures { IfOk result (λ v. v.items ≡ peers_opened number (new_loop pool) links.items) }
{
    let place = place_among(&links, number);
    let mut peers = linked_peers(alloc, links)?;
    let own = Peer {
        number,
        ends: Ends::Own(own_lane(alloc, pool)?),
        known: KnownNames::new(alloc)?,
        replies: Replies::new(alloc)?,
    };
    if peers.insert(place, own).is_err() {
        return Err(NoMemory);
    }
    Ok(peers)
}

/// The place of the own lane among the links: before the first whose peer has a greater number.
fn place_among<S, R>(links: &[Link<S, R>], number: u8) -> usize
    ensures place { result ≡ own_place number links.now }
    ensures within { result ≤ length links.now }
{
    match first_above(links, number) {
        Some(place) => place,
        None => links.len(),
    }
}

/// The place of the first link whose peer has a greater number.
fn first_above<S, R>(links: &[Link<S, R>], number: u8) -> Option<usize>
    ensures place { result ≡ position (λ l. nat_lt number l.peer) links.now }
    ensures within { IfSome result (λ i. i < length links.now) }
{
    links.iter().position(|l| number < l.peer)
}

/// The peers of the links, with room for one more.
fn linked_peers<S: Drop, R: Drop>(
    alloc: Global,
    links: Vec<Link<S, R>>,
) -> Result<Vec<Peer<Ends<S, R>>>, NoMemory>
    ensures { IfOk result (λ v. v.items ≡ map linked_peer links.items) }
{
    let mut peers = Vec::new(alloc);
    for link in links {
        let peer = Peer {
            number: link.peer,
            known: KnownNames::new(alloc)?,
            replies: Replies::new(alloc)?,
            ends: Ends::Linked(link),
        };
        if peers.push(peer).is_err() {
            return Err(NoMemory);
        }
    }
    Ok(peers)
}

/// The links among the ends towards these peers, in their order.
pub fn links_of<S: Drop, R: Drop>(
    room: LinkRoom<S, R>,
    peers: Vec<Peer<Ends<S, R>>>,
) -> Vec<Link<S, R>>
    requires { length peers.items ≤ 8 }
    ensures { result.items ≡ links_in (ends_of peers.items) }
{
    let mut links = room.links;
    for peer in peers {
        if let Some(link) = link_in(peer.ends) {
            links.push(link).unwrap();
        }
    }
    links
}

/// The link whose ends these are.
fn link_in<S: Drop, R: Drop>(ends: Ends<S, R>) -> Option<Link<S, R>>
    ensures { option_to_list result ≡ links_in (ends ∷ []) }
{
    match ends {
        Ends::Own(_lane) => None,
        Ends::Linked(link) => Some(link),
    }
}

//! What becomes of a frame that is taken.

ghost use Rattle.std.specs.Prelude.{◌≡◌, ◌<◌, ◌≤◌, ◌+◌, ◌^◌, None, Some, List, ℕ, length};
ghost use Rattle.mc_base.specs.Letter.{Piece as PlainPiece, piece_in, plain_letter};
ghost use Rattle.mc_base.specs.Limits.{item_size};
ghost use Rattle.mc_base.specs.NameMap.{Names};
ghost use Rattle.mc_base.specs.Reading.{brings, reading};
ghost use Rattle.name_service.specs.Said.{reading_of};
ghost use Rattle.domain_parts.specs.declared.parts.OpenPart.{OpenPart as Opened};
ghost use Rattle.domain_parts.specs.declared.replies.Reply.{Reply};
ghost use Rattle.domain_parts.specs.Dealt.{DealsAlone, DealsWith, GrowsTo, word_of};
ghost use Rattle.domain_parts.specs.Growing.{IsNoPiece, IsPiece, IsRead};
ghost use Rattle.domain_parts.specs.InRequests.{AreReceives};
ghost use Rattle.domain_parts.specs.Items.{BringsMessage};
ghost use Rattle.domain_parts.specs.Records.{part_open};
ghost use Rattle.domain_parts.specs.Verdicts.{Brings, Deals, IsInBounds, Judges, beside, desk, fate_of};

mod connects;
mod items;
mod letters;

use crate::announcements::hear;
use crate::dealing::connects::answer_connect;
pub use crate::dealing::connects::is_busy;
use crate::dealing::items::judge_item;
use crate::dealing::letters::act;
use crate::endpoints::Endpoints;
use crate::fates::fault_fate;
use crate::messages::{CONTENT, PIECE};
use crate::parts::{OpenPart, Piece, piece_of};
use crate::replies::Replies;
use crate::requests::oldest_receive;
use mc_base::{Fate, Letter, Priority, RequestId};
use name_service::{KnownNames, Said, read_frame};
use request_set::{Ask, RequestSet};

/// What is to be done with a frame.
#[derive(Clone, Copy)]
pub enum Verdict {
    /// Its item is last in the queue of the endpoint at a place.
    Queued {
        place: usize,
        priority: Priority,
        size: u32,
    },
    /// The pending receive of this id, which asks so, is complete with its item.
    Handed {
        id: RequestId,
        ask: Ask,
        size: u32,
    },
    /// Its buffer is given back at once.
    Returned(Fate),
}

impl Verdict {
    /// The word for what becomes of the frame.
    pub fn fate(&self) -> Fate
        ensures { result ≡ fate_of self.now }
    {
        match *self {
            Verdict::Queued { .. } => Fate::Queued,
            Verdict::Handed { .. } => Fate::Handed,
            Verdict::Returned(fate) => fate,
        }
    }
}

/// What a frame does with the open part of its peer, and what is to be done with it.
#[derive(Clone, Copy)]
pub enum Dealt {
    /// The part ends, if one is open, and this is to be done with the frame, whose item lies behind so many bytes of headers.
    Alone {
        verdict: Verdict,
        headers: u32,
    },
    /// The part ends, if one is open, and this piece begins one.
    Begins(Piece),
    /// The part goes on with so many bytes of the frame, and is this one from then on.
    Grows {
        part: OpenPart,
        size: u32,
    },
    /// With so many bytes of the frame the part is whole: its item is last in the queue of the endpoint at a place.
    WholeQueued {
        part: OpenPart,
        size: u32,
        place: usize,
        priority: Priority,
    },
    /// The same, and the pending receive of this id, which asks so, is complete with its item.
    WholeHanded {
        part: OpenPart,
        size: u32,
        id: RequestId,
        ask: Ask,
    },
}

impl Dealt {
    /// The word for what becomes of the frame.
    pub fn fate(&self) -> Fate
        ensures { result ≡ word_of self.now }
    {
        match self {
            Dealt::Alone { verdict, .. } => verdict.fate(),
            Dealt::Begins(_) | Dealt::Grows { .. } => Fate::Part,
            Dealt::WholeQueued { .. } => Fate::Queued,
            Dealt::WholeHanded { .. } => Fate::Handed,
        }
    }
}

/// Where a letter comes from, and where it goes.
#[derive(Clone, Copy)]
pub struct Way {
    pub peer: u8,
    pub source: u32,
    pub destination: u32,
}

/// Deals with a frame from a peer, which may have any bytes, by what it says and the open part of the peer. `known` are the names that
/// are known of this peer, and `replies` those that are owed to it.
pub fn deal_with(
    endpoints: &mut Endpoints,
    requests: &mut RequestSet,
    known: &mut KnownNames,
    replies: &mut Replies,
    peer: u8,
    frame: &[u8],
) -> Dealt
    requires receives { AreReceives requests.old }
    requires small { (o : Opened) → part_open endpoints.old peer ≡ Some o → o.size ≤ item_size }
    ensures { let old = desk endpoints.old requests.old known.old replies.old in
        DealsWith peer frame.now result old (desk endpoints.new requests.new known.new replies.new) }
{
    let said = read_frame(frame);
    match piece_of(&said) {
        Some(piece) => deal_piece(endpoints, requests, peer, piece),
        None => Dealt::Alone {
            verdict: deal(endpoints, requests, known, replies, peer, said),
            headers: CONTENT,
        },
    }
}

/// Deals with a piece that a peer sent, which goes on with the peer's open part or with none.
fn deal_piece(endpoints: &Endpoints, requests: &RequestSet, peer: u8, piece: Piece) -> Dealt
    requires receives { AreReceives requests.now }
    requires small { (o : Opened) → part_open endpoints.now peer ≡ Some o → o.size + piece.size < 2 ^ 32 }
    ensures { (frame : List ℕ) (q : PlainPiece) → brings piece.source piece.destination q ≡ reading frame → IsPiece piece q
        → (names : Names) (replies : List Reply) → let at = beside endpoints.now requests.now replies names in DealsWith peer frame result at at }
{
    if let Some(part) = endpoints.part_of(peer) {
        if part.goes_on(&piece) {
            return grow(endpoints, requests, part.grown(&piece), piece.size);
        }
    }
    deal_first(endpoints, requests, peer, piece)
}

/// Deals with a piece that goes on with no part: it begins one, is a whole item itself, or is stray.
fn deal_first(endpoints: &Endpoints, requests: &RequestSet, peer: u8, piece: Piece) -> Dealt
    requires receives { AreReceives requests.now }
    ensures { (frame : List ℕ) (q : PlainPiece) → brings piece.source piece.destination q ≡ reading frame → IsPiece piece q
        → (names : Names) (replies : List Reply) → DealsAlone peer frame piece q result (beside endpoints.now requests.now replies names) }
{
    if !piece.begins() {
        return Dealt::Alone {
            verdict: Verdict::Returned(Fate::Stray),
            headers: PIECE,
        };
    }
    if !piece.is_whole() {
        return Dealt::Begins(piece);
    }
    let way = Way {
        peer,
        source: piece.source,
        destination: piece.destination,
    };
    Dealt::Alone {
        verdict: judge_item(endpoints, requests, way, piece.carrier, piece.size),
        headers: PIECE,
    }
}

/// Deals with a part that has come so far, of which the last frame brings so many bytes: with it the part is whole, or is open still.
fn grow(endpoints: &Endpoints, requests: &RequestSet, part: OpenPart, size: u32) -> Dealt
    requires receives { AreReceives requests.now }
    ensures { GrowsTo endpoints.now requests.now part size result }
{
    if !part.is_whole() {
        return Dealt::Grows { part, size };
    }
    let way = Way {
        peer: part.slot.peer,
        source: part.source,
        destination: part.destination,
    };
    match judge_item(endpoints, requests, way, part.carrier(), part.size) {
        Verdict::Queued {
            place,
            priority,
            ..
        } => Dealt::WholeQueued {
            part,
            size,
            place,
            priority,
        },
        Verdict::Handed { id, ask, .. } => Dealt::WholeHanded {
            part,
            size,
            id,
            ask,
        },
        Verdict::Returned(fate) => Dealt::Alone {
            verdict: Verdict::Returned(fate),
            headers: PIECE,
        },
    }
}

/// Deals with a frame from a peer by what it says, which is no piece of an item, and returns what is to be done with its buffer.
/// `known` are the names that are known of this peer, and `replies` those that are owed to it.
fn deal(
    endpoints: &mut Endpoints,
    requests: &mut RequestSet,
    known: &mut KnownNames,
    replies: &mut Replies,
    peer: u8,
    said: Said<'_>,
) -> Verdict
    requires receives { AreReceives requests.old }
    requires read { IsRead (reading_of said) }
    requires whole { IsNoPiece (reading_of said) }
    ensures { let old = desk endpoints.old requests.old known.old replies.old in
        Deals peer (reading_of said.entry) result old (desk endpoints.new requests.new known.new replies.new) }
{
    match said {
        Said::Faulty(fault) => Verdict::Returned(fault_fate(fault)),
        Said::Announces(ns) => Verdict::Returned(hear(known, requests, peer, &ns)),
        Said::Sends { src, dst, letter } => {
            let way = Way {
                peer,
                source: src,
                destination: dst,
            };
            judge(endpoints, requests, replies, way, &letter)
        }
    }
}

/// The verdict on a letter, which is no part of one.
fn judge(
    endpoints: &mut Endpoints,
    requests: &mut RequestSet,
    replies: &mut Replies,
    way: Way,
    letter: &Letter<'_>,
) -> Verdict
    requires receives { AreReceives requests.old }
    requires whole { piece_in letter.now ≡ None }
    requires short { IsInBounds (plain_letter letter.now) }
    ensures { let old = beside endpoints.old requests.old replies.old in Judges way (plain_letter letter.now) result old (beside endpoints.new requests.new replies.new) }
{
    if let Letter::Connect { channel, kind } = *letter {
        return Verdict::Returned(answer_connect(endpoints, requests, replies, way, channel, kind));
    }
    let Some(place) = endpoints.place_of_address(way.destination) else {
        return Verdict::Returned(Fate::NoEndpoint);
    };
    let Letter::Msg { priority, bytes } = *letter else {
        return act(endpoints, requests, way.peer, place, letter);
    };
    bring_message(endpoints, requests, place, priority, bytes.len() as u32)
}

/// Brings a message to the endpoint at a place, unless that has a channel.
fn bring_message(
    endpoints: &Endpoints,
    requests: &RequestSet,
    place: usize,
    priority: Priority,
    size: u32,
) -> Verdict
    requires receives { AreReceives requests.now }
    requires within { place < length endpoints.now.endpoints }
    ensures { BringsMessage endpoints.now requests.now place priority size result }
{
    if endpoints.has_channel(place) {
        return Verdict::Returned(Fate::OnChannel);
    }
    bring(endpoints, requests, place, priority, size)
}

/// Brings an item to the endpoint at a place: to the oldest receive that waits there, or to the queue.
pub(crate) fn bring(
    endpoints: &Endpoints,
    requests: &RequestSet,
    place: usize,
    priority: Priority,
    size: u32,
) -> Verdict
    requires receives { AreReceives requests.now }
    requires within { place < length endpoints.now.endpoints }
    ensures { Brings endpoints.now requests.now place priority size result }
{
    match oldest_receive(requests, endpoints.local_at(place)) {
        Some((id, ask)) => Verdict::Handed { id, ask, size },
        None => Verdict::Queued {
            place,
            priority,
            size,
        },
    }
}

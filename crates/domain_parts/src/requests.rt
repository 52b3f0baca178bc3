//! Requests that wait, and those that are complete.

ghost use Rattle.std.specs.Prelude.{◌≡◌, ◌≤◌, ℕ, [], true, List, Some, IfSome, ◌&&◌, is_none, option_map};
ghost use Rattle.std.specs.List.{AllByRecursion};
ghost use Rattle.board_model.specs.State.{Asked};
ghost use Rattle.board_model.specs.Answer.{result_by};
ghost use Rattle.buffer_book.specs.Book.{Book, IsQueued};
ghost use Rattle.request_set.specs.Requests.{IsPending, oldest_waiting, receives_at, request_of};
ghost use Rattle.domain_parts.specs.Calls.{GivesTo, Lending, LendsLast, result_of_done};
ghost use Rattle.mc_base.specs.declared.request.PacketId.{PacketId};
ghost use Rattle.domain_parts.specs.InBook.{frames_count, outcome_in};
ghost use Rattle.domain_parts.specs.InRequests.{AreReceives, handed_by, handed_slots, is_among, slots_in, with_all_complete};

use buffer_book::BufferBook;
use mc_base::{Done, EndName, Local, MAX_REQUESTS, RequestId, Slot};
use request_set::{Ask, Complete, RequestSet};

/// Requests that wait for the same.
#[derive(Clone, Copy)]
pub enum Waiters {
    /// Lookups of this name.
    Lookups(EndName),
    /// Receives at this endpoint.
    Receives(Local),
    /// Connects on the channel of this number.
    Connects(u32),
}

impl Waiters {
    /// Whether a request is one of them and pending.
    fn include(self, ask: Ask, complete: Option<Complete>) -> bool
        ensures { result ≡ (is_none complete && is_among self ask) }
    {
        complete.is_none() && self.asks(ask)
    }

    /// Whether a request that asks so is one of them.
    fn asks(self, ask: Ask) -> bool
        ensures { result ≡ is_among self ask }
    {
        match (self, ask) {
            (Waiters::Lookups(name), Ask::Lookup(other)) => {
                other.domain == name.domain && (other.node == name.node && other.port == name.port)
            }
            (Waiters::Receives(local), Ask::Message(at, _) | Ask::Packet(at)) => {
                at.node == local.node && at.port == local.port
            }
            (Waiters::Connects(number), Ask::Connect(other)) => other == number,
            _ => false,
        }
    }
}

/// The oldest receive that waits at an endpoint, and what it asks for.
pub fn oldest_receive(requests: &RequestSet, at: Local) -> Option<(RequestId, Ask)>
    requires { AreReceives requests.now }
    ensures oldest { option_map (λ r. r.0) result ≡ oldest_waiting requests.now at }
    ensures pending { IfSome result (λ r. IsPending requests.now r.0) }
    ensures asks { IfSome result (λ r. option_map (λ s. s.ask) (request_of requests.now r.0) ≡ Some r.1) }
    ensures receives { IfSome result (λ r. receives_at at r.1 ≡ true) }
{
    let id = requests.waiting(at)?;
    let ask = requests.asked(id)?;
    Some((id, ask))
}

/// How a receive is complete with the item in a buffer.
pub fn handed(ask: Ask, slot: Slot) -> Complete
    ensures { result ≡ handed_by ask slot }
{
    match ask {
        Ask::Message(_, max) => Complete::Message(slot, max),
        _ => Complete::Packet(slot),
    }
}

/// Makes all of these requests complete that are pending.
pub fn complete_all(requests: &mut RequestSet, who: Waiters, how: Complete)
    requires { AreReceives requests.old }
    ensures { requests.new ≡ with_all_complete requests.old who how }
{
    for at in 0..MAX_REQUESTS as u32 {
        let Some((id, ask, complete)) = requests.listed(at) else {
            break;
        };
        if who.include(ask, complete) {
            requests.complete(id, how);
        }
    }
}

/// How a request ended that holds no message.
pub fn told(how: Complete) -> Done
    requires { slots_in (Some how) ≡ [] }
    ensures result { (b : Book) (asked : Asked) (out : List ℕ) (lends : Lending) → result_of_done result out lends ≡ result_by asked (Some (outcome_in b how)) }
    ensures gives { (old : List ℕ) → GivesTo result old old }
    ensures lends { (ids : List PacketId) → LendsLast ids ids result }
{
    match how {
        Complete::Address(address) => Done::Address(address),
        Complete::Accepted => Done::Accepted,
        Complete::Rejected(reason) => Done::Rejected(reason),
        Complete::Ended(word) => Done::Ended(word),
        Complete::Message(..) | Complete::Packet(_) => unreachable!(),
    }
}

/// Counts the frames of the messages and packets from a peer that complete requests hold.
pub fn handed_from(requests: &RequestSet, book: &BufferBook, peer: u8) -> u32
    requires receives { AreReceives requests.now }
    requires queued { AllByRecursion (IsQueued book.now) (handed_slots requests.now.standing) }
    requires few { frames_count book.now peer (handed_slots requests.now.standing) ≤ 256 }
    ensures { result ≡ frames_count book.now peer (handed_slots requests.now.standing) }
{
    let mut count = 0;
    for at in 0..MAX_REQUESTS as u32 {
        let Some((_, _, complete)) = requests.listed(at) else {
            break;
        };
        count += held_from(complete, book, peer);
    }
    count
}

/// Counts the frames of the message or packet from a peer that a request holds.
fn held_from(complete: Option<Complete>, book: &BufferBook, peer: u8) -> u32
    requires { AllByRecursion (IsQueued book.now) (slots_in complete) }
    ensures { result ≡ frames_count book.now peer (slots_in complete) }
{
    match complete {
        Some(Complete::Message(slot, _) | Complete::Packet(slot)) if slot.peer == peer => {
            book.pieces(slot)
        }
        _ => 0,
    }
}

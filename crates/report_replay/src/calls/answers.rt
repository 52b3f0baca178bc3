//! The answer of a call that is not refused.

ghost use Rattle.std.specs.Prelude.{◌≡◌, ◌≤◌, IfSome, None, Some, length, option_map, take};
ghost use Rattle.mc_base.specs.Letter.{bytes_of_bits};
ghost use Rattle.board_model.specs.Answer.{given, given_to, lent_whole, refusal, result_by, result_of as result_of_request, success, value_of as value_in};
ghost use Rattle.board_model.specs.Choice.{best};
ghost use Rattle.mc_journal.specs.Entry.{plain_answer, result_of_told};
ghost use Rattle.report_replay.specs.PlainCalls.{plain_call};
ghost use Rattle.report_replay.specs.Views.{asked_of, outcome_of};

use crate::calls::call::DomainCall;
use crate::calls::words::bytes_of;
use crate::endpoint::place_of_best;
use crate::item::Item;
use crate::request::{Asked, Outcome, Request};
use crate::state::State;
use byteorder::{ByteOrder, LittleEndian};
use mc_base::{Bits, FIRST_ADDRESS, Refusal, Side};
use mc_journal::{Answer, Told};

impl State {
    /// The answer of a call that is not refused.
    pub fn answer_of_success<'r>(&'r self, node: u8, call: &DomainCall<'_>) -> Answer<'r>
        requires { refusal self.now node (plain_call call.now) ≡ None }
        ensures { plain_answer result ≡ success self.now node (plain_call call.now) }
    {
        let queue = self.queue_at(call.here(node));
        match call {
            DomainCall::Create { .. } => {
                Answer::Number(u64::from(FIRST_ADDRESS) + u64::from(self.endpoints_given))
            }
            DomainCall::Delete { .. }
            | DomainCall::Available { .. }
            | DomainCall::Close {
                side: Side::Receiver,
                ..
            } => Answer::Number(queue.len() as u64),
            DomainCall::Lookup { .. }
            | DomainCall::Request { .. }
            | DomainCall::RequestPacket { .. } => Answer::Number(self.requests_given),
            DomainCall::Connect { .. } => Answer::Channel {
                request: self.requests_given,
                channel: self.channels_given + 1,
            },
            DomainCall::Receive { max, .. } => given(*max, best_of(queue)),
            DomainCall::LendPacket { .. } => lent_whole(queue.first()),
            DomainCall::ReceiveScalar { bits, .. } => value_of(*bits, queue.first()),
            DomainCall::Test { request } => Answer::Done {
                place: None,
                result: result_of(self.request_at(*request)),
            },
            DomainCall::Wait {
                requests,
                says_place,
            } => Answer::Done {
                place: self.place_said(requests.as_slice(), *says_place),
                result: result_of(self.request_at(self.first_complete(requests.as_slice()))),
            },
            DomainCall::Send { .. }
            | DomainCall::Open { .. }
            | DomainCall::SendPacket { .. }
            | DomainCall::Release { .. }
            | DomainCall::SendScalar { .. }
            | DomainCall::Close {
                side: Side::Sender,
                ..
            }
            | DomainCall::Cancel { .. }
            | DomainCall::Raw { .. }
            | DomainCall::Turn => Answer::Ok,
        }
    }
}

/// The oldest item of the best priority.
pub(crate) fn best_of(queue: &[Item]) -> Option<&Item>
    ensures { option_map (λ i. i.now) result ≡ best (λ i. i.priority) queue.now }
{
    queue.get(place_of_best(queue)?)
}

/// At most so many first bytes of an item.
fn given(max: u32, item: Option<&Item>) -> Answer<'_>
    ensures { plain_answer result ≡ given max (option_map (λ i. i.now) item.entry) }
{
    match item {
        None => Answer::Refused(Refusal::Empty),
        Some(item) => Answer::Bytes {
            size: item.content().len() as u32,
            bytes: first_of(max, item.content()),
        },
    }
}

/// All bytes of a packet.
fn lent_whole(item: Option<&Item>) -> Answer<'_>
    ensures { plain_answer result ≡ lent_whole (option_map (λ i. i.now) item.entry) }
{
    match item {
        None => Answer::Refused(Refusal::Empty),
        Some(item) => Answer::Bytes {
            size: item.content().len() as u32,
            bytes: item.content(),
        },
    }
}

/// The value of a scalar, which has all its bytes.
fn value_of(bits: Bits, item: Option<&Item>) -> Answer<'static>
    requires { IfSome item (λ i. bytes_of_bits bits ≤ length i.now.content) }
    ensures { plain_answer result ≡ value_in bits (option_map (λ i. i.now) item.entry) }
{
    match item {
        None => Answer::Refused(Refusal::Empty),
        Some(item) => Answer::Number(LittleEndian::read_uint(item.content(), bytes_of(bits))),
    }
}

/// The first bytes of a content, of which there are at most so many.
fn first_of(max: u32, content: &[u8]) -> &[u8]
    ensures { result.now ≡ take max content.now }
{
    if content.len() <= max as usize {
        content
    } else {
        &content[..max as usize]
    }
}

/// How a request was complete.
fn result_of(request: Option<&Request>) -> Told<'_>
    ensures { result_of_told result ≡ result_of_request (option_map (λ r. r.now) request.entry) }
{
    match request {
        None => Told::Ended(Refusal::RequestInvalid),
        Some(request) => match &request.outcome {
            None => Told::Ended(Refusal::Pending),
            Some(outcome) => result_by(request.asked, outcome),
        },
    }
}

fn result_by(asked: Asked, outcome: &Outcome) -> Told<'_>
    ensures { result_of_told result ≡ result_by (asked_of asked) (Some (outcome_of outcome.now)) }
{
    match outcome {
        Outcome::Address(address) => Told::Address(*address),
        Outcome::Accepted => Told::Accepted,
        Outcome::Rejected(reason) => Told::Rejected(*reason),
        Outcome::Item(item) => Told::Bytes {
            size: item.content().len() as u32,
            bytes: given_to(asked, item.content()),
        },
        Outcome::Ended(word) => Told::Ended(*word),
    }
}

/// The bytes of an item that a receive gives: as many as it asks for, and all of a packet.
fn given_to(asked: Asked, content: &[u8]) -> &[u8]
    ensures { result.now ≡ given_to (asked_of asked) content.now }
{
    match asked {
        Asked::Message { max, .. } => first_of(max, content),
        Asked::Name(_) | Asked::Channel(_) | Asked::Packet { .. } => content,
    }
}

//! The answers of calls, as a journal notes them.

ghost use Rattle.std.specs.Prelude.{◌≡◌, ◌<◌, ◌≤◌, ◌^◌, IfOk, IfErr, None, length, take};
ghost use Rattle.board_model.specs.Journal.{gives, refuses, completes, brought, ended_by};
ghost use Rattle.board_model.specs.Tallies.{number_told};
ghost use Rattle.domain_core.specs.Calls.{Lending, connected, created, deleted, sent, received, requested, available, result_of_done, tested, cancelled};
ghost use Rattle.mc_journal.specs.Entry.{plain_answer, result_of_told, bytes_in_answer, bytes_in_told};
ghost use Rattle.board_runner.specs.Lines.{GivesWithin};

use domain_core::{Answer, Told};
use mc_base::{Done, Got, Refusal, RequestId};

/// Of a call that returns nothing.
pub fn of_unit(made: Result<(), Refusal>) -> Answer<'static>
    ensures sent { plain_answer result ≡ sent made }
    ensures cancelled { plain_answer result ≡ cancelled made }
    ensures no_bytes { bytes_in_answer result ≡ 0 }
{
    match made {
        Ok(()) => Answer::Ok,
        Err(word) => Answer::Refused(word),
    }
}

/// Of a call that returns a number: an address, or how many messages or items are queued or were dropped.
pub fn of_number(made: Result<u32, Refusal>) -> Answer<'static>
    ensures created { plain_answer result ≡ created made }
    ensures deleted { plain_answer result ≡ deleted made }
    ensures available { plain_answer result ≡ available made }
    ensures number { number_told (plain_answer result) < 2 ^ 32 }
    ensures no_bytes { bytes_in_answer result ≡ 0 }
{
    match made {
        Ok(number) => Answer::Number(number as u64),
        Err(word) => Answer::Refused(word),
    }
}

/// Of a call that returns a request: the request's serial.
pub fn of_request(made: Result<RequestId, Refusal>) -> Answer<'static>
    ensures requested { plain_answer result ≡ requested made }
    ensures no_bytes { bytes_in_answer result ≡ 0 }
{
    match made {
        Ok(id) => Answer::Number(id.serial),
        Err(word) => Answer::Refused(word),
    }
}

/// Of a connect: the serial of its request and the number of its channel.
pub fn of_connect(made: Result<(RequestId, u32), Refusal>) -> Answer<'static>
    ensures connected { plain_answer result ≡ connected made }
    ensures no_bytes { bytes_in_answer result ≡ 0 }
{
    match made {
        Ok((id, channel)) => Answer::Channel {
            request: id.serial,
            channel,
        },
        Err(word) => Answer::Refused(word),
    }
}

/// Of a receive, which wrote the first bytes of `out`.
pub fn of_receive<'a>(made: Result<Got, Refusal>, out: &'a [u8]) -> Answer<'a>
    requires { IfOk made (λ got. got.given ≤ length out.now) }
    ensures received { plain_answer result ≡ received made out.now }
    ensures within { bytes_in_answer result ≤ length out.now }
{
    match made {
        Ok(got) => Answer::Bytes {
            size: got.size,
            bytes: front_of(got.given, out),
        },
        Err(word) => Answer::Refused(word),
    }
}

/// Of a test that brought no packet. It gave the first bytes of `out` where a message came.
pub fn of_test<'a>(made: Result<Done, Refusal>, out: &'a [u8]) -> Answer<'a>
    requires { IfOk made (GivesWithin (length out.now)) }
    ensures tested { (lent : Lending) → plain_answer result ≡ tested made out.now lent }
    ensures no_packet { IfOk made (GivesWithin (length out.now)) }
    ensures within { bytes_in_answer result ≤ length out.now }
{
    match made {
        Ok(done) => Answer::Done {
            place: None,
            result: told(done, out),
        },
        Err(word) => Answer::Refused(word),
    }
}

/// Of a wait that ended with a request, which brought no packet: it tells the place of the request among several. It gave the first
/// bytes of `out` where a message came.
pub fn of_wait<'a>(place: Option<u8>, done: Done, out: &'a [u8]) -> Answer<'a>
    requires { GivesWithin (length out.now) done }
    ensures completed { (lent : Lending) → plain_answer result ≡ completes place (result_of_done done out.now lent) }
    ensures within { bytes_in_answer result ≤ length out.now }
{
    Answer::Done {
        place,
        result: told(done, out),
    }
}

fn told<'a>(done: Done, out: &'a [u8]) -> Told<'a>
    requires { GivesWithin (length out.now) done }
    ensures result { (lent : Lending) → result_of_told result ≡ result_of_done done out.now lent }
    ensures within { bytes_in_told result ≤ length out.now }
{
    match done {
        Done::Address(address) => Told::Address(address),
        Done::Accepted => Told::Accepted,
        Done::Rejected(reason) => Told::Rejected(reason),
        Done::Message(got) => Told::Bytes {
            size: got.size,
            bytes: front_of(got.given, out),
        },
        Done::Packet(_) => unreachable!(), // A packet is told by `of_tested_packet`.
        Done::Ended(word) => Told::Ended(word),
    }
}

/// Of a receive of a packet, by its size. Its bytes are at the front of `out`.
pub fn of_packet<'a>(size: Result<u32, Refusal>, out: &'a [u8]) -> Answer<'a>
    requires { IfOk size (λ n. n ≤ length out.now) }
    ensures given { IfOk size (λ n. plain_answer result ≡ gives n (take n out.now)) }
    ensures refused { IfErr size (λ word. plain_answer result ≡ refuses word) }
    ensures within { bytes_in_answer result ≤ length out.now }
{
    match size {
        Ok(size) => Answer::Bytes {
            size,
            bytes: front_of(size, out),
        },
        Err(word) => Answer::Refused(word),
    }
}

/// Of a test or a wait that brought a packet, by its size. Its bytes are at the front of `out`.
pub fn of_tested_packet<'a>(
    place: Option<u8>,
    size: Result<u32, Refusal>,
    out: &'a [u8],
) -> Answer<'a>
    requires { IfOk size (λ n. n ≤ length out.now) }
    ensures given { IfOk size (λ n. plain_answer result ≡ completes place (brought n (take n out.now))) }
    ensures refused { IfErr size (λ word. plain_answer result ≡ completes place (ended_by word)) }
    ensures within { bytes_in_answer result ≤ length out.now }
{
    match size {
        Ok(size) => Answer::Done {
            place,
            result: Told::Bytes {
                size,
                bytes: front_of(size, out),
            },
        },
        Err(word) => Answer::Done {
            place,
            result: Told::Ended(word),
        },
    }
}

/// Of a receive of a number.
pub fn of_scalar(made: Result<u64, Refusal>) -> Answer<'static>
    ensures received { plain_answer result ≡ available made }
    ensures no_bytes { bytes_in_answer result ≡ 0 }
{
    match made {
        Ok(value) => Answer::Number(value),
        Err(word) => Answer::Refused(word),
    }
}

/// The first bytes of `out`, so many.
fn front_of<'a>(count: u32, out: &'a [u8]) -> &'a [u8]
    requires { count ≤ length out.now }
    ensures { result.now ≡ take count out.now }
{
    let (bytes, _) = out.split_at(count as usize);
    bytes
}

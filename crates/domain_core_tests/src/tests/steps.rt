//! Calls one after the other, some of which name a request that an earlier one began.

ghost use Rattle.std.specs.Prelude.{◌≡◌, ◌≤◌, length};
ghost use Rattle.domain_core.specs.Ends.{EndsMoved};
ghost use Rattle.domain_core.specs.Going.{Goes};

use super::*;
use arrayvec::ArrayVec;
use cases::{
    Case, NONE_HELD, ONE_LENT, ONE_QUEUED, Row, TWO_QUEUED, assert_cases, assert_rows, holds,
    opened,
};
use domain_core::WaitFault;
use mc_base::{Bits, Done, Kind, PacketId, Reason};

mod cases;
mod channels;
mod data;
mod endpoints;
mod raw;
mod requests;
mod waits;

/// A scalar with its bits.
#[derive(Clone, Copy)]
pub enum Value {
    Byte(u8),
    Short(u16),
    Word(u32),
    Long(u64),
}

/// A frame that is put as it is.
#[derive(Clone, Copy)]
pub enum RawFrame {
    /// One byte.
    Short,
    /// A message to the first endpoint of a domain.
    Sound,
}

/// A call. A request is named by its serial.
#[derive(Clone, Copy)]
pub enum Step {
    /// A call that names no request.
    Plain(Call),
    /// Deletes the endpoint at a node and port.
    Delete(u8, u16),
    /// Requests a message at a port, for at most so many bytes.
    Begin(u16, u32),
    /// Looks up the endpoint of a domain at a port.
    Lookup(u8, u16),
    /// Asks how many messages wait at a port.
    Available(u16),
    /// Connects a port to a port of a domain.
    Connect(u16, u8, u16, Kind),
    /// Opens the sender's end at a port, and the receiver's.
    OpenSend(u16, Kind),
    OpenRecv(u16, Kind),
    /// Sends a packet at a port: this byte, so often.
    SendPacket(u16, u8, usize),
    /// Receives a packet at a port, which has this byte throughout, and requests one.
    ReceivePacket(u16, u8),
    BeginPacket(u16),
    /// Reads the packet that is lent in a buffer of the pool under a serial, which has this byte throughout, and releases it.
    ReadPacket(u16, u64, u8),
    Release(u16, u64),
    /// Sends a scalar at a port, and receives one of these bits.
    SendScalar(u16, Value),
    ReceiveScalar(u16, Bits),
    /// Closes the sender's end at a port, and the receiver's.
    CloseSend(u16),
    CloseRecv(u16),
    /// Puts a frame to a domain as it is.
    PutRaw(u8, RawFrame),
    /// Tests a request. The message or packet that comes has this byte throughout.
    Test(u64, u8),
    /// Cancels a request.
    Cancel(u64),
    /// Waits for a request, for at most so many turns. The message or packet that comes has this byte throughout.
    Wait(u32, u64, u8),
    /// The same for one of several, where it is the one at this place that ends.
    WaitAny(u32, [u64; 8], u8, u8),
    /// Asks for the first place whose request is complete, and answers 0 where none is.
    Settled([u64; 8]),
    /// Asks how many items are queued on the domain's own channel of a number.
    QueuedOn(u32),
    /// Asks how many channels the domain has numbered.
    ChannelsGiven,
    /// Makes a turn.
    Turn,
}

use Step::{
    Available, Begin, BeginPacket, Cancel, ChannelsGiven, CloseRecv, CloseSend, Connect, Delete,
    Lookup, OpenRecv, OpenSend, Plain, PutRaw, QueuedOn, ReadPacket, ReceivePacket, ReceiveScalar,
    Release, SendPacket, SendScalar, Settled, Test, Turn, Wait, WaitAny,
};

/// What a call tells that is not refused.
#[derive(Clone, Copy, PartialEq, Eq)]
pub enum Said {
    /// The number that it answers, the serial of a request that was begun, or 0.
    Number(u64),
    /// The size of the message that a request held, and how many of its bytes were given.
    Message(u32, u32),
    /// The buffer in which a packet is lent, its serial, and its size.
    Lent(u16, u64, u32),
    /// The address of the endpoint that was looked up.
    Address(u32),
    /// The serial of a connect's request, and the number of its channel.
    Connected(u64, u32),
    /// A connection was accepted.
    Accepted,
    /// A connection was rejected.
    Rejected(Reason),
    /// The word that a request ended with.
    Ended(Refusal),
    /// Whether a turn was idle.
    Idle(bool),
    /// How many buffers stand in queues, and how many are lent.
    Held(u32, u32),
}

use Said::{Accepted, Address, Connected, Ended, Idle, Lent, Message, Number, Rejected};

/// What a call answers.
pub type Answered = Result<Said, Refusal>;

/// The id with this serial, or one that was never given.
fn id_of(ids: &[RequestId], serial: u64) -> RequestId {
    for id in ids {
        if id.serial == serial {
            return *id;
        }
    }
    RequestId { key: 0, serial }
}

/// The ids with these serials.
fn ids_of(ids: &[RequestId], serials: [u64; 8]) -> ArrayVec<RequestId, 8>
    ensures { length result.items ≡ 8 }
{
    let [a, b, c, d, e, f, g, h] = serials;
    ArrayVec::from([
        id_of(ids, a),
        id_of(ids, b),
        id_of(ids, c),
        id_of(ids, d),
        id_of(ids, e),
        id_of(ids, f),
        id_of(ids, g),
        id_of(ids, h),
    ])
}

/// Makes a call. Answers `None` where a message has other bytes than it must.
pub fn stepped<S: SendEnd, R: RecvEnd>(
    domain: &mut Domain<S, R>,
    journal: &mut Journal,
    ids: &mut Vec<RequestId>,
    step: Step,
) -> Result<Option<Answered>, NoMemory>
    requires entry_room { 176 ≤ journal.old.entry_room }
    requires byte_room { 90112 ≤ journal.old.byte_room }
    ensures { Goes (EndsMoved S.Moved R.Moved) domain.old domain.new }
{
    match step {
        Plain(call) => Ok(made(domain, journal, call).map(number)),
        Delete(node, port) => {
            let answer = domain.delete(journal, Local { node, port });
            Ok(Some(number(answer)))
        }
        Begin(port, max) => {
            let answer = domain.msg_recv_i(journal, Local { node: 0, port }, max);
            begun(ids, answer)
        }
        Lookup(number, port) => {
            let answer = domain.lookup(journal, end_at(number, port));
            begun(ids, answer)
        }
        Available(port) => {
            let answer = domain.msg_available(journal, Local { node: 0, port });
            Ok(Some(number(answer)))
        }
        Connect(port, peer, to, kind) => {
            let from = Local { node: 0, port };
            let answer = domain.connect(journal, from, end_at(peer, to), kind);
            connected(ids, answer)
        }
        OpenSend(port, kind) => {
            let answer = domain.open_send(journal, Local { node: 0, port }, kind);
            Ok(Some(done(answer)))
        }
        OpenRecv(port, kind) => {
            let answer = domain.open_recv(journal, Local { node: 0, port }, kind);
            Ok(Some(done(answer)))
        }
        SendPacket(port, byte, size) => {
            let content = [byte; 8193];
            let (bytes, _) = content.split_at(size.min(8193));
            let answer = domain.pkt_send(journal, Local { node: 0, port }, bytes);
            Ok(Some(done(answer)))
        }
        ReceivePacket(port, byte) => match domain.pkt_recv(journal, Local { node: 0, port }) {
            Ok(id) => Ok(lent(domain, id, byte)),
            Err(word) => Ok(Some(Err(word))),
        },
        BeginPacket(port) => {
            let answer = domain.pkt_recv_i(journal, Local { node: 0, port });
            begun(ids, answer)
        }
        ReadPacket(buffer, serial, byte) => Ok(lent(domain, packet(buffer, serial), byte)),
        Release(buffer, serial) => {
            let answer = domain.release(journal, packet(buffer, serial));
            Ok(Some(done(answer)))
        }
        SendScalar(port, value) => {
            let answer = sent_scalar(domain, journal, Local { node: 0, port }, value);
            Ok(Some(done(answer)))
        }
        ReceiveScalar(port, bits) => {
            let answer = domain.scl_recv(journal, Local { node: 0, port }, bits);
            Ok(Some(answer.map(Number)))
        }
        CloseSend(port) => {
            let answer = domain.close_send(journal, Local { node: 0, port });
            Ok(Some(done(answer)))
        }
        CloseRecv(port) => {
            let answer = domain.close_recv(journal, Local { node: 0, port });
            Ok(Some(number(answer)))
        }
        PutRaw(peer, which) => {
            let answer = domain.raw_put(journal, peer, frame_of(which));
            Ok(Some(done(answer)))
        }
        Test(serial, byte) => Ok(tested(domain, journal, id_of(ids, serial), byte)),
        Cancel(serial) => {
            let answer = domain.cancel(journal, id_of(ids, serial));
            Ok(Some(done(answer)))
        }
        Wait(limit, serial, byte) => waited(domain, journal, id_of(ids, serial), limit, byte),
        WaitAny(limit, serials, place, byte) => {
            waited_any(domain, journal, &ids_of(ids, serials), limit, place, byte)
        }
        Settled(serials) => {
            let place = domain.settled(&ids_of(ids, serials)).unwrap_or(0);
            Ok(Some(Ok(Number(u64::from(place)))))
        }
        QueuedOn(channel) => {
            let queued = domain.queued(3, channel);
            Ok(Some(Ok(Number(u64::from(queued)))))
        }
        ChannelsGiven => {
            let given = domain.channels_given();
            Ok(Some(Ok(Number(u64::from(given)))))
        }
        Turn => Ok(Some(Ok(Idle(domain.turn(journal))))),
    }
}

/// The bytes of a frame.
fn frame_of(which: RawFrame) -> &'static [u8]
    ensures some { 1 ≤ length result.now }
    ensures fits { length result.now ≤ 512 }
{
    match which {
        RawFrame::Short => b"\x00",
        RawFrame::Sound => {
            b"\x00\x04\x00\x00\x00\x04\x00\x00\x00\x00\x00\x00\x0a\x00\x00\x00\x4d\x01\x01\x01\x00\x00\x00\x00hi"
        }
    }
}

/// The id of a packet in a buffer of the pool.
fn packet(buffer: u16, serial: u64) -> PacketId {
    PacketId {
        peer: 3,
        buffer,
        serial,
    }
}

/// What is lent with an id. Answers `None` where the packet has another byte.
fn lent<S: SendEnd, R: RecvEnd>(domain: &Domain<S, R>, id: PacketId, byte: u8) -> Option<Answered> {
    let count = match domain.pkt_pieces(id) {
        Ok(count) => count,
        Err(word) => return Some(Err(word)),
    };
    let mut size: u32 = 0;
    for n in 0..count {
        let Ok(bytes) = domain.pkt_piece(id, n) else {
            return None;
        };
        for b in bytes {
            if *b != byte {
                return None;
            }
            size = size.wrapping_add(1);
        }
    }
    Some(Ok(Lent(id.buffer, id.serial, size)))
}

fn sent_scalar<S: SendEnd, R: RecvEnd>(
    domain: &mut Domain<S, R>,
    journal: &mut Journal,
    at: Local,
    value: Value,
) -> Result<(), Refusal>
    requires entry_room { 176 ≤ journal.old.entry_room }
    requires byte_room { 90112 ≤ journal.old.byte_room }
    ensures { Goes (EndsMoved S.Moved R.Moved) domain.old domain.new }
{
    match value {
        Value::Byte(n) => domain.scl_send(journal, at, Bits::B8, u64::from(n)),
        Value::Short(n) => domain.scl_send(journal, at, Bits::B16, u64::from(n)),
        Value::Word(n) => domain.scl_send(journal, at, Bits::B32, u64::from(n)),
        Value::Long(n) => domain.scl_send(journal, at, Bits::B64, n),
    }
}

fn number(answer: Result<u32, Refusal>) -> Answered {
    match answer {
        Ok(n) => Ok(Number(u64::from(n))),
        Err(word) => Err(word),
    }
}

fn done(answer: Result<(), Refusal>) -> Answered {
    match answer {
        Ok(()) => Ok(Number(0)),
        Err(word) => Err(word),
    }
}

/// Keeps the id of a request that was begun.
fn begun(
    ids: &mut Vec<RequestId>,
    answer: Result<RequestId, Refusal>,
) -> Result<Option<Answered>, NoMemory> {
    match answer {
        Ok(id) => {
            if ids.push(id).is_err() {
                return Err(NoMemory);
            }
            Ok(Some(Ok(Number(id.serial))))
        }
        Err(word) => Ok(Some(Err(word))),
    }
}

/// Keeps the id of a connect's request.
fn connected(
    ids: &mut Vec<RequestId>,
    answer: Result<(RequestId, u32), Refusal>,
) -> Result<Option<Answered>, NoMemory> {
    match answer {
        Ok((id, number)) => {
            if ids.push(id).is_err() {
                return Err(NoMemory);
            }
            Ok(Some(Ok(Connected(id.serial, number))))
        }
        Err(word) => Ok(Some(Err(word))),
    }
}

/// Tests a request. What lies behind the bytes that are given must stay.
fn tested<S: SendEnd, R: RecvEnd>(
    domain: &mut Domain<S, R>,
    journal: &mut Journal,
    id: RequestId,
    byte: u8,
) -> Option<Answered>
    requires entry_room { 176 ≤ journal.old.entry_room }
    requires byte_room { 90112 ≤ journal.old.byte_room }
    ensures { Goes (EndsMoved S.Moved R.Moved) domain.old domain.new }
{
    let mut out = [0xee; 8192];
    let answer = domain.test(journal, id, &mut out);
    ended(domain, answer, &out, byte)
}

/// Waits for a request, by a line of the number 7.
fn waited<S: SendEnd, R: RecvEnd>(
    domain: &mut Domain<S, R>,
    journal: &mut Journal,
    id: RequestId,
    limit: u32,
    byte: u8,
) -> Result<Option<Answered>, NoMemory>
    requires entry_room { 176 ≤ journal.old.entry_room }
    requires byte_room { 90112 ≤ journal.old.byte_room }
    ensures { Goes (EndsMoved S.Moved R.Moved) domain.old domain.new }
{
    let mut out = [0xee; 8192];
    let answer = domain.wait(journal, 7, id, limit, &mut out);
    ended_wait(domain, answer, &out, byte)
}

/// Waits for one of several requests. Answers `None` where another ends than the one at this place.
fn waited_any<S: SendEnd, R: RecvEnd>(
    domain: &mut Domain<S, R>,
    journal: &mut Journal,
    ids: &ArrayVec<RequestId, 8>,
    limit: u32,
    place: u8,
    byte: u8,
) -> Result<Option<Answered>, NoMemory>
    requires some { 1 ≤ length ids.now.items }
    requires entry_room { 176 ≤ journal.old.entry_room }
    requires byte_room { 90112 ≤ journal.old.byte_room }
    ensures { Goes (EndsMoved S.Moved R.Moved) domain.old domain.new }
{
    let mut out = [0xee; 8192];
    let answer = domain.wait_any(journal, 7, ids, limit, &mut out);
    ended_at(domain, answer, place, &out, byte)
}

/// What the end of a wait for one of several tells.
fn ended_at<S: SendEnd, R: RecvEnd>(
    domain: &Domain<S, R>,
    answer: Result<(u8, Done), WaitFault>,
    place: u8,
    out: &[u8],
    byte: u8,
) -> Result<Option<Answered>, NoMemory> {
    match answer {
        Ok((at, done)) => {
            if at != place {
                return Ok(None);
            }
            ended_wait(domain, Ok(done), out, byte)
        }
        Err(fault) => ended_wait(domain, Err(fault), out, byte),
    }
}

/// What the end of a wait tells.
fn ended_wait<S: SendEnd, R: RecvEnd>(
    domain: &Domain<S, R>,
    answer: Result<Done, WaitFault>,
    out: &[u8],
    byte: u8,
) -> Result<Option<Answered>, NoMemory> {
    match answer {
        Ok(done) => Ok(ended(domain, Ok(done), out, byte)),
        Err(WaitFault::Refused(word)) => Ok(ended(domain, Err(word), out, byte)),
        Err(WaitFault::NoMemory) => Err(NoMemory),
    }
}

/// What the end of a request tells. Answers `None` where what came has another byte, or where more than that was written.
fn ended<S: SendEnd, R: RecvEnd>(
    domain: &Domain<S, R>,
    answer: Result<Done, Refusal>,
    out: &[u8],
    byte: u8,
) -> Option<Answered> {
    let (answer, given) = match answer {
        Ok(Done::Message(got)) => (Ok(Message(got.size, got.given)), got.given),
        Ok(Done::Address(address)) => (Ok(Address(address)), 0),
        Ok(Done::Accepted) => (Ok(Accepted), 0),
        Ok(Done::Rejected(reason)) => (Ok(Rejected(reason)), 0),
        Ok(Done::Ended(word)) => (Ok(Ended(word)), 0),
        Ok(Done::Packet(id)) => (lent(domain, id, byte)?, 0),
        Err(word) => (Err(word), 0),
    };
    if !is_given(out, given as usize, byte) {
        return None;
    }
    Some(answer)
}

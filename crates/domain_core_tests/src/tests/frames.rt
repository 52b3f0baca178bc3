//! What becomes of the frames of a linked domain, whatever bytes they have.

ghost use Rattle.std.specs.Prelude.{◌≡◌, ◌≤◌, ◌<◌, ◌∷◌, [], IfOk, IsTrue, length};
ghost use Rattle.lane_end.specs.PlainLane.{AreOneLane};
ghost use Rattle.lane_end.specs.AnySender as any_sender;
ghost use Rattle.lane_end.specs.AnyReceiver as any_receiver;
ghost use Rattle.domain_core.specs.Opening.{IsOpenLink};

mod channels;
mod late;

use super::*;
use byteorder::{ByteOrder, LittleEndian};
use domain_core::Link;
use lane_end::{LaneFault, PlainRecv, PlainSend, ends_stay_one_lane, plain_lane, shuttle};
use mc_base::{Done, RequestId};

/// A frame that comes from domain 1.
#[derive(Clone, Copy)]
enum Given {
    /// A frame of these bytes.
    Frame(&'static [u8]),
    /// An announcement of this name, address and flags.
    Name(&'static [u8], u32, u8),
    /// The creation of endpoint 1:0:N, where N is from 10 to 99, at an address.
    Port(u8, u32),
    /// A letter from address 1030 to an address: its kind, argument and channel, and its content of two bytes at most.
    Sent(u32, u8, u8, u8, &'static [u8]),
    /// A fragment from address 1030 to an address: its kind, its argument, its total and its offset, and 7 twice.
    Fragment(u32, u8, u8, u16, u16),
}

use Given::{Fragment, Frame, Name, Port, Sent};

/// A frame to the name service with an announcement.
fn announced(name: &[u8], addr: u32, flags: u8) -> [u8; 56] {
    let mut frame = [0; 56];
    LittleEndian::write_u32(&mut frame, addr);
    frame[4] = 53;
    frame[12] = 40;
    for (to, b) in frame[16..48].iter_mut().zip(name) {
        *to = *b;
    }
    LittleEndian::write_u32(&mut frame[48..], addr);
    frame[52] = flags;
    frame
}

fn port_announced(port: u8, addr: u32) -> [u8; 56] {
    let mut frame = announced(b"mcapi:1:0:", addr, 0);
    frame[26] = b'0' + port / 10 % 10;
    frame[27] = b'0' + port % 10;
    frame
}

/// A frame with a letter. It may have bytes behind the letter.
fn lettered(to: u32, kind: u8, argument: u8, channel: u8, content: &[u8]) -> [u8; 26] {
    let mut frame = [0; 26];
    LittleEndian::write_u32(&mut frame, 1030);
    LittleEndian::write_u32(&mut frame[4..], to);
    frame[12] = 8 + content.len().min(2) as u8;
    frame[16] = 0x4d;
    frame[17] = 1;
    frame[18] = kind;
    frame[19] = argument;
    frame[20] = channel;
    for (to, b) in frame[24..].iter_mut().zip(content) {
        *to = *b;
    }
    frame
}

/// A frame with a fragment of two bytes. Those of packets are of channel 1.
fn fragment(to: u32, kind: u8, argument: u8, total: u16, offset: u16) -> [u8; 30] {
    let mut frame = [7; 30];
    LittleEndian::write_u32(&mut frame, 1030);
    LittleEndian::write_u32(&mut frame[4..], to);
    LittleEndian::write_u32(&mut frame[8..], 0);
    LittleEndian::write_u32(&mut frame[12..], 14);
    frame[16] = 0x4d;
    frame[17] = 2;
    frame[18] = kind;
    frame[19] = argument;
    LittleEndian::write_u32(&mut frame[20..], u32::from(kind == PACKET));
    LittleEndian::write_u16(&mut frame[24..], total);
    LittleEndian::write_u16(&mut frame[26..], offset);
    frame
}

/// A lane from domain 1, on which frames have come that no look showed yet.
#[derive(Drop)]
struct Feed {
    send: PlainSend,
    recv: PlainRecv,
    ghost size: { recv.size ≡ 256 },
    ghost lane: { AreOneLane send recv },
    ghost none_shown: { recv.shown ≡ 0 },
    ghost none_out: { recv.out ≡ [] },
}

impl Feed {
    fn new(alloc: Global) -> Result<Feed, LaneFault> {
        match plain_lane(alloc, 256) {
            Err(fault) => Err(fault),
            Ok((send, recv)) => Ok(Feed { send, recv }),
        }
    }

    fn give_all(&mut self, rows: &[Row]) {
        for (given, _) in rows {
            match *given {
                Frame(bytes) => self.give(bytes),
                Name(name, addr, flags) => self.give(&announced(name, addr, flags)),
                Port(port, addr) => self.give(&port_announced(port, addr)),
                Sent(to, kind, argument, channel, content) => {
                    self.give(&lettered(to, kind, argument, channel, content));
                }
                Fragment(to, kind, argument, total, offset) => {
                    self.give(&fragment(to, kind, argument, total, offset));
                }
            }
        }
    }

    /// Lets a frame of 1 to 512 bytes come.
    fn give(&mut self, frame: &[u8]) {
        if self.send.free_len() == 0 || frame.is_empty() || frame.len() > 512 {
            return;
        }
        self.put(frame);
        shuttle(&mut self.send, &mut self.recv);
    }

    fn put(&mut self, frame: &[u8])
        requires free { 0 < length self.old.send.free }
        requires some { 0 < length frame.now }
        requires fits { length frame.now ≤ 512 }
    {
        ends_stay_one_lane();
        self.send.put(frame);
    }

    /// The link to domain 1.
    fn into_link(self, alloc: Global) -> Result<Link<AnySend<'static>, AnyRecv<'static>>, Fail>
        ensures peer { IfOk result (λ l. l.peer ≡ 1) }
        ensures open { IfOk result (IsOpenLink any_sender.size_of_any any_sender.free_of_any any_receiver.size_of_any any_receiver.shown_of_any any_receiver.out_of_any) }
    {
        let Ok((send, _)) = plain_lane(alloc, 256) else {
            return Err("no lane".into());
        };
        Ok(Link {
            peer: 1,
            size: 256,
            send: AnySend::Plain(send),
            recv: AnyRecv::Plain(self.recv),
        })
    }
}

/// Domain 0, linked to domain 1, from which these frames have come.
fn fed(alloc: Global, rows: &[Row]) -> Result<Domain<AnySend<'static>, AnyRecv<'static>>, Fail> {
    let Ok(mut feed) = Feed::new(alloc) else {
        return Err("no lane".into());
    };
    feed.give_all(rows);
    let links = only(alloc, feed.into_link(alloc)?)?;
    let domain = Domain::open(alloc, 0, 1, 2, links)?;
    Ok(domain)
}

/// A list of this one. A push onto a list of what names a lifetime is beyond the borrow checker today.
fn only<T: Drop>(alloc: Global, it: T) -> Result<Vec<T>, Fail>
    ensures { IfOk result (λ all. all.items ≡ it ∷ []) }
{
    let mut all = Vec::new(alloc);
    all.push(it)?;
    Ok(all)
}

/// Domain 0, linked to domain 1, and what it noted.
#[derive(Drop)]
struct Noted {
    journal: Journal,
    domain: Domain<AnySend<'static>, AnyRecv<'static>>,
}

impl Noted {
    /// From domain 1 these frames have come.
    fn open(alloc: Global, rows: &[Row]) -> Result<Noted, Fail> {
        Ok(Noted {
            journal: Journal::new(alloc)?,
            domain: fed(alloc, rows)?,
        })
    }
}

/// A frame that comes, and what becomes of it.
type Row = (Given, Fate);

/// Asserts what became of the frames that were taken.
fn assert_fates(rt: &impl Abort, journal: &Journal, rows: &[Row]) {
    let mut taken = 0;
    for i in 0..journal.len() {
        if let Some(Entry::Take { fate, .. }) = journal.entry(i) {
            assert!(rt; is_due(rows, taken, fate), "frame {taken}");
            taken += 1;
        }
    }
    assert!(rt; taken == rows.len());
}

/// Whether there is such a frame, and this is what becomes of it.
fn is_due(rows: &[Row], frame: usize, fate: Fate) -> bool
    ensures { IsTrue result → frame < length rows.now }
{
    match rows.get(frame) {
        Some((_, due)) => *due == fate,
        None => false,
    }
}

/// Makes an endpoint at port 1, and makes turns until all frames are taken, 8 a turn.
fn assert_dealt(rt: &impl Abort, noted: &mut Noted, rows: &[Row]) -> Result<(), Fail> {
    let row = (Create(0, 1), Ok(1024));
    assert!(rt; answers(&mut noted.domain, &mut noted.journal, row)?);
    for _ in 0..rows.len() / 8 {
        noted.journal.reserve(176, 90_112)?;
        noted.domain.turn(&mut noted.journal);
    }
    assert_fates(rt, &noted.journal, rows);
    Ok(())
}

/// Asserts that a lookup of endpoint 1:0:N finds an address, or waits.
fn assert_known(
    rt: &impl Abort,
    noted: &mut Noted,
    port: u16,
    due: Result<Done, Refusal>,
) -> Result<(), Fail> {
    let id = looked_up(noted, port)?;
    assert!(rt; end_of(noted, id)? == due, "{port}");
    Ok(())
}

/// Begins a lookup of endpoint 1:0:N.
fn looked_up(noted: &mut Noted, port: u16) -> Result<RequestId, Fail> {
    noted.journal.reserve(176, 90_112)?;
    Ok(noted.domain.lookup(&mut noted.journal, end_at(1, port))?)
}

/// How a request ends, of which no bytes come.
fn end_of(noted: &mut Noted, id: RequestId) -> Result<Result<Done, Refusal>, NoMemory> {
    let mut out = [0; 8192];
    noted.journal.reserve(176, 90_112)?;
    Ok(noted.domain.test(&mut noted.journal, id, &mut out))
}

/// Frames of each kind. The endpoint is there when the ninth is taken. A static, since a constant's byte strings are proved
/// again in each function that names it.
static DEALT: [Row; 32] = [
    (
        Frame(b"\x00\x04\x00\x00\x00\x04\x00\x00\x00\x00\x00\x00\x00\x00\x00"),
        Fate::FrameShort,
    ),
    (
        Frame(b"\x00\x04\x00\x00\x00\x04\x00\x00\x00\x00\x00\x00\x01\x00\x00\x00"),
        Fate::HeaderLen,
    ),
    (
        Frame(
            b"\x00\x04\x00\x00\x00\x04\x00\x00\x00\x00\x00\x00\x07\x00\x00\x00\x4d\x01\x01\x00\x00\x00\x00",
        ),
        Fate::PayloadShort,
    ),
    (
        Frame(
            b"\x00\x04\x00\x00\x00\x04\x00\x00\x00\x00\x00\x00\x08\x00\x00\x00\x4e\x01\x01\x00\x00\x00\x00\x00",
        ),
        Fate::Magic,
    ),
    (
        Frame(
            b"\x00\x04\x00\x00\x00\x04\x00\x00\x00\x00\x00\x00\x08\x00\x00\x00\x4d\x03\x01\x00\x00\x00\x00\x00",
        ),
        Fate::Version,
    ),
    (
        Frame(
            b"\x00\x04\x00\x00\x00\x04\x00\x00\x00\x00\x00\x00\x08\x00\x00\x00\x4d\x01\x0b\x00\x00\x00\x00\x00",
        ),
        Fate::Kind,
    ),
    (
        Frame(
            b"\x00\x04\x00\x00\x00\x04\x00\x00\x00\x00\x00\x00\x08\x00\x00\x00\x4d\x01\x01\x04\x00\x00\x00\x00",
        ),
        Fate::Argument,
    ),
    (
        Frame(
            b"\x00\x04\x00\x00\x00\x04\x00\x00\x00\x00\x00\x00\x08\x00\x00\x00\x4d\x01\x01\x00\x01\x00\x00\x00",
        ),
        Fate::Channel,
    ),
    // A connect with content.
    (
        Frame(
            b"\x00\x04\x00\x00\x00\x04\x00\x00\x00\x00\x00\x00\x09\x00\x00\x00\x4d\x01\x02\x00\x01\x00\x00\x00\x00",
        ),
        Fate::Size,
    ),
    (
        Frame(
            b"\x00\x04\x00\x00\x35\x00\x00\x00\x00\x00\x00\x00\x08\x00\x00\x00\x4d\x01\x01\x00\x00\x00\x00\x00",
        ),
        Fate::NsSize,
    ),
    (Name(b"mcapi:1:0:1", 1030, 2), Fate::NsFlags),
    (Name(b"", 1030, 0), Fate::NsName),
    (Name(b"mcapi:1:0:\x7f", 1030, 0), Fate::NsName),
    (Name(b"console", 1030, 0), Fate::ForeignName),
    (Name(b"mcapi:0:0:1", 1030, 0), Fate::ForeignName),
    (Name(b"mcapi:2:0:1", 1030, 0), Fate::ForeignName),
    (Name(b"mcapi:2:0:1", 1030, 1), Fate::ForeignName),
    (Name(b"mcapi:1:0:01", 1030, 0), Fate::ForeignName),
    (Name(b"mcapi:1:16:1", 1030, 0), Fate::ForeignName),
    (Name(b"mcapi:1:0:2", 1030, 1), Fate::UnknownName),
    (Name(b"mcapi:1:0:1", 1030, 0), Fate::Acted),
    (Name(b"mcapi:1:0:1", 1031, 0), Fate::Acted),
    (Name(b"mcapi:1:0:2", 1032, 0), Fate::Acted),
    (Name(b"mcapi:1:0:2", 1032, 1), Fate::Acted),
    (Name(b"mcapi:1:0:2", 1032, 1), Fate::UnknownName),
    // Messages to an address that nobody has, and to the endpoint, and a Connect to it, which is busy.
    (
        Frame(
            b"\x06\x04\x00\x00\x01\x04\x00\x00\x00\x00\x00\x00\x0a\x00\x00\x00\x4d\x01\x01\x00\x00\x00\x00\x00\x07\x07",
        ),
        Fate::NoEndpoint,
    ),
    (
        Frame(
            b"\x06\x04\x00\x00\x00\x04\x00\x00\x00\x00\x00\x00\x0a\x00\x00\x00\x4d\x01\x01\x01\x00\x00\x00\x00\x07\x07",
        ),
        Fate::Queued,
    ),
    (
        Frame(
            b"\x06\x04\x00\x00\x00\x04\x00\x00\x00\x00\x00\x00\x08\x00\x00\x00\x4d\x01\x02\x00\x01\x00\x00\x00",
        ),
        Fate::Owed,
    ),
    (
        Frame(
            b"\x06\x04\x00\x00\x00\x04\x00\x00\x00\x00\x00\x00\x0b\x00\x00\x00\x4d\x01\x01\x00\x00\x00\x00\x00\x08\x08\x08",
        ),
        Fate::Queued,
    ),
    // A fragment without bytes.
    (
        Frame(
            b"\x06\x04\x00\x00\x00\x04\x00\x00\x00\x00\x00\x00\x0c\x00\x00\x00\x4d\x02\x01\x01\x00\x00\x00\x00\x04\x00\x00\x00",
        ),
        Fate::Size,
    ),
    // Reserved bytes, flags and what lies behind the payload do not matter.
    (
        Frame(
            b"\x06\x04\x00\x00\x00\x04\x00\x00\x09\x09\x09\x09\x08\x00\x09\x09\x4d\x01\x01\x02\x00\x00\x00\x00\xff",
        ),
        Fate::Queued,
    ),
    (Frame(b"a"), Fate::FrameShort),
];

const RECEIVED_OF_DEALT: [Answered; 5] = [
    (Receive(1, 488, 8), Ok(3)),
    (Receive(1, 488, 7), Ok(2)),
    (Receive(1, 488, 0), Ok(0)),
    (Receive(1, 488, 0), Err(Refusal::Empty)),
    (Create(0, 1), Err(Refusal::ExistsAlready)),
];

/// Asserts what the frames of each kind have left.
fn assert_left(rt: &impl Abort, noted: &mut Noted) -> Result<(), Fail> {
    assert!(rt; noted.domain.places(1) == Some(Places { queue: 3, lent: 0 }));
    // The name that was announced twice has the later address.
    assert_known(rt, noted, 1, Ok(Done::Address(1031)))?;
    assert_known(rt, noted, 2, Err(Refusal::Pending))?;
    assert_answers(
        rt,
        &mut noted.domain,
        &mut noted.journal,
        "what is left",
        &RECEIVED_OF_DEALT,
    )
}

#[test]
fn each_frame_has_its_word(rt: HostRuntime) -> Result<(), Fail> {
    assert_of(Noted::open(rt.alloc(), &DEALT), |noted| {
        assert_dealt(&rt, noted, &DEALT)?;
        assert_left(&rt, noted)
    })
}

/// The kinds of messages and of packets, in a fragment.
const MESSAGE: u8 = 1;

const PACKET: u8 = 7;

/// Fragments of messages and packets. The endpoint of address 1024 is there when the ninth frame is taken, and it has no channel.
static FRAGMENTS: [Row; 38] = [
    // Each second fragment doesn't continue the first: no part is open, or it has another total, offset, argument, kind or receiver.
    (Fragment(1024, MESSAGE, 1, 4, 2), Fate::Stray),
    (Fragment(1024, MESSAGE, 1, 4, 0), Fate::Part),
    (Fragment(1024, MESSAGE, 1, 6, 2), Fate::Stray),
    (Fragment(1024, MESSAGE, 1, 4, 2), Fate::Stray),
    (Fragment(1024, MESSAGE, 1, 6, 0), Fate::Part),
    (Fragment(1024, MESSAGE, 1, 6, 4), Fate::Stray),
    (Fragment(1024, MESSAGE, 1, 6, 0), Fate::Part),
    (Fragment(1024, MESSAGE, 2, 6, 2), Fate::Stray),
    (Fragment(1024, MESSAGE, 1, 6, 0), Fate::Part),
    (Fragment(1024, PACKET, 0, 6, 2), Fate::Stray),
    (Fragment(1024, MESSAGE, 1, 6, 0), Fate::Part),
    (Fragment(1025, MESSAGE, 1, 6, 2), Fate::Stray),
    // A first fragment that comes again begins anew.
    (Fragment(1024, MESSAGE, 1, 6, 0), Fate::Part),
    (Fragment(1024, MESSAGE, 1, 6, 0), Fate::Part),
    (Fragment(1024, MESSAGE, 1, 6, 2), Fate::Part),
    (Fragment(1024, MESSAGE, 1, 6, 4), Fate::Queued),
    (Fragment(1024, MESSAGE, 1, 6, 4), Fate::Stray),
    // A frame with a fault, an announcement, a message and a RecvOpen each end the open part.
    (Fragment(1024, MESSAGE, 1, 4, 0), Fate::Part),
    (Frame(b"a"), Fate::FrameShort),
    (Fragment(1024, MESSAGE, 1, 4, 2), Fate::Stray),
    (Fragment(1024, MESSAGE, 1, 4, 0), Fate::Part),
    (Name(b"mcapi:1:0:1", 1030, 0), Fate::Acted),
    (Fragment(1024, MESSAGE, 1, 4, 2), Fate::Stray),
    (Fragment(1024, MESSAGE, 1, 4, 0), Fate::Part),
    (Sent(1024, MESSAGE, 1, 0, b"\x07"), Fate::Queued),
    (Fragment(1024, MESSAGE, 1, 4, 2), Fate::Stray),
    (Fragment(1024, MESSAGE, 1, 4, 0), Fate::Part),
    (Sent(1024, 5, 0, 1, b""), Fate::State),
    (Fragment(1024, MESSAGE, 1, 4, 2), Fate::Stray),
    // The word of a whole item is that of its kind and receiver: a packet has no channel, and a message no endpoint.
    (Fragment(1024, PACKET, 0, 4, 0), Fate::Part),
    (Fragment(1024, PACKET, 0, 4, 2), Fate::State),
    (Fragment(1025, MESSAGE, 0, 4, 0), Fate::Part),
    (Fragment(1025, MESSAGE, 0, 4, 2), Fate::NoEndpoint),
    // An item of one fragment, and an open part that is left in the end.
    (Fragment(1024, MESSAGE, 0, 2, 0), Fate::Queued),
    (Fragment(1024, MESSAGE, 0, 8, 0), Fate::Part),
    (Fragment(1024, MESSAGE, 0, 8, 2), Fate::Part),
    (Fragment(1024, MESSAGE, 0, 8, 4), Fate::Part),
    (Fragment(1024, MESSAGE, 0, 8, 5), Fate::Stray),
];

const RECEIVED_OF_FRAGMENTS: [Answered; 4] = [
    (Receive(1, 488, 7), Ok(2)),
    (Receive(1, 488, 7), Ok(6)),
    (Receive(1, 488, 7), Ok(1)),
    (Receive(1, 488, 0), Err(Refusal::Empty)),
];

/// Asserts which messages came of the fragments, and that no other buffer is held.
fn assert_joined(rt: &impl Abort, noted: &mut Noted) -> Result<(), Fail> {
    assert!(rt; noted.domain.places(1) == Some(Places { queue: 5, lent: 0 }));
    assert_answers(
        rt,
        &mut noted.domain,
        &mut noted.journal,
        "what came of fragments",
        &RECEIVED_OF_FRAGMENTS,
    )?;
    assert!(rt; noted.domain.places(1) == Some(Places { queue: 0, lent: 0 }));
    Ok(())
}

#[test]
fn each_fragment_has_its_word(rt: HostRuntime) -> Result<(), Fail> {
    assert_of(Noted::open(rt.alloc(), &FRAGMENTS), |noted| {
        assert_dealt(&rt, noted, &FRAGMENTS)?;
        assert_joined(&rt, noted)
    })
}

/// 65 names, a known one with another address, one that is gone, and the last again.
fn many_names() -> [Row; 68] {
    let mut rows = [(Port(10, 2000), Fate::Acted); 68];
    for i in 0..65 {
        rows[i] = (Port(10 + i as u8, 2000 + i as u32), Fate::Acted);
    }
    rows[64].1 = Fate::NamesFull;
    rows[65] = (Port(11, 3000), Fate::Acted);
    rows[66] = (Name(b"mcapi:1:0:12", 2002, 1), Fate::Acted);
    rows[67] = (Port(74, 3001), Fate::Acted);
    rows
}

/// A port, and how a lookup of it ends.
type Known = (u16, Result<Done, Refusal>);

const KNOWN: [Known; 5] = [
    (10, Ok(Done::Address(2000))),
    (11, Ok(Done::Address(3000))),
    (12, Err(Refusal::Pending)),
    (73, Ok(Done::Address(2063))),
    (74, Ok(Done::Address(3001))),
];

fn assert_all_known(rt: &impl Abort, noted: &mut Noted, rows: &[Known]) -> Result<(), Fail> {
    for (port, due) in rows {
        assert_known(rt, noted, *port, *due)?;
    }
    Ok(())
}

#[test]
fn sixty_five_names_of_a_peer(rt: HostRuntime) -> Result<(), Fail> {
    let rows = many_names();
    assert_of(Noted::open(rt.alloc(), &rows), |noted| {
        assert_dealt(&rt, noted, &rows)?;
        assert_all_known(&rt, noted, &KNOWN)
    })
}

//! Items on channels inside one domain: packets and scalars that are sent, received and dropped, and what is refused.

use super::*;
use Bits::{B8, B16, B32, B64};
use Kind::{Packet, Scalar};
use Value::{Byte, Long, Short, Word};

/// Scalars of each size, 0 and the greatest, each asked for by other bits first.
const SCALARS: [Row; 28] = [
    (SendScalar(1, Byte(0)), Ok(Number(0)), NONE_HELD),
    (ReceiveScalar(2, B16), Err(Refusal::SclSize), ONE_QUEUED),
    (ReceiveScalar(2, B8), Ok(Number(0)), NONE_HELD),
    (ReceiveScalar(2, B8), Err(Refusal::Empty), NONE_HELD),
    (SendScalar(1, Byte(255)), Ok(Number(0)), NONE_HELD),
    (ReceiveScalar(2, B64), Err(Refusal::SclSize), ONE_QUEUED),
    (ReceiveScalar(2, B8), Ok(Number(255)), NONE_HELD),
    (SendScalar(1, Short(0)), Ok(Number(0)), NONE_HELD),
    (ReceiveScalar(2, B8), Err(Refusal::SclSize), ONE_QUEUED),
    (ReceiveScalar(2, B32), Err(Refusal::SclSize), ONE_QUEUED),
    (ReceiveScalar(2, B16), Ok(Number(0)), NONE_HELD),
    (SendScalar(1, Short(0x1234)), Ok(Number(0)), NONE_HELD),
    (ReceiveScalar(2, B16), Ok(Number(0x1234)), NONE_HELD),
    (SendScalar(1, Short(65_535)), Ok(Number(0)), NONE_HELD),
    (ReceiveScalar(2, B16), Ok(Number(65_535)), NONE_HELD),
    (SendScalar(1, Word(0)), Ok(Number(0)), NONE_HELD),
    (ReceiveScalar(2, B64), Err(Refusal::SclSize), ONE_QUEUED),
    (ReceiveScalar(2, B32), Ok(Number(0)), NONE_HELD),
    (SendScalar(1, Word(u32::MAX)), Ok(Number(0)), NONE_HELD),
    (ReceiveScalar(2, B16), Err(Refusal::SclSize), ONE_QUEUED),
    (ReceiveScalar(2, B32), Ok(Number(4_294_967_295)), NONE_HELD),
    (SendScalar(1, Long(0)), Ok(Number(0)), NONE_HELD),
    (ReceiveScalar(2, B32), Err(Refusal::SclSize), ONE_QUEUED),
    (ReceiveScalar(2, B64), Ok(Number(0)), NONE_HELD),
    (SendScalar(1, Long(u64::MAX)), Ok(Number(0)), NONE_HELD),
    (ReceiveScalar(2, B8), Err(Refusal::SclSize), ONE_QUEUED),
    (ReceiveScalar(2, B64), Ok(Number(u64::MAX)), NONE_HELD),
    (ReceiveScalar(2, B64), Err(Refusal::Empty), NONE_HELD),
];

/// A receiver that takes nothing holds the buffers of the lane, and a sender that closes leaves what is queued.
const SLOW: [Row; 15] = [
    (SendScalar(1, Byte(1)), Ok(Number(0)), NONE_HELD),
    (SendScalar(1, Byte(2)), Ok(Number(0)), ONE_QUEUED),
    (SendScalar(1, Byte(3)), Err(Refusal::NoBuffer), TWO_QUEUED),
    (CloseSend(1), Err(Refusal::NoBuffer), TWO_QUEUED),
    (QueuedOn(1), Ok(Number(2)), TWO_QUEUED),
    (QueuedOn(2), Ok(Number(0)), TWO_QUEUED),
    (CloseRecv(2), Err(Refusal::NoBuffer), TWO_QUEUED),
    (ReceiveScalar(2, B8), Ok(Number(1)), ONE_QUEUED),
    (CloseSend(1), Ok(Number(0)), ONE_QUEUED),
    (SendScalar(1, Byte(3)), Err(Refusal::ChanClosed), ONE_QUEUED),
    (ReceiveScalar(2, B8), Ok(Number(2)), NONE_HELD),
    (ReceiveScalar(2, B8), Err(Refusal::ChanClosed), NONE_HELD),
    (CloseRecv(2), Ok(Number(0)), NONE_HELD),
    (ReceiveScalar(2, B8), Err(Refusal::NotConnected), NONE_HELD),
    (QueuedOn(1), Ok(Number(0)), NONE_HELD),
];

/// Packets of the least and the greatest size, which are dropped where the receiver closes.
const PACKETS: [Row; 6] = [
    (SendPacket(1, 7, 8193), Err(Refusal::PktSize), NONE_HELD),
    (SendPacket(1, 7, 0), Ok(Number(0)), NONE_HELD),
    (CloseRecv(2), Ok(Number(1)), NONE_HELD),
    (SendPacket(1, 7, 8193), Err(Refusal::ChanClosed), NONE_HELD),
    (CloseSend(1), Ok(Number(0)), NONE_HELD),
    (
        SendPacket(1, 7, 8193),
        Err(Refusal::NotConnected),
        NONE_HELD,
    ),
];

const LONG_PACKETS: [Row; 6] = [
    (SendPacket(1, 7, 488), Ok(Number(0)), NONE_HELD),
    (SendPacket(1, 8, 488), Ok(Number(0)), ONE_QUEUED),
    (SendPacket(1, 9, 969), Err(Refusal::PktSize), TWO_QUEUED),
    (SendPacket(1, 9, 968), Err(Refusal::NoBuffer), TWO_QUEUED),
    (SendPacket(1, 9, 488), Err(Refusal::NoBuffer), TWO_QUEUED),
    (Delete(0, 2), Err(Refusal::ChanConnected), TWO_QUEUED),
];

/// A packet of several frames is lent in all their buffers, and released by one id.
const LARGE_PACKETS: [Row; 13] = [
    (SendPacket(1, 7, 1000), Ok(Number(0)), NONE_HELD),
    (SendPacket(1, 8, 489), Err(Refusal::NoBuffer), (3, 0)),
    (SendPacket(1, 8, 1937), Err(Refusal::PktSize), (3, 0)),
    (ReceivePacket(2, 7), Ok(Lent(0, 0, 1000)), (0, 3)),
    (ReadPacket(0, 0, 7), Ok(Lent(0, 0, 1000)), (0, 3)),
    (SendPacket(1, 8, 489), Err(Refusal::NoBuffer), (0, 3)),
    (Release(0, 0), Ok(Number(0)), NONE_HELD),
    (SendPacket(1, 8, 1936), Ok(Number(0)), NONE_HELD),
    (BeginPacket(2), Ok(Number(1)), (0, 4)),
    (Test(1, 8), Ok(Lent(3, 1, 1936)), (0, 4)),
    (Release(3, 1), Ok(Number(0)), NONE_HELD),
    (SendPacket(1, 9, 489), Ok(Number(0)), NONE_HELD),
    (CloseRecv(2), Ok(Number(1)), NONE_HELD),
];

/// Each refusal stands before the next, on the way to an open channel of scalars.
const REFUSED: [Row; 22] = [
    (SendScalar(1, Byte(0)), Err(Refusal::EndpInvalid), NONE_HELD),
    (ReceiveScalar(1, B8), Err(Refusal::EndpInvalid), NONE_HELD),
    (SendPacket(1, 0, 8193), Err(Refusal::EndpInvalid), NONE_HELD),
    (Plain(Create(0, 1)), Ok(Number(1024)), NONE_HELD),
    (Plain(Create(0, 2)), Ok(Number(1025)), NONE_HELD),
    (
        SendScalar(1, Byte(0)),
        Err(Refusal::NotConnected),
        NONE_HELD,
    ),
    (ReceiveScalar(1, B8), Err(Refusal::NotConnected), NONE_HELD),
    (
        SendPacket(1, 0, 8193),
        Err(Refusal::NotConnected),
        NONE_HELD,
    ),
    (Connect(1, 3, 2, Scalar), Ok(Connected(0, 1)), NONE_HELD),
    (ReceiveScalar(1, B8), Err(Refusal::NotConnected), NONE_HELD),
    (Test(0, 0), Ok(Accepted), NONE_HELD),
    (ReceiveScalar(1, B8), Err(Refusal::ChanDirection), NONE_HELD),
    (
        SendScalar(2, Byte(0)),
        Err(Refusal::ChanDirection),
        NONE_HELD,
    ),
    (
        SendPacket(2, 0, 8193),
        Err(Refusal::ChanDirection),
        NONE_HELD,
    ),
    (SendPacket(1, 0, 8193), Err(Refusal::ChanType), NONE_HELD),
    (SendScalar(1, Byte(0)), Err(Refusal::NotOpen), NONE_HELD),
    (ReceiveScalar(2, B8), Err(Refusal::NotOpen), NONE_HELD),
    (OpenSend(1, Scalar), Ok(Number(0)), NONE_HELD),
    (SendScalar(1, Byte(0)), Err(Refusal::NotOpen), NONE_HELD),
    (OpenRecv(2, Scalar), Ok(Number(0)), NONE_HELD),
    (ReceiveScalar(2, B8), Err(Refusal::Empty), NONE_HELD),
    (SendScalar(1, Byte(0)), Ok(Number(0)), NONE_HELD),
];

const TWO_LENT: (u32, u32) = (0, 2);

/// Packets are lent in the order in which they were sent, and released in another. An id is good once.
const LENT: [Row; 19] = [
    (SendPacket(1, 7, 5), Ok(Number(0)), NONE_HELD),
    (SendPacket(1, 8, 488), Ok(Number(0)), ONE_QUEUED),
    (ReceivePacket(2, 7), Ok(Lent(0, 0, 5)), (1, 1)),
    (ReceivePacket(2, 8), Ok(Lent(1, 1, 488)), TWO_LENT),
    (ReceivePacket(2, 0), Err(Refusal::Empty), TWO_LENT),
    (SendPacket(1, 9, 1), Err(Refusal::NoBuffer), TWO_LENT),
    (ReadPacket(0, 0, 7), Ok(Lent(0, 0, 5)), TWO_LENT),
    (Release(0, 1), Err(Refusal::BufInvalid), TWO_LENT),
    (Release(1, 1), Ok(Number(0)), ONE_LENT),
    (Release(1, 1), Err(Refusal::BufInvalid), ONE_LENT),
    (ReadPacket(1, 1, 8), Err(Refusal::BufInvalid), ONE_LENT),
    (ReadPacket(0, 0, 7), Ok(Lent(0, 0, 5)), ONE_LENT),
    (SendPacket(1, 9, 0), Ok(Number(0)), ONE_LENT),
    (ReceivePacket(2, 9), Ok(Lent(1, 2, 0)), TWO_LENT),
    (ReadPacket(1, 1, 9), Err(Refusal::BufInvalid), TWO_LENT),
    (CloseRecv(2), Err(Refusal::NoBuffer), TWO_LENT),
    (Release(0, 0), Ok(Number(0)), ONE_LENT),
    (CloseRecv(2), Ok(Number(0)), ONE_LENT),
    (ReadPacket(1, 2, 9), Ok(Lent(1, 2, 0)), ONE_LENT),
];

/// A request for a packet waits for one, holds it until it is tested off, and ends where the receiver closes.
const REQUESTED: [Row; 13] = [
    (BeginPacket(2), Ok(Number(1)), NONE_HELD),
    (BeginPacket(2), Ok(Number(2)), NONE_HELD),
    (BeginPacket(2), Ok(Number(3)), NONE_HELD),
    (SendPacket(1, 5, 3), Ok(Number(0)), NONE_HELD),
    (Test(1, 5), Ok(Lent(0, 0, 3)), ONE_LENT),
    (Test(2, 5), Err(Refusal::Pending), ONE_LENT),
    (Cancel(2), Ok(Number(0)), ONE_LENT),
    (CloseRecv(2), Ok(Number(0)), ONE_LENT),
    (Test(3, 0), Ok(Ended(Refusal::ChanClosed)), ONE_LENT),
    (Test(1, 5), Err(Refusal::RequestInvalid), ONE_LENT),
    (ReadPacket(0, 0, 5), Ok(Lent(0, 0, 3)), ONE_LENT),
    (Release(0, 0), Ok(Number(0)), NONE_HELD),
    (BeginPacket(2), Err(Refusal::ChanClosed), NONE_HELD),
];

/// Sends 64 packets, each of which is received and stays lent. The frames that opened the channel used the first four buffers of
/// the pool, and a lane's buffers go round.
fn assert_all_lent(rt: &impl Abort, lone: &mut Lone) -> Result<(), Fail> {
    for n in 0..64 {
        let before = (0, u32::from(n));
        let after = (0, u32::from(n) + 1);
        let answer = Lent((u16::from(n) + 4) % 64, u64::from(n), 1);
        let rows = [
            (SendPacket(1, n, 1), Ok(Number(0)), before),
            (ReceivePacket(2, n), Ok(answer), after),
        ];
        assert_rows(rt, lone, "a packet", &rows)?;
    }
    Ok(())
}

const ALL_LENT: (u32, u32) = (0, 64);

/// The buffer of the first packet is lent anew, under another serial.
const LENT_ANEW: [Row; 7] = [
    (SendPacket(1, 9, 2), Err(Refusal::NoBuffer), ALL_LENT),
    (Release(4, 0), Ok(Number(0)), (0, 63)),
    (SendPacket(1, 9, 2), Ok(Number(0)), (0, 63)),
    (ReceivePacket(2, 9), Ok(Lent(4, 64, 2)), ALL_LENT),
    (ReadPacket(4, 0, 9), Err(Refusal::BufInvalid), ALL_LENT),
    (Release(4, 0), Err(Refusal::BufInvalid), ALL_LENT),
    (Release(4, 64), Ok(Number(0)), (0, 63)),
];

/// Releases the other 63 in steps of five, and asserts that each id is good once.
fn assert_others_released(rt: &impl Abort, lone: &mut Lone) -> Result<(), Fail> {
    for i in 1..64u16 {
        let n = i * 5 % 64;
        let release = Release((n + 4) % 64, u64::from(n));
        let left = (0, 63 - u32::from(i));
        let rows = [
            (release, Ok(Number(0)), left),
            (release, Err(Refusal::BufInvalid), left),
        ];
        assert_rows(rt, lone, "a packet", &rows)?;
    }
    Ok(())
}

#[test]
fn sixty_four_packets_at_once(rt: HostRuntime) -> Result<(), Fail> {
    assert_of(Lone::open(rt.alloc(), 1, 64), |lone| {
        assert_rows(&rt, lone, "a channel", &opened(Packet))?;
        assert_all_lent(&rt, lone)?;
        assert_rows(&rt, lone, "lent anew", &LENT_ANEW)?;
        assert_others_released(&rt, lone)
    })
}

/// Two requests wait when the sender closes. The first has its packet, also once the receiver closes, and the second ends.
const SENDER_CLOSES: [Row; 9] = [
    (BeginPacket(2), Ok(Number(1)), NONE_HELD),
    (BeginPacket(2), Ok(Number(2)), NONE_HELD),
    (SendPacket(1, 5, 3), Ok(Number(0)), NONE_HELD),
    (CloseSend(1), Ok(Number(0)), ONE_LENT),
    (Test(2, 0), Ok(Ended(Refusal::ChanClosed)), ONE_LENT),
    (ReceivePacket(2, 0), Err(Refusal::ChanClosed), ONE_LENT),
    (CloseRecv(2), Ok(Number(0)), ONE_LENT),
    (Test(1, 5), Ok(Lent(0, 0, 3)), ONE_LENT),
    (Release(0, 0), Ok(Number(0)), NONE_HELD),
];

static CASES: [Case; 9] = [
    ("scalars of each size", 2, Some(Scalar), &SCALARS, &[]),
    (
        "a slow receiver uses up the lane",
        2,
        Some(Scalar),
        &SLOW,
        &[],
    ),
    (
        "packets are dropped where the receiver closes",
        2,
        Some(Packet),
        &PACKETS,
        &[],
    ),
    (
        "packets of the greatest size",
        2,
        Some(Packet),
        &LONG_PACKETS,
        &[],
    ),
    (
        "packets of several frames",
        4,
        Some(Packet),
        &LARGE_PACKETS,
        &[],
    ),
    (
        "each refusal of an item in its order",
        2,
        None,
        &REFUSED,
        &[],
    ),
    ("packets are lent and released", 2, Some(Packet), &LENT, &[]),
    ("packets are requested", 2, Some(Packet), &REQUESTED, &[]),
    (
        "requests for packets end where the sender closes",
        2,
        Some(Packet),
        &SENDER_CLOSES,
        &[],
    ),
];

#[test]
fn items_on_channels(rt: HostRuntime) -> Result<(), Fail> {
    assert_cases(&rt, rt.alloc(), &CASES)
}

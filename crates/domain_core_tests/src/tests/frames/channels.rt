//! What becomes of the letters of channels.

ghost use Rattle.std.specs.Prelude.{◌<◌, ◌+◌, IsTrue, length};

use super::*;

/// Letters of channels. The endpoint is there when the ninth is taken, and its address is 1024.
static OF_CHANNELS: [Row; 29] = [
    // Connects to no endpoint.
    (Sent(1024, 2, 0, 9, b""), Fate::Owed),
    (Sent(1024, 2, 0, 9, b""), Fate::Owed),
    (Sent(1024, 2, 0, 9, b""), Fate::Owed),
    (Sent(1024, 2, 0, 9, b""), Fate::Owed),
    (Sent(1024, 2, 0, 9, b""), Fate::Owed),
    (Sent(1024, 2, 0, 9, b""), Fate::Owed),
    (Sent(1024, 2, 0, 9, b""), Fate::Owed),
    (Sent(1024, 2, 0, 9, b""), Fate::Owed),
    // Letters to an endpoint without a channel, and to none.
    (Sent(1024, 6, 0, 1, b""), Fate::State),
    (Sent(1025, 7, 0, 1, b"ab"), Fate::NoEndpoint),
    (Sent(1025, 3, 0, 1, b""), Fate::NoEndpoint),
    (Sent(1025, 2, 0, 1, b""), Fate::Owed),
    // A Connect that is accepted, and one more.
    (Sent(1024, 2, 0, 1, b""), Fate::Owed),
    (Sent(1024, 2, 0, 2, b""), Fate::Owed),
    // A message, and what is of another channel or kind.
    (Sent(1024, 1, 0, 0, b"ab"), Fate::OnChannel),
    (Sent(1024, 7, 0, 2, b"ab"), Fate::State),
    (Sent(1024, 8, 2, 1, b"ab"), Fate::State),
    (Sent(1024, 7, 0, 1, b"ab"), Fate::Queued),
    (Sent(1024, 6, 0, 1, b""), Fate::Acted),
    (Sent(1024, 6, 0, 1, b""), Fate::State),
    // Letters for a sender.
    (Sent(1024, 3, 0, 1, b""), Fate::State),
    (Sent(1024, 4, 3, 1, b""), Fate::State),
    (Sent(1024, 5, 0, 1, b""), Fate::State),
    (Sent(1024, 10, 0, 1, b""), Fate::State),
    // The far end closes.
    (Sent(1024, 9, 0, 2, b""), Fate::State),
    (Sent(1024, 9, 0, 1, b""), Fate::Acted),
    (Sent(1024, 9, 0, 1, b""), Fate::State),
    (Sent(1024, 7, 0, 1, b"cd"), Fate::State),
    (Sent(1024, 6, 0, 1, b""), Fate::State),
];

/// Each letter of a channel but a Connect, to an endpoint that has none. The endpoint is there when the ninth is taken.
static WITHOUT_A_CHANNEL: [Row; 16] = [
    (Frame(b"a"), Fate::FrameShort),
    (Frame(b"a"), Fate::FrameShort),
    (Frame(b"a"), Fate::FrameShort),
    (Frame(b"a"), Fate::FrameShort),
    (Frame(b"a"), Fate::FrameShort),
    (Frame(b"a"), Fate::FrameShort),
    (Frame(b"a"), Fate::FrameShort),
    (Frame(b"a"), Fate::FrameShort),
    (Sent(1024, 3, 0, 1, b""), Fate::State),
    (Sent(1024, 4, 1, 1, b""), Fate::State),
    (Sent(1024, 5, 0, 1, b""), Fate::State),
    (Sent(1024, 6, 0, 1, b""), Fate::State),
    (Sent(1024, 7, 0, 1, b"ab"), Fate::State),
    (Sent(1024, 8, 2, 1, b"ab"), Fate::State),
    (Sent(1024, 9, 0, 1, b""), Fate::State),
    (Sent(1024, 10, 0, 1, b""), Fate::State),
];

fn assert_none_held(rt: &impl Abort, noted: &mut Noted) -> Result<(), Fail> {
    assert!(rt; noted.domain.places(1) == Some(Places { queue: 0, lent: 0 }));
    Ok(())
}

#[test]
fn letters_to_an_endpoint_without_a_channel(rt: HostRuntime) -> Result<(), Fail> {
    assert_of(Noted::open(rt.alloc(), &WITHOUT_A_CHANNEL), |noted| {
        assert_dealt(&rt, noted, &WITHOUT_A_CHANNEL)?;
        assert_none_held(&rt, noted)
    })
}

/// The kind, argument and channel of a reply, and the lowest byte of the address that it comes from.
type Replied = (u8, u8, u8, u8);

const REPLIES: [Replied; 11] = [
    (4, 1, 9, 0),
    (4, 1, 9, 0),
    (4, 1, 9, 0),
    (4, 1, 9, 0),
    (4, 1, 9, 0),
    (4, 1, 9, 0),
    (4, 1, 9, 0),
    (4, 1, 9, 0),
    (4, 1, 1, 1),
    (3, 0, 1, 0),
    (4, 2, 2, 0),
];

/// The first frame is an announcement, which goes before the replies.
fn assert_replies(rt: &impl Abort, journal: &Journal, due: &[Replied]) {
    let mut put = 0;
    for i in 0..journal.len() {
        if let Some(Entry::Put { frame, .. }) = journal.entry(i) {
            assert!(rt; is_put(due, put, frame), "frame {put}");
            put += 1;
        }
    }
    assert!(rt; put == due.len() + 1);
}

/// Whether the frame of this number is the announcement or such a reply to address 1030.
fn is_put(due: &[Replied], number: usize, frame: &[u8]) -> bool
    ensures { IsTrue result → number < length due.now + 1 }
{
    let Some(at) = number.checked_sub(1) else {
        return frame.len() == 56;
    };
    let Some((kind, argument, channel, source)) = due.get(at) else {
        return false;
    };
    frame.len() == 24
        && frame[4..8] == [6, 4, 0, 0]
        && frame[18] == *kind
        && frame[19] == *argument
        && frame[20] == *channel
        && frame[0] == *source
}

const REFUSED_ON_CHANNEL: [Answered; 2] = [
    (Receive(1, 488, 0), Err(Refusal::OnChannel)),
    (Send(1, 1, 0, 0, 2), Err(Refusal::OnChannel)),
];

/// Asserts how Connects were answered, and what is refused at the endpoint that has the channel.
fn assert_connected(rt: &impl Abort, noted: &mut Noted) -> Result<(), Fail> {
    assert_replies(rt, &noted.journal, &REPLIES);
    assert!(rt; noted.domain.places(1) == Some(Places { queue: 1, lent: 0 }));
    assert_answers(
        rt,
        &mut noted.domain,
        &mut noted.journal,
        "at an endpoint that has a channel",
        &REFUSED_ON_CHANNEL,
    )?;
    noted.journal.reserve(176, 90_112)?;
    let ended = noted
        .domain
        .delete(&mut noted.journal, Local { node: 0, port: 1 });
    assert!(rt; ended == Err(Refusal::ChanConnected));
    Ok(())
}

#[test]
fn each_letter_of_a_channel_has_its_word(rt: HostRuntime) -> Result<(), Fail> {
    assert_of(Noted::open(rt.alloc(), &OF_CHANNELS), |noted| {
        assert_dealt(&rt, noted, &OF_CHANNELS)?;
        assert_connected(&rt, noted)
    })
}

use Refusal::{AlreadyOpen, ChanClosed, ChanDirection, ChanType, NotConnected, NotOpen};
use Stage::{Closed, Connected, Connecting, Open};
use mc_base::{Kind, Refusal, Side};
use packet_channel::{Channel, Stage};
use std::test::Fail;

type Answer = Result<(), Refusal>;

/// A stage, whether the far end is open and closed, and what a sender's end with these answers to an open, a send and a close.
type SenderRow = (Stage, bool, bool, [Answer; 3]);

const SENDER: [SenderRow; 16] = [
    (Connecting, false, false, [Err(NotConnected); 3]),
    (Connecting, true, false, [Err(NotConnected); 3]),
    (Connecting, false, true, [Err(NotConnected); 3]),
    (Connecting, true, true, [Err(NotConnected); 3]),
    (Connected, false, false, [Ok(()), Err(NotOpen), Ok(())]),
    (Connected, true, false, [Ok(()), Err(NotOpen), Ok(())]),
    (
        Connected,
        false,
        true,
        [Err(ChanClosed), Err(ChanClosed), Ok(())],
    ),
    (
        Connected,
        true,
        true,
        [Err(ChanClosed), Err(ChanClosed), Ok(())],
    ),
    (Open, false, false, [Err(AlreadyOpen), Err(NotOpen), Ok(())]),
    (Open, true, false, [Err(AlreadyOpen), Ok(()), Ok(())]),
    (
        Open,
        false,
        true,
        [Err(ChanClosed), Err(ChanClosed), Ok(())],
    ),
    (Open, true, true, [Err(ChanClosed), Err(ChanClosed), Ok(())]),
    (Closed, false, false, [Err(ChanClosed); 3]),
    (Closed, true, false, [Err(ChanClosed); 3]),
    (Closed, false, true, [Err(ChanClosed); 3]),
    (Closed, true, true, [Err(ChanClosed); 3]),
];

/// The same of a receiver's end: an open, a receive where nothing is queued and one where an item is, and a close.
type ReceiverRow = (Stage, bool, bool, [Answer; 4]);

const RECEIVER: [ReceiverRow; 16] = [
    (Connecting, false, false, [Err(NotConnected); 4]),
    (Connecting, true, false, [Err(NotConnected); 4]),
    (Connecting, false, true, [Err(NotConnected); 4]),
    (Connecting, true, true, [Err(NotConnected); 4]),
    (
        Connected,
        false,
        false,
        [Ok(()), Err(NotOpen), Err(NotOpen), Ok(())],
    ),
    (
        Connected,
        true,
        false,
        [Ok(()), Err(NotOpen), Err(NotOpen), Ok(())],
    ),
    (
        Connected,
        false,
        true,
        [Ok(()), Err(NotOpen), Err(NotOpen), Ok(())],
    ),
    (
        Connected,
        true,
        true,
        [Ok(()), Err(NotOpen), Err(NotOpen), Ok(())],
    ),
    (
        Open,
        false,
        false,
        [Err(AlreadyOpen), Ok(()), Ok(()), Ok(())],
    ),
    (
        Open,
        true,
        false,
        [Err(AlreadyOpen), Ok(()), Ok(()), Ok(())],
    ),
    (
        Open,
        false,
        true,
        [Err(AlreadyOpen), Err(ChanClosed), Ok(()), Ok(())],
    ),
    (
        Open,
        true,
        true,
        [Err(AlreadyOpen), Err(ChanClosed), Ok(()), Ok(())],
    ),
    (Closed, false, false, [Err(ChanClosed); 4]),
    (Closed, true, false, [Err(ChanClosed); 4]),
    (Closed, false, true, [Err(ChanClosed); 4]),
    (Closed, true, true, [Err(ChanClosed); 4]),
];

const KINDS: [Kind; 2] = [Kind::Packet, Kind::Scalar];

/// The end of domain 0's channel 5 to address 1030 of domain 1.
fn end(side: Side, kind: Kind, stage: Stage, far_open: bool, far_closed: bool) -> Channel {
    Channel {
        side,
        kind,
        owner: 0,
        number: 5,
        peer: 1,
        peer_addr: 1030,
        stage,
        far_open,
        far_closed,
    }
}

fn other(kind: Kind) -> Kind {
    match kind {
        Kind::Packet => Kind::Scalar,
        Kind::Scalar => Kind::Packet,
    }
}

/// The answer to a call of the other side, and of the other kind: no earlier word than these applies but `NotConnected`.
fn refused(stage: Stage, word: Refusal) -> Answer {
    if stage == Connecting {
        return Err(NotConnected);
    }
    Err(word)
}

/// Whether all calls for receivers are refused by a sender's end, and all calls for the other kind.
fn refuses_others_as_sender(end: &Channel, kind: Kind) -> bool {
    let side = refused(end.stage, ChanDirection);
    let type_ = refused(end.stage, ChanType);
    end.may_open(Side::Receiver, kind) == side
        && end.may_recv(kind, 1) == side
        && end.may_close(Side::Receiver) == side
        && end.may_open(Side::Receiver, other(kind)) == side
        && end.may_open(Side::Sender, other(kind)) == type_
        && end.may_send(other(kind)) == type_
}

fn refuses_others_as_receiver(end: &Channel, kind: Kind) -> bool {
    let side = refused(end.stage, ChanDirection);
    let type_ = refused(end.stage, ChanType);
    end.may_open(Side::Sender, kind) == side
        && end.may_send(kind) == side
        && end.may_close(Side::Sender) == side
        && end.may_send(other(kind)) == side
        && end.may_open(Side::Receiver, other(kind)) == type_
        && end.may_recv(other(kind), 0) == type_
        && end.may_recv(other(kind), 1) == type_
}

fn sender_answers((stage, far_open, far_closed, answers): &SenderRow, kind: Kind) -> bool {
    let end = end(Side::Sender, kind, *stage, *far_open, *far_closed);
    let made = [
        end.may_open(Side::Sender, kind),
        end.may_send(kind),
        end.may_close(Side::Sender),
    ];
    made == *answers && refuses_others_as_sender(&end, kind)
}

fn receiver_answers((stage, far_open, far_closed, answers): &ReceiverRow, kind: Kind) -> bool {
    let end = end(Side::Receiver, kind, *stage, *far_open, *far_closed);
    let made = [
        end.may_open(Side::Receiver, kind),
        end.may_recv(kind, 0),
        end.may_recv(kind, 1),
        end.may_close(Side::Receiver),
    ];
    made == *answers && refuses_others_as_receiver(&end, kind)
}

#[test]
fn each_state_answers_each_call(rt: HostRuntime) -> Result<(), Fail> {
    for kind in KINDS {
        for (i, row) in SENDER.iter().enumerate() {
            assert!(rt; sender_answers(row, kind), "sender, row {i}");
        }
        for (i, row) in RECEIVER.iter().enumerate() {
            assert!(rt; receiver_answers(row, kind), "receiver, row {i}");
        }
    }
    Ok(())
}

/// Whether the two ends begin with these fields.
fn ends_begin(kind: Kind) -> bool {
    let connecting = Channel::connecting(0, 5, kind, 1, 1030);
    let accepted = Channel::accepted(0, 5, kind, 1, 1030);
    connecting == end(Side::Sender, kind, Connecting, false, false)
        && accepted == end(Side::Receiver, kind, Connected, false, false)
}

/// Whether an end is open after its open, and stays so for calls that are refused.
fn opens(kind: Kind) -> bool {
    let mut channel = end(Side::Receiver, kind, Connected, true, false);
    channel.opened();
    channel == end(Side::Receiver, kind, Open, true, false)
}

/// Whether an end is closed after its close, and the channel ended exactly where the far end was closed before.
fn closes(far_closed: bool) -> bool {
    let mut channel = end(Side::Sender, Kind::Packet, Open, true, far_closed);
    let had_ended = channel.has_ended();
    let ended = channel.closed();
    let is_closed = channel == end(Side::Sender, Kind::Packet, Closed, true, far_closed);
    !had_ended && ended == far_closed && is_closed && channel.has_ended() == far_closed
}

#[test]
fn ends_begin_open_and_close(rt: HostRuntime) -> Result<(), Fail> {
    for kind in KINDS {
        assert!(rt; ends_begin(kind));
        assert!(rt; opens(kind));
    }
    assert!(rt; closes(false));
    assert!(rt; closes(true));
    Ok(())
}

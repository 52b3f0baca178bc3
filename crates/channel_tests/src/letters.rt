use Fate::{Acted, Closed as Dropped, Queued, State};
use Stage::{Closed, Connected, Connecting, Open};
use mc_base::{Bits, Fate, Kind, Letter, Reason, Side};
use packet_channel::{Channel, Stage};
use std::test::Fail;

/// What is left of an end: a stage, whether the far end is open and closed; or nothing, where the channel ended.
type Left = Option<(Stage, bool, bool)>;

/// A word, and what is left.
type Effect = (Fate, Left);

const PACKET: Letter<'static> = Letter::Packet {
    channel: 5,
    bytes: &[],
};

const SCALAR: Letter<'static> = Letter::Scalar {
    channel: 5,
    bits: Bits::B8,
    value: 0,
};

const REJECT: Letter<'static> = Letter::Reject {
    channel: 5,
    reason: Reason::Busy,
};

/// The letters that a receiver's domain writes: to a sender's end.
const ANSWERS: [Letter<'static>; 4] = [
    Letter::Accept { channel: 5 },
    REJECT,
    Letter::RecvOpen { channel: 5 },
    Letter::RecvClose { channel: 5 },
];

/// The letters that a sender's domain writes: to a receiver's end. A packet stands for an item of the channel's kind, and a
/// scalar for one of the other.
const OFFERS: [Letter<'static>; 4] = [
    Letter::SendOpen { channel: 5 },
    PACKET,
    SCALAR,
    Letter::SendClose { channel: 5 },
];

/// A stage, whether the far end is open and closed, and what each of the four letters to the end does.
type Row = (Stage, bool, bool, [Effect; 4]);

const SENDER: [Row; 14] = [
    (
        Connecting,
        false,
        false,
        [
            (Acted, Some((Connected, false, false))),
            (Acted, None),
            (Acted, Some((Connecting, true, false))),
            (Acted, Some((Connecting, false, true))),
        ],
    ),
    (
        Connecting,
        true,
        false,
        [
            (Acted, Some((Connected, true, false))),
            (Acted, None),
            (State, Some((Connecting, true, false))),
            (Acted, Some((Connecting, true, true))),
        ],
    ),
    (
        Connecting,
        false,
        true,
        [
            (Acted, Some((Connected, false, true))),
            (Acted, None),
            (State, Some((Connecting, false, true))),
            (State, Some((Connecting, false, true))),
        ],
    ),
    (
        Connecting,
        true,
        true,
        [
            (Acted, Some((Connected, true, true))),
            (Acted, None),
            (State, Some((Connecting, true, true))),
            (State, Some((Connecting, true, true))),
        ],
    ),
    (
        Connected,
        false,
        false,
        [
            (State, Some((Connected, false, false))),
            (State, Some((Connected, false, false))),
            (Acted, Some((Connected, true, false))),
            (Acted, Some((Connected, false, true))),
        ],
    ),
    (
        Connected,
        true,
        false,
        [
            (State, Some((Connected, true, false))),
            (State, Some((Connected, true, false))),
            (State, Some((Connected, true, false))),
            (Acted, Some((Connected, true, true))),
        ],
    ),
    (
        Connected,
        false,
        true,
        [(State, Some((Connected, false, true))); 4],
    ),
    (
        Connected,
        true,
        true,
        [(State, Some((Connected, true, true))); 4],
    ),
    (
        Open,
        false,
        false,
        [
            (State, Some((Open, false, false))),
            (State, Some((Open, false, false))),
            (Acted, Some((Open, true, false))),
            (Acted, Some((Open, false, true))),
        ],
    ),
    (
        Open,
        true,
        false,
        [
            (State, Some((Open, true, false))),
            (State, Some((Open, true, false))),
            (State, Some((Open, true, false))),
            (Acted, Some((Open, true, true))),
        ],
    ),
    (Open, false, true, [(State, Some((Open, false, true))); 4]),
    (Open, true, true, [(State, Some((Open, true, true))); 4]),
    (
        Closed,
        false,
        false,
        [
            (State, Some((Closed, false, false))),
            (State, Some((Closed, false, false))),
            (Acted, Some((Closed, true, false))),
            (Acted, None),
        ],
    ),
    (
        Closed,
        true,
        false,
        [
            (State, Some((Closed, true, false))),
            (State, Some((Closed, true, false))),
            (State, Some((Closed, true, false))),
            (Acted, None),
        ],
    ),
];

const RECEIVER: [Row; 10] = [
    (
        Connected,
        false,
        false,
        [
            (Acted, Some((Connected, true, false))),
            (Queued, Some((Connected, false, false))),
            (State, Some((Connected, false, false))),
            (Acted, Some((Connected, false, true))),
        ],
    ),
    (
        Connected,
        true,
        false,
        [
            (State, Some((Connected, true, false))),
            (Queued, Some((Connected, true, false))),
            (State, Some((Connected, true, false))),
            (Acted, Some((Connected, true, true))),
        ],
    ),
    (
        Connected,
        false,
        true,
        [(State, Some((Connected, false, true))); 4],
    ),
    (
        Connected,
        true,
        true,
        [(State, Some((Connected, true, true))); 4],
    ),
    (
        Open,
        false,
        false,
        [
            (Acted, Some((Open, true, false))),
            (Queued, Some((Open, false, false))),
            (State, Some((Open, false, false))),
            (Acted, Some((Open, false, true))),
        ],
    ),
    (
        Open,
        true,
        false,
        [
            (State, Some((Open, true, false))),
            (Queued, Some((Open, true, false))),
            (State, Some((Open, true, false))),
            (Acted, Some((Open, true, true))),
        ],
    ),
    (Open, false, true, [(State, Some((Open, false, true))); 4]),
    (Open, true, true, [(State, Some((Open, true, true))); 4]),
    (
        Closed,
        false,
        false,
        [
            (Acted, Some((Closed, true, false))),
            (Dropped, Some((Closed, false, false))),
            (State, Some((Closed, false, false))),
            (Acted, None),
        ],
    ),
    (
        Closed,
        true,
        false,
        [
            (State, Some((Closed, true, false))),
            (Dropped, Some((Closed, true, false))),
            (State, Some((Closed, true, false))),
            (Acted, None),
        ],
    ),
];

/// The end of domain 0's channel 5 of packets, at domain 0 with peer 1, or at domain 1 with peer 0.
fn end(side: Side, stage: Stage, far_open: bool, far_closed: bool) -> Channel {
    Channel {
        side,
        kind: Kind::Packet,
        owner: 0,
        number: 5,
        peer: peer_of(side),
        peer_addr: 1030,
        stage,
        far_open,
        far_closed,
    }
}

/// The peer of an end. Of a receiver's it owns the channel.
fn peer_of(side: Side) -> u8 {
    match side {
        Side::Sender => 1,
        Side::Receiver => 0,
    }
}

fn left_of(channel: &Channel) -> Left {
    if channel.has_ended() {
        return None;
    }
    Some((channel.stage, channel.far_open, channel.far_closed))
}

/// The word of a letter from a peer to the end, and what is left of the end.
fn effect(end: Channel, from: u8, letter: &Letter<'_>) -> Effect {
    let mut channel = end;
    let word = channel.letter(from, letter);
    (word, left_of(&channel))
}

/// The effects of the four letters.
fn effects(end: Channel, from: u8, letters: &[Letter<'static>; 4]) -> [Effect; 4] {
    let [a, b, c, d] = letters;
    [
        effect(end, from, a),
        effect(end, from, b),
        effect(end, from, c),
        effect(end, from, d),
    ]
}

/// Whether the letters to this side do what the row says, and are out of place at an end of another number, from another peer
/// and at an end of the other side.
fn follows(side: Side, row: &Row, letters: &[Letter<'static>; 4]) -> bool {
    let (stage, far_open, far_closed, due) = *row;
    let this = end(side, stage, far_open, far_closed);
    let nothing = [(State, Some((stage, far_open, far_closed))); 4];
    let another = Channel { number: 6, ..this };
    let across = match side {
        Side::Sender => end(Side::Receiver, stage, far_open, far_closed),
        Side::Receiver => end(Side::Sender, stage, far_open, far_closed),
    };
    effects(this, peer_of(side), letters) == due
        && effects(this, 2, letters) == nothing
        && effects(another, peer_of(side), letters) == nothing
        && effects(across, peer_of(across.side), letters) == nothing
}

#[test]
fn each_state_takes_each_letter(rt: HostRuntime) -> Result<(), Fail> {
    for (i, row) in SENDER.iter().enumerate() {
        assert!(rt; follows(Side::Sender, row, &ANSWERS), "sender, row {i}");
    }
    for (i, row) in RECEIVER.iter().enumerate() {
        assert!(rt; follows(Side::Receiver, row, &OFFERS), "receiver, row {i}");
    }
    Ok(())
}

/// Whether a channel of scalars keeps a scalar and no packet, and an end takes neither a message nor a Connect.
fn takes_its_kind() -> bool {
    let open = end(Side::Receiver, Open, true, false);
    let scalars = Channel {
        kind: Kind::Scalar,
        ..open
    };
    let left = Some((Open, true, false));
    let connect = Letter::Connect {
        channel: 5,
        kind: Kind::Packet,
    };
    effect(scalars, 0, &SCALAR) == (Queued, left)
        && effect(scalars, 0, &PACKET) == (State, left)
        && effect(open, 0, &connect) == (State, left)
}

#[test]
fn an_end_takes_items_of_its_kind_alone(rt: HostRuntime) -> Result<(), Fail> {
    assert!(rt; takes_its_kind());
    Ok(())
}

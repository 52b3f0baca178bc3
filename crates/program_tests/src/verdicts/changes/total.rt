//! Changed lines for which the numbers at the end are others than the journals give.

use super::Change;

pub static IN_MESSAGE: [Change; 6] = [
    (
        19,
        b"messages accepted 0 taken 0 dropped 0 queued 0 ring 0\n",
        19,
    ),
    (
        19,
        b"messages accepted 1 taken 0 dropped 1 queued 0 ring 0\n",
        19,
    ),
    (
        19,
        b"channel 0 1 accepted 0 taken 0 dropped 0 queued 0 ring 0\nmessages accepted 1 taken 1 dropped 0 queued 0 ring 0\n",
        19,
    ),
    (
        19,
        b"channel 9 0 accepted 0 taken 0 dropped 0 queued 0 ring 0\nmessages accepted 1 taken 1 dropped 0 queued 0 ring 0\n",
        19,
    ),
    (20, b"lane 0 0 free 1 ring 1 queue 0 lent 0\n", 20),
    (20, b"lane 0 0 free 3 ring 0 queue 0 lent 0\n", 20),
];

pub static IN_WAITS: [Change; 6] = [
    (3, b"domain 1 nodes 1 pool 1\n", 81),
    (
        76,
        b"call 8 ok 0\nturn\nput 0 000400003500000000000000280000006d636170693a313a303a370000000000000000000000000000000000000000000004000001000000\n",
        82,
    ),
    (
        77,
        b"messages accepted 2 taken 1 dropped 0 queued 1 ring 0\n",
        77,
    ),
    (
        77,
        b"messages accepted 2 taken 2 dropped 0 queued 0 ring 1\n",
        77,
    ),
    (79, b"lane 0 1 free 2 ring 0 queue 0 lent 0\n", 79),
    (79, b"lane 0 1 free 1 ring 0 queue 1 lent 0\n", 79),
];

pub static IN_RAW_FRAMES: [Change; 4] = [
    (
        41,
        b"messages accepted 2 taken 0 dropped 2 queued 0 ring 0\n",
        41,
    ),
    (42, b"lane 0 0 free 1 ring 1 queue 0 lent 0\n", 42),
    (43, b"lane 0 3 free 1 ring 0 queue 0 lent 1\n", 43),
    (45, b"lane 3 3 free 2 ring 0 queue 0 lent 0\n", 45),
];

pub static IN_CHANNELS: [Change; 13] = [
    (4, b"link 0 1 size 8\n", 143),
    (139, b"", 139),
    (
        139,
        b"channel 0 1 accepted 3 taken 1 dropped 2 queued 0 ring 0\nchannel 0 1 accepted 3 taken 1 dropped 2 queued 0 ring 0\n",
        140,
    ),
    (
        139,
        b"channel 0 2 accepted 2 taken 1 dropped 0 queued 0 ring 1\n",
        139,
    ),
    (
        139,
        b"channel 0 1 accepted 3 taken 2 dropped 1 queued 0 ring 0\n",
        139,
    ),
    (
        139,
        b"channel 1 1 accepted 0 taken 0 dropped 0 queued 0 ring 0\nchannel 0 1 accepted 3 taken 1 dropped 2 queued 0 ring 0\n",
        139,
    ),
    (140, b"", 140),
    (
        140,
        b"channel 0 2 accepted 2 taken 1 dropped 0 queued 1 ring 0\n",
        140,
    ),
    (
        140,
        b"channel 0 2 accepted 2 taken 1 dropped 0 queued 0 ring 1\nchannel 0 3 accepted 0 taken 0 dropped 0 queued 0 ring 0\n",
        141,
    ),
    (
        141,
        b"messages accepted 5 taken 2 dropped 2 queued 0 ring 1\n",
        141,
    ),
    (143, b"lane 0 1 free 3 ring 1 queue 0 lent 0\n", 143),
    (144, b"lane 1 0 free 3 ring 0 queue 0 lent 1\n", 144),
    (
        138,
        b"call 11 ok\nturn\nsee 0 2\ntake 0 000400000004000000000000080000004d01090001000000 acted\ntake 0 010400000104000000000000090000004d0108010200000007 queued\n",
        144,
    ),
];

pub static IN_EIGHT_DOMAINS: [Change; 7] = [
    (9, b"domain 7 nodes 1 pool 2\n", 131),
    (13, b"link 3 4 size 2\n", 125),
    (
        115,
        b"messages accepted 3 taken 1 dropped 0 queued 1 ring 1\n",
        115,
    ),
    (
        115,
        b"channel 6 1 accepted 0 taken 0 dropped 0 queued 0 ring 0\nmessages accepted 3 taken 1 dropped 1 queued 1 ring 0\n",
        115,
    ),
    (117, b"lane 0 1 free 1 ring 1 queue 0 lent 0\n", 117),
    (125, b"lane 3 4 free 2 ring 0 queue 0 lent 0\n", 125),
    (130, b"lane 7 0 free 1 ring 1 queue 0 lent 0\n", 130),
];

pub static IN_RINGS: [Change; 9] = [
    (
        10,
        b"messages accepted 1 taken 1 dropped 0 queued 0 ring 0\n",
        10,
    ),
    (
        10,
        b"channel 0 1 accepted 0 taken 0 dropped 0 queued 0 ring 0\nmessages accepted 0 taken 0 dropped 0 queued 0 ring 0\n",
        10,
    ),
    (11, b"lane 0 0 free 1 ring 0 queue 0 lent 1\n", 11),
    (17, b"lane 3 3 free 1 ring 1 queue 0 lent 0\n", 17),
    (18, b"ring 3 0 0 -\n", 18),
    (18, b"ring 3 0 0 00\n", 18),
    (
        18,
        b"ring 3 0 0 000400000000000000000000000000000006000000000000000000000000000000000000000000000000000000000000000000000000000000000000000000000000\n",
        18,
    ),
    (
        19,
        b"ring 3 0 1 000000000000000000020000020000000002000000000000000200000200000000000200000001000000000000000000000000000000000000000000000000000000\n",
        19,
    ),
    (21, b"ring 1 3 1 -\n", 21),
];

/// Other digits of images, no image, and a buffer that comes back before its frame is put.
pub static IN_OUT_OF_ORDER: [Change; 4] = [
    (
        92,
        b"ring 0 1 0 00000000000000000002000002000000000200000000000000020000020000000004000000000000000200000200000000060000000000000002000002000000000006010000010002000300000000000000020000000000380000000100000038000000000000000000000000000000000000000000\n",
        92,
    ),
    (
        93,
        b"ring 0 1 1 00080000000000001000000000000000000a0000000000001900000000000000000c0000000000001a00000000000000000e0000000000001b00000000000000000005000000010002000300000000000000050000000000000000000300000000000000020000000000000001000000000000000000\n",
        93,
    ),
    (92, b"ring 0 1 0 -\n", 92),
    (41, b"turn\nback 1 1\n", 42),
];

/// A buffer that comes back to the domain itself before the frame is put that it carries.
pub static IN_OWN_OUT_OF_ORDER: [Change; 1] = [(17, b"turn\nback 0 1\n", 18)];

//! Changed lines that do not fit what the domain at the other end of the lane did.

use super::Change;

pub static IN_MESSAGE: [Change; 1] = [(8, b"turn\nsee 0 1\ntake 0 00 frame_short\n", 10)];

pub static IN_WAITS: [Change; 2] = [
    (
        67,
        b"take 0 0004000000040000000000000b0000004d01010300000000626364 handed\n",
        67,
    ),
    (75, b"turn\nsee 0 1\ntake 0 00 frame_short\n", 76),
];

pub static IN_RAW_FRAMES: [Change; 6] = [
    (29, b"take 0 00fe frame_short\n", 29),
    (
        38,
        b"take 0 000400000004000000000000080000000001010000000000 magic\n",
        38,
    ),
    (
        39,
        b"take 0 000400000004000000000000080000000001010000000000 magic\nsee 3 1\ntake 3 00 frame_short\n",
        40,
    ),
    (40, b"call 1 ok\nturn\nsee 0 1\ntake 0 00 frame_short\n", 42),
    // The first line counts, whichever the lanes are.
    (
        40,
        b"call 1 ok\nturn\nsee 3 1\ntake 3 00 frame_short\nturn\nsee 0 1\ntake 0 00 frame_short\n",
        42,
    ),
    (
        34,
        b"call 7 ok\nturn\nsee 0 1\ntake 0 01 frame_short\nsee 3 1\ntake 3 02 frame_short\n",
        36,
    ),
];

pub static IN_CHANNELS: [Change; 3] = [
    (
        133,
        b"take 0 000400000004000000000000090000004d0107000100000062 queued\n",
        133,
    ),
    (
        134,
        b"take 0 000400000004000000000000090000004d0107000100000061 queued\n",
        134,
    ),
    (
        138,
        b"call 11 ok\nturn\nsee 0 3\ntake 0 000400000004000000000000080000004d01090001000000 acted\ntake 0 010400000104000000000000090000004d0108010200000007 queued\ntake 0 00 frame_short\n",
        140,
    ),
];

pub static IN_EIGHT_DOMAINS: [Change; 5] = [
    (61, b"call 8 ok\nturn\nback 1 1\n", 63),
    (96, b"take 3 4e frame_short\n", 96),
    (97, b"call 1 ok\nturn\nsee 3 1\ntake 3 4d frame_short\n", 99),
    (109, b"turn\nsee 6 1\ntake 6 00 frame_short\n", 110),
    (
        113,
        b"take 0 000400003500000000000000280000006d636170693a303a303a380000000000000000000000000000000000000000000004000000000000 acted\n",
        113,
    ),
];

//! Changed lines for which the text is none of a report, whatever the domains did.

use super::Change;

pub static IN_MESSAGE: [Change; 45] = [
    // The heading, and the scenario, which has to be its own canonical text.
    (1, b"", 1),
    (1, b"mcapi-report 2 serial\n", 1),
    (1, b"mcapi-report 1 serial \n", 1),
    (2, b"", 2),
    (2, b"domain 0 nodes 1 pool 257\n", 2),
    (2, b"domain 0 nodes 1 pool 2\n# nothing\n", 3),
    (3, b"0.0 crate 1\n", 3),
    (5, b"0.0 msg_send 1 0:0:2 1 68AB\n", 5),
    (6, b"0.0 msg_recv 2 488\n0.0 test x\n", 7),
    (7, b"", 7),
    (7, b"journal 1\n", 7),
    (7, b"journal 0\njournal 0\n", 8),
    // Counts, and lines that would have been joined.
    (8, b"idle 0\n", 8),
    (8, b"idle 18446744073709551616\n", 8),
    (8, b"spin 0 empty\n", 8),
    (8, b"wait 4294967296\n", 8),
    (8, b"again\n", 8),
    (8, b"idle 1\nidle 1\n", 9),
    (8, b"idle 5\nspin 1 empty\n", 9),
    (8, b"spin 1 empty\nspin 1 empty\n", 9),
    (8, b"idle 1\nagain empty\n", 9),
    // A turn without lines, and lines without a turn.
    (8, b"turn\n", 9),
    (12, b"turn\n", 14),
    (15, b"", 15),
    (15, b"turn\nturn\n", 16),
    (8, b"idle 1\nback 0 1\n", 9),
    // Puts: of no peer, without a call behind them, more than the call has, or where the call was refused.
    (13, b"put 1 00\n", 13),
    (13, b"put 0 0A\n", 13),
    (13, b"put 0 0\n", 13),
    (13, b"put 0 00\nback 0 1\n", 14),
    (13, b"put 0 00\nput 0 00\n", 15),
    (14, b"", 14),
    (14, b"call 3 no_buffer\n", 14),
    (14, b"call 4 ok\n", 14),
    (14, b"call 9 ok\n", 14),
    (14, b"call 4294967296 ok\n", 14),
    (18, b"call 4 ok 2 6869\nput 0 00\n", 20),
    // Looks, and as many takes as they show.
    (16, b"", 16),
    (16, b"see 0 0\n", 16),
    (16, b"see 1 1\n", 16),
    (16, b"see 0 2\n", 18),
    (16, b"see 0 1\nback 0 1\n", 17),
    (17, b"", 17),
    (
        17,
        b"take 0 0004000001040000000000000a0000004d010101000000006869 queue\n",
        17,
    ),
    (17, b"take 0 00 queued\ntake 0 00 queued\n", 18),
];

pub static NUMBERS_IN_MESSAGE: [Change; 18] = [
    // Answers that no call has.
    (14, b"call 3 oks\n", 14),
    (18, b"call 4 ok 3 ab\n", 18),
    (18, b"call 4 truncated 2 6868\n", 18),
    (18, b"call 4 done 256 accepted\n", 18),
    (18, b"call 4 ok 4294967296 -\n", 18),
    // Numbers, and the end.
    (19, b"", 19),
    (19, b"messages accepted 1 taken 1 dropped 0 queued 0\n", 19),
    (
        19,
        b"messages accepted 18446744073709551616 taken 1 dropped 0 queued 0 ring 0\n",
        19,
    ),
    (
        19,
        b"channel 256 1 accepted 0 taken 0 dropped 0 queued 0 ring 0\n",
        19,
    ),
    (20, b"", 20),
    (20, b"lane 0 1 free 2 ring 0 queue 0 lent 0\n", 20),
    (20, b"lane 0 0 free 4294967296 ring 0 queue 0 lent 0\n", 20),
    (
        20,
        b"lane 0 0 free 2 ring 0 queue 0 lent 0\nlane 0 0 free 2 ring 0 queue 0 lent 0\n",
        21,
    ),
    (21, b"", 21),
    (21, b"end", 21),
    (21, b"end\nend\n", 22),
    (21, b"end\n\n", 22),
    (21, b"end\nend", 22),
];

pub static IN_WAITS: [Change; 18] = [
    (4, b"", 24),
    (4, b"link 0 1 size 1\n", 4),
    (28, b"idle 1\nspin 1 pending\n", 29),
    (29, b"again timeout\n", 29),
    (30, b"idle 1\n", 31),
    (31, b"", 31),
    (35, b"again empty\n", 35),
    (39, b"see 1 2\n", 41),
    (48, b"idle 1\n", 49),
    (53, b"see 0 1\nsee 0 1\n", 54),
    (53, b"see 0 9\n", 55),
    (58, b"", 58),
    (59, b"", 59),
    (66, b"see 0 1\n", 68),
    (69, b"call 4 done 1 truncated 3 626364\n", 69),
    (76, b"idle 1\n", 76),
    (80, b"", 80),
    (82, b"ring 0 1 0 00\nend\n", 82),
];

pub static IN_RAW_FRAMES: [Change; 16] = [
    (5, b"0.0 raw 3 -\n", 5),
    (
        5,
        b"0.0 raw 3 0004000001040000000000000a0000004d010101000000006869\n",
        5,
    ),
    (15, b"put 7 00\n", 15),
    (15, b"put 3 00\nput 3 00\n", 17),
    (16, b"call 1 no_buffer\n", 16),
    (21, b"again no_buffer\n", 21),
    (21, b"put 3 00\ncall 3 no_buffer\n", 22),
    (23, b"put 7 0004\ncall 4 ok\n", 23),
    (28, b"see 0 2\n", 30),
    (30, b"back 3 2\nback 3 1\n", 31),
    (31, b"call 6 ok\nturn\n", 33),
    (37, b"see 3 2\n", 38),
    (37, b"see 0 8\n", 40),
    (38, b"take 3 00 frame_short\n", 38),
    (39, b"", 39),
    (
        39,
        b"take 0 000400000004000000000000080000000001010000000000 magic\nback 0 1\n",
        40,
    ),
];

pub static IN_CHANNELS: [Change; 10] = [
    (26, b"0.0 turn\n", 80),
    (48, b"call 4 endp_busy\n", 48),
    (51, b"call 5 ok 1 -\n", 51),
    (54, b"see 1 3\n", 58),
    (54, b"see 1 5\n", 59),
    (63, b"call 8 not_open\n", 63),
    (136, b"call 10 chan_closed\n", 136),
    (
        140,
        b"channel 0 4294967296 accepted 0 taken 0 dropped 0 queued 0 ring 0\n",
        140,
    ),
    (141, b"", 141),
    (
        141,
        b"messages accepted 0 taken 0 dropped 0 queued 0 ring 0\nmessages accepted 0 taken 0 dropped 0 queued 0 ring 0\n",
        142,
    ),
];

pub static IN_EIGHT_DOMAINS: [Change; 19] = [
    (8, b"", 107),
    (10, b"link 0 1 size 2\nlink 1 0 size 2\n", 11),
    (12, b"link 7 0 size 3\n", 12),
    (13, b"", 89),
    (45, b"idle 1\nturn\n", 45),
    // At each peer in rising number.
    (49, b"back 7 1\n", 50),
    (
        51,
        b"take 1 000400003500000000000000280000006d636170693a313a303a360000000000000000000000000000000000000000000004000000000000 acted\n",
        51,
    ),
    (52, b"back 6 1\n", 52),
    (61, b"", 61),
    (62, b"", 74),
    (62, b"journal 2\n", 62),
    (109, b"put 6 00\n", 110),
    (109, b"turn\nsee 0 1\n", 110),
    (109, b"idle 2\nput 6 00\ncall 1 ok\n", 111),
    (110, b"journal 7\njournal 7\n", 111),
    (114, b"put 0 00\n", 115),
    (118, b"", 118),
    (119, b"lane 0 3 free 2 ring 0 queue 0 lent 0\n", 119),
    (
        131,
        b"lane 7 7 free 1 ring 0 queue 0 lent 0\nlane 7 7 free 1 ring 0 queue 0 lent 0\n",
        132,
    ),
];

pub static IN_RINGS: [Change; 14] = [
    (1, b"mcapi-report 1 serial\n", 18),
    (
        17,
        b"lane 3 3 free 2 ring 0 queue 0 lent 0\nring 0 0 0 00\n",
        18,
    ),
    (18, b"ring 0 3 0 00\n", 18),
    (18, b"ring 3 1 0 00\n", 18),
    (18, b"ring 3 0 1 00\n", 18),
    (18, b"ring 3 0 0\n", 18),
    (18, b"ring 3 0 0 000\n", 18),
    (18, b"ring 3 0 0 0A\n", 18),
    (18, b"", 18),
    (19, b"", 19),
    (20, b"ring 3 0 0 00\n", 20),
    (21, b"", 21),
    (21, b"ring 1 3 1 00\nring 1 3 1 00\n", 22),
    (22, b"", 22),
];

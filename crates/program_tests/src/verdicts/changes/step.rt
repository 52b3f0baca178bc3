//! Changed lines that the state of a domain does not allow.

use super::Change;

pub static IN_MESSAGE: [Change; 33] = [
    // Turns.
    (8, b"", 8),
    (8, b"turn\nback 0 1\n", 9),
    (8, b"turn\nput 0 00\n", 9),
    (8, b"again endp_limit\n", 8),
    (8, b"spin 1 empty\n", 8),
    (8, b"wait 1\n", 8),
    (8, b"idle 1\nwait 1\nidle 1\n", 9),
    (12, b"", 12),
    // Calls: their numbers, their answers and their puts.
    (9, b"call 2 ok 1024\n", 9),
    (9, b"call 0 ok 1024\n", 9),
    (9, b"call 1 ok 1025\n", 9),
    (9, b"call 1 ok\n", 9),
    (9, b"call 1 done 1024\n", 9),
    (9, b"call 1 exists_already\n", 9),
    (9, b"call 1 ok 1024\ncall 2 ok 1025\n", 10),
    (13, b"", 13),
    (13, b"put 0 -\n", 13),
    (
        13,
        b"put 0 0004000001040000000000000a0000004d010101000000006868\n",
        13,
    ),
    (14, b"call 3 ok 0\n", 14),
    // The words of frames.
    (
        17,
        b"take 0 0004000001040000000000000a0000004d010101000000006869 handed\n",
        17,
    ),
    (17, b"take 0 - queued\n", 17),
    (17, b"take 0 00 queued\n", 17),
    (17, b"take 0 00 frame_short\n", 18),
    // What was received.
    (18, b"call 4 ok 2 6868\n", 18),
    (18, b"call 4 empty\n", 18),
    (18, b"call 4 truncated 3 6869\n", 18),
    (18, b"call 4 ok 1 66\n", 18),
    (18, b"call 4 done 0 accepted\n", 18),
    (18, b"again empty\nidle 1\ncall 4 empty\n", 18),
    // Behind the last line of the script.
    (18, b"call 4 ok 2 6869\ncall 5 ok\n", 19),
    (18, b"call 4 ok 2 6869\nwait 4\n", 19),
    (18, b"call 4 ok 2 6869\nspin 1 empty\n", 19),
    (18, b"call 4 ok 2 6869\nturn\nput 0 00\n", 20),
];

pub static IN_WAITS: [Change; 53] = [
    // Other scenarios.
    (4, b"link 0 1 size 4\n", 48),
    (7, b"0.0 wait far 0\n", 29),
    (7, b"0.0 wait far 2\n", 29),
    (8, b"0.0 try 3 msg_recv 1 488\n", 33),
    (8, b"0.0 try 5 msg_recv 1 488\n", 35),
    (9, b"1.0 create 8\n", 58),
    (10, b"0.0 wait far 1\n", 41),
    (12, b"1.0 second = msg_recv_i 7 3\n", 69),
    (15, b"0.0 msg_send 1 1:0:7 1 65\n", 48),
    // A wait.
    (27, b"", 28),
    (27, b"wait 3\nwait 3\n", 28),
    (27, b"wait 5\n", 27),
    (27, b"wait 99\n", 27),
    (28, b"", 28),
    (28, b"idle 2\n", 29),
    (28, b"idle 1\nwait 3\n", 29),
    (29, b"", 31),
    (29, b"call 3 pending\n", 29),
    (37, b"idle 18446744073709551615\n", 41),
    (41, b"call 5 timeout\n", 41),
    (41, b"idle 1\ncall 5 done 1024\n", 42),
    (41, b"call 5 done 1025\n", 41),
    (41, b"call 5 done 1 1024\n", 41),
    // Tries.
    (32, b"", 34),
    (32, b"again endp_invalid\n", 32),
    (32, b"again no_buffer\n", 32),
    (33, b"", 34),
    (33, b"spin 1 empty\n", 35),
    (33, b"spin 3 empty\n", 33),
    (33, b"spin 2 no_buffer\n", 33),
    (33, b"idle 3\ncall 4 empty\n", 34),
    (34, b"", 34),
    (48, b"", 49),
    (48, b"spin 2 no_buffer\n", 48),
    (49, b"turn\nback 1 1\n", 51),
    // Looks and owed frames.
    (31, b"back 1 2\n", 31),
    (
        40,
        b"take 1 000400003500000000000000280000006d636170693a313a303a370000000000000000000000000000000000000000000004000000000000 foreign_name\n",
        40,
    ),
    (57, b"idle 1\nturn\n", 57),
    (
        58,
        b"put 0 000400003500000000000000280000006d636170693a313a303a370000000000000000000000000000000000000000000004000000000000\nput 0 000400003500000000000000280000006d636170693a313a303a370000000000000000000000000000000000000000000004000000000000\n",
        59,
    ),
    (58, b"put 0 00\n", 58),
    (60, b"back 0 2\n", 60),
    // Two receives that wait.
    (62, b"call 2 ok 1\n", 62),
    (
        67,
        b"take 0 000400000004000000000000090000004d0101000000000061 queued\n",
        67,
    ),
    (69, b"call 4 done 2 1 61\n", 69),
    (69, b"call 4 done 9 truncated 3 6263\n", 69),
    (69, b"call 4 done 0 truncated 3 6263\n", 69),
    (69, b"call 4 done truncated 3 6263\n", 69),
    (69, b"call 4 done 1 3 626364\n", 69),
    (69, b"wait 4\nidle 1\ncall 4 done 1 truncated 3 6263\n", 69),
    (71, b"call 5 too_late\n", 71),
    (74, b"wait 7\ncall 7 timeout\n", 74),
    (76, b"call 8 ok 1\n", 76),
    (76, b"call 8 ok 0\nturn\nback 0 1\n", 78),
];

pub static IN_RAW_FRAMES: [Change; 14] = [
    (5, b"0.0 raw 3 01\n", 15),
    (5, b"0.0 raw 5 00\n", 15),
    (15, b"", 15),
    (15, b"put 3 01\n", 15),
    (15, b"put 0 00\n", 15),
    (21, b"call 3 ok\n", 21),
    (21, b"put 3 00\ncall 3 ok\n", 21),
    (21, b"call 3 no_buffer\ncall 4 link_invalid\n", 22),
    (23, b"call 4 no_buffer\n", 23),
    (29, b"take 0 00ff frame_long\n", 29),
    (30, b"back 3 3\n", 30),
    (33, b"back 0 2\n", 33),
    (38, b"take 0 00 header_len\n", 38),
    (
        39,
        b"take 0 000400000004000000000000080000000001010000000000 version\n",
        39,
    ),
];

pub static IN_CHANNELS: [Change; 37] = [
    // Connecting.
    (11, b"0.0 a = connect 1 1:0:2 scalar\n", 47),
    (
        47,
        b"put 1 000400000004000000000000080000004d01020002000000\n",
        47,
    ),
    (48, b"call 4 ok 0 2\n", 48),
    (48, b"call 4 ok 1 1\n", 48),
    (48, b"call 4 ok 0\n", 48),
    (53, b"", 78),
    (53, b"back 1 3\n", 53),
    (
        55,
        b"take 1 000400000004000000000000080000004d01030001000000 acted\n",
        56,
    ),
    (
        56,
        b"take 1 000400000004000000000000080000004d01030001000000 state\n",
        56,
    ),
    (59, b"call 6 done rejected busy\n", 59),
    (59, b"again pending\n", 59),
    (60, b"wait 7\nidle 1\ncall 7 done accepted\n", 60),
    (
        107,
        b"take 0 000400000004000000000000080000004d01020001000000 acted\n",
        107,
    ),
    (
        107,
        b"take 0 010400000104000000000000080000004d01020102000000 owed\n",
        109,
    ),
    // Owed replies, and the puts of a call.
    (
        109,
        b"put 0 000400000004000000000000080000004d01030001000000\n",
        109,
    ),
    (112, b"", 112),
    (
        113,
        b"put 0 000400000004000000000000080000004d01030001000000\n",
        113,
    ),
    (113, b"", 113),
    (114, b"", 113),
    (
        62,
        b"put 1 000400000004000000000000080000004d01020001000000\n",
        62,
    ),
    (135, b"", 135),
    // Packets and scalars.
    (20, b"0.0 pkt_send 1 6868\n", 69),
    (24, b"1.0 scl_recv 4 8\n", 130),
    (
        69,
        b"put 1 0004000000040000000000000a0000004d010700010000006868\n",
        69,
    ),
    (
        72,
        b"put 1 0104000001040000000000000a0000004d010804020000003412\n",
        72,
    ),
    (
        124,
        b"take 0 0004000000040000000000000a0000004d010700010000006869 closed\n",
        124,
    ),
    (
        125,
        b"take 0 0004000000040000000000000a0000004d010700010000006869 queued\n",
        128,
    ),
    (126, b"call 7 truncated 2 68\n", 126),
    (128, b"call 8 ok 4660\n", 128),
    (130, b"call 9 ok 4661\n", 130),
    (130, b"call 9 ok 2 3412\n", 130),
    // Closing.
    (
        84,
        b"take 1 000400000004000000000000080000004d010a0001000000 closed\n",
        84,
    ),
    (
        85,
        b"put 1 000400000004000000000000080000004d010a0001000000\n",
        85,
    ),
    (136, b"call 10 ok 3\n", 136),
    (138, b"call 11 buf_invalid\n", 138),
    (138, b"call 11 ok\ncall 12 ok\n", 139),
    (89, b"call 15 ok 7\n", 89),
];

pub static IN_EIGHT_DOMAINS: [Change; 25] = [
    (14, b"2.2 create 5\n", 77),
    (16, b"0.0 create 8\n", 35),
    // What is owed to each of three peers.
    (35, b"", 35),
    (36, b"", 36),
    (37, b"", 37),
    (
        36,
        b"put 7 000400003500000000000000280000006d636170693a303a303a370000000000000000000000000000000000000000000004000000000000\n",
        36,
    ),
    (52, b"back 7 2\n", 52),
    (53, b"call 5 done 1 1024\n", 53),
    (
        55,
        b"put 1 0004000000040000000000000a0000004d010102000000006162\n",
        55,
    ),
    (57, b"wait 7\ncall 7 timeout\n", 57),
    (60, b"", 60),
    (61, b"call 8 ok\nturn\nback 2 1\n", 63),
    (74, b"call 2 ok 0\n", 74),
    (87, b"call 2 ok 2 6162\n", 87),
    (87, b"call 2 truncated 2 62\n", 87),
    (89, b"", 89),
    (90, b"put 3 4d\n", 90),
    (
        97,
        b"call 1 ok\nturn\nsee 3 9\ntake 3 00 frame_short\ntake 3 00 frame_short\ntake 3 00 frame_short\ntake 3 00 frame_short\ntake 3 00 frame_short\ntake 3 00 frame_short\ntake 3 00 frame_short\ntake 3 00 frame_short\n",
        99,
    ),
    (107, b"call 3 ok 0\n", 107),
    // A journal whose script has no line.
    (109, b"idle 2\ncall 1 ok\n", 110),
    (109, b"wait 1\n", 109),
    (109, b"again empty\n", 109),
    (109, b"turn\nback 6 1\n", 110),
    (109, b"turn\nput 6 00\n", 110),
    (
        113,
        b"take 0 000400003500000000000000280000006d636170693a303a303a370000000000000000000000000000000000000000000004000000000000 unknown_name\n",
        113,
    ),
];

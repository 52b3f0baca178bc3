//! Changed lines that leave a report right. The run need not be serial: idle turns may be anywhere, looks may show less than is there,
//! and lanes have no common time.

pub static IN_MESSAGE: [(usize, &[u8]); 6] = [
    (1, b"mcapi-report 1 threads\n"),
    (8, b"idle 2\n"),
    (8, b"idle 18446744073709551615\nidle 1\n"),
    (14, b"call 3 ok\nidle 1\n"),
    (16, b"back 0 1\nsee 0 1\n"),
    (18, b"call 4 ok 2 6869\nidle 7\nturn\nback 0 1\n"),
];

pub static IN_WAITS: [(usize, &[u8]); 10] = [
    (2, b"domain 0 nodes 2 pool 2\n"),
    (4, b"link 1 0 size 2\n"),
    (33, b"spin 1 empty\nidle 2\nagain empty\n"),
    (33, b"idle 2\nagain empty\nspin 1 empty\n"),
    (36, b""),
    (37, b""),
    (37, b"idle 9\n"),
    (55, b""),
    (55, b"idle 400\n"),
    (74, b"idle 1\ncall 7 request_invalid\n"),
];

pub static IN_RAW_FRAMES: [(usize, &[u8]); 4] = [
    (30, b""),
    (30, b"back 3 1\n"),
    (32, b"idle 1\nturn\n"),
    (13, b"journal 0\nidle 18446744073709551615\n"),
];

pub static IN_CHANNELS: [(usize, &[u8]); 3] = [
    (15, b"0.0 test a\n"),
    (53, b"back 1 1\n"),
    (60, b"idle 1\ncall 7 done accepted\n"),
];

pub static IN_EIGHT_DOMAINS: [(usize, &[u8]); 9] = [
    (12, b"link 0 7 size 2\n"),
    (43, b""),
    (46, b""),
    (52, b""),
    (57, b"idle 1\ncall 7 done 1024\n"),
    (69, b"idle 9\nturn\n"),
    (109, b""),
    (109, b"idle 77\n"),
    (114, b""),
];

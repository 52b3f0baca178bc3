use crate::reading::is_read_as;
use std::alloc::Global;
use std::process::Abort;

/// A text that is read, and its canonical text.
type Read = (&'static [u8], &'static [u8]);

/// Texts that are their own canonical texts, with a line of two dashes between two.
static CANONICAL: &str = "\
domain 0 nodes 1 pool 1
0.0 a = lookup 0:0:1
0.0 b = msg_recv_i 1 9
0.0 c = connect 1 0:0:2 packet
0.0 d = pkt_recv_i 1
0.0 wait a 0
0.0 wait b 4294967295
0.0 wait_any c 1
0.0 wait_any a,b,c,d 2
0.0 wait_any a,b,c,d,d,c,b,a 3
0.0 wait_any a,a 0
--
domain 0 nodes 1 pool 1
0.0 pkt_send 1 00ff
0.0 pkt_send 65535 -
0.0 x = pkt_recv 0
0.0 release x
0.0 y = pkt_recv_i 65535
0.0 test y
0.0 release y
0.0 cancel y
--
domain 0 nodes 1 pool 1
0.0 scl_send 1 8 0
0.0 scl_send 1 8 255
0.0 scl_send 1 16 65535
0.0 scl_send 1 32 4294967295
0.0 scl_send 1 64 18446744073709551615
0.0 scl_send 1 64 0
0.0 scl_send 1 16 256
0.0 scl_send 1 32 65536
0.0 scl_send 1 64 4294967296
--
domain 0 nodes 1 pool 1
0.0 scl_recv 0 8
0.0 scl_recv 1 16
0.0 scl_recv 2 32
0.0 scl_recv 65535 64
--
domain 0 nodes 1 pool 1
0.0 release = pkt_recv 1
0.0 test = pkt_recv_i 1
0.0 release release
0.0 test test
0.0 release test
0.0 cancel test
--
domain 0 nodes 1 pool 1
domain 1 nodes 1 pool 1
0.0 x = pkt_recv 1
1.0 x = pkt_recv_i 1
1.0 test x
0.0 release x
1.0 release x
0.0 release x
--
domain 0 nodes 1 pool 1
0.0 x = connect 1 0:0:2 packet
0.0 open_send 1 packet
0.0 open_recv 2 packet
0.0 close_send 1
0.0 close_recv 2
--
domain 0 nodes 1 pool 1
domain 1 nodes 1 pool 1
0.0 x = connect 1 1:0:2 packet
1.0 x = connect 2 0:0:1 scalar
1.0 test x
0.0 cancel x
--
domain 0 nodes 1 pool 1
0.0 packet = connect 1 0:0:2 packet
0.0 connect = connect 1 0:0:2 scalar
0.0 test connect
0.0 cancel packet
--
domain 0 nodes 1 pool 2
0.0 create 1
0.0 create 2
0.0 msg_send 1 0:0:2 1 6869
0.0 msg_recv 2 488
--
domain 0 nodes 1 pool 1
0.0 try = try 4294967295 lookup 7:15:65535
0.0 test try
0.0 cancel try
--
domain 0 nodes 1 pool 1
domain 1 nodes 1 pool 1
0.0 x = lookup 0:0:1
1.0 x = msg_recv_i 1 9000
1.0 test x
0.0 test x
--
domain 0 nodes 1 pool 1
0.0 a_23456789_bcdef = lookup 0:0:0
0.0 lookup = lookup 0:0:0
0.0 test lookup
--
domain 0 nodes 1 pool 1
0.0 try 2 msg_recv 1 0
0.0 try 2 msg_available 1
0.0 try 2 turn
--
domain 5 nodes 1 pool 1
domain 3 nodes 1 pool 1
link 5 3 size 64
5.0 create 0
3.0 create 0
5.0 x = try 9 msg_recv_i 0 0
--
domain 0 nodes 1 pool 1
domain 1 nodes 1 pool 1
domain 2 nodes 1 pool 1
link 0 1 size 4
link 2 0 size 8
link 1 2 size 16
";

static READ: [Read; 9] = [
    (
        b"domain 0 nodes 1 pool 1\n0.0 raw 0 00\n 0.0\ttry  3 raw 7 4D09aB \r\n0.0 try 4294967295 raw 5 000400003500000000000000280000006d63",
        b"domain 0 nodes 1 pool 1\n0.0 raw 0 00\n0.0 try 3 raw 7 4d09ab\n0.0 try 4294967295 raw 5 000400003500000000000000280000006d63\n",
    ),
    (
        b"domain 0 nodes 1 pool 1\n0.0 wait = lookup 0:0:1\n0.0 try = lookup 0:0:1\n0.0\t wait  wait\t7 \r\n0.0 wait_any wait,try  8",
        b"domain 0 nodes 1 pool 1\n0.0 wait = lookup 0:0:1\n0.0 try = lookup 0:0:1\n0.0 wait wait 7\n0.0 wait_any wait,try 8\n",
    ),
    (
        b"domain 0 nodes 1 pool 1\n0.0\ttry  2 pkt_send 1\tFFaB \r\n0.0 x  = try 3 pkt_recv 1\n# a packet\n0.0 try 4294967295   release x\n0.0 try 1 scl_send  1 8  7\n 0.0 try 5 scl_recv 1 8",
        b"domain 0 nodes 1 pool 1\n0.0 try 2 pkt_send 1 ffab\n0.0 x = try 3 pkt_recv 1\n0.0 try 4294967295 release x\n0.0 try 1 scl_send 1 8 7\n0.0 try 5 scl_recv 1 8\n",
    ),
    (
        b"domain 0 nodes 2 pool 1\r\n 0.1\tx =  try 7 connect 65535 7:15:0 scalar \n0.1 try 1 open_send 65535\tscalar\n0.1 try 4294967295 open_recv 0 scalar\n0.1 try 2 close_send 0\n0.1 try 3  close_recv 0",
        b"domain 0 nodes 2 pool 1\n0.1 x = try 7 connect 65535 7:15:0 scalar\n0.1 try 1 open_send 65535 scalar\n0.1 try 4294967295 open_recv 0 scalar\n0.1 try 2 close_send 0\n0.1 try 3 close_recv 0\n",
    ),
    (b"domain 3 nodes 1 pool 1", b"domain 3 nodes 1 pool 1\n"),
    (
        b"# two domains\r\n\r\n\tdomain  7\tnodes 16 pool 256 \r\ndomain 0 nodes 1 pool 1\nlink 7 0 size 256\n",
        b"domain 7 nodes 16 pool 256\ndomain 0 nodes 1 pool 1\nlink 7 0 size 256\n",
    ),
    (
        b"domain 1 nodes 1 pool 1\ndomain 2 nodes 1 pool 1\nlink 1 2 size 2\n  # a remark = 1\n1.15 delete 65535\n2.0 turn",
        b"domain 1 nodes 1 pool 1\ndomain 2 nodes 1 pool 1\nlink 1 2 size 2\n1.15 delete 65535\n2.0 turn\n",
    ),
    (
        b"domain 0 nodes 1 pool 1\n0.0 try 1 msg_send 0 0:0:0 3 -\n0.0 msg_send 1 0:0:2 0 FfaB09\n",
        b"domain 0 nodes 1 pool 1\n0.0 try 1 msg_send 0 0:0:0 3 -\n0.0 msg_send 1 0:0:2 0 ffab09\n",
    ),
    (
        b"domain 0 nodes 1 pool 1\r\n\n\t\n#\n#domain\n0.0 create 1\r\n# ~ |\t!",
        b"domain 0 nodes 1 pool 1\n0.0 create 1\n",
    ),
];

fn assert_read(rt: &impl Abort, alloc: Global, rows: &[Read]) {
    for (i, (text, canonical)) in rows.iter().enumerate() {
        assert!(rt; is_read_as(alloc, text, canonical), "row {i}");
        assert!(rt; is_read_as(alloc, canonical, canonical), "row {i}");
    }
}

/// Asserts that each of these texts is its own canonical text.
fn assert_canonical(rt: &impl Abort, alloc: Global, texts: &str) {
    for text in texts.split("--\n") {
        assert!(rt;
            is_read_as(alloc, text.as_bytes(), text.as_bytes()),
            "{text}"
        );
    }
}

#[test]
fn texts_are_read_and_written_in_canonical_form(rt: HostRuntime) {
    assert_canonical(&rt, rt.alloc(), CANONICAL);
    assert_read(&rt, rt.alloc(), &READ);
}

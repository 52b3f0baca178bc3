use crate::refused_calls::assert_refused_calls;
use std::test::Fail;

/// Lines of channels.
static REFUSED_CHANNELS: &str = "\
form: 0.0 connect 1 0:0:2 packet
form: 0.0 x = connect
form: 0.0 x = connect 1
form: 0.0 x = connect 1 0:0:2
form: 0.0 x = connect 1 0:0:2 packet 1
form: 0.0 x = connect 1 packet 0:0:2
form: 0.0 x = connect 1 0:0 packet
form: 0.0 x = connect 1 0:0:2 packets
form: 0.0 x = connect 1 0:0:2 packe
form: 0.0 x = connect 1 0:0:2 Packet
form: 0.0 x = connect 1 0:0:2 SCALAR
form: 0.0 x = connect 1 0:0:2 scalar8
form: 0.0 x = connect 1 0:0:2 0
form: 0.0 x = connect 1 0:0:2 -
form: 0.0 x = connect 65536 8:0:2 none
number: 0.0 x = connect 65536 0:0:2 packet
number: 0.0 x = connect 1 8:0:2 scalar
number: 0.0 x = connect 1 0:16:2 scalar
number: 0.0 x = connect 1 0:0:65536 scalar
number: 0.0 x = try 0 connect 1 0:0:2 scalar
domain: 1.0 x = connect 1 0:0:2 scalar
form: 0.0 open_send
form: 0.0 open_send 1
form: 0.0 open_send packet 1
form: 0.0 open_send 1 packet scalar
form: 0.0 open_send 1 datagram
form: 0.0 open_send 65536 x
number: 0.0 open_send 65536 packet
number: 0.0 open_send 01 packet
domain: 1.0 open_send 1 packet
label: 0.0 x = open_send 1 packet
form: 0.0 open_recv
form: 0.0 open_recv 1
form: 0.0 open_recv scalar 1
form: 0.0 open_recv 1 scalar 8
form: 0.0 open_recv 1 scalars
number: 0.0 open_recv 65536 scalar
label: 0.0 x = open_recv 1 scalar
form: 0.0 close_send
form: 0.0 close_send 1 packet
number: 0.0 close_send 65536
number: 0.0 close_send a
label: 0.0 x = close_send 1
form: 0.0 close_recv
form: 0.0 close_recv 1 scalar
number: 0.0 close_recv 65536
number: 0.0 close_recv -
label: 0.0 x = close_recv 1
form: 0.0 Connect 1 0:0:2 packet
form: 0.0 x = open 1 packet
form: 0.0 close 1
form: 0.0 open-send 1 packet
form: 0.0 opensend 1 packet
form: 0.0 close_sender 1
";

/// Lines of packets and scalars.
static REFUSED_DATA: &str = "\
form: 0.0 pkt_send
form: 0.0 pkt_send 1
form: 0.0 pkt_send 1 00 00
form: 0.0 pkt_send 1 0:0:2 00
number: 0.0 pkt_send 65536 00
number: 0.0 pkt_send 01 00
number: 0.0 pkt_send -1 0
bytes: 0.0 pkt_send 1 0
bytes: 0.0 pkt_send 1 0g
bytes: 0.0 pkt_send 1 --
bytes: 0.0 pkt_send 1 00-
domain: 1.0 pkt_send 1 00
label: 0.0 x = pkt_send 1 00
number: 0.0 try 0 pkt_send 1 00
bytes: 1.0 pkt_send 1 000
form: 0.0 pkt_recv 1
form: 0.0 x = pkt_recv
form: 0.0 x = pkt_recv 1 488
number: 0.0 x = pkt_recv 65536
number: 0.0 x = pkt_recv y
form: 0.0 X = pkt_recv 1
number: 0.0 x = try 0 pkt_recv 1
domain: 1.0 x = pkt_recv 1
form: 0.0 try 2 x = pkt_recv 1
form: 0.0 pkt_recv_i 1
form: 0.0 x = pkt_recv_i
form: 0.0 x = pkt_recv_i 1 9000
number: 0.0 x = pkt_recv_i 65536
number: 0.0 x = pkt_recv_i 00
form: 0.0 1x = pkt_recv_i 1
domain: 1.0 x = pkt_recv_i 1
form: 0.0 release
form: 0.0 release x y
form: 0.0 release X
form: 0.0 release 1
form: 0.0 release a0123456789012345
form: 0.0 release a,b
label: 0.0 release x
label: 0.0 y = release x
domain: 1.0 release x
number: 0.0 try 0 release x
form: 0.0 scl_send
form: 0.0 scl_send 1
form: 0.0 scl_send 1 8
form: 0.0 scl_send 1 8 0 0
number: 0.0 scl_send 1 0 0
number: 0.0 scl_send 1 1 0
number: 0.0 scl_send 1 4 0
number: 0.0 scl_send 1 7 0
number: 0.0 scl_send 1 9 0
number: 0.0 scl_send 1 15 0
number: 0.0 scl_send 1 17 0
number: 0.0 scl_send 1 24 0
number: 0.0 scl_send 1 31 0
number: 0.0 scl_send 1 33 0
number: 0.0 scl_send 1 48 0
number: 0.0 scl_send 1 63 0
number: 0.0 scl_send 1 65 0
number: 0.0 scl_send 1 128 0
number: 0.0 scl_send 1 256 0
number: 0.0 scl_send 1 08 0
number: 0.0 scl_send 1 +8 0
number: 0.0 scl_send 1 8. 0
number: 0.0 scl_send 1 8bit 0
number: 0.0 scl_send 1 - 0
number: 0.0 scl_send 1 b8 0
number: 0.0 scl_send 1 18446744073709551624 0
number: 0.0 scl_send 1 8 256
number: 0.0 scl_send 1 16 65536
number: 0.0 scl_send 1 32 4294967296
number: 0.0 scl_send 1 64 18446744073709551616
number: 0.0 scl_send 1 8 18446744073709551616
number: 0.0 scl_send 1 8 00
number: 0.0 scl_send 1 8 -1
number: 0.0 scl_send 1 8 a
number: 0.0 scl_send 1 8 0x1
number: 0.0 scl_send 1 16 -
number: 0.0 scl_send 1 64 36893488147419103232
number: 0.0 scl_send 1 64 184467440737095516150
number: 0.0 scl_send 65536 8 0
domain: 1.0 scl_send 1 8 0
label: 0.0 x = scl_send 1 8 0
number: 0.0 x = scl_send 1 8 256
number: 0.0 try 0 scl_send 1 8 0
form: 0.0 scl_send 8 256
form: 0.0 scl_recv
form: 0.0 scl_recv 1
form: 0.0 scl_recv 1 8 0
number: 0.0 scl_recv 1 0
number: 0.0 scl_recv 1 9
number: 0.0 scl_recv 1 12
number: 0.0 scl_recv 1 33
number: 0.0 scl_recv 1 64.
number: 0.0 scl_recv 1 064
number: 0.0 scl_recv 1 80
number: 0.0 scl_recv 1 -
number: 0.0 scl_recv 65536 8
domain: 1.0 scl_recv 1 8
label: 0.0 x = scl_recv 1 8
form: 0.0 pkt_recv_j 1
form: 0.0 pktsend 1
form: 0.0 pkt-send 1
form: 0.0 Pkt_send 1
form: 0.0 scl 1
form: 0.0 sclsend 1
form: 0.0 scl_sends 1
form: 0.0 releases 1
form: 0.0 pkt 1
form: 0.0 pkt_available 1
";

#[test]
fn calls_on_channels_are_refused_with_their_first_reason(rt: HostRuntime) -> Result<(), Fail> {
    assert_refused_calls(&rt, rt.alloc(), REFUSED_CHANNELS)?;
    assert_refused_calls(&rt, rt.alloc(), REFUSED_DATA)
}

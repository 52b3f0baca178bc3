ghost use Rattle.std.specs.Prelude.{◌≤◌, IfOk, length};
ghost use Rattle.std.specs.List.{All};

use crate::lines::gives;
use hop_relay::RelayActor;
use mc_base::NoMemory;
use std::alloc::Global;
use std::test::Fail;

/// One packet of a byte, and one of none.
fn two_packets(alloc: Global) -> Result<Vec<Vec<u8>>, NoMemory>
    ensures few { IfOk result (λ v. length v.items ≤ 100000) }
    ensures sizes { IfOk result (λ v. All (λ p. length p.items ≤ 8192) v.items) }
{
    let Ok(letter) = Vec::from_slice(alloc, b"a") else {
        return Err(NoMemory);
    };
    let mut packets = Vec::new(alloc);
    if packets.push(letter).is_err() || packets.push(Vec::new(alloc)).is_err() {
        return Err(NoMemory);
    }
    Ok(packets)
}

const ALL_OF_FIRST: &str = "0.0 create 1
0.0 a = lookup 1:0:2
0.0 wait a 4294967295
0.0 c = try 4294967295 connect 1 1:0:2 packet
0.0 wait c 4294967295
0.0 try 4294967295 open_send 1 packet
0.0 try 4294967295 pkt_send 1 61
0.0 try 4294967295 pkt_send 1 -
0.0 try 4294967295 close_send 1
";

const REFUSED_LOOKUP: &str = "0.0 create 1
0.0 a = lookup 1:0:2
";

const REFUSED_SEND: &str = "0.0 create 1
0.0 a = lookup 1:0:2
0.0 wait a 4294967295
0.0 c = try 4294967295 connect 1 1:0:2 packet
0.0 wait c 4294967295
0.0 try 4294967295 open_send 1 packet
0.0 try 4294967295 pkt_send 1 61
";

/// How many calls succeed, and the lines of the first domain.
const FIRSTS: [(u32, &str); 3] = [(40, ALL_OF_FIRST), (1, REFUSED_LOOKUP), (6, REFUSED_SEND)];

#[test]
fn the_first_sends_each_packet_and_closes(rt: HostRuntime) -> Result<(), Fail> {
    for (calls, lines) in FIRSTS {
        let actor = RelayActor::first(rt.alloc(), two_packets(rt.alloc())?)?;
        assert!(rt; gives(rt.alloc(), actor, calls, lines)?, "{calls}");
    }
    Ok(())
}

const ALL_OF_MIDDLE: &str = "1.0 create 1
1.0 create 2
1.0 a = lookup 2:0:2
1.0 wait a 4294967295
1.0 c = try 4294967295 connect 1 2:0:2 packet
1.0 wait c 4294967295
1.0 try 4294967295 open_recv 2 packet
1.0 try 4294967295 open_send 1 packet
1.0 p1 = try 4294967295 pkt_recv 2
1.0 try 4294967295 pkt_send 1 6162
1.0 try 4294967295 release p1
1.0 p2 = try 4294967295 pkt_recv 2
1.0 try 4294967295 pkt_send 1 6162
1.0 try 4294967295 release p2
1.0 p3 = try 4294967295 pkt_recv 2
1.0 try 4294967295 close_send 1
1.0 try 4294967295 close_recv 2
";

const ONE_SENT_ON: &str = "1.0 create 1
1.0 create 2
1.0 a = lookup 2:0:2
1.0 wait a 4294967295
1.0 c = try 4294967295 connect 1 2:0:2 packet
1.0 wait c 4294967295
1.0 try 4294967295 open_recv 2 packet
1.0 try 4294967295 open_send 1 packet
1.0 p1 = try 4294967295 pkt_recv 2
1.0 try 4294967295 pkt_send 1 6162
1.0 try 4294967295 release p1
1.0 p2 = try 4294967295 pkt_recv 2
";

const NONE_RECEIVED: &str = "1.0 create 1
1.0 create 2
1.0 a = lookup 2:0:2
1.0 wait a 4294967295
1.0 c = try 4294967295 connect 1 2:0:2 packet
1.0 wait c 4294967295
1.0 try 4294967295 open_recv 2 packet
1.0 try 4294967295 open_send 1 packet
1.0 p1 = try 4294967295 pkt_recv 2
";

/// The most packets, how many calls succeed, and the lines of a domain between.
const MIDDLES: [(u32, u32, &str); 4] = [
    (2, 40, ALL_OF_MIDDLE),
    (1, 40, ONE_SENT_ON),
    (2, 11, ONE_SENT_ON),
    (2, 8, NONE_RECEIVED),
];

#[test]
fn a_domain_between_sends_on_what_it_receives(rt: HostRuntime) -> Result<(), Fail> {
    for (most, calls, lines) in MIDDLES {
        let actor = RelayActor::middle(rt.alloc(), 1, most)?;
        assert!(rt; gives(rt.alloc(), actor, calls, lines)?, "{most} {calls}");
    }
    Ok(())
}

const ALL_OF_LAST: &str = "7.0 create 2
7.0 try 4294967295 open_recv 2 packet
7.0 p1 = try 4294967295 pkt_recv 2
7.0 try 4294967295 release p1
7.0 p2 = try 4294967295 pkt_recv 2
7.0 try 4294967295 release p2
7.0 p3 = try 4294967295 pkt_recv 2
7.0 try 4294967295 close_recv 2
";

const ONE_RELEASED: &str = "7.0 create 2
7.0 try 4294967295 open_recv 2 packet
7.0 p1 = try 4294967295 pkt_recv 2
7.0 try 4294967295 release p1
7.0 p2 = try 4294967295 pkt_recv 2
";

/// The same of the last domain.
const LASTS: [(u32, u32, &str); 3] = [
    (2, 40, ALL_OF_LAST),
    (1, 40, ONE_RELEASED),
    (2, 4, ONE_RELEASED),
];

#[test]
fn the_last_receives_and_releases(rt: HostRuntime) -> Result<(), Fail> {
    for (most, calls, lines) in LASTS {
        let actor = RelayActor::last(rt.alloc(), 7, most)?;
        assert!(rt; gives(rt.alloc(), actor, calls, lines)?, "{most} {calls}");
    }
    Ok(())
}

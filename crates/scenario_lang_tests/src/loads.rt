//! Load boards as texts.

use scenario_lang::{load_scenario, read_scenario, write_scenario};
use std::alloc::Global;
use std::test::Fail;

/// The load board of one packet, line by line.
static ONE: &[u8] = b"domain 0 nodes 1 pool 2
domain 1 nodes 1 pool 2
domain 2 nodes 1 pool 2
domain 3 nodes 1 pool 2
link 0 1 size 16
link 1 2 size 16
link 2 3 size 16
link 3 0 size 16
0.0 create 1
0.0 create 2
1.0 create 1
1.0 create 2
2.0 create 1
2.0 create 2
3.0 create 1
3.0 create 2
0.0 a = lookup 1:0:2
0.0 wait a 4294967295
1.0 a = lookup 2:0:2
1.0 wait a 4294967295
2.0 a = lookup 3:0:2
2.0 wait a 4294967295
3.0 a = lookup 0:0:2
3.0 wait a 4294967295
0.0 c = try 4294967295 connect 1 1:0:2 packet
0.0 wait c 4294967295
1.0 c = try 4294967295 connect 1 2:0:2 packet
1.0 wait c 4294967295
2.0 c = try 4294967295 connect 1 3:0:2 packet
2.0 wait c 4294967295
3.0 c = try 4294967295 connect 1 0:0:2 packet
3.0 wait c 4294967295
0.0 try 4294967295 open_recv 2 packet
0.0 try 4294967295 open_send 1 packet
1.0 try 4294967295 open_recv 2 packet
1.0 try 4294967295 open_send 1 packet
2.0 try 4294967295 open_recv 2 packet
2.0 try 4294967295 open_send 1 packet
3.0 try 4294967295 open_recv 2 packet
3.0 try 4294967295 open_send 1 packet
0.0 try 4294967295 pkt_send 1 01000000
1.0 try 4294967295 pkt_send 1 01000000
2.0 try 4294967295 pkt_send 1 01000000
3.0 try 4294967295 pkt_send 1 01000000
0.0 p1 = try 4294967295 pkt_recv 2
1.0 p1 = try 4294967295 pkt_recv 2
2.0 p1 = try 4294967295 pkt_recv 2
3.0 p1 = try 4294967295 pkt_recv 2
0.0 release p1
1.0 release p1
2.0 release p1
3.0 release p1
0.0 try 4294967295 close_send 1
0.0 try 4294967295 close_recv 2
1.0 try 4294967295 close_send 1
1.0 try 4294967295 close_recv 2
2.0 try 4294967295 close_send 1
2.0 try 4294967295 close_recv 2
3.0 try 4294967295 close_send 1
3.0 try 4294967295 close_recv 2
";

/// The lines with which that of 2,000 packets ends.
static END: &[u8] = b"3.0 p2000 = try 4294967295 pkt_recv 2
0.0 release p2000
1.0 release p2000
2.0 release p2000
3.0 release p2000
0.0 try 4294967295 close_send 1
0.0 try 4294967295 close_recv 2
1.0 try 4294967295 close_send 1
1.0 try 4294967295 close_recv 2
2.0 try 4294967295 close_send 1
2.0 try 4294967295 close_recv 2
3.0 try 4294967295 close_send 1
3.0 try 4294967295 close_recv 2
";

/// The canonical text of a load board, or nothing where an allocation fails.
fn load_text(alloc: Global, packets: u32) -> Option<Vec<u8>> {
    if packets == 0 || packets > 100_000 {
        return None;
    }
    let Ok(scenario) = load_scenario(alloc, packets) else {
        return None;
    };
    write_scenario(alloc, &scenario).ok()
}

#[test]
fn the_load_board_of_one_packet(rt: HostRuntime) -> Result<(), Fail> {
    let text = load_text(rt.alloc(), 1).ok_or("memory")?;
    assert!(rt; text.as_slice() == ONE);
    Ok(())
}

/// Each byte of a packet's number is where it should be: 2000 is 0x7d0.
#[test]
fn the_load_board_of_2000_packets(rt: HostRuntime) -> Result<(), Fail> {
    let text = load_text(rt.alloc(), 2000).ok_or("memory")?;
    assert!(rt; text.as_slice().ends_with(END));
    assert!(rt; text.len() == 752416);
    let scenario = read_scenario(rt.alloc(), &text).ok().ok_or("refused")?;
    assert!(rt; scenario.calls.as_slice().len() == 24_040);
    Ok(())
}

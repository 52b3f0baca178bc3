use crate::reading::{assert_cases, is_read_as, is_refused};
use scenario_lang::LineReason;
use std::test::Fail;

/// Texts with labels, of which one is told or used where it may not.
static REFUSED_LABELS: &str = "\
4 label
domain 0 nodes 1 pool 1
domain 1 nodes 1 pool 1
0.0 x = pkt_recv 1
0.0 wait x 1
--
4 label
domain 0 nodes 1 pool 1
domain 1 nodes 1 pool 1
0.0 x = lookup 0:0:1
1.0 wait x 1
--
5 label
domain 0 nodes 1 pool 1
domain 1 nodes 1 pool 1
0.0 x = lookup 0:0:1
0.0 y = pkt_recv 1
0.0 wait_any x,y 1
--
5 label
domain 0 nodes 1 pool 1
domain 1 nodes 1 pool 1
0.0 x = lookup 0:0:1
1.0 y = lookup 0:0:1
0.0 wait_any x,y 1
--
4 label
domain 0 nodes 1 pool 1
domain 1 nodes 1 pool 1
0.0 x = lookup 0:0:1
0.0 wait_any y,x 1
--
4 label
domain 0 nodes 1 pool 1
domain 1 nodes 1 pool 1
0.0 x = lookup 0:0:1
0.0 wait_any x,x,x,x,x,x,x,z 1
--
4 label
domain 0 nodes 1 pool 1
domain 1 nodes 1 pool 1
0.0 x = lookup 0:0:1
0.0 release x
--
4 label
domain 0 nodes 1 pool 1
domain 1 nodes 1 pool 1
0.0 x = msg_recv_i 1 9
0.0 release x
--
4 label
domain 0 nodes 1 pool 1
domain 1 nodes 1 pool 1
0.0 x = connect 1 0:0:2 packet
0.0 release x
--
4 label
domain 0 nodes 1 pool 1
domain 1 nodes 1 pool 1
0.0 x = pkt_recv 1
0.0 test x
--
4 label
domain 0 nodes 1 pool 1
domain 1 nodes 1 pool 1
0.0 x = pkt_recv 1
0.0 cancel x
--
4 label
domain 0 nodes 1 pool 1
domain 1 nodes 1 pool 1
0.0 x = pkt_recv 1
0.0 x = pkt_recv 1
--
4 label
domain 0 nodes 1 pool 1
domain 1 nodes 1 pool 1
0.0 x = pkt_recv 1
0.0 x = pkt_recv_i 1
--
4 label
domain 0 nodes 1 pool 1
domain 1 nodes 1 pool 1
0.0 x = pkt_recv_i 1
0.0 x = pkt_recv 1
--
4 label
domain 0 nodes 1 pool 1
domain 1 nodes 1 pool 1
0.0 x = pkt_recv_i 1
0.0 x = lookup 0:0:1
--
4 label
domain 0 nodes 1 pool 1
domain 1 nodes 1 pool 1
0.0 x = lookup 0:0:1
0.0 x = pkt_recv 1
--
4 label
domain 0 nodes 1 pool 1
domain 1 nodes 1 pool 1
0.0 x = pkt_recv 1
1.0 release x
--
4 label
domain 0 nodes 1 pool 1
domain 1 nodes 1 pool 1
0.0 x = pkt_recv_i 1
1.0 release x
--
4 label
domain 0 nodes 1 pool 1
domain 1 nodes 1 pool 1
0.0 x = pkt_recv_i 1
1.0 test x
--
3 label
domain 0 nodes 1 pool 1
domain 1 nodes 1 pool 1
0.0 release x
0.0 x = pkt_recv 1
--
5 label
domain 0 nodes 1 pool 1
domain 1 nodes 1 pool 1
0.0 x = pkt_recv 1
1.0 x = lookup 0:0:1
1.0 release x
--
5 label
domain 0 nodes 1 pool 1
domain 1 nodes 1 pool 1
0.0 x = pkt_recv 1
1.0 x = lookup 0:0:1
0.0 test x
--
6 label
domain 0 nodes 1 pool 1
domain 1 nodes 1 pool 1
0.0 x = pkt_recv 1
0.0 release x
0.0 release x
0.0 release y
--
3 label
domain 0 nodes 1 pool 1
0.0 x = lookup 0:0:1
0.0 x = lookup 0:0:1
--
3 label
domain 0 nodes 1 pool 1
0.0 x = lookup 0:0:1
0.1 x = msg_recv_i 1 1
--
2 label
domain 0 nodes 1 pool 1
0.0 test x
0.0 x = lookup 0:0:1
--
3 label
domain 0 nodes 1 pool 1
0.0 x = lookup 0:0:1
0.0 test y
--
4 label
domain 0 nodes 1 pool 1
domain 1 nodes 1 pool 1
0.0 x = lookup 0:0:1
1.0 test x
--
3 label
domain 0 nodes 1 pool 1
0.0 x = lookup 0:0:1
0.0 x = test x
--
3 label
domain 0 nodes 1 pool 1
0.0 x = connect 1 0:0:2 packet
0.0 x = connect 1 0:0:2 packet
--
3 label
domain 0 nodes 1 pool 1
0.0 x = lookup 0:0:1
0.0 x = connect 1 0:0:2 scalar
--
2 label
domain 0 nodes 1 pool 1
0.0 test x
0.0 x = connect 1 0:0:2 scalar
--
4 label
domain 0 nodes 1 pool 1
domain 1 nodes 1 pool 1
0.0 x = connect 1 1:0:2 scalar
1.0 cancel x
--
4 label
domain 0 nodes 1 pool 1
0.0 x = connect 1 0:0:2 scalar
0.0 open_send 1 scalar
0.0 cancel y
--
2 label
domain 0 nodes 1 pool 1
0.0 test x
0.0 create 65536
--
3 byte
domain 0 nodes 1 pool 1
0.0 create 1
\0
0.0 test x
";

#[test]
fn labels_are_refused_with_their_first_reason(rt: HostRuntime) {
    assert_cases(&rt, rt.alloc(), REFUSED_LABELS);
}

#[test]
fn a_label_is_told_once_among_many_of_its_domain(rt: HostRuntime) -> Result<(), Fail> {
    let alloc = rt.alloc();
    let mut text = Vec::from_slice(alloc, b"domain 0 nodes 1 pool 1\ndomain 1 nodes 1 pool 1\n")?;
    for number in 0..4000u32 {
        push_line(&mut text, b"0.0 ", number)?;
        push_line(&mut text, b"1.0 ", number)?;
    }
    assert!(rt; is_read_as(alloc, &text, &text));
    push_line(&mut text, b"1.0 ", 1234)?;
    assert!(rt; is_refused(alloc, &text, 8003, LineReason::Label));
    Ok(())
}

/// A line that tells a label of four letters.
fn push_line(text: &mut Vec<u8>, caller: &[u8], number: u32) -> Result<(), Fail> {
    text.extend_from_slice(caller)?;
    let mut rest = number;
    for _ in 0..4 {
        text.push(b'a' + (rest % 26) as u8)?;
        rest /= 26;
    }
    text.extend_from_slice(b" = lookup 0:0:1\n")?;
    Ok(())
}

//! Two linked domains whose lines run in the order of the file: on one thread and on two, over rings, and over plain lanes. They note
//! the same each time, and the rings of two threads have looked as often, and have seen as much, as the journals say.

mod plain;
mod rings;

use crate::serial::read;
use crate::threads::gates::InOrder;
use board_model::Scenario;
use board_runner::{run_serial, run_threads};
use domain_core::Journal;
use mc_journal::put_entries;
use outer_io::{MemSink, Writer};
use std::alloc::{AllocError, Global};
use std::test::Fail;
use std::thread::Threads;

/// Each announces its endpoint and looks up that of the other; then messages go both ways. The third in a row finds no buffer. Then the
/// two endpoints make a channel, open it and close it. After its last line but one nothing is on its way. An `@` stands for 488 bytes
/// of 0x5a.
static SCENARIO: &[u8] = b"domain 3 nodes 1 pool 2
domain 4 nodes 1 pool 2
link 3 4 size 2
3.0 create 1
3.0 a = lookup 4:0:2
4.0 create 2
4.0 a = lookup 3:0:1
4.0 test a
3.0 test a
4.0 turn
3.0 msg_send 1 4:0:2 1 616263
3.0 msg_send 1 4:0:2 1 @
3.0 msg_send 1 4:0:2 1 6465666768
4.0 msg_recv 2 488
3.0 msg_send 1 4:0:2 1 6465666768
3.0 msg_send 1 4:0:2 1 696a6b6c6d6e
4.0 msg_send 2 3:0:1 1 6f707172737475
3.0 msg_recv 1 488
4.0 msg_recv 2 488
4.0 msg_recv 2 488
4.0 msg_recv 2 488
4.0 msg_send 2 3:0:1 1 -
4.0 msg_send 2 3:0:1 1 303132333435363738
4.0 msg_send 2 3:0:1 1 39
3.0 b = connect 1 4:0:2 packet
3.0 msg_recv 1 488
3.0 msg_recv 1 488
3.0 c = connect 1 4:0:2 packet
4.0 open_recv 2 packet
3.0 open_send 1 packet
4.0 turn
3.0 open_send 1 packet
3.0 close_send 1
4.0 close_recv 2
4.0 close_recv 2
3.0 turn
3.0 close_send 1
4.0 turn
3.0 turn
";

/// What domain 3 notes, and then domain 4. Each call answers what it must.
static JOURNALS: &[u8] = b"journal
idle 1
call 1 ok 1024
turn
put 4 000400003500000000000000280000006d636170693a333a303a310000000000000000000000000000000000000000000004000000000000
call 2 ok 0
turn
back 4 1
see 4 1
take 4 000400003500000000000000280000006d636170693a343a303a320000000000000000000000000000000000000000000004000000000000 acted
call 3 done 1024
idle 1
put 4 0004000000040000000000000b0000004d01010100000000616263
call 4 ok
idle 1
put 4 000400000004000000000000f00100004d01010100000000@
call 5 ok
idle 1
call 6 no_buffer
turn
back 4 1
put 4 0004000000040000000000000d0000004d010101000000006465666768
call 7 ok
idle 1
call 8 no_buffer
turn
see 4 1
take 4 0004000000040000000000000f0000004d010101000000006f707172737475 queued
call 9 ok 7 6f707172737475
turn
back 4 2
see 4 2
take 4 000400000004000000000000080000004d01010100000000 queued
take 4 000400000004000000000000110000004d01010100000000303132333435363738 queued
call 10 endp_busy
idle 1
call 11 ok 0 -
idle 1
call 12 ok 9 303132333435363738
idle 1
put 4 000400000004000000000000080000004d01020001000000
call 13 ok 1 1
turn
back 4 1
see 4 1
take 4 000400000004000000000000080000004d01050001000000 acted
call 14 not_connected
turn
see 4 1
take 4 000400000004000000000000080000004d01030001000000 acted
put 4 000400000004000000000000080000004d01060001000000
call 15 ok
idle 1
put 4 000400000004000000000000080000004d01090001000000
call 16 ok
turn
back 4 2
see 4 1
take 4 000400000004000000000000080000004d010a0001000000 acted
call 17 ok
idle 1
call 18 not_connected
idle 1
call 19 ok
journal
turn
see 3 1
take 3 000400003500000000000000280000006d636170693a333a303a310000000000000000000000000000000000000000000004000000000000 acted
call 1 ok 1024
turn
put 3 000400003500000000000000280000006d636170693a343a303a320000000000000000000000000000000000000000000004000000000000
call 2 ok 0
idle 1
call 3 done 1024
turn
back 3 1
call 4 ok
turn
see 3 2
take 3 0004000000040000000000000b0000004d01010100000000616263 queued
take 3 000400000004000000000000f00100004d01010100000000@ queued
call 5 ok 3 616263
turn
see 3 1
take 3 0004000000040000000000000d0000004d010101000000006465666768 queued
put 3 0004000000040000000000000f0000004d010101000000006f707172737475
call 6 ok
turn
back 3 1
call 7 ok 488 @
idle 1
call 8 ok 5 6465666768
idle 1
call 9 empty
idle 1
put 3 000400000004000000000000080000004d01010100000000
call 10 ok
idle 1
put 3 000400000004000000000000110000004d01010100000000303132333435363738
call 11 ok
idle 1
call 12 no_buffer
turn
back 3 2
see 3 1
take 3 000400000004000000000000080000004d01020001000000 owed
put 3 000400000004000000000000080000004d01050001000000
call 13 ok
turn
back 3 1
put 3 000400000004000000000000080000004d01030001000000
call 14 ok
turn
back 3 1
see 3 2
take 3 000400000004000000000000080000004d01060001000000 acted
take 3 000400000004000000000000080000004d01090001000000 acted
put 3 000400000004000000000000080000004d010a0001000000
call 15 ok 0
idle 1
call 16 not_connected
turn
back 3 1
call 17 ok
";

/// A text with its long messages.
fn filled(alloc: Global, text: &[u8]) -> Result<Vec<u8>, AllocError> {
    let mut whole = Vec::new(alloc);
    for byte in text {
        if *byte == b'@' {
            for _byte in 0..488 {
                whole.extend_from_slice(b"5a")?;
            }
        } else {
            whole.push(*byte)?;
        }
    }
    Ok(whole)
}

/// The text of journals, one after the other.
fn text_of(alloc: Global, journals: &[Journal]) -> Option<MemSink> {
    let mut sink = MemSink::new(alloc, Vec::new(alloc), 4096, 20_000).ok()?;
    let mut out = Writer::new(&mut sink);
    for journal in journals {
        out.put(b"journal\n");
        put_entries(&mut out, journal);
    }
    out.finish().ok()?;
    Some(sink)
}

/// Whether this is the text of journals.
fn is_noted(alloc: Global, journals: &[Journal], due: &[u8]) -> Option<bool> {
    let text = text_of(alloc, journals)?;
    Some(text.written() == due)
}

/// Whether this is noted in the serial run of a scenario.
fn is_noted_serially(alloc: Global, text: &[u8], due: &[u8]) -> Option<bool> {
    let scenario = read(alloc, text)?;
    let outcome = run_serial(alloc, &scenario).ok()?;
    is_noted(alloc, outcome.journals.as_slice(), due)
}

/// The lines of domains 3 and 4 in the order of the file, by the numbers that they have in their scripts, but for the last.
fn order_of(alloc: Global, scenario: &Scenario) -> Option<Vec<(u8, u32)>> {
    let mut order = Vec::new(alloc);
    let (mut threes, mut fours) = (0u32, 0u32);
    for line in scenario.calls.as_slice() {
        let number = if line.domain == 3 {
            &mut threes
        } else {
            &mut fours
        };
        *number = number.checked_add(1)?;
        order.push((line.domain, *number)).ok()?;
    }
    order.pop();
    Some(order)
}

/// Whether this is noted where a scenario runs on two threads, whose rings then are as the journals say.
fn is_noted_on_threads<R: Threads + Sync>(
    rt: &R,
    alloc: Global,
    text: &[u8],
    due: &[u8],
) -> Option<bool> {
    let scenario = read(alloc, text)?;
    let gate = InOrder::new(order_of(alloc, &scenario)?);
    let outcome = run_threads(rt, alloc, &scenario, &gate).ok()?;
    let journals = outcome.journals.as_slice();
    let is_due = is_noted(alloc, journals, due)?;
    let are_rings = rings::are_as_noted(outcome.rings.as_slice(), journals)?;
    Some(is_due && are_rings && !gate.gave_up())
}

#[test]
fn domains_over_rings_note_what_they_note_over_plain_lanes(rt: HostRuntime) -> Result<(), Fail> {
    let text = filled(rt.alloc(), SCENARIO)?;
    let due = filled(rt.alloc(), JOURNALS)?;
    assert!(rt; plain::is_noted(rt.alloc(), &text, &due) == Some(true));
    assert!(rt; is_noted_serially(rt.alloc(), &text, &due) == Some(true));
    assert!(rt; is_noted_on_threads(&rt, rt.alloc(), &text, &due) == Some(true));
    Ok(())
}

ghost use Rattle.std.specs.Prelude.{◌≡◌, IfOk, length};

use board_model::journal_laws;
use mc_base::NoMemory;
use mc_journal::{NotAnEntry, entries_have_entry_lines, read_entry, write_entry};
use outer_io::{Failed, MemSink};
use std::alloc::{AllocError, Global};
use std::process::Abort;
use std::test::Fail;

/// Makes room for the bytes of a line: as many as the line has.
fn room_for(alloc: Global, line: &[u8]) -> Result<Vec<u8>, AllocError>
    ensures { IfOk result (λ v. length v.items ≡ length line.now) }
{
    vec![in alloc; 0u8; line.len()]
}

/// Lines without their newlines, and how the entry of each is shown. One text, since each text that a table lends is proved to
/// be valid apart from all others.
static ENTRIES: &str = "\
wait 3 => WaitStart { number: 3 }
wait 0 => WaitStart { number: 0 }
wait 4294967295 => WaitStart { number: 4294967295 }
call 5 done 1 accepted => Called { number: 5, answer: Done { place: Some(1), result: Accepted } }
call 5 done 8 rejected busy => Called { number: 5, answer: Done { place: Some(8), result: Rejected(Busy) } }
call 5 done 2 1030 => Called { number: 5, answer: Done { place: None, result: Bytes { size: 2, bytes: [16, 48] } } }
call 5 done 3 1030 => Called { number: 5, answer: Done { place: Some(3), result: Address(1030) } }
call 5 done 2 2 6869 => Called { number: 5, answer: Done { place: Some(2), result: Bytes { size: 2, bytes: [104, 105] } } }
call 5 done 2 truncated 3 6869 => Called { number: 5, answer: Done { place: Some(2), result: Bytes { size: 3, bytes: [104, 105] } } }
call 5 done 255 chan_closed => Called { number: 5, answer: Done { place: Some(255), result: Ended(ChanClosed) } }
turn => Turn
idle 0 => Idle { turns: 0 }
idle 18446744073709551615 => Idle { turns: 18446744073709551615 }
back 7 1 => Back { peer: 7, count: 1 }
back 255 0 => Back { peer: 255, count: 0 }
see 0 8 => See { peer: 0, count: 8 }
see 10 4294967295 => See { peer: 10, count: 4294967295 }
put 1 - => Put { peer: 1, frame: [] }
put 1 00 => Put { peer: 1, frame: [0] }
put 2 0af9 => Put { peer: 2, frame: [10, 249] }
take 3 - acted => Take { peer: 3, frame: [], fate: Acted }
take 0 6869 queued => Take { peer: 0, frame: [104, 105], fate: Queued }
again empty => Again { word: Empty }
spin 4 no_buffer => Spin { times: 4, word: NoBuffer }
spin 0 pending => Spin { times: 0, word: Pending }
call 1 ok => Called { number: 1, answer: Ok }
call 0 timeout => Called { number: 0, answer: Refused(Timeout) }
call 2 ok 1024 => Called { number: 2, answer: Number(1024) }
call 2 ok 18446744073709551615 => Called { number: 2, answer: Number(18446744073709551615) }
call 3 ok 0 - => Called { number: 3, answer: Bytes { size: 0, bytes: [] } }
call 3 ok 2 6869 => Called { number: 3, answer: Bytes { size: 2, bytes: [104, 105] } }
call 3 ok 1 66 => Called { number: 3, answer: Bytes { size: 1, bytes: [102] } }
call 3 ok 1 6667 => Called { number: 3, answer: Bytes { size: 1, bytes: [102, 103] } }
call 3 ok 0 11 => Called { number: 3, answer: Bytes { size: 0, bytes: [17] } }
call 3 ok 5 1 => Called { number: 3, answer: Channel { request: 5, channel: 1 } }
call 3 ok 0 1 => Called { number: 3, answer: Channel { request: 0, channel: 1 } }
call 3 ok 3 6869 => Called { number: 3, answer: Channel { request: 3, channel: 6869 } }
call 3 ok 4294967296 12 => Called { number: 3, answer: Channel { request: 4294967296, channel: 12 } }
call 3 ok 18446744073709551615 4294967295 => Called { number: 3, answer: Channel { request: 18446744073709551615, channel: 4294967295 } }
call 4 truncated 3 6869 => Called { number: 4, answer: Bytes { size: 3, bytes: [104, 105] } }
call 4 truncated 4294967295 - => Called { number: 4, answer: Bytes { size: 4294967295, bytes: [] } }
call 4294967295 done 1030 => Called { number: 4294967295, answer: Done { place: None, result: Address(1030) } }
call 5 done 0 => Called { number: 5, answer: Done { place: None, result: Address(0) } }
call 5 done 4294967295 => Called { number: 5, answer: Done { place: None, result: Address(4294967295) } }
call 5 done accepted => Called { number: 5, answer: Done { place: None, result: Accepted } }
call 5 done rejected no_endpoint => Called { number: 5, answer: Done { place: None, result: Rejected(NoEndpoint) } }
call 5 done rejected connected => Called { number: 5, answer: Done { place: None, result: Rejected(Connected) } }
call 5 done rejected busy => Called { number: 5, answer: Done { place: None, result: Rejected(Busy) } }
call 6 done 2 6869 => Called { number: 6, answer: Done { place: None, result: Bytes { size: 2, bytes: [104, 105] } } }
call 6 done 0 - => Called { number: 6, answer: Done { place: None, result: Bytes { size: 0, bytes: [] } } }
call 6 done truncated 9 6869 => Called { number: 6, answer: Done { place: None, result: Bytes { size: 9, bytes: [104, 105] } } }
call 6 done truncated 1 - => Called { number: 6, answer: Done { place: None, result: Bytes { size: 1, bytes: [] } } }
call 7 done endp_invalid => Called { number: 7, answer: Done { place: None, result: Ended(EndpInvalid) } }
call 7 done chan_closed => Called { number: 7, answer: Done { place: None, result: Ended(ChanClosed) } }
take 1 ff no_endpoint => Take { peer: 1, frame: [255], fate: NoEndpoint }
take 1 ff on_channel => Take { peer: 1, frame: [255], fate: OnChannel }
again on_channel => Again { word: OnChannel }
call 8 no_buffer => Called { number: 8, answer: Refused(NoBuffer) }
";

/// Whether a line is read as an entry that is shown so.
fn is_shown(alloc: Global, line: &[u8], shown: &str) -> Result<bool, AllocError> {
    let mut room = room_for(alloc, line)?;
    match read_entry(line, &mut room) {
        Ok(entry) => Ok(format!(in alloc; "{entry:?}")?.as_str() == shown),
        Err(NotAnEntry) => Ok(false),
    }
}

/// Whether a line is read, and the entry is written as the line with a newline.
fn is_written_back(alloc: Global, line: &[u8]) -> Result<bool, AllocError> {
    let mut room = room_for(alloc, line)?;
    let Ok(entry) = read_entry(line, &mut room) else {
        return Ok(false);
    };
    let Ok(mut sink) = MemSink::new(alloc, Vec::new(alloc), 3, 200) else {
        return Ok(false);
    };
    entries_have_entry_lines(entry);
    let written = write_entry(&entry, &mut sink) == Ok(());
    Ok(written && sink.written().split_last() == Some((&b'\n', line)))
}

/// Whether the line of a row is read as the entry that is shown so, and written back.
fn holds(alloc: Global, row: &str) -> Result<bool, AllocError> {
    let Some((line, shown)) = row.split_once(" => ") else {
        return Ok(false);
    };
    let line = line.as_bytes();
    Ok(is_shown(alloc, line, shown)? && is_written_back(alloc, line)?)
}

#[test]
fn entries_are_read_and_written(rt: HostRuntime) -> Result<(), Fail> {
    for row in ENTRIES.lines() {
        assert!(rt; holds(rt.alloc(), row)?, "{row}");
    }
    Ok(())
}

static REFUSALS: &str = "\
node_invalid
exists_already
endp_limit
address_spent
endp_invalid
peer_invalid
on_channel
chan_connected
endp_busy
chan_limit
request_limit
not_connected
chan_direction
chan_type
chan_closed
already_open
not_open
msg_size
pkt_size
no_buffer
empty
scl_size
buf_invalid
request_invalid
pending
too_late
timeout
link_invalid
raw_sound
";

static FATES: &str = "\
frame_short
frame_long
header_len
payload_short
magic
version
kind
argument
channel
size
ns_size
ns_flags
ns_name
foreign_name
names_full
unknown_name
replies_full
acted
owed
no_endpoint
on_channel
handed
queued
closed
state
";

/// Asserts that each of these words, one a line, is read and written back behind the same words.
fn assert_words(rt: &impl Abort, alloc: Global, front: &str, words: &str) -> Result<(), Fail> {
    for word in words.lines() {
        let line = format!(in alloc; "{front} {word}")?;
        assert!(rt; is_written_back(alloc, line.as_bytes())?, "{word}");
    }
    Ok(())
}

#[test]
fn each_word_is_read_and_written(rt: HostRuntime) -> Result<(), Fail> {
    assert_words(&rt, rt.alloc(), "again", REFUSALS)?;
    assert_words(&rt, rt.alloc(), "take 0 -", FATES)
}

/// Lines that are no entry, each a little off one that is. The first and the last blank of a line are `\x20`.
static NEAR_MISSES: &str = "\
wait
wait\x20
wait 01
wait 1 1
wait 4294967296
waits 1

\x20
turns
turn\x20
\x20turn
turn 1
Turn
idle
idle\x20
idle 01
idle 00
idle +1
idle -1
idle 1\x20
idle  1
\x20idle 1
idle\t1
idle 1a
idle 18446744073709551616
idle 99999999999999999999999
idler 1
back 256 1
back 1
back 1 4294967296
back 1 1 1
back 01 1
see 1 -1
see 300 1
see -
put 1
put 1\x20
put 1 0
put 1 000
put 1 0A
put 1 A0
put 1 F
put 1 0g
put 1 --
put 1 00\x20
put 1  00
put 256 00
put - 00
take 1 00
take 1 acted
take 1 -\x20
take 1 - Acted
take 1 - act
take 1 - actedly
take 1 - empty
take 1 - acted acted
again
again ok
again acted
spin 1
spin empty 1
spin 18446744073709551616 empty
call 1
call 1\x20
call 4294967296 ok
call 1 ok 18446744073709551616
call 1 ok 3 68ff
call 1 ok 4294967296 68ff
call 1 ok 18446744073709551616 1
call 1 ok 6 4294967296
call 1 ok 05 1
call 1 ok 5 01
call 1 ok 5 1\x20
call 1 ok  5 1
call 1 ok 5 1 1
call 1 ok 5 -1
call 1 truncated 2 6869
call 1 truncated 2
";

static NEAR_RESULTS: &str = "\
done
done\x20
done ok
done 4294967296
done 01
done accepted accepted
done rejected
done rejected\x20
done rejected full
done rejected busy busy
done 256 accepted
done 1 2 accepted
done 3 68691 -
done 01 accepted
done 1\x20
done truncated 2 6869
done truncated 3
done done 1
done Accepted
";

fn is_no_entry(alloc: Global, line: &[u8]) -> Result<bool, AllocError> {
    let mut room = room_for(alloc, line)?;
    Ok(read_entry(line, &mut room).is_err())
}

/// Asserts that none of these lines is an entry.
fn assert_no_entries(rt: &impl Abort, alloc: Global, lines: &str) -> Result<(), Fail> {
    for line in lines.lines() {
        assert!(rt; is_no_entry(alloc, line.as_bytes())?, "{line}");
    }
    Ok(())
}

/// Asserts that none of these is the answer of a call.
fn assert_no_answers(rt: &impl Abort, alloc: Global, answers: &str) -> Result<(), Fail> {
    for answer in answers.lines() {
        let line = format!(in alloc; "call 1 {answer}")?;
        assert!(rt; is_no_entry(alloc, line.as_bytes())?, "{line}");
    }
    Ok(())
}

#[test]
fn near_misses_are_no_entries(rt: HostRuntime) -> Result<(), Fail> {
    assert_no_entries(&rt, rt.alloc(), NEAR_MISSES)?;
    assert_no_answers(&rt, rt.alloc(), NEAR_RESULTS)?;
    for ending in [b'\r', b'\n'] {
        let line = [b'i', b'd', b'l', b'e', b' ', b'1', ending];
        assert!(rt; is_no_entry(rt.alloc(), &line)?, "{ending}");
    }
    let shown = format!(in rt.alloc(); "{NotAnEntry}")?;
    assert!(rt; shown.as_str() == "the line is no entry of a journal");
    Ok(())
}

/// A sink that moves three bytes at most at a write, and fails at one.
fn failing_at(alloc: Global, failing: u64, room: usize) -> Result<MemSink, NoMemory> {
    let Ok(calls) = vec![in alloc; failing; 1] else {
        return Err(NoMemory);
    };
    MemSink::new(alloc, calls, 3, room)
}

/// Whether so many bytes of an entry's line are written to a sink that fails at one call, or is full.
fn is_written_so_far(alloc: Global, failing: u64, room: usize, written: &str) -> bool {
    let line = b"take 1 6869 handed";
    let Ok(mut bytes) = room_for(alloc, line) else {
        return false;
    };
    let Ok(entry) = read_entry(line, &mut bytes) else {
        return false;
    };
    let Ok(mut sink) = failing_at(alloc, failing, room) else {
        return false;
    };
    let result = write_entry(&entry, &mut sink);
    result == Err(Failed) && sink.written() == written.as_bytes()
}

/// At which call a write fails, how much room there is, and what is written.
static FAILURES: [(u64, usize, &str); 5] = [
    (0, 99, ""),
    (3, 99, "take 1 68"),
    (6, 99, "take 1 6869 handed"),
    (99, 18, "take 1 6869 handed"),
    (99, 0, ""),
];

#[test]
fn a_failed_write_is_reported(rt: HostRuntime) {
    for (failing, room, written) in &FAILURES {
        assert!(rt;
            is_written_so_far(rt.alloc(), *failing, *room, written),
            "{failing} {room}"
        );
    }
}

#[test]
fn laws_of_lines_hold() {
    journal_laws::joined_is_read_back();
    journal_laws::parts_are_joined();
    journal_laws::journals_have_parts();
}

ghost use Rattle.std.specs.Prelude.{◌++◌, ◌<◌, ◌≤◌, ℕ, None, IsOk, length, codes, decimal};
ghost use Rattle.outer_io.specs.Faults.{HasCause};
ghost use Rattle.mc_base.specs.Text.{hex_text};
ghost use Rattle.outer_io.specs.Puts.{Puts};
ghost use Rattle.outer_io.specs.Writes.{Writes};

use mc_base::NoMemory;
use outer_io::{
    Failed, MemSink, MemSource, ReadFault, Sink, Source, StdSink, StdSource, Writer, read_all,
    write_all,
};
use std::alloc::{AllocError, Global};
use std::process::Abort;
use std::test::Fail;

/// A source of so many bytes that counts its reads.
#[derive(Drop)]
struct Counting {
    left: u64,
    reads: u64,
}

impl Source for Counting {
    ghost rest = { λ _. None };

    ghost faults = { λ _. 0 };

    ghost never_fails = { λ _. Unit {0} };

    fn read(&mut self, buf: &mut [u8]) -> Result<usize, Failed> {
        self.reads = self.reads.saturating_add(1);
        if self.left == 0 {
            return Ok(0);
        }
        self.left -= 1;
        buf[0] = b'x';
        Ok(1)
    }
}

/// A sink that keeps the last byte and counts its writes. It takes one byte at a time, and after `room` writes none.
#[derive(Drop)]
struct Narrow {
    last: u8,
    writes: u64,
    room: u64,
    faults: u64,
}

impl Sink for Narrow {
    ghost written = { λ _. None };

    ghost faults = { λ s. s.faults };

    fn write(&mut self, piece: &[u8]) -> Result<usize, Failed> {
        if self.writes >= self.room {
            self.faults = self.faults.saturating_add(1);
            return Err(Failed);
        }
        self.writes += 1;
        self.last = piece[0];
        Ok(1)
    }
}

/// What a read into a buffer of three bytes gives, and the buffer after it.
type Read = (Result<usize, Failed>, [u8; 3]);

const READS: [Read; 5] = [
    (Ok(2), [1, 2, 0]),
    (Err(Failed), [1, 2, 0]),
    (Ok(2), [3, 4, 0]),
    (Ok(1), [5, 4, 0]),
    (Ok(0), [5, 4, 0]),
];

fn assert_reads(rt: &impl Abort, source: &mut MemSource, rows: &[Read]) {
    let mut buf = [0u8; 3];
    for (i, (count, held)) in rows.iter().enumerate() {
        assert!(rt; source.read(&mut buf) == *count && buf == *held, "read {i}");
    }
}

/// A source of these bytes whose reads fail at one call.
fn failing_source(
    alloc: Global,
    bytes: &[u8],
    failing: u64,
    step: usize,
) -> Result<MemSource, AllocError>
    requires { 0 < step }
{
    let bytes = bytes.to_vec(alloc)?;
    Ok(MemSource::new(bytes, [failing].to_vec(alloc)?, step))
}

#[test]
fn memory_source_reads(rt: HostRuntime) -> Result<(), Fail> {
    // call 1 fails; a step of 2
    let mut source = failing_source(rt.alloc(), &[1, 2, 3, 4, 5], 1, 2)?;
    assert_reads(&rt, &mut source, &READS);
    Ok(())
}

/// Pieces that are written one after the other, and how many bytes of each are taken.
const WRITES: [(&[u8], Result<usize, Failed>); 4] = [
    (b"abc", Ok(2)),
    (b"c", Err(Failed)),
    (b"cd", Ok(1)),
    (b"d", Err(Failed)),
];

/// A sink whose writes fail at one call.
fn failing_sink(alloc: Global, failing: u64, step: usize, room: usize) -> Result<MemSink, NoMemory>
    requires { 0 < step }
{
    match [failing].to_vec(alloc) {
        Ok(failing) => MemSink::new(alloc, failing, step, room),
        Err(_) => Err(NoMemory),
    }
}

/// Whether so many bytes of a piece are taken, or the write fails.
fn is_taken(sink: &mut MemSink, piece: &[u8], count: Result<usize, Failed>) -> bool {
    !piece.is_empty() && sink.write(piece) == count
}

fn assert_writes(rt: &impl Abort, sink: &mut MemSink, rows: &[(&[u8], Result<usize, Failed>)]) {
    for (i, (piece, count)) in rows.iter().enumerate() {
        assert!(rt; is_taken(sink, piece, *count), "write {i}");
    }
}

#[test]
fn memory_sink_writes(rt: HostRuntime) -> Result<(), Fail> {
    // call 1 fails; a step of 2 and room for 3
    let mut sink = failing_sink(rt.alloc(), 1, 2, 3)?;
    assert_writes(&rt, &mut sink, &WRITES);
    assert!(rt; sink.written() == b"abc".as_slice());
    Ok(())
}

const TEXT: &[u8] = b"two lines\nof it\n";

/// Whether the whole text is read from a source that fails at one call, or this is the fault.
fn is_read(alloc: Global, step: usize, limit: usize, failing: u64, fault: Option<ReadFault>) -> bool
    requires { 0 < step }
{
    let Ok(mut source) = failing_source(alloc, TEXT, failing, step) else {
        return false;
    };
    match read_all(alloc, &mut source, limit) {
        Ok(bytes) => fault.is_none() && bytes.as_slice() == TEXT,
        Err(why) => fault == Some(why),
    }
}

#[test]
fn reads_to_the_end(rt: HostRuntime) {
    // step, limit, failing call
    let cases = [
        (1, 16, 17, None),
        (5, 99, 9, None),
        (1, 15, 99, Some(ReadFault::TooLong)),
        (20, 0, 99, Some(ReadFault::TooLong)),
        (1, 16, 16, Some(ReadFault::Failed)),
        (1, 16, 0, Some(ReadFault::Failed)),
    ];
    for (step, limit, failing, fault) in cases {
        assert!(rt;
            is_read(rt.alloc(), step, limit, failing, fault),
            "{step} {limit} {failing}"
        );
    }
}

/// Whether a source of so many bytes gives as many as the limit, or is refused where it has more, after so many reads.
fn ends_after(alloc: Global, left: u64, limit: usize, reads: u64) -> bool {
    let mut source = Counting { left, reads: 0 };
    let ends = match read_all(alloc, &mut source, limit) {
        Ok(bytes) => left <= limit as u64 && bytes.len() == limit,
        Err(_) => left > limit as u64,
    };
    ends && source.reads == reads
}

#[test]
fn makes_no_read_after_the_end(rt: HostRuntime) {
    // bytes, limit, reads
    for (left, limit, reads) in [(0, 0, 1), (3, 3, 4), (4, 3, 4), (9000, 9000, 9001)] {
        assert!(rt;
            ends_after(rt.alloc(), left, limit, reads),
            "{left} {limit}"
        );
    }
}

/// Whether writing a piece ends so, with this last byte and so many writes and faults.
fn ends_at(sink: &mut Narrow, piece: &[u8], end: Result<(), Failed>, at: (u8, u64, u64)) -> bool {
    write_all(sink, piece) == end && (sink.last, sink.writes, sink.faults) == at
}

#[test]
fn writes_whole_or_a_part(rt: HostRuntime) {
    let mut sink = Narrow {
        last: 0,
        writes: 0,
        room: 3,
        faults: 0,
    };
    assert!(rt; ends_at(&mut sink, b"", Ok(()), (0, 0, 0)));
    assert!(rt; ends_at(&mut sink, b"ab", Ok(()), (b'b', 2, 0)));
    assert!(rt; ends_at(&mut sink, b"cde", Err(Failed), (b'c', 3, 1)));
}

#[test]
fn adapts_a_reader(rt: HostRuntime) -> Result<(), Fail> {
    let bytes = read_all(rt.alloc(), &mut StdSource::new(b"text".as_slice()), 4)?;
    assert!(rt; bytes.as_slice() == b"text".as_slice());
    Ok(())
}

#[test]
fn adapts_a_writer(rt: HostRuntime) {
    let mut room = [0u8; 3];
    let mut sink = StdSink::new(room.as_mut_slice());
    // a slice takes no byte where it is full
    assert!(rt; write_all(&mut sink, b"abcd") == Err(Failed));
    assert!(rt; room.as_slice() == b"abc".as_slice());
}

/// A word, a number, a blank, hexadecimal and a newline.
#[tactic(auto, using(outer_io::proofs::Writing::put_steps))]
fn put_line<K: Sink>(out: &mut Writer<'_, K>, n: u64, bytes: &[u8])
    ensures { Puts K.Sink out.old out.new (codes "line " ++ decimal n ++ codes " " ++ hex_text bytes.now ++ codes "\n") }
{
    out.put(b"line ");
    out.put_number(n);
    out.put(b" ");
    out.put_hex(bytes);
    out.put(b"\n");
}

fn write_line<K: Sink>(sink: &mut K, n: u64, bytes: &[u8]) -> Result<(), Failed>
    ensures bytes { Writes (K.written sink.old) (K.written sink.new) result (codes "line " ++ decimal n ++ codes " " ++ hex_text bytes.now ++ codes "\n") }
    ensures cause { HasCause (K.faults sink.old) (K.faults sink.new) result }
    ensures room { (k : ℕ) → K.takes sink.old k → length (codes "line " ++ decimal n ++ codes " " ++ hex_text bytes.now ++ codes "\n") ≤ k → IsOk result }
{
    let mut out = Writer::new(sink);
    put_line(&mut out, n, bytes);
    out.finish()
}

const LINE: &[u8] = b"line 18446744073709551615 000faaff\n";

/// Whether so many bytes of the line are written to a sink that fails at one call, and a failure is told where some lack.
fn is_written_so_far(alloc: Global, step: usize, failing: u64, written: usize) -> bool
    requires { 0 < step }
{
    let Ok(mut sink) = failing_sink(alloc, failing, step, 99) else {
        return false;
    };
    let result = write_line(&mut sink, u64::MAX, &[0, 15, 170, 255]);
    result.is_ok() == (written == LINE.len()) && LINE.get(..written) == Some(sink.written())
}

#[test]
fn writes_piece_by_piece(rt: HostRuntime) {
    // step, failing call, bytes written
    for (step, failing, written) in [
        (99, 9, 35),
        (1, 35, 35),
        (1, 34, 34),
        (1, 25, 25),
        (99, 0, 0),
        (10, 3, 30),
    ] {
        assert!(rt;
            is_written_so_far(rt.alloc(), step, failing, written),
            "{step} {failing}"
        );
    }
}

/// Two lines with no bytes, and 65 bytes.
fn write_hexadecimal(sink: &mut MemSink) -> Result<(), Failed> {
    let mut out = Writer::new(sink);
    put_line(&mut out, 7, &[]);
    put_line(&mut out, 8, &[]);
    out.put_hex([0xc5; 65].as_slice());
    out.finish()
}

fn is_hexadecimal(written: &[u8]) -> bool {
    written.len() == 18 + 130 && written.starts_with(b"line 7 -\nline 8 -\nc5c5")
}

#[test]
fn hexadecimal_in_long_and_short(rt: HostRuntime) -> Result<(), Fail> {
    let mut sink = MemSink::new(rt.alloc(), Vec::new(rt.alloc()), 99, 200)?;
    let result = write_hexadecimal(&mut sink);
    assert!(rt; result.is_ok() && is_hexadecimal(sink.written()));
    Ok(())
}

/// Pieces that fill what is gathered, and one that is longer than all that can be.
fn write_more_than_fits(sink: &mut MemSink) -> Result<(), Failed> {
    let mut out = Writer::new(sink);
    out.put(b"ab");
    out.put([7; 40_000].as_slice());
    for _ in 0..4000 {
        out.put(b"0123456789");
    }
    out.finish()
}

fn is_gathered(written: &[u8]) -> bool {
    written.len() == 2 + 40_000 + 40_000
        && written.starts_with(b"ab\x07\x07")
        && written.ends_with(b"01234567890123456789")
}

#[test]
fn gathers_more_than_fits(rt: HostRuntime) -> Result<(), Fail> {
    let mut sink = MemSink::new(rt.alloc(), Vec::new(rt.alloc()), 9_999, 90_000)?;
    let result = write_more_than_fits(&mut sink);
    assert!(rt; result.is_ok() && is_gathered(sink.written()));
    Ok(())
}

#[test]
fn faults_have_a_message(rt: HostRuntime) -> Result<(), Fail> {
    let text = ReadFault::TooLong.to_string(rt.alloc())?;
    assert!(rt; text.as_str() == "the input has more bytes than the limit; shorten it");
    Ok(())
}

//! Streams that count their calls: none is made after one that failed.

ghost use Rattle.std.specs.Prelude.{None};

use super::{CHECK, MESSAGE, MESSAGE_REPORT, SERIAL, USAGE, words_of};
use outer_io::{Failed, Sink, Source};
use scenario_cli::mcrun;
use std::alloc::{AllocError, Global};
use std::sync::Wait;
use std::test::Fail;
use std::thread::Threads;

/// A text that comes a byte at a time, and how many reads were made. The read of one number fails, and all others go through.
#[derive(Drop)]
struct Reads<'a> {
    text: &'a [u8],
    made: usize,
    failing: usize,
    faults: u64,
}

impl<'a> Source for Reads<'a> {
    ghost rest = { λ _. None };

    ghost faults = { λ s. s.faults };

    fn read(&mut self, buf: &mut [u8]) -> Result<usize, Failed> {
        let number = self.made;
        self.made = self.made.saturating_add(1);
        if number == self.failing {
            self.faults = self.faults.saturating_add(1);
            return Err(Failed);
        }
        let Some(byte) = self.text.get(number) else {
            return Ok(0);
        };
        buf[0] = *byte;
        Ok(1)
    }
}

/// How many writes were made, of which each takes a byte. The write of one number fails, and all others go through.
#[derive(Drop)]
struct Writes {
    made: usize,
    failing: usize,
    faults: u64,
}

impl Sink for Writes {
    ghost written = { λ _. None };

    ghost faults = { λ s. s.faults };

    fn write(&mut self, _piece: &[u8]) -> Result<usize, Failed> {
        let number = self.made;
        self.made = self.made.saturating_add(1);
        if number == self.failing {
            self.faults = self.faults.saturating_add(1);
            return Err(Failed);
        }
        Ok(1)
    }
}

/// Words, a text, the status where all goes well, and how many bytes are written then.
type Call<'a> = (&'a [&'a str], &'a [u8], u8, usize);

static CALLS: [Call<'static>; 5] = [
    (SERIAL, MESSAGE, 0, MESSAGE_REPORT.len()),
    (&["run"], MESSAGE, 0, MESSAGE_REPORT.len() + 1),
    (&["run", "--bells"], MESSAGE, 0, MESSAGE_REPORT.len() + 1),
    (CHECK, MESSAGE_REPORT, 0, 6),
    (CHECK, MESSAGE, 1, 13),
];

/// The status of a call, and how many reads and writes it made.
fn counts_of<T: Threads + Wait + Sync>(
    rt: &T,
    alloc: Global,
    (words, text, _, _): Call<'_>,
    failing_read: usize,
    failing_write: usize,
) -> Result<(u8, usize, usize), AllocError> {
    let words = words_of(alloc, words)?;
    let mut input = Reads {
        text,
        made: 0,
        failing: failing_read,
        faults: 0,
    };
    let mut output = Writes {
        made: 0,
        failing: failing_write,
        faults: 0,
    };
    let status = mcrun(rt, alloc, &words, &mut input, &mut output);
    Ok((status, input.made, output.made))
}

const NEVER: usize = 1_000_000;

/// Each of the last ten reads fails, the end among them. Nothing is written then.
#[test]
fn no_read_follows_one_that_failed(rt: HostRuntime) -> Result<(), Fail> {
    for (i, call) in CALLS.iter().enumerate() {
        let (_, text, status, written) = *call;
        let whole = counts_of(&rt, rt.alloc(), *call, NEVER, NEVER)?;
        assert!(rt;
            whole == (status, text.len() + 1, written),
            "row {i}: {whole:?}"
        );
        for k in text.len().saturating_sub(9)..text.len() + 1 {
            let counts = counts_of(&rt, rt.alloc(), *call, k, NEVER)?;
            assert!(rt; counts == (4, k + 1, 0), "row {i}, read {k}");
        }
    }
    Ok(())
}

/// Each write fails.
#[test]
fn no_write_follows_one_that_failed(rt: HostRuntime) -> Result<(), Fail> {
    for (i, call) in CALLS.iter().enumerate() {
        let (_, text, _, written) = *call;
        for k in 0..written {
            let counts = counts_of(&rt, rt.alloc(), *call, NEVER, k)?;
            assert!(rt; counts == (5, text.len() + 1, k + 1), "row {i}, write {k}");
        }
    }
    let usage: Call<'static> = (&["fly"], b"", 2, USAGE.len());
    assert!(rt; counts_of(&rt, rt.alloc(), usage, NEVER, 9)? == (5, 0, 10));
    Ok(())
}

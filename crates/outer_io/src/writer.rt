ghost use Rattle.std.specs.Prelude.{◌≡◌, ◌≤◌, ◌<◌, ◌*◌, length, take, decimal, false, true, []};
ghost use Rattle.mc_base.specs.Text.{hex_digit, hex_digits, hex_text};
ghost use Rattle.outer_io.specs.Puts.{Puts, IsFinished};

use crate::{Failed, Sink, write_all};
use arrayvec::ArrayVec;

/// How many bytes are gathered before they are written.
const GATHERED: usize = 32_768;

/// How many bytes are spelled in hexadecimal at once.
const HEX_BYTES: usize = 64;

/// A sink that a text is put to piece by piece. Pieces are gathered and written together. After a failure nothing more
/// is written, and `finish` reports it.
#[derive(Drop)]
pub struct Writer<'a, K: Sink> {
    sink: &'a mut K,
    gathered: ArrayVec<u8, GATHERED>,
    failed: bool,
}

impl<'a, K: Sink> Writer<'a, K> {
    /// Makes a writer to this sink, with nothing gathered and no failure.
    pub fn new(sink: &'a mut K) -> Writer<'a, K>
        ensures reference { result.sink.ghost_name ≡ sink.entry.ghost_name }
        ensures sink { result.sink.now ≡ sink.old }
        ensures empty { result.gathered.items ≡ [] }
        ensures sound { result.failed ≡ false }
    {
        Writer {
            sink,
            gathered: ArrayVec::new(),
            failed: false,
        }
    }

    /// Puts a piece of any length: it is gathered with what came before, or written after it. After a failure it is
    /// dropped.
    #[inline(always)]
    pub fn put(&mut self, piece: &[u8])
        ensures { Puts K.Sink self.old self.new piece.now }
    {
        if self.gathers(piece) {
            return;
        }
        self.put_after(piece);
    }

    /// Writes what is gathered, and puts a piece after it.
    #[cold]
    #[inline(never)]
    fn put_after(&mut self, piece: &[u8])
        requires { self.old.failed ≡ false }
        ensures { Puts K.Sink self.old self.new piece.now }
    {
        self.write_gathered();
        self.put_first(piece);
    }

    /// Gathers a piece, if there is room. After a failure it is dropped.
    #[tactic(auto, unfolding(crate::specs::Puts::Puts), using(crate::proofs::Counted::no_call))]
    #[inline(always)]
    fn gathers(&mut self, piece: &[u8]) -> bool
        ensures puts { result ≡ true → Puts K.Sink self.old self.new piece.now }
        ensures full { result ≡ false → (self.new ≡ self.old) × (self.old.failed ≡ false) }
    {
        self.failed || self.gathered.try_extend_from_slice(piece).is_ok()
    }

    /// Writes what is gathered.
    #[tactic(auto, unfolding(crate::specs::Puts::Puts), using(crate::proofs::Counted::no_call))]
    fn write_gathered(&mut self)
        requires { self.old.failed ≡ false }
        ensures puts { Puts K.Sink self.old self.new [] }
        ensures empty { self.new.failed ≡ false → self.new.gathered.items ≡ [] }
    {
        match write_all(self.sink, &self.gathered) {
            Ok(()) => self.gathered.clear(),
            Err(Failed) => self.failed = true,
        }
    }

    /// Puts a piece where nothing is gathered. One that is longer than all that can be gathered is written at once.
    #[tactic(auto, unfolding(crate::specs::Puts::Puts), using(crate::proofs::Counted::no_call))]
    fn put_first(&mut self, piece: &[u8])
        requires { self.old.failed ≡ false → self.old.gathered.items ≡ [] }
        ensures { Puts K.Sink self.old self.new piece.now }
    {
        if self.gathers(piece) {
            return;
        }
        if write_all(self.sink, piece).is_err() {
            self.failed = true;
        }
    }

    /// Puts a number in decimal digits.
    #[inline(always)]
    pub fn put_number(&mut self, n: u64)
        ensures { Puts K.Sink self.old self.new (decimal n) }
    {
        if n < 10 {
            self.put(&[b'0' + n as u8]);
        } else {
            self.put_digits(n);
        }
    }

    /// Puts a number of two digits or more.
    #[inline(never)]
    fn put_digits(&mut self, n: u64)
        ensures { Puts K.Sink self.old self.new (decimal n) }
    {
        self.put(itoa::Buffer::new().format(n).as_bytes());
    }

    /// Puts bytes in hexadecimal, two lower-case digits a byte, or `-` for none.
    pub fn put_hex(&mut self, bytes: &[u8])
        ensures { Puts K.Sink self.old self.new (hex_text bytes.now) }
    {
        if bytes.is_empty() {
            self.put(b"-");
        } else {
            self.put_hex_digits(bytes);
        }
    }

    fn put_hex_digits(&mut self, bytes: &[u8])
        ensures { Puts K.Sink self.old self.new (hex_digits bytes.now) }
    {
        let mut digits = [0u8; 2 * HEX_BYTES];
        let mut done = 0;
        while done < bytes.len() {
            let (_, left) = bytes.split_at(done);
            let (piece, _) = left.split_at(left.len().min(HEX_BYTES));
            spell_hex(&mut digits, piece);
            self.put(&digits[..2 * piece.len()]);
            done += piece.len();
        }
    }

    /// Writes what is still gathered.
    ///
    /// # Errors
    ///
    /// `Failed` where this write failed, or an earlier one.
    pub fn finish(self) -> Result<(), Failed>
        ensures { IsFinished K.Sink self.entry self.exit.0.now result }
    {
        let Writer {
            sink,
            gathered,
            failed,
        } = self;
        if failed {
            return Err(Failed);
        }
        write_all(sink, &gathered)
    }
}

/// Writes the digits of the bytes to the front.
fn spell_hex(digits: &mut [u8], bytes: &[u8])
    requires { 2 * length bytes.now ≤ length digits.old }
    ensures { take (2 * length bytes.now) digits.new ≡ hex_digits bytes.now }
{
    for (i, byte) in bytes.iter().enumerate() {
        digits[2 * i] = spell_digit(byte / 16);
        digits[2 * i + 1] = spell_digit(byte % 16);
    }
}

fn spell_digit(digit: u8) -> u8
    requires { digit < 16 }
    ensures { result ≡ hex_digit digit }
{
    if digit < 10 {
        b'0' + digit
    } else {
        b'a' + (digit - 10)
    }
}

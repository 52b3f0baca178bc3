//! Images as text, put piece by piece.

ghost use Rattle.std.specs.Prelude.{◌≡◌, ◌≤◌, ℕ, length, slice_index, IsOk, OnErr};
ghost use Rattle.byteorder.specs.Endian.{little_bytes};
ghost use Rattle.mc_base.specs.Text.{hex_digits};
ghost use Rattle.outer_io.specs.Faults.{HasCause};
ghost use Rattle.outer_io.specs.Writes.{Writes, WritesStop};
ghost use Rattle.outer_io.specs.Puts.{Puts};
ghost use Rattle.board_model.specs.RingImage.{for_each};
ghost use Rattle.ring_trace.specs.WordImage.{word_image, word_descriptor, word_entry, word_element, ring_head};

use crate::words::word_at;
use outer_io::{Failed, Sink, Writer};
use split_ring::Closed;

/// Writes the image of a finished ring in hexadecimal, straight from its words. It takes no memory.
///
/// # Errors
///
/// `Failed` where a write failed, which is then the last; a proper prefix was written.
pub fn write_image<K: Sink>(closed: &Closed, sink: &mut K) -> Result<(), Failed>
    ensures bytes { Writes (K.written sink.old) (K.written sink.new) result (hex_digits (word_image closed.now.size closed.now.words)) }
    ensures cause { HasCause (K.faults sink.old) (K.faults sink.new) result }
    ensures room { (n : ℕ) → K.takes sink.old n → length (hex_digits (word_image closed.now.size closed.now.words)) ≤ n → IsOk result }
    ensures few_writes_at_err { OnErr result (WritesStop (K.written sink.old) (K.written sink.new) (K.calls sink.old) (K.calls sink.new) (hex_digits (word_image closed.now.size closed.now.words))) }
{
    let mut out = Writer::new(sink);
    put_image(&mut out, closed);
    out.finish()
}

/// Puts the image of a finished ring in hexadecimal.
pub fn put_image<K: Sink>(out: &mut Writer<'_, K>, closed: &Closed)
    ensures { Puts K.Sink out.old out.new (hex_digits (word_image closed.now.size closed.now.words)) }
{
    put_words(out, closed.words(), closed.size());
}

fn put_words<K: Sink>(out: &mut Writer<'_, K>, words: &[u64], size: u32)
    ensures { Puts K.Sink out.old out.new (hex_digits (word_image size words.now)) }
{
    let count = size as usize;
    put_descriptors(out, words, size);
    put_head(out, words, 4 * count, 4 * count + 1);
    put_offered(out, words, size);
    out.put_hex(&[0, 0, 0, 0]);
    put_head(out, words, 5 * count + 2, 5 * count + 3);
    put_used(out, words, size);
    out.put_hex(&[0, 0]);
}

/// Puts the word at a place as a field of this many bytes.
fn put_word<K: Sink>(out: &mut Writer<'_, K>, words: &[u64], place: usize, width: usize)
    requires { (1 ≤ width) × (width ≤ 8) }
    ensures { Puts K.Sink out.old out.new (hex_digits (little_bytes width (slice_index words.now place))) }
{
    out.put_hex(&word_at(words, place).to_le_bytes()[..width]);
}

fn put_descriptor<K: Sink>(out: &mut Writer<'_, K>, words: &[u64], i: u32)
    ensures { Puts K.Sink out.old out.new (hex_digits (word_descriptor 0 words.now i)) }
{
    let first = 4 * i as usize;
    put_word(out, words, first, 8);
    put_word(out, words, first + 1, 4);
    put_word(out, words, first + 2, 2);
    put_word(out, words, first + 3, 2);
}

fn put_descriptors<K: Sink>(out: &mut Writer<'_, K>, words: &[u64], size: u32)
    ensures { Puts K.Sink out.old out.new (hex_digits (for_each (word_descriptor size words.now) size)) }
{
    for i in 0..size {
        put_descriptor(out, words, i);
    }
}

/// Puts the words with flags and idx of a ring.
fn put_head<K: Sink>(out: &mut Writer<'_, K>, words: &[u64], flags: usize, idx: usize)
    ensures { Puts K.Sink out.old out.new (hex_digits (ring_head words.now flags idx)) }
{
    put_word(out, words, flags, 2);
    put_word(out, words, idx, 2);
}

fn put_offered<K: Sink>(out: &mut Writer<'_, K>, words: &[u64], size: u32)
    ensures { Puts K.Sink out.old out.new (hex_digits (for_each (word_entry size words.now) size)) }
{
    let first = 4 * size as usize + 2;
    for p in 0..size {
        put_word(out, words, first + p as usize, 2);
    }
}

fn put_element<K: Sink>(out: &mut Writer<'_, K>, words: &[u64], size: u32, p: u32)
    ensures { Puts K.Sink out.old out.new (hex_digits (word_element size words.now p)) }
{
    let id = 5 * size as usize + 4;
    let len = 5 * size as usize + 5;
    put_word(out, words, id + 2 * p as usize, 4);
    put_word(out, words, len + 2 * p as usize, 4);
}

fn put_used<K: Sink>(out: &mut Writer<'_, K>, words: &[u64], size: u32)
    ensures { Puts K.Sink out.old out.new (hex_digits (for_each (word_element size words.now) size)) }
{
    for p in 0..size {
        put_element(out, words, size, p);
    }
}

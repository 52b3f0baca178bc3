//! The lines of images, put to a sink piece by piece.

ghost use Rattle.std.specs.Prelude.{◌≡◌, ◌≤◌, ℕ, length, IsOk, OnErr};
ghost use Rattle.outer_io.specs.Faults.{HasCause};
ghost use Rattle.outer_io.specs.Puts.{Puts};
ghost use Rattle.outer_io.specs.Writes.{Writes, WritesStop};
ghost use Rattle.scenario_cli.specs.ImageText.{image_line, image_fault_text};

use outer_io::{Failed, Sink, Writer};
use ring_trace::{ImageFault, ImageInfo};

/// Writes the line of a sound image.
///
/// # Errors
///
/// `Failed` where a write failed.
pub fn write_info<K: Sink>(info: ImageInfo, sink: &mut K) -> Result<(), Failed>
    ensures bytes { Writes (K.written sink.old) (K.written sink.new) result (image_line info) }
    ensures cause { HasCause (K.faults sink.old) (K.faults sink.new) result }
    ensures room { (n : ℕ) → K.takes sink.old n → length (image_line info) ≤ n → IsOk result }
    ensures few_writes_at_err { OnErr result (WritesStop (K.written sink.old) (K.written sink.new) (K.calls sink.old) (K.calls sink.new) (image_line info)) }
{
    let mut out = Writer::new(sink);
    put_info(&mut out, info);
    out.finish()
}

fn put_info<K: Sink>(out: &mut Writer<'_, K>, info: ImageInfo)
    ensures { Puts K.Sink out.old out.new (image_line info) }
{
    out.put(b"right ");
    out.put_number(info.size as u64);
    out.put(b" ");
    out.put_number(info.queue as u64);
    out.put(b" ");
    out.put_number(info.avail as u64);
    out.put(b" ");
    out.put_number(info.used as u64);
    out.put(b"\n");
}

/// Returns the word for what is wrong with an image.
pub fn image_fault_word(fault: ImageFault) -> &'static [u8]
    ensures { result.now ≡ image_fault_text fault }
{
    match fault {
        ImageFault::ImageSize => b"image_size",
        ImageFault::Constant => b"constant",
        ImageFault::IdxAhead => b"idx_ahead",
        ImageFault::IdRange => b"id_range",
        ImageFault::LenRange => b"len_range",
    }
}

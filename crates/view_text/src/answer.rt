//! Answers of calls, in words.
#![tactic(auto, using(report_view::proofs::TextSteps::text_steps))]

ghost use Rattle.report_view.specs.Texts.{PutsText};

use mc_journal::{Answer, Told};
use outer_io::{Sink, Writer};
use report_view::put_bytes;

/// Puts an answer, of which this is the text in the report: the bytes of a message or a packet as a reader wants them, where the call may
/// bring such, and all else as it stands there.
pub fn put_answer<K: Sink>(out: &mut Writer<'_, K>, answer: &Answer<'_>, text: &[u8], brings: bool)
    ensures { PutsText K.Sink out.old out.new }
{
    out.put(b"answer ");
    if brings {
        put_brought(out, answer, text);
    } else {
        out.put(text);
    }
}

fn put_brought<K: Sink>(out: &mut Writer<'_, K>, answer: &Answer<'_>, text: &[u8])
    ensures { PutsText K.Sink out.old out.new }
{
    match *answer {
        Answer::Bytes { size, bytes } => {
            put_got(out, word_for(size, bytes, b"ok "), size, bytes)
        }
        Answer::Done {
            place: None,
            result: Told::Bytes { size, bytes },
        } => put_done(out, size, bytes),
        _ => out.put(text),
    }
}

/// Puts how a request ended that brought bytes.
fn put_done<K: Sink>(out: &mut Writer<'_, K>, size: u32, bytes: &[u8])
    ensures { PutsText K.Sink out.old out.new }
{
    out.put(b"done ");
    put_got(out, word_for(size, bytes, b""), size, bytes);
}

/// Puts a word, a size, and the bytes that came of a message or packet of that size.
fn put_got<K: Sink>(out: &mut Writer<'_, K>, word: &[u8], size: u32, bytes: &[u8])
    ensures { PutsText K.Sink out.old out.new }
{
    out.put(word);
    out.put_number(u64::from(size));
    out.put(b" ");
    put_bytes(out, bytes);
}

/// The word, with a blank, for bytes that are fewer than the size, or else this one.
fn word_for(size: u32, bytes: &[u8], whole: &'static [u8]) -> &'static [u8] {
    if bytes.len() < size as usize {
        b"truncated "
    } else {
        whole
    }
}

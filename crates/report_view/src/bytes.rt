//! Bytes, as a reader wants them.
#![tactic(auto, using(crate::proofs::TextSteps::text_steps))]

ghost use Rattle.report_view.specs.Texts.{PutsText};

use outer_io::{Sink, Writer};
use picture_text::put_json;

/// Whether bytes are a text of printable characters.
fn is_text(bytes: &[u8]) -> bool {
    !bytes.is_empty() && bytes.iter().all(|byte| *byte >= 0x20 && *byte < 0x7f)
}

/// Puts bytes: a text of printable characters in quotes, in which `"` and `\` are escaped, and any other bytes in hexadecimal.
pub fn put_bytes<K: Sink>(out: &mut Writer<'_, K>, bytes: &[u8])
    ensures { PutsText K.Sink out.old out.new }
{
    if is_text(bytes) {
        put_quoted(out, bytes);
    } else {
        out.put_hex(bytes);
    }
}

fn put_quoted<K: Sink>(out: &mut Writer<'_, K>, text: &[u8])
    ensures { PutsText K.Sink out.old out.new }
{
    out.put(b"\"");
    put_json(out, text);
    out.put(b"\"");
}

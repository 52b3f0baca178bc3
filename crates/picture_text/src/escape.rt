//! Text as it stands in SVG and in JSON.

ghost use Rattle.std.specs.Prelude.{◌≡◌};
ghost use Rattle.std.specs.List.{flat_map};
ghost use Rattle.outer_io.specs.Puts.{Puts};
ghost use Rattle.picture_text.specs.Escapes.{json_of, plain_of, xml_of};

use outer_io::{Sink, Writer};

/// Puts a text as it stands between tags, or in quotes, of SVG.
pub fn put_xml<K: Sink>(out: &mut Writer<'_, K>, text: &[u8])
    ensures { Puts K.Sink out.old out.new (flat_map xml_of text.now) }
{
    for byte in text {
        put_xml_byte(out, *byte);
    }
}

fn put_xml_byte<K: Sink>(out: &mut Writer<'_, K>, byte: u8)
    ensures { Puts K.Sink out.old out.new (xml_of byte) }
{
    if byte == b'<' {
        out.put(b"&lt;");
    } else if byte == b'>' {
        out.put(b"&gt;");
    } else if byte == b'&' {
        out.put(b"&amp;");
    } else if byte == b'"' {
        out.put(b"&quot;");
    } else {
        put_plain(out, byte);
    }
}

/// Puts a text as it stands in quotes of JSON.
pub fn put_json<K: Sink>(out: &mut Writer<'_, K>, text: &[u8])
    ensures { Puts K.Sink out.old out.new (flat_map json_of text.now) }
{
    for byte in text {
        put_json_byte(out, *byte);
    }
}

fn put_json_byte<K: Sink>(out: &mut Writer<'_, K>, byte: u8)
    ensures { Puts K.Sink out.old out.new (json_of byte) }
{
    if byte == b'"' {
        out.put(b"\\\"");
    } else if byte == b'\\' {
        out.put(b"\\\\");
    } else {
        put_plain(out, byte);
    }
}

/// Puts a printable byte as it is, and any other as a question mark.
fn put_plain<K: Sink>(out: &mut Writer<'_, K>, byte: u8)
    ensures { Puts K.Sink out.old out.new (plain_of byte) }
{
    if byte >= 0x20 && byte < 0x7f {
        out.put(&[byte]);
    } else {
        out.put(b"?");
    }
}

//! The elements of a picture in SVG.

ghost use Rattle.std.specs.Prelude.{◌≡◌, ℕ, option_to_list};
ghost use Rattle.std.specs.List.{flat_map};
ghost use Rattle.outer_io.specs.Puts.{Puts};
ghost use Rattle.picture_text.specs.Markup.{PutsElements, attribute, element, head, key_name, line_mark, look_name, markup, page_end, tag_name};

use crate::escape::put_xml;
use outer_io::{Sink, Writer};

/// What an element is.
#[derive(Clone, Copy)]
pub enum Tag {
    Style,
    Rect,
    Line,
    Circle,
    Text,
}

/// How an element looks. Each look is a class of the picture's style sheet.
#[derive(Clone, Copy)]
pub enum Look {
    Plain,
    Page,
    Title,
    Note,
    Small,
    Right,
    RightNote,
    RightAlarm,
    Box,
    Life,
    Frame,
    Data,
    DataLost,
    DataWords,
    Control,
    ControlLost,
    ControlWords,
    Name,
    NameLost,
    NameWords,
    Fault,
    FaultLost,
    Alarm,
    Done,
    Refused,
    Again,
    Wait,
    WaitEnded,
    WaitWords,
    Free,
    OnWay,
    Held,
    Returned,
}

/// The name of an attribute that is a number.
#[derive(Clone, Copy)]
pub enum Key {
    X,
    Y,
    Width,
    Height,
    FromX,
    FromY,
    ToX,
    ToY,
    Cx,
    Cy,
    Radius,
}

/// An attribute that is a number.
#[derive(Clone, Copy)]
pub struct Number {
    pub key: Key,
    pub value: u32,
}

/// What an element is and how it looks, and the line of a report that it shows, where it shows one.
#[derive(Clone, Copy)]
pub struct Shape {
    pub tag: Tag,
    pub look: Look,
    pub line: Option<u32>,
}

fn tag_word(tag: Tag) -> &'static [u8]
    ensures { result.now ≡ tag_name tag }
{
    match tag {
        Tag::Style => b"style",
        Tag::Rect => b"rect",
        Tag::Line => b"line",
        Tag::Circle => b"circle",
        Tag::Text => b"text",
    }
}

fn look_word(look: Look) -> &'static [u8]
    ensures { result.now ≡ look_name look }
{
    match look {
        Look::Plain => b"plain",
        Look::Page => b"page",
        Look::Title => b"title",
        Look::Note => b"note",
        Look::Small => b"small",
        Look::Right => b"right",
        Look::RightNote => b"right note",
        Look::RightAlarm => b"right alarm",
        Look::Box => b"box",
        Look::Life => b"life",
        Look::Frame => b"frame",
        Look::Data => b"data",
        Look::DataLost => b"data lost",
        Look::DataWords => b"data words",
        Look::Control => b"control",
        Look::ControlLost => b"control lost",
        Look::ControlWords => b"control words",
        Look::Name => b"name",
        Look::NameLost => b"name lost",
        Look::NameWords => b"name words",
        Look::Fault => b"fault",
        Look::FaultLost => b"fault lost",
        Look::Alarm => b"alarm",
        Look::Done => b"done",
        Look::Refused => b"refused",
        Look::Again => b"again",
        Look::Wait => b"wait",
        Look::WaitEnded => b"wait ended",
        Look::WaitWords => b"wait words",
        Look::Free => b"free",
        Look::OnWay => b"onway",
        Look::Held => b"held",
        Look::Returned => b"returned",
    }
}

fn key_word(key: Key) -> &'static [u8]
    ensures { result.now ≡ key_name key }
{
    match key {
        Key::X => b"x",
        Key::Y => b"y",
        Key::Width => b"width",
        Key::Height => b"height",
        Key::FromX => b"x1",
        Key::FromY => b"y1",
        Key::ToX => b"x2",
        Key::ToY => b"y2",
        Key::Cx => b"cx",
        Key::Cy => b"cy",
        Key::Radius => b"r",
    }
}

/// Begins a picture of this size.
pub fn put_head<K: Sink>(out: &mut Writer<'_, K>, width: u32, height: u32)
    ensures { Puts K.Sink out.old out.new (head width height) }
{
    out.put(b"<svg xmlns=\"http://www.w3.org/2000/svg\" width=\"");
    out.put_number(width as u64);
    out.put(b"\" height=\"");
    out.put_number(height as u64);
    out.put(b"\" viewBox=\"0 0 ");
    out.put_number(width as u64);
    out.put(b" ");
    out.put_number(height as u64);
    out.put(b"\">\n");
}

/// Ends a picture.
pub fn put_end<K: Sink>(out: &mut Writer<'_, K>)
    ensures { Puts K.Sink out.old out.new page_end }
{
    out.put(b"</svg>\n");
}

fn put_number<K: Sink>(out: &mut Writer<'_, K>, number: Number)
    ensures { Puts K.Sink out.old out.new (attribute number) }
{
    out.put(b" ");
    out.put(key_word(number.key));
    out.put(b"=\"");
    out.put_number(number.value as u64);
    out.put(b"\"");
}

fn put_numbers<K: Sink>(out: &mut Writer<'_, K>, numbers: &[Number])
    ensures { Puts K.Sink out.old out.new (flat_map attribute numbers.now) }
{
    for number in numbers {
        put_number(out, *number);
    }
}

fn put_line_mark<K: Sink>(out: &mut Writer<'_, K>, line: Option<u32>)
    ensures { Puts K.Sink out.old out.new (line_mark line) }
{
    if let Some(line) = line {
        out.put(b" data-line=\"");
        out.put_number(line as u64);
        out.put(b"\"");
    }
}

/// Puts an element whole: its opening tag with its attributes, a text, and its closing tag.
pub fn put_element<K: Sink>(
    out: &mut Writer<'_, K>,
    shape: Shape,
    numbers: &[Number],
    content: &[u8],
)
    ensures exact { Puts K.Sink out.old out.new (markup (element shape numbers.now content.now)) }
    ensures element { PutsElements K.Sink out.old out.new (option_to_list shape.line) }
{
    out.put(b"<");
    out.put(tag_word(shape.tag));
    out.put(b" class=\"");
    out.put(look_word(shape.look));
    out.put(b"\"");
    put_line_mark(out, shape.line);
    put_numbers(out, numbers);
    out.put(b">");
    put_xml(out, content);
    out.put(b"</");
    out.put(tag_word(shape.tag));
    out.put(b">\n");
}

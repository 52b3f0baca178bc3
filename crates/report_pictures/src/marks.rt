//! The style sheet of pictures. A white page lies under each, so that it reads the same on a dark page.
#![tactic(auto, using(picture_text::proofs::PieceSteps::piece_steps))]

ghost use Rattle.std.specs.Prelude.{◌≡◌, [], option_to_list};
ghost use Rattle.picture_text.specs.Markup.{PutsElements};

use outer_io::{Sink, Writer};
use picture_text::{Key, Look, Number, Shape, Tag, put_element};

const SHEET: &[u8] =
    b"text{font-family:'DejaVu Sans Mono',monospace;font-size:10px;fill:#222;stroke:#fff;stroke-width:3px;paint-order:stroke;stroke-linejoin:round}\
.page{fill:#fff}.title{font-size:13px;font-weight:bold}.note{fill:#666}.small{font-size:9px;fill:#666}\
.right{text-anchor:end;font-weight:bold}.right.note{font-weight:normal}.right.alarm{fill:#b71c1c}.alarm{fill:#b71c1c}\
.box{fill:#eef3fb;stroke:#7d9cc9}.life{stroke:#bbb}.frame{fill:none;stroke:#888}\
line.data,line.control,line.name,line.fault{stroke-width:1.6px}.data{stroke:#1f5fbf;fill:none}.control{stroke:#7a4fb5;fill:none}\
.name{stroke:#9a9a9a;fill:none}.fault{stroke:#c62828;fill:none}line.lost{stroke-dasharray:4 3}circle.lost{fill:#fff}\
text.words{stroke:#fff}text.data{fill:#1f5fbf}text.control{fill:#7a4fb5}text.name{fill:#808080}text.fault{fill:#c62828}\
.done{fill:#1b5e20}.refused{fill:#b71c1c}text.refused{font-weight:bold}.again{fill:#c07000}\
rect.wait{fill:#ffe2a8;stroke:#c8953a}rect.wait.ended{fill:#f4b6b0}text.wait{fill:#8a6414}\
.free{fill:#dfeedd}.onway{fill:#3f78c9}.held{fill:#e8833a}.returned{fill:#b9b9b9}";

pub(crate) fn number(key: Key, value: u32) -> Number {
    Number { key, value }
}

/// Puts the style sheet and a white page of this size.
pub fn put_page<K: Sink>(out: &mut Writer<'_, K>, width: u32, height: u32)
    ensures { PutsElements K.Sink out.old out.new [] }
{
    let style = Shape {
        tag: Tag::Style,
        look: Look::Plain,
        line: None,
    };
    put_element(out, style, &[], SHEET);
    put_rect(
        out,
        Look::Page,
        None,
        Area {
            x: 0,
            y: 0,
            width,
            height,
        },
    );
}

/// Puts an element without a text.
fn put_mark<K: Sink>(
    out: &mut Writer<'_, K>,
    tag: Tag,
    look: Look,
    line: Option<u32>,
    numbers: &[Number],
)
    ensures { PutsElements K.Sink out.old out.new (option_to_list line) }
{
    put_element(out, Shape { tag, look, line }, numbers, b"");
}

/// Where a rectangle lies.
#[derive(Clone, Copy)]
pub struct Area {
    pub x: u32,
    pub y: u32,
    pub width: u32,
    pub height: u32,
}

/// Puts a rectangle.
pub fn put_rect<K: Sink>(out: &mut Writer<'_, K>, look: Look, line: Option<u32>, area: Area)
    ensures { PutsElements K.Sink out.old out.new (option_to_list line) }
{
    let numbers = [
        number(Key::X, area.x),
        number(Key::Y, area.y),
        number(Key::Width, area.width),
        number(Key::Height, area.height),
    ];
    put_mark(out, Tag::Rect, look, line, &numbers);
}

/// A point of a picture.
#[derive(Clone, Copy)]
pub struct Point {
    pub x: u32,
    pub y: u32,
}

/// Puts a text that begins at a point, or ends there where its look says so.
pub fn put_text<K: Sink>(
    out: &mut Writer<'_, K>,
    look: Look,
    line: Option<u32>,
    at: Point,
    text: &[u8],
)
    ensures { PutsElements K.Sink out.old out.new (option_to_list line) }
{
    let shape = Shape {
        tag: Tag::Text,
        look,
        line,
    };
    put_element(
        out,
        shape,
        &[number(Key::X, at.x), number(Key::Y, at.y)],
        text,
    );
}

/// Puts a line between two points.
pub fn put_line<K: Sink>(
    out: &mut Writer<'_, K>,
    look: Look,
    line: Option<u32>,
    from: Point,
    to: Point,
)
    ensures { PutsElements K.Sink out.old out.new (option_to_list line) }
{
    let numbers = [
        number(Key::FromX, from.x),
        number(Key::FromY, from.y),
        number(Key::ToX, to.x),
        number(Key::ToY, to.y),
    ];
    put_mark(out, Tag::Line, look, line, &numbers);
}

/// Puts a circle round a point.
pub fn put_circle<K: Sink>(
    out: &mut Writer<'_, K>,
    look: Look,
    line: Option<u32>,
    at: Point,
    radius: u32,
)
    ensures { PutsElements K.Sink out.old out.new (option_to_list line) }
{
    let numbers = [
        number(Key::Cx, at.x),
        number(Key::Cy, at.y),
        number(Key::Radius, radius),
    ];
    put_mark(out, Tag::Circle, look, line, &numbers);
}

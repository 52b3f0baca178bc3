//! A report as a chart of its lanes: where the buffers of each are, over the order of events.
#![tactic(auto, using(picture_text::proofs::PieceSteps::piece_steps))]

ghost use Rattle.std.specs.Prelude.{◌≡◌, ◌≤◌, ◌<◌, ◌∷◌, [], false, length};
ghost use Rattle.std.specs.List.{flat_map};
ghost use Rattle.report_text.specs.Texts.{longest_line};
ghost use Rattle.picture_text.specs.Markup.{PutsElements};
ghost use Rattle.report_pictures.specs.Lanes.{is_on, line_on, lines_of_lane, lines_of_lanes, lines_of_sender};
ghost use Rattle.report_pictures.specs.Pictures.{PutsPicture};

use crate::buffers::Buffers;
use crate::caption::Caption;
use crate::marks::{Area, Point, put_circle, put_line, put_page, put_rect, put_text};
use crate::subject::Subject;
use event_order::{Event, Lane, What};
use outer_io::{Sink, Writer};
use picture_text::{Look, put_end, put_head};
use report_view::last_word;

/// The left edge of the bands, how wide and how high each is, the first one's top, and the space from one to the next.
const LEFT: u32 = 150;

const WIDE: u32 = 900;

const HIGH: u32 = 62;

const TOP: u32 = 70;

const NEXT: u32 = 92;

/// A lane that is drawn: its band's top, and how many events there are in all.
#[derive(Clone, Copy)]
struct Band {
    lane: Lane,
    top: u32,
    count: u32,
}

/// Whether an event moves buffers of a lane.
fn moves_on(lane: Lane, event: &Event) -> bool
    ensures { result ≡ is_on lane event.now }
{
    match event.what {
        What::Put { peer } => event.domain == lane.sender && peer == lane.receiver,
        What::Back { peer, .. } => event.domain == lane.sender && peer == lane.receiver,
        What::Take { peer } => peer == lane.sender && event.domain == lane.receiver,
        What::Give { peer, .. } => peer == lane.sender && event.domain == lane.receiver,
        _ => false,
    }
}

/// Whether an event moves buffers of a lane, among these.
fn is_used(lane: Lane, events: &[Event]) -> bool
    ensures { result ≡ false → lines_of_lane lane events.now ≡ [] }
{
    for event in events {
        if moves_on(lane, event) {
            return true;
        }
    }
    false
}

impl Band {
    /// How far to the right an event stands, by its place in the order.
    fn x_of(&self, place: u32) -> u32 {
        let count = u64::from(self.count.max(1));
        let right = u64::from(place) * u64::from(WIDE) / count;
        LEFT + right.min(u64::from(WIDE)) as u32
    }
}

/// How high so many buffers of a lane are drawn.
fn height_of(count: u32, size: u32) -> u32
    ensures { result ≤ 62 }
{
    let high = u64::from(count) * u64::from(HIGH) / u64::from(size.max(1));
    high.min(u64::from(HIGH)) as u32
}

/// A part of a band, from one event to the next.
#[derive(Clone, Copy)]
struct Span {
    top: u32,
    from: u32,
    to: u32,
    size: u32,
}

impl Span {
    /// What lies above so many buffers, and below so many in all.
    fn area(&self, below: u32, count: u32) -> Area {
        let low = height_of(below, self.size);
        let high = height_of(below.saturating_add(count), self.size);
        Area {
            x: self.from,
            y: self.top.saturating_add(HIGH - high),
            width: self.to.saturating_sub(self.from),
            height: high.saturating_sub(low),
        }
    }
}

/// Puts a part of a stack, if it is not empty.
fn put_part<K: Sink>(out: &mut Writer<'_, K>, look: Look, area: Area)
    ensures { PutsElements K.Sink out.old out.new [] }
{
    if area.width > 0 && area.height > 0 {
        put_rect(out, look, None, area);
    }
}

/// Puts where the buffers of a lane are from one event to the next: those that are held lie lowest, and those that are free highest.
fn put_span<K: Sink>(out: &mut Writer<'_, K>, span: Span, buffers: &Buffers)
    ensures { PutsElements K.Sink out.old out.new [] }
{
    let on_way = buffers.held;
    let returned = on_way.saturating_add(buffers.on_way);
    let free = returned.saturating_add(buffers.returned);
    put_part(out, Look::Held, span.area(0, buffers.held));
    put_part(out, Look::OnWay, span.area(on_way, buffers.on_way));
    put_part(out, Look::Returned, span.area(returned, buffers.returned));
    put_part(out, Look::Free, span.area(free, buffers.free));
}

/// Puts the mark of an event under its band.
fn put_tick<K: Sink>(out: &mut Writer<'_, K>, band: Band, x: u32, line: u32)
    ensures { PutsElements K.Sink out.old out.new (line ∷ []) }
{
    let low = band.top.saturating_add(HIGH);
    let end = low.saturating_add(4);
    put_line(
        out,
        Look::Life,
        Some(line),
        Point { x, y: low },
        Point { x, y: end },
    );
}

/// A lane up to some event: where its buffers are, and where the last span ends.
#[derive(Clone, Copy)]
struct Course {
    buffers: Buffers,
    from: u32,
}

/// Puts a dot above the band where its sender is refused for want of a buffer.
fn put_refusal<K: Sink>(
    out: &mut Writer<'_, K>,
    subject: Subject<'_>,
    band: Band,
    event: &Event,
    at: Point,
)
    ensures { PutsElements K.Sink out.old out.new [] }
{
    let tries = matches!(event.what, What::Again | What::Answer { .. });
    if tries && event.domain == band.lane.sender {
        if last_word(subject.text_of(event)) == b"no_buffer".as_slice() {
            put_circle(out, Look::Alarm, None, at, 3);
        }
    }
}

/// Puts what an event changes on a lane: the span before it and its mark. Another event is not drawn, but for a refusal where no buffer is free.
fn put_event<K: Sink>(
    out: &mut Writer<'_, K>,
    subject: Subject<'_>,
    band: Band,
    course: &mut Course,
    event: &Event,
    place: u32,
)
    ensures { PutsElements K.Sink out.old out.new (line_on band.lane event.now) }
{
    let x = band.x_of(place);
    if moves_on(band.lane, event) {
        put_span(out, band.span(course, x), &course.buffers);
        put_tick(out, band, x, event.line);
        course.buffers = course.buffers.after(event.what);
        course.from = x;
    } else if course.buffers.free == 0 {
        let y = band.top.saturating_sub(5);
        put_refusal(out, subject, band, event, Point { x, y });
    }
}

impl Band {
    /// The span from the last event of a lane to a place.
    fn span(&self, course: &Course, to: u32) -> Span {
        Span {
            top: self.top,
            from: course.from,
            to,
            size: course.buffers.size,
        }
    }
}

/// Puts the name of a lane to the left of its band.
fn put_name<K: Sink>(out: &mut Writer<'_, K>, band: Band, size: u32)
    ensures { PutsElements K.Sink out.old out.new [] }
{
    let mut name = Caption::new();
    name.add_number(u64::from(band.lane.sender));
    name.add(b" -> ");
    name.add_number(u64::from(band.lane.receiver));
    let x = LEFT - 10;
    let y = band.top.saturating_add(28);
    put_text(out, Look::Right, None, Point { x, y }, name.as_slice());
    let mut buffers = Caption::new();
    buffers.add_number(u64::from(size));
    buffers.add(b" buffers");
    let y = band.top.saturating_add(42);
    put_text(
        out,
        Look::RightNote,
        None,
        Point { x, y },
        buffers.as_slice(),
    );
}

/// Puts a number with its word to the right of a band.
fn put_end_number<K: Sink>(out: &mut Writer<'_, K>, y: u32, word: &[u8], count: u32)
    ensures { PutsElements K.Sink out.old out.new [] }
{
    let mut text = Caption::new();
    text.add(word);
    text.add(b" ");
    text.add_number(u64::from(count));
    let x = LEFT + WIDE + 8;
    put_text(out, Look::Plain, None, Point { x, y }, text.as_slice());
}

/// Puts where the buffers of a lane are at the end, to the right of its band. Those that were given back count as free, as in the report.
fn put_ends<K: Sink>(out: &mut Writer<'_, K>, band: Band, buffers: &Buffers)
    ensures { PutsElements K.Sink out.old out.new [] }
{
    let free = buffers.free.saturating_add(buffers.returned);
    put_end_number(out, band.top.saturating_add(20), b"free", free);
    put_end_number(
        out,
        band.top.saturating_add(34),
        b"on the way",
        buffers.on_way,
    );
    put_end_number(out, band.top.saturating_add(48), b"held", buffers.held);
}

/// Puts the course of a lane from its first event to its last.
fn put_course<K: Sink>(
    out: &mut Writer<'_, K>,
    subject: Subject<'_>,
    band: Band,
    course: &mut Course,
)
    ensures { PutsElements K.Sink out.old out.new (lines_of_lane band.lane subject.entry.events.now) }
{
    let mut place: u32 = 0;
    for event in subject.events {
        put_event(out, subject, band, course, event, place);
        place = place.saturating_add(1);
    }
}

/// Puts a lane: its name, its band, and where its buffers are at the end.
fn put_band<K: Sink>(out: &mut Writer<'_, K>, subject: Subject<'_>, band: Band, size: u32)
    ensures { PutsElements K.Sink out.old out.new (lines_of_lane band.lane subject.entry.events.now) }
{
    let mut course = Course {
        buffers: Buffers::new(size),
        from: LEFT,
    };
    put_name(out, band, size);
    put_course(out, subject, band, &mut course);
    put_span(out, band.span(&course, LEFT + WIDE), &course.buffers);
    let area = Area {
        x: LEFT,
        y: band.top,
        width: WIDE,
        height: HIGH,
    };
    put_rect(out, Look::Frame, None, area);
    put_ends(out, band, &course.buffers);
}

/// Puts a lane, if an event moves its buffers. Returns the top of the next band.
fn put_lane<K: Sink>(out: &mut Writer<'_, K>, subject: Subject<'_>, lane: Lane, top: u32) -> u32
    ensures { PutsElements K.Sink out.old out.new (lines_of_lane lane subject.entry.events.now) }
{
    if !is_used(lane, subject.events) {
        return top;
    }
    let band = Band {
        lane,
        top,
        count: u32::try_from(subject.events.len()).unwrap_or(u32::MAX),
    };
    let size = subject.lanes.on(lane).size;
    put_band(out, subject, band, size);
    top.saturating_add(NEXT)
}

/// Puts the lanes from a sender. Returns the top of the next band.
fn put_sender<K: Sink>(out: &mut Writer<'_, K>, subject: Subject<'_>, sender: u8, top: u32) -> u32
    ensures { PutsElements K.Sink out.old out.new (lines_of_sender subject.entry.events.now sender 8) }
{
    let mut next = top;
    for receiver in 0..8 {
        next = put_lane(out, subject, Lane { sender, receiver }, next);
    }
    next
}

/// Puts the lanes that are used.
fn put_all<K: Sink>(out: &mut Writer<'_, K>, subject: Subject<'_>)
    ensures { PutsElements K.Sink out.old out.new (lines_of_lanes subject.entry.events.now 8) }
{
    let mut top = TOP;
    for sender in 0..8 {
        top = put_sender(out, subject, sender, top);
    }
}

/// Counts the lanes that are used.
fn count_used(events: &[Event]) -> u32 {
    let mut count: u32 = 0;
    for sender in 0..8 {
        for receiver in 0..8 {
            if is_used(Lane { sender, receiver }, events) {
                count = count.saturating_add(1);
            }
        }
    }
    count
}

/// Puts a colour with what it stands for.
fn put_colour<K: Sink>(out: &mut Writer<'_, K>, look: Look, x: u32, words: &[u8])
    ensures { PutsElements K.Sink out.old out.new [] }
{
    let area = Area {
        x,
        y: 34,
        width: 12,
        height: 12,
    };
    put_rect(out, look, None, area);
    let x = x.saturating_add(17);
    put_text(out, Look::Plain, None, Point { x, y: 44 }, words);
}

/// Puts what stands above the bands.
fn put_heading<K: Sink>(out: &mut Writer<'_, K>)
    ensures { PutsElements K.Sink out.old out.new [] }
{
    let at = Point { x: 12, y: 20 };
    put_text(
        out,
        Look::Title,
        None,
        at,
        b"Where the buffers of each lane are, over the order of events",
    );
    put_colour(out, Look::Free, 12, b"free");
    put_colour(out, Look::Returned, 80, b"given back, not yet seen");
    put_colour(out, Look::OnWay, 270, b"on the way");
    put_colour(out, Look::Held, 376, b"held by the receiver");
    put_circle(out, Look::Alarm, None, Point { x: 550, y: 40 }, 3);
    put_text(
        out,
        Look::Plain,
        None,
        Point { x: 560, y: 44 },
        b"no_buffer",
    );
}

/// Puts a report as a chart of its lanes in SVG: for each lane on which something happens a band that shows where its buffers are, free, on the way,
/// held by the receiver, or given back and not yet seen, over the order of events, and the numbers at the end. Each event that moves buffers has a
/// mark that names its line of the report.
pub fn put_lanes<K: Sink>(out: &mut Writer<'_, K>, subject: Subject<'_>)
    ensures { PutsPicture K.Sink out.old out.new (lines_of_lanes subject.entry.events.now 8) }
{
    let bands = count_used(subject.events).saturating_mul(NEXT);
    let width = LEFT + WIDE + 130;
    let height = bands.saturating_add(TOP);
    put_head(out, width, height);
    put_page(out, width, height);
    put_heading(out);
    put_all(out, subject);
    put_end(out);
}

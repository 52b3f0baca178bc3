//! The marks and words of a sequence diagram, and the diagram whole.
#![tactic(auto, using(picture_text::proofs::PieceSteps::piece_steps))]

ghost use Rattle.std.specs.Prelude.{◌≡◌, ◌≤◌, ◌∷◌, [], length};
ghost use Rattle.report_text.specs.Texts.{longest_line};
ghost use Rattle.picture_text.specs.Markup.{PutsElements};
ghost use Rattle.report_pictures.specs.Pictures.{PutsPicture};
ghost use Rattle.report_sequence.specs.Shown.{line_drawn, lines_drawn};

use crate::frames::{At, put_arrow_of, put_bar_of};
use crate::plan::{Plan, Row};
use crate::sheet::{Sheet, put_domains, put_heading};
use crate::turns::turns_of_wait;
use event_order::{Event, What};
use mc_journal::Entry;
use outer_io::{Sink, Writer};
use picture_text::{Look, put_end, put_head};
use report_pictures::{
    Caption, FrameKind, Point, Subject, entry_in, frame_in, number_in, put_circle, put_page,
    put_text,
};
use report_view::{answer_in, last_word};

/// The look of the words of a frame.
fn words_look(kind: FrameKind) -> Look {
    match kind {
        FrameKind::Data => Look::DataWords,
        FrameKind::Control => Look::ControlWords,
        FrameKind::Name => Look::NameWords,
        FrameKind::Fault => Look::Alarm,
    }
}

/// The look of the end of an arrow.
fn end_look(kind: FrameKind) -> Look {
    match kind {
        FrameKind::Data => Look::Data,
        FrameKind::Control => Look::Control,
        FrameKind::Name => Look::Name,
        FrameKind::Fault => Look::Fault,
    }
}

/// Where an event is marked.
fn point_of(sheet: &Sheet<'_>, at: At) -> Point {
    Point {
        x: sheet.x_of(at.domain),
        y: sheet.y_of(at.row),
    }
}

/// Puts words beside a mark.
fn put_words<K: Sink>(out: &mut Writer<'_, K>, look: Look, at: Point, words: &[u8])
    ensures { PutsElements K.Sink out.old out.new [] }
{
    let beside = Point {
        x: at.x.saturating_add(12),
        y: at.y.saturating_add(4),
    };
    put_text(out, look, None, beside, words);
}

/// Puts the mark of a put, with what the frame says where no call says it.
fn put_put<K: Sink>(out: &mut Writer<'_, K>, sheet: &Sheet<'_>, at: At, event: &Event, frame: &[u8])
    ensures { PutsElements K.Sink out.old out.new (event.now.line ∷ []) }
{
    let point = point_of(sheet, at);
    put_circle(out, end_look(at.row.kind), Some(event.line), point, 2);
    if at.row.has_words {
        let mut words = Caption::limited(50);
        words.add_frame(frame);
        put_words(out, words_look(at.row.kind), point, words.as_slice());
    }
}

/// Whether a frame of this fate came in as it should.
fn is_well(fate: &[u8]) -> bool {
    fate == b"queued".as_slice()
        || fate == b"handed".as_slice()
        || fate == b"acted".as_slice()
        || fate == b"owed".as_slice()
        || fate == b"part".as_slice()
}

/// Puts the mark of a take, with what became of the frame where that is nothing good.
fn put_take<K: Sink>(out: &mut Writer<'_, K>, sheet: &Sheet<'_>, at: At, event: &Event, fate: &[u8])
    ensures { PutsElements K.Sink out.old out.new (event.now.line ∷ []) }
{
    let point = point_of(sheet, at);
    put_circle(out, end_look(at.row.kind), Some(event.line), point, 2);
    if !is_well(fate) {
        let mut words = Caption::limited(50);
        words.add(b"frame: ");
        words.add(fate);
        put_words(out, Look::Alarm, point, words.as_slice());
    }
}

/// Puts that a wait begins, and how many turns it makes.
fn put_wait<K: Sink>(out: &mut Writer<'_, K>, sheet: &Sheet<'_>, at: At, event: &Event, turns: u64)
    ensures { PutsElements K.Sink out.old out.new (event.now.line ∷ []) }
{
    let point = point_of(sheet, at);
    let mut words = Caption::limited(50);
    words.add(b"waits: ");
    words.add_number(turns);
    words.add(b" turns");
    let beside = Point {
        x: point.x.saturating_add(12),
        y: point.y.saturating_add(4),
    };
    put_text(
        out,
        Look::WaitWords,
        Some(event.line),
        beside,
        words.as_slice(),
    );
}

/// How often a call was made again by the line at the front of a text.
fn times_in(text: &[u8], room: &mut [u8]) -> u64
    requires { longest_line text.now ≤ length room.old }
{
    match entry_in(text, room) {
        Some(Entry::Spin { times, .. }) => times,
        _ => 1,
    }
}

/// Puts that a call is made again, which was refused with a word so many times.
fn put_again<K: Sink>(
    out: &mut Writer<'_, K>,
    sheet: &Sheet<'_>,
    at: At,
    event: &Event,
    word: &[u8],
    times: u64,
)
    ensures { PutsElements K.Sink out.old out.new (event.now.line ∷ []) }
{
    let point = point_of(sheet, at);
    put_circle(out, Look::Again, Some(event.line), point, 2);
    let mut words = Caption::limited(50);
    words.add(b"again: ");
    words.add(word);
    if times > 1 {
        words.add(b" x ");
        words.add_number(times);
    }
    put_words(out, Look::Again, point, words.as_slice());
}

/// The words of a call with its answer.
fn call_words(line: &[u8], answer: &[u8]) -> Caption {
    let mut words = Caption::limited(34);
    words.add(line);
    words.widen(50);
    words.add(b" -> ");
    words.add(answer);
    words
}

/// Puts a call with its answer.
fn put_call<K: Sink>(
    out: &mut Writer<'_, K>,
    sheet: &Sheet<'_>,
    at: At,
    event: &Event,
    words: &[u8],
    refused: bool,
)
    ensures { PutsElements K.Sink out.old out.new (event.now.line ∷ []) }
{
    let point = point_of(sheet, at);
    let look = if refused { Look::Refused } else { Look::Done };
    put_circle(out, look, Some(event.line), point, 4);
    put_words(out, look, point, words);
}

/// Puts the mark of an event with its words.
fn put_event<K: Sink>(
    out: &mut Writer<'_, K>,
    sheet: &Sheet<'_>,
    at: At,
    event: &Event,
    room: &mut [u8],
)
    requires { longest_line sheet.now.subject.report.now ≤ length room.old }
    ensures { PutsElements K.Sink out.old out.new (line_drawn event.now) }
{
    let text = sheet.subject.text_of(event);
    match event.what {
        What::Put { .. } => put_put(out, sheet, at, event, frame_in(text, room)),
        What::Take { .. } => put_take(out, sheet, at, event, last_word(text)),
        What::Wait { .. } => put_wait(out, sheet, at, event, turns_of_wait(text, room)),
        What::Again => put_again(out, sheet, at, event, last_word(text), times_in(text, room)),
        What::Answer { refused, .. } => {
            let line = sheet
                .subject
                .script_line(event.domain, number_in(text, room));
            let words = call_words(line.text, answer_in(text));
            put_call(out, sheet, at, event, words.as_slice(), refused);
        }
        What::Give { .. } | What::Back { .. } => (),
    }
}

/// Where an event of a plan stands, by its place in the plan.
fn at_place(sheet: &Sheet<'_>, place: u32, event: &Event) -> At {
    let above = Row {
        row: 0,
        kind: FrameKind::Data,
        has_words: false,
        of_call: false,
    };
    let rows = &sheet.plan.rows;
    At {
        place: sheet.plan.from.saturating_add(place),
        domain: event.domain,
        row: rows.get(place as usize).copied().unwrap_or(above),
    }
}

/// Puts the bars of waits and the arrows of frames, which lie under all words.
fn put_under<K: Sink>(out: &mut Writer<'_, K>, sheet: &Sheet<'_>)
    ensures { PutsElements K.Sink out.old out.new [] }
{
    let mut place: u32 = 0;
    for event in sheet.plan.events {
        let at = at_place(sheet, place, event);
        put_bar_of(out, sheet, at, event);
        put_arrow_of(out, sheet, at, event);
        place = place.saturating_add(1);
    }
}

/// Puts the marks of the events of a plan, with their words.
fn put_events<K: Sink>(out: &mut Writer<'_, K>, sheet: &Sheet<'_>, room: &mut [u8])
    requires { longest_line sheet.now.subject.report.now ≤ length room.old }
    ensures { PutsElements K.Sink out.old out.new (lines_drawn sheet.now.plan.now.events.now) }
{
    let mut place: u32 = 0;
    for event in sheet.plan.events {
        let at = at_place(sheet, place, event);
        put_event(out, sheet, at, event, room);
        place = place.saturating_add(1);
    }
}

/// Puts the sequence diagram of a plan in SVG: a line for each domain, on it from above to below its calls with their answers, refusals in red, its waits
/// as bars, and the frames that it puts and takes; and an arrow for each frame, by its kind, dashed to an open circle where it is never
/// taken. Each event but buffers that are given back or come back has a mark that names its line of the report. `room` is as long as the longest
/// line of the report.
pub fn put_sequence<K: Sink>(
    out: &mut Writer<'_, K>,
    subject: Subject<'_>,
    plan: &Plan<'_>,
    room: &mut [u8],
)
    requires { longest_line subject.report.now ≤ length room.old }
    ensures { PutsPicture K.Sink out.old out.new (lines_drawn plan.now.events.now) }
{
    let sheet = Sheet::new(subject, plan);
    let (width, height) = (sheet.width(), sheet.height());
    put_head(out, width, height);
    put_page(out, width, height);
    put_heading(out, &sheet);
    put_domains(out, &sheet);
    put_under(out, &sheet);
    put_events(out, &sheet, room);
    put_end(out);
}

//! The arrows of frames, and the bars of waits.
#![tactic(auto, using(picture_text::proofs::PieceSteps::piece_steps))]

ghost use Rattle.std.specs.Prelude.{◌≡◌, []};
ghost use Rattle.picture_text.specs.Markup.{PutsElements};

use crate::plan::Row;
use crate::sheet::Sheet;
use event_order::{Event, What};
use outer_io::{Sink, Writer};
use picture_text::Look;
use report_pictures::{Area, FrameKind, Point, put_circle, put_line, put_rect};

/// The look of the arrow of a frame that is taken.
fn arrow_look(kind: FrameKind) -> Look {
    match kind {
        FrameKind::Data => Look::Data,
        FrameKind::Control => Look::Control,
        FrameKind::Name => Look::Name,
        FrameKind::Fault => Look::Fault,
    }
}

/// The look of the arrow of a frame that is never taken.
fn lost_look(kind: FrameKind) -> Look {
    match kind {
        FrameKind::Data => Look::DataLost,
        FrameKind::Control => Look::ControlLost,
        FrameKind::Name => Look::NameLost,
        FrameKind::Fault => Look::FaultLost,
    }
}

/// Puts the head of an arrow that comes from a point.
fn put_head_of<K: Sink>(out: &mut Writer<'_, K>, look: Look, from: Point, to: Point)
    ensures { PutsElements K.Sink out.old out.new [] }
{
    let x = if from.x < to.x {
        to.x.saturating_sub(8)
    } else {
        to.x.saturating_add(8)
    };
    let above = to.y.saturating_sub(4);
    let below = to.y.saturating_add(4);
    put_line(out, look, None, Point { x, y: above }, to);
    put_line(out, look, None, Point { x, y: below }, to);
}

/// Puts the arrow of a frame from a domain to another.
fn put_straight<K: Sink>(out: &mut Writer<'_, K>, look: Look, from: Point, to: Point)
    ensures { PutsElements K.Sink out.old out.new [] }
{
    put_line(out, look, None, from, to);
    put_head_of(out, look, from, to);
}

/// Puts the arrow of a frame from a domain to itself, which turns back on the left of its line.
fn put_turned<K: Sink>(out: &mut Writer<'_, K>, look: Look, from: Point, to: Point)
    ensures { PutsElements K.Sink out.old out.new [] }
{
    let turn = Point {
        x: from.x.saturating_sub(24),
        y: from.y.saturating_add(to.y) / 2,
    };
    put_line(out, look, None, from, turn);
    put_line(out, look, None, turn, to);
    put_head_of(out, look, turn, to);
}

fn put_arrow<K: Sink>(out: &mut Writer<'_, K>, look: Look, from: Point, to: Point)
    ensures { PutsElements K.Sink out.old out.new [] }
{
    if from.x == to.x {
        put_turned(out, look, from, to);
    } else {
        put_straight(out, look, from, to);
    }
}

/// Puts the arrow of a frame that is never taken: it is dashed, and ends half way in an open circle.
fn put_lost<K: Sink>(out: &mut Writer<'_, K>, look: Look, from: Point, to: u32)
    ensures { PutsElements K.Sink out.old out.new [] }
{
    let middle = if from.x == to {
        from.x.saturating_sub(24)
    } else {
        from.x.saturating_add(to) / 2
    };
    let end = Point {
        x: middle,
        y: from.y.saturating_add(12),
    };
    put_line(out, look, None, from, end);
    put_circle(out, look, None, end, 4);
}

/// Puts the arrow of a put, if its frame is never taken.
fn put_of_put<K: Sink>(out: &mut Writer<'_, K>, sheet: &Sheet<'_>, at: At, peer: u8)
    ensures { PutsElements K.Sink out.old out.new [] }
{
    if sheet.plan.pairs.other(at.place).is_none() {
        let from = Point {
            x: sheet.x_of(at.domain),
            y: sheet.y_of(at.row),
        };
        put_lost(out, lost_look(at.row.kind), from, sheet.x_of(peer));
    }
}

/// Puts the arrow of a take.
fn put_of_take<K: Sink>(out: &mut Writer<'_, K>, sheet: &Sheet<'_>, at: At, peer: u8)
    ensures { PutsElements K.Sink out.old out.new [] }
{
    if let Some(put) = sheet.plan.pairs.other(at.place) {
        let from = Point {
            x: sheet.x_of(peer),
            y: sheet.y_at(put),
        };
        let to = Point {
            x: sheet.x_of(at.domain),
            y: sheet.y_of(at.row).max(from.y),
        };
        put_arrow(out, arrow_look(at.row.kind), from, to);
    }
}

/// Where an event stands: its place in the order of all events, its domain, and its row.
#[derive(Clone, Copy)]
pub struct At {
    pub place: u32,
    pub domain: u8,
    pub row: Row,
}

/// Puts the arrow that ends with an event, or that of a frame which is never taken.
pub fn put_arrow_of<K: Sink>(out: &mut Writer<'_, K>, sheet: &Sheet<'_>, at: At, event: &Event)
    ensures { PutsElements K.Sink out.old out.new [] }
{
    match event.what {
        What::Put { peer } => put_of_put(out, sheet, at, peer),
        What::Take { peer } => put_of_take(out, sheet, at, peer),
        _ => (),
    }
}

/// Puts the bar of a wait, from where it begins to where its call is answered.
pub fn put_bar_of<K: Sink>(out: &mut Writer<'_, K>, sheet: &Sheet<'_>, at: At, event: &Event)
    ensures { PutsElements K.Sink out.old out.new [] }
{
    if matches!(event.what, What::Wait { .. }) {
        let end = match sheet.plan.pairs.other(at.place) {
            Some(answer) => sheet.y_at(answer),
            None => sheet.bottom(),
        };
        let begin = sheet.y_of(at.row);
        let area = Area {
            x: sheet.x_of(at.domain).saturating_sub(5),
            y: begin.saturating_sub(7),
            width: 10,
            height: end.saturating_sub(begin).saturating_add(14),
        };
        put_rect(out, bar_look(sheet, at), None, area);
    }
}

/// The look of the bar of a wait, by whether its call was refused.
fn bar_look(sheet: &Sheet<'_>, at: At) -> Look {
    let Some(answer) = sheet.plan.pairs.other(at.place) else {
        return Look::Wait;
    };
    match sheet.subject.events.get(answer as usize) {
        Some(event) if matches!(event.what, What::Answer { refused: true, .. }) => Look::WaitEnded,
        _ => Look::Wait,
    }
}

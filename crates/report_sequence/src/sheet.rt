//! Where the domains and the rows of a sequence diagram lie.
#![tactic(auto, using(picture_text::proofs::PieceSteps::piece_steps))]

ghost use Rattle.std.specs.Prelude.{◌≡◌, []};
ghost use Rattle.picture_text.specs.Markup.{PutsElements};

use crate::plan::{Plan, Row};
use outer_io::{Sink, Writer};
use picture_text::Look;
use report_pictures::{Area, Caption, Point, Subject, put_line, put_rect, put_text};

/// How high a row is, how far the lines of domains are apart, where the first one is, and where the rows begin.
const ROW: u32 = 21;

const APART: u32 = 330;

const FIRST: u32 = 60;

const TOP: u32 = 100;

/// How far below the row of its answer the put of a call is drawn.
const BELOW: u32 = 7;

/// A plan with the places of its domains.
#[derive(Clone, Copy)]
pub struct Sheet<'a> {
    pub subject: Subject<'a>,
    pub plan: &'a Plan<'a>,
    places: [u32; 8],
}

impl<'a> Sheet<'a> {
    /// Places the domains side by side.
    pub fn new(subject: Subject<'a>, plan: &'a Plan<'a>) -> Sheet<'a>
        ensures plan { result.plan.now ≡ plan.now }
        ensures subject { result.subject ≡ subject.entry }
    {
        let mut places = [FIRST; 8];
        let mut next = FIRST;
        for domain in &subject.view.domains {
            places[usize::from(domain.journal.domain % 8)] = next;
            next = next.saturating_add(APART);
        }
        Sheet {
            subject,
            plan,
            places,
        }
    }

    pub fn width(&self) -> u32 {
        let domains = u32::try_from(self.subject.view.domains.len()).unwrap_or(8);
        FIRST.saturating_add(domains.saturating_mul(APART))
    }

    pub fn height(&self) -> u32 {
        self.bottom().saturating_add(40)
    }

    /// Where the lines of domains end.
    pub fn bottom(&self) -> u32 {
        TOP.saturating_add(self.plan.height.saturating_mul(ROW))
    }

    /// Where the line of a domain is.
    pub fn x_of(&self, domain: u8) -> u32 {
        self.places[usize::from(domain % 8)]
    }

    /// Where an event is drawn.
    pub fn y_of(&self, row: Row) -> u32 {
        let below = if row.of_call { BELOW } else { 0 };
        TOP.saturating_add(row.row.saturating_mul(ROW))
            .saturating_add(below)
    }

    /// Where the event at a place in the order of all events is drawn: above the rows or below them, where it is none of the plan.
    pub fn y_at(&self, place: u32) -> u32 {
        if place < self.plan.from {
            return TOP - 20;
        }
        match self.plan.rows.get((place - self.plan.from) as usize) {
            Some(row) => self.y_of(*row),
            None => self.bottom(),
        }
    }
}

/// Puts the line of a domain, with its name above.
fn put_domain<K: Sink>(out: &mut Writer<'_, K>, sheet: &Sheet<'_>, domain: u8)
    ensures { PutsElements K.Sink out.old out.new [] }
{
    let x = sheet.x_of(domain);
    let y = sheet.bottom();
    put_line(out, Look::Life, None, Point { x, y: 76 }, Point { x, y });
    let area = Area {
        x: x.saturating_sub(40),
        y: 50,
        width: 80,
        height: 26,
    };
    put_rect(out, Look::Box, None, area);
    let mut name = Caption::new();
    name.add(b"domain ");
    name.add_number(u64::from(domain));
    let x = x.saturating_sub(26);
    put_text(out, Look::Plain, None, Point { x, y: 67 }, name.as_slice());
}

/// Puts the lines of all domains.
pub fn put_domains<K: Sink>(out: &mut Writer<'_, K>, sheet: &Sheet<'_>)
    ensures { PutsElements K.Sink out.old out.new [] }
{
    for domain in &sheet.subject.view.domains {
        put_domain(out, sheet, domain.journal.domain);
    }
}

/// Puts which events are shown.
fn put_range<K: Sink>(out: &mut Writer<'_, K>, sheet: &Sheet<'_>)
    ensures { PutsElements K.Sink out.old out.new [] }
{
    let from = u64::from(sheet.plan.from);
    let mut range = Caption::new();
    range.add(b"Events ");
    range.add_number(from.saturating_add(1));
    range.add(b" to ");
    range.add_number(from.saturating_add(sheet.plan.events.len() as u64));
    range.add(b" of ");
    range.add_number(sheet.subject.events.len() as u64);
    put_text(
        out,
        Look::Title,
        None,
        Point { x: 12, y: 20 },
        range.as_slice(),
    );
}

/// Puts what stands above the lines of domains.
pub fn put_heading<K: Sink>(out: &mut Writer<'_, K>, sheet: &Sheet<'_>)
    ensures { PutsElements K.Sink out.old out.new [] }
{
    put_range(out, sheet);
    let note: &[u8] = if sheet.plan.folds {
        b"Announcements are drawn without words."
    } else {
        b"What was caused stands below its cause."
    };
    put_text(out, Look::Note, None, Point { x: 12, y: 38 }, note);
}

//! The lines of a report beside those of its scenario and its journals.

ghost use Rattle.std.specs.Prelude.{◌≡◌, ◌+◌, ◌<◌, ◌^◌, IfOk, length};
ghost use Rattle.report_text.specs.ReportLines.{channel_form, ending_form, exactly as this_number, heading_form, journal_form, lane_form, messages_form, ring_form};
ghost use Rattle.board_model.specs.Report.{serial, threads};
ghost use Rattle.report_text.specs.TextPass.{heading_from, one_line};
ghost use Rattle.report_text.specs.Texts.{IsPast, IsRead, form_word, heading_seen, rest_of, seen};

use crate::lines::Unread;
use crate::mode::Mode;
use crate::pieces::{Piece, read_line};
use board_model::LinkLine;

const SMALL: Piece = Piece::Number {
    least: 0,
    most: 255,
};

const COUNT: Piece = Piece::Number {
    least: 0,
    most: 4_294_967_295,
};

const LONG: Piece = Piece::Number {
    least: 0,
    most: 18_446_744_073_709_551_615,
};

/// The number of a domain or a queue.
fn exactly(number: u8) -> Piece
    ensures { form_word result ≡ this_number number }
{
    Piece::Number {
        least: number as u64,
        most: number as u64,
    }
}

/// Reads the heading of a report, of a run in either mode.
pub fn read_heading(unread: Unread<'_>) -> Result<(Mode, Unread<'_>), u32>
    requires few { unread.number + length unread.text.now < 2 ^ 32 }
    ensures value { heading_seen result ≡ heading_from (rest_of unread.entry) }
    ensures past { IfOk result (λ x. IsPast unread.entry x.1) }
{
    match read_serial_heading(unread) {
        Ok(behind) => Ok((Mode::Serial, behind)),
        Err(_) => Ok((Mode::Threads, read_threads_heading(unread)?)),
    }
}

fn read_serial_heading(unread: Unread<'_>) -> Result<Unread<'_>, u32>
    requires few { unread.number + length unread.text.now < 2 ^ 32 }
    ensures value { seen result ≡ one_line (heading_form serial) (rest_of unread.entry) }
    ensures past { IsRead unread.entry result }
{
    let form = [
        Piece::Word(b"mcapi-report"),
        exactly(1),
        Piece::Word(b"serial"),
    ];
    read_line(&form, unread)
}

fn read_threads_heading(unread: Unread<'_>) -> Result<Unread<'_>, u32>
    requires few { unread.number + length unread.text.now < 2 ^ 32 }
    ensures value { seen result ≡ one_line (heading_form threads) (rest_of unread.entry) }
    ensures past { IsRead unread.entry result }
{
    let form = [
        Piece::Word(b"mcapi-report"),
        exactly(1),
        Piece::Word(b"threads"),
    ];
    read_line(&form, unread)
}

/// Reads the heading of a domain's journal.
pub fn read_journal_heading(domain: u8, unread: Unread<'_>) -> Result<Unread<'_>, u32>
    requires few { unread.number + length unread.text.now < 2 ^ 32 }
    ensures value { seen result ≡ one_line (journal_form domain) (rest_of unread.entry) }
    ensures past { IsRead unread.entry result }
{
    read_line(&[Piece::Word(b"journal"), exactly(domain)], unread)
}

/// Reads the line of a channel.
pub fn read_channel(unread: Unread<'_>) -> Result<Unread<'_>, u32>
    requires few { unread.number + length unread.text.now < 2 ^ 32 }
    ensures value { seen result ≡ one_line channel_form (rest_of unread.entry) }
    ensures past { IsRead unread.entry result }
{
    let form = [
        Piece::Word(b"channel"),
        SMALL,
        COUNT,
        Piece::Word(b"accepted"),
        LONG,
        Piece::Word(b"taken"),
        LONG,
        Piece::Word(b"dropped"),
        LONG,
        Piece::Word(b"queued"),
        LONG,
        Piece::Word(b"ring"),
        LONG,
    ];
    read_line(&form, unread)
}

/// Reads the line of the messages.
pub fn read_messages(unread: Unread<'_>) -> Result<Unread<'_>, u32>
    requires few { unread.number + length unread.text.now < 2 ^ 32 }
    ensures value { seen result ≡ one_line messages_form (rest_of unread.entry) }
    ensures past { IsRead unread.entry result }
{
    let form = [
        Piece::Word(b"messages"),
        Piece::Word(b"accepted"),
        LONG,
        Piece::Word(b"taken"),
        LONG,
        Piece::Word(b"dropped"),
        LONG,
        Piece::Word(b"queued"),
        LONG,
        Piece::Word(b"ring"),
        LONG,
    ];
    read_line(&form, unread)
}

/// Reads the line of a lane.
pub fn read_lane(sender: u8, receiver: u8, unread: Unread<'_>) -> Result<Unread<'_>, u32>
    requires few { unread.number + length unread.text.now < 2 ^ 32 }
    ensures value { seen result ≡ one_line (lane_form sender receiver) (rest_of unread.entry) }
    ensures past { IsRead unread.entry result }
{
    let form = [
        Piece::Word(b"lane"),
        exactly(sender),
        exactly(receiver),
        Piece::Word(b"free"),
        COUNT,
        Piece::Word(b"ring"),
        COUNT,
        Piece::Word(b"queue"),
        COUNT,
        Piece::Word(b"lent"),
        COUNT,
    ];
    read_line(&form, unread)
}

/// Reads the line of a link's ring, by the number of its queue.
pub fn read_ring(link: LinkLine, queue: u8, unread: Unread<'_>) -> Result<Unread<'_>, u32>
    requires few { unread.number + length unread.text.now < 2 ^ 32 }
    ensures value { seen result ≡ one_line (ring_form link queue) (rest_of unread.entry) }
    ensures past { IsRead unread.entry result }
{
    let form = [
        Piece::Word(b"ring"),
        exactly(link.driver),
        exactly(link.device),
        exactly(queue),
        Piece::Bytes,
    ];
    read_line(&form, unread)
}

/// Reads the last line of a report.
pub fn read_ending(unread: Unread<'_>) -> Result<Unread<'_>, u32>
    requires few { unread.number + length unread.text.now < 2 ^ 32 }
    ensures value { seen result ≡ one_line ending_form (rest_of unread.entry) }
    ensures past { IsRead unread.entry result }
{
    read_line(&[Piece::Word(b"end")], unread)
}

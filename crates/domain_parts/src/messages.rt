//! Letters, and the content of messages, on their way into a buffer and out of one.

ghost use Rattle.std.specs.Prelude.{◌≡◌, ◌≤◌, ◌<◌, ◌++◌, min, length, take, drop};
ghost use Rattle.mc_base.specs.Frame.{made};
ghost use Rattle.mc_base.specs.Limits.{item_size};
ghost use Rattle.mc_base.specs.Letter.{FitsFrame, letter_text, saying_of};
ghost use Rattle.buffer_book.specs.Book.{IsQueued};
ghost use Rattle.domain_parts.specs.InBook.{content_in, whole_at};

use bridge_frame::write_letter;
use buffer_book::BufferBook;
use mc_base::{FRAME_HEADER_SIZE, Got, LETTER_HEADER_SIZE, Letter, Slot};
use rpmsg_frame::write_header;

/// Where the content lies in the buffer of a message.
pub const CONTENT: u32 = (FRAME_HEADER_SIZE + LETTER_HEADER_SIZE) as u32;

/// Where the bytes of a piece of an item lie in its buffer, behind how many come before them and how many the item has.
pub const PIECE: u32 = CONTENT + 4;

/// Writes the frame of a letter or of a part of one, and returns its length in bytes. The rest of `out` stays.
pub fn write(out: &mut [u8], source: u32, destination: u32, letter: &Letter<'_>) -> u32
    requires lawful { FitsFrame (saying_of letter.now) }
    requires short { length (letter_text letter.now) ≤ 496 }
    requires room { length out.old ≡ 512 }
    ensures frame { take result out.new ≡ made source destination (letter_text letter.now) }
    ensures some { 0 < result }
    ensures len { result ≤ 512 }
{
    let len = write_payload(out, letter);
    write_header(source, destination, len as u16, out);
    (FRAME_HEADER_SIZE + len) as u32
}

/// Writes a letter behind the header of its frame and returns the letter's length in bytes.
fn write_payload(out: &mut [u8], letter: &Letter<'_>) -> usize
    requires lawful { FitsFrame (saying_of letter.now) }
    requires room { length out.old ≡ 512 }
    ensures payload { let text = letter_text letter.now in drop 16 out.new ≡ text ++ drop (length text) (drop 16 out.old) }
    ensures len { result ≡ length (letter_text letter.now) }
{
    write_letter(letter, &mut out[FRAME_HEADER_SIZE..])
}

/// Gives the first bytes of an item in a queue, at most so many. There is room for them. The rest of `out` stays.
pub fn give(book: &BufferBook, slot: Slot, most: usize, out: &mut [u8]) -> Got
    requires queued { IsQueued book.now slot }
    requires short { length (content_in (whole_at book.now slot)) ≤ item_size }
    requires room { most ≤ length out.old }
    ensures size { result.size ≡ length (content_in (whole_at book.now slot)) }
    ensures given { result.given ≡ min most result.size }
    ensures bytes { take result.given out.new ≡ take most (content_in (whole_at book.now slot)) }
    ensures rest { drop result.given out.new ≡ drop result.given out.old }
{
    let mut size = 0;
    let mut given = 0;
    for n in 0..book.pieces(slot) {
        let piece = book.piece(slot, n);
        given += append(piece, &mut out[given..most]);
        size += piece.len();
    }
    Got {
        size: size as u32,
        given: given as u32,
    }
}

/// Copies the first bytes of a piece to the front of `out`, as many as fit, and returns how many. The rest of `out` stays.
fn append(piece: &[u8], out: &mut [u8]) -> usize
    ensures count { result ≡ min (length out.old) (length piece.now) }
    ensures bytes { take result out.new ≡ take (length out.old) piece.now }
    ensures rest { drop result out.new ≡ drop result out.old }
{
    let count = piece.len().min(out.len());
    out[..count].copy_from_slice(&piece[..count]);
    count
}

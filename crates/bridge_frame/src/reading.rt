ghost use Rattle.std.specs.Prelude.{◌≡◌, IfOk, IsOkAnd, MatchResult, None, Some};
ghost use Rattle.mc_base.specs.FaultRow.{first_fault};
ghost use Rattle.mc_base.specs.Letter.{IsSaying, Saying, fields, saying_of, version_1};
ghost use Rattle.mc_base.specs.LetterFaults.{letter_faults};
ghost use Rattle.bridge_frame.specs.Reading.{IsReading};

use crate::content::{bare, connect, message, packet, reject, scalar};
use crate::parts::{message_part, packet_part};
use crate::{MAGIC, PART_VERSION, VERSION};
use byteorder::{ByteOrder, LittleEndian};
use mc_base::{LETTER_HEADER_SIZE, Letter, LetterFault};

/// Reads the letter, or the part of one, in the payload of a frame to an endpoint. Bytes of a message or a packet are not copied.
///
/// # Errors
///
/// The first fault, in the order of `LetterFault`: fewer than 8 bytes, another first byte than 0x4d, another version than
/// 1 and 2, a kind that is none of 1 to 10, or in version 2 neither 1 nor 7, and then an argument, a channel or a length of the
/// content that the kind does not allow. A part has at least one byte, within a whole of at most 8,192.
pub fn read_letter(payload: &[u8]) -> Result<Letter<'_>, LetterFault>
    // What is read is what the payload says.
    ensures sound { IfOk result (λ l. IsSaying payload.now (saying_of l)) }
    // Whatever the payload says is read.
    ensures complete { (s : Saying) → IsSaying payload.now s → IsOkAnd result (λ r. saying_of r ≡ s) }
    // The fault is the first of the table, and there is none where a letter is read.
    ensures fault { MatchResult result
        (λ l. first_fault (letter_faults payload.now) ≡ None)
        (λ e. first_fault (letter_faults payload.now) ≡ Some e) }
{
    if payload.len() < LETTER_HEADER_SIZE {
        return Err(LetterFault::PayloadShort);
    }
    if payload[0] != MAGIC {
        return Err(LetterFault::Magic);
    }
    let channel = LittleEndian::read_u32(&payload[4..]);
    let (_, content) = payload.split_at(LETTER_HEADER_SIZE);
    match payload[1] {
        VERSION => letter_of(payload[2], payload[3], channel, content),
        PART_VERSION => part_of(payload[2], payload[3], channel, content),
        _ => Err(LetterFault::Version),
    }
}

/// The part of a letter of these fields.
fn part_of(kind: u8, argument: u8, channel: u32, content: &[u8]) -> Result<Letter<'_>, LetterFault>
    ensures { IsReading (fields 2 kind argument channel content.now) result }
{
    match kind {
        1 => message_part(argument, channel, content),
        7 => packet_part(argument, channel, content),
        _ => Err(LetterFault::Kind),
    }
}

/// The letter of these fields.
fn letter_of(
    kind: u8,
    argument: u8,
    channel: u32,
    content: &[u8],
) -> Result<Letter<'_>, LetterFault>
    ensures { IsReading (version_1 kind argument channel content.now) result }
{
    match kind {
        1 => message(argument, channel, content),
        2 => connect(argument, channel, content),
        3 => Ok(Letter::Accept {
            channel: bare(argument, channel, content)?,
        }),
        4 => reject(argument, channel, content),
        5 => Ok(Letter::RecvOpen {
            channel: bare(argument, channel, content)?,
        }),
        6 => Ok(Letter::SendOpen {
            channel: bare(argument, channel, content)?,
        }),
        7 => packet(argument, channel, content),
        8 => scalar(argument, channel, content),
        9 => Ok(Letter::SendClose {
            channel: bare(argument, channel, content)?,
        }),
        10 => Ok(Letter::RecvClose {
            channel: bare(argument, channel, content)?,
        }),
        _ => Err(LetterFault::Kind),
    }
}

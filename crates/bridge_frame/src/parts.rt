//! Parts of messages and packets: what each kind allows in its argument, its channel and its content.

ghost use Rattle.std.specs.Prelude.{◌≡◌, ◌<◌, ◌≤◌, ◌+◌, ◌-◌, MatchResult, length, drop};
ghost use Rattle.mc_base.specs.Bytes.{number_at};
ghost use Rattle.mc_base.specs.Letter.{fields};
ghost use Rattle.mc_base.specs.declared.fault.LetterFault.TheVariants.{Size};
ghost use Rattle.bridge_frame.specs.Parts.{IsCut, IsNoCut};
ghost use Rattle.bridge_frame.specs.Reading.{IsReading};

use crate::PART_HEADER_SIZE;
use crate::content::{no_argument, numbered};
use byteorder::{ByteOrder, LittleEndian};
use mc_base::{ITEM_SIZE, Letter, LetterFault, Priority};

/// The bytes of a part, and where they lie in the whole.
struct Cut<'a> {
    total: u16,
    offset: u16,
    bytes: &'a [u8],
}

/// A part of a message: the argument is its priority, and it is on no channel.
pub fn message_part(argument: u8, channel: u32, content: &[u8]) -> Result<Letter<'_>, LetterFault>
    ensures { IsReading (fields 2 1 argument channel content.now) result }
{
    let Some(priority) = Priority::new(argument) else {
        return Err(LetterFault::Argument);
    };
    if channel != 0 {
        return Err(LetterFault::Channel);
    }
    let Cut {
        total,
        offset,
        bytes,
    } = read_cut(content)?;
    Ok(Letter::MsgPart {
        priority,
        total,
        offset,
        bytes,
    })
}

/// A part of a packet.
pub fn packet_part(argument: u8, channel: u32, content: &[u8]) -> Result<Letter<'_>, LetterFault>
    ensures { IsReading (fields 2 7 argument channel content.now) result }
{
    no_argument(argument)?;
    let channel = numbered(channel)?;
    let Cut {
        total,
        offset,
        bytes,
    } = read_cut(content)?;
    Ok(Letter::PacketPart {
        channel,
        total,
        offset,
        bytes,
    })
}

/// The two numbers of a part, and its bytes: at least one, within the whole.
fn read_cut(content: &[u8]) -> Result<Cut<'_>, LetterFault>
    ensures { MatchResult result (IsCut content.now) (λ e. (e ≡ Size) × IsNoCut content.now) }
{
    if content.len() <= PART_HEADER_SIZE {
        return Err(LetterFault::Size);
    }
    let total = LittleEndian::read_u16(content);
    let offset = LittleEndian::read_u16(&content[2..]);
    let (_, bytes) = content.split_at(PART_HEADER_SIZE);
    if usize::from(offset) + bytes.len() > usize::from(total) || usize::from(total) > ITEM_SIZE {
        return Err(LetterFault::Size);
    }
    Ok(Cut {
        total,
        offset,
        bytes,
    })
}

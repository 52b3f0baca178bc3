//! What each kind of letter allows in its argument, its channel and its content.

ghost use Rattle.std.specs.Prelude.{◌≡◌, ◌<◌, ◌≤◌, ◌⊎◌, MatchResult, [], length};
ghost use Rattle.mc_base.specs.declared.fault.LetterFault.TheVariants.{Argument, Channel, Size};
ghost use Rattle.mc_base.specs.Letter.{version_1};
ghost use Rattle.bridge_frame.specs.Reading.{IsBare, IsReading};

use byteorder::{ByteOrder, LittleEndian};
use mc_base::{Bits, Kind, Letter, LetterFault, Priority, Reason, SINGLE_SIZE};

/// A message: the argument is its priority, and it is on no channel.
pub fn message(argument: u8, channel: u32, content: &[u8]) -> Result<Letter<'_>, LetterFault>
    ensures { IsReading (version_1 1 argument channel content.now) result }
{
    let Some(priority) = Priority::new(argument) else {
        return Err(LetterFault::Argument);
    };
    if channel != 0 {
        return Err(LetterFault::Channel);
    }
    let bytes = item(content)?;
    Ok(Letter::Msg { priority, bytes })
}

/// A connect: the argument is what the channel carries.
pub fn connect(argument: u8, channel: u32, content: &[u8]) -> Result<Letter<'static>, LetterFault>
    ensures { IsReading (version_1 2 argument channel content.now) result }
{
    let kind = match argument {
        0 => Kind::Packet,
        1 => Kind::Scalar,
        _ => return Err(LetterFault::Argument),
    };
    let channel = alone(channel, content)?;
    Ok(Letter::Connect { channel, kind })
}

/// A reject: the argument is the reason.
pub fn reject(argument: u8, channel: u32, content: &[u8]) -> Result<Letter<'static>, LetterFault>
    ensures { IsReading (version_1 4 argument channel content.now) result }
{
    let reason = match argument {
        1 => Reason::NoEndpoint,
        2 => Reason::Connected,
        3 => Reason::Busy,
        _ => return Err(LetterFault::Argument),
    };
    let channel = alone(channel, content)?;
    Ok(Letter::Reject { channel, reason })
}

/// A packet.
pub fn packet(argument: u8, channel: u32, content: &[u8]) -> Result<Letter<'_>, LetterFault>
    ensures { IsReading (version_1 7 argument channel content.now) result }
{
    no_argument(argument)?;
    let channel = numbered(channel)?;
    let bytes = item(content)?;
    Ok(Letter::Packet { channel, bytes })
}

/// A scalar: the argument is how many bytes it has.
pub fn scalar(argument: u8, channel: u32, content: &[u8]) -> Result<Letter<'static>, LetterFault>
    ensures { IsReading (version_1 8 argument channel content.now) result }
{
    let bits = match argument {
        1 => Bits::B8,
        2 => Bits::B16,
        4 => Bits::B32,
        8 => Bits::B64,
        _ => return Err(LetterFault::Argument),
    };
    let channel = numbered(channel)?;
    let width = usize::from(argument);
    if content.len() != width {
        return Err(LetterFault::Size);
    }
    let value = LittleEndian::read_uint(content, width);
    Ok(Letter::Scalar {
        channel,
        bits,
        value,
    })
}

/// The channel of a letter that has neither argument nor content.
pub fn bare(argument: u8, channel: u32, content: &[u8]) -> Result<u32, LetterFault>
    ensures { IsBare argument channel content.now result }
{
    no_argument(argument)?;
    alone(channel, content)
}

pub(crate) fn no_argument(argument: u8) -> Result<(), LetterFault>
    ensures { MatchResult result (λ _. argument ≡ 0) (λ e. (e ≡ Argument) × (0 < argument)) }
{
    if argument != 0 {
        return Err(LetterFault::Argument);
    }
    Ok(())
}

/// A channel, which has a number that is not 0.
pub(crate) fn numbered(channel: u32) -> Result<u32, LetterFault>
    ensures { MatchResult result (λ c. (c ≡ channel) × (0 < channel)) (λ e. (e ≡ Channel) × (channel ≡ 0)) }
{
    if channel == 0 {
        return Err(LetterFault::Channel);
    }
    Ok(channel)
}

/// A channel without content.
fn alone(channel: u32, content: &[u8]) -> Result<u32, LetterFault>
    ensures { MatchResult result
        (λ c. (c ≡ channel) × (0 < channel) × (content.now ≡ []))
        (λ e. ((e ≡ Channel) × (channel ≡ 0)) ⊎ ((e ≡ Size) × (0 < channel) × (0 < length content.now))) }
{
    let channel = numbered(channel)?;
    if !content.is_empty() {
        return Err(LetterFault::Size);
    }
    Ok(channel)
}

/// The bytes of a message or a packet.
fn item(content: &[u8]) -> Result<&[u8], LetterFault>
    ensures { MatchResult result
        (λ bytes. (bytes.now ≡ content.now) × (length content.now ≤ 488))
        (λ e. (e ≡ Size) × (488 < length content.now)) }
{
    if content.len() > SINGLE_SIZE {
        return Err(LetterFault::Size);
    }
    Ok(content)
}

//! Bytes as hexadecimal text: digits of either case, two a byte, and blanks anywhere.

ghost use Rattle.std.specs.Prelude.{◌≡◌, ◌<◌, IfOk, IfErr, IfSome, None};
ghost use Rattle.scenario_cli.specs.Hex.{bytes_spelled, hex_fault, is_blank as is_blank_byte};
ghost use Rattle.scenario_cli.specs.declared.hex.HexFault.TheVariants.{NoMemory as no_memory};
ghost use Rattle.scenario_cli.specs.HexFault.{IsHexFault, TakesDigit};

use board_model::hex_digit;
use std::alloc::Global;

/// Why a text is not read as bytes.
#[derive(Clone, Copy)]
pub enum HexFault {
    /// The byte at this place is neither a digit nor a blank. Where there is no such byte, the number of digits is odd, and
    /// the place is the text's length.
    At { place: usize },
    /// An allocation failed, which may happen at any time.
    NoMemory,
}

/// Reads the bytes that a text spells. Memory is taken once, for half as many bytes as the text has.
///
/// # Errors
///
/// `At` where the text spells no bytes, `NoMemory` where an allocation fails.
pub fn read_hex(alloc: Global, text: &[u8]) -> Result<Vec<u8>, HexFault>
    ensures sound { IfOk result (λ bytes. hex_fault text.now ≡ None) }
    ensures bytes { IfOk result (λ bytes. bytes.items ≡ bytes_spelled text.now) }
    ensures fault { IfErr result (λ e. IsHexFault text.now e) }
{
    let Ok(mut bytes) = Vec::with_capacity(alloc, text.len() / 2) else {
        return Err(HexFault::NoMemory);
    };
    let mut high = None;
    for (place, byte) in text.iter().enumerate() {
        match hex_digit(*byte) {
            Some(digit) => high = take_digit(&mut bytes, high, digit)?,
            None if is_blank(*byte) => {}
            None => return Err(HexFault::At { place }),
        }
    }
    match high {
        None => Ok(bytes),
        Some(_) => Err(HexFault::At { place: text.len() }),
    }
}

/// Takes the value of a digit. The first of a byte waits for the second.
fn take_digit(bytes: &mut Vec<u8>, high: Option<u8>, digit: u8) -> Result<Option<u8>, HexFault>
    requires high { IfSome high (λ h. h < 16) }
    requires digit { digit < 16 }
    ensures taken { IfOk result (λ left. TakesDigit bytes.old.items high digit bytes.new.items left) }
    ensures memory { IfErr result (λ e. e ≡ no_memory) }
{
    let Some(high) = high else {
        return Ok(Some(digit));
    };
    match bytes.push(16 * high + digit) {
        Ok(()) => Ok(None),
        Err(_) => Err(HexFault::NoMemory),
    }
}

/// A space, a tab, a carriage return or a newline.
fn is_blank(byte: u8) -> bool
    ensures { result ≡ is_blank_byte byte }
{
    matches!(byte, b' ' | b'\t' | b'\r' | b'\n')
}

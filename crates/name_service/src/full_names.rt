//! The full names of endpoints, `mcapi:D:N:P`.

ghost use Rattle.std.specs.Prelude.{◌≡◌, ◌≤◌, ◌<◌, ◌++◌, ◌∷◌, ◌≢◌, false, ℕ, List, IfSome, IfNone, IsSomeAnd, codes, decimal, length, slice_index, nat_lt, ◌&&◌, ◌==◌};
ghost use Rattle.std.specs.List.{list_any};
ghost use Rattle.std.specs.Str.Parse.{IsNumeral, digits_value};
ghost use Rattle.mc_base.specs.FullName.{endpoint_named, colon, is_colon};

use mc_base::{EndName, MAX_NODES};

/// Returns the endpoint whose full name this is, or `None` where it is the full name of none: `mcapi:D:N:P` with a domain from 0
/// to 255, a node from 0 to 15 and a port from 0 to 65535, each in decimal without leading zeros.
pub fn endpoint_named(name: &[u8]) -> Option<EndName>
    ensures { result ≡ endpoint_named name.now }
{
    let (domain, node, port) = parts(name)?;
    Some(EndName {
        domain: number(domain, u16::from(u8::MAX))? as u8,
        node: number(node, u16::from(MAX_NODES - 1))? as u8,
        port: number(port, u16::MAX)?,
    })
}

/// Returns what is behind `mcapi:`, between the next two colons, and behind them.
fn parts(name: &[u8]) -> Option<(&[u8], &[u8], &[u8])>
    // The name is made of these parts.
    ensures made { IfSome result (λ x. name.now ≡ codes "mcapi:" ++ (x.0.now ++ (colon ∷ (x.1.now ++ (colon ∷ x.2.now))))) }
    // A name that is made of parts without colons but in the last is made of these.
    ensures only { (d n p : List ℕ) → list_any is_colon d ≡ false → list_any is_colon n ≡ false
        → name.now ≡ codes "mcapi:" ++ (d ++ (colon ∷ (n ++ (colon ∷ p))))
        → IsSomeAnd result (λ x. (x.0.now ≡ d) × (x.1.now ≡ n) × (x.2.now ≡ p)) }
{
    let numbers = name.strip_prefix(b"mcapi:")?;
    let (domain, rest) = at_colon(numbers)?;
    let (node, port) = at_colon(rest)?;
    Some((domain, node, port))
}

/// Returns what is in front of the first colon, and behind it.
fn at_colon(text: &[u8]) -> Option<(&[u8], &[u8])>
    ensures made { IfSome result (λ x. text.now ≡ x.0.now ++ (colon ∷ x.1.now)) }
    ensures first { IfSome result (λ x. list_any is_colon x.0.now ≡ false) }
    ensures absent { IfNone result (list_any is_colon text.now ≡ false) }
{
    for (i, b) in text.iter().enumerate() {
        if *b == b':' {
            return Some((&text[..i], &text[i + 1..]));
        }
    }
    None
}

/// The number that a text is in decimal without leading zeros, where it is at most this large.
fn number(text: &[u8], most: u16) -> Option<u16>
    ensures read { IfSome result (λ n. (text.now ≡ decimal n) × (n ≤ most)) }
    ensures refused { IfNone result ((n : ℕ) → n ≤ most → text.now ≢ decimal n) }
{
    if has_leading_zero(text) {
        return None;
    }
    value(text, most)
}

/// Whether the first of several digits is a zero.
fn has_leading_zero(text: &[u8]) -> bool
    ensures { result ≡ (nat_lt 1 (length text.now) && slice_index text.now 0 == 48) }
{
    text.len() > 1 && text[0] == b'0'
}

/// The value of one decimal digit or more, where it is at most this large.
fn value(digits: &[u8], most: u16) -> Option<u16>
    ensures read { IfSome result (λ n. IsNumeral 10 digits.now × (n ≡ digits_value 10 digits.now) × (n ≤ most)) }
    ensures refused { IfNone result (IsNumeral 10 digits.now → most < digits_value 10 digits.now) }
{
    if digits.is_empty() {
        return None;
    }
    let mut value = 0u16;
    for digit in digits {
        if !digit.is_ascii_digit() {
            return None;
        }
        let next = u32::from(value) * 10 + u32::from(*digit - b'0');
        if next > u32::from(most) {
            return None;
        }
        value = next as u16;
    }
    Some(value)
}

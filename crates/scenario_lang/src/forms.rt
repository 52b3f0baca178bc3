//! The lines of domains and links by their words. Each word is asked first for its form, then for its number.

ghost use Rattle.std.specs.Prelude.{◌≡◌, ◌≤◌, IfOk};
ghost use Rattle.scenario_lang.specs.Reading.{Reads, seen, next_word, after_word, last_word, domain_in, link_in};

use crate::numerals::number;
use board_model::{DomainLine, LineReason};

/// Takes the first word off.
pub fn next<'w, 'a>(words: &'w [&'a [u8]]) -> Result<(&'a [u8], &'w [&'a [u8]]), LineReason>
    ensures { Reads (λ x. (x.0.now, seen x.1.now)) result (next_word (seen words.now)) }
{
    match words {
        [word, rest @ ..] => Ok((*word, rest)),
        [] => Err(LineReason::Form),
    }
}

/// Takes the first word off, which must be `word`.
#[tactic(auto, unfolding(crate::specs::Reading::after_word))]
fn after<'w, 'a>(word: &[u8], words: &'w [&'a [u8]]) -> Result<&'w [&'a [u8]], LineReason>
    ensures { Reads (λ x. seen x.now) result (after_word word.now (seen words.now)) }
{
    let (first, rest) = next(words)?;
    if first == word {
        Ok(rest)
    } else {
        Err(LineReason::Form)
    }
}

/// Takes the only word.
#[tactic(auto, unfolding(crate::specs::Reading::last_word))]
fn last<'a>(words: &[&'a [u8]]) -> Result<&'a [u8], LineReason>
    ensures { Reads (λ x. x.now) result (last_word (seen words.now)) }
{
    let (first, rest) = next(words)?;
    if rest.is_empty() {
        Ok(first)
    } else {
        Err(LineReason::Form)
    }
}

/// Reads the line of a domain, after its first word.
#[tactic(auto, unfolding(crate::specs::Reading::domain_in))]
pub fn domain_line(words: &[&[u8]]) -> Result<DomainLine, LineReason>
    ensures { Reads (λ line. line) result (domain_in (seen words.now)) }
{
    let (domain, rest) = next(words)?;
    let rest = after(b"nodes", rest)?;
    let (nodes, rest) = next(rest)?;
    let rest = after(b"pool", rest)?;
    let pool = last(rest)?;
    let domain = number(0, 7, domain)?;
    let nodes = number(1, 16, nodes)?;
    let pool = number(1, 256, pool)?;
    Ok(DomainLine {
        domain: domain as u8,
        nodes: nodes as u8,
        pool: pool as u32,
    })
}

/// Reads the driver, the device and the size of a link, after its first word.
#[tactic(auto, unfolding(crate::specs::Reading::link_in))]
pub fn link_line(words: &[&[u8]]) -> Result<(u8, u8, u64), LineReason>
    ensures { Reads (λ line. line) result (link_in (seen words.now)) }
{
    let (driver, rest) = next(words)?;
    let (device, rest) = next(rest)?;
    let rest = after(b"size", rest)?;
    let size = last(rest)?;
    let driver = number(0, 7, driver)?;
    let device = number(0, 7, device)?;
    let size = number(0, u64::MAX, size)?;
    Ok((driver as u8, device as u8, size))
}

//! The scenario of a file with expected answers.

ghost use Rattle.std.specs.Prelude.{◌≡◌, ◌++◌, ◌∷◌, ◌+◌, ◌≤◌, [], IfOk, OnOk, length};
ghost use Rattle.view_expect.specs.Expected.{bare, bare_line};

use crate::lines::{arrow, caller, first_line};
use mc_base::NoMemory;
use std::alloc::Global;

/// Adds bytes to a text.
pub fn add_bytes(text: &mut Vec<u8>, bytes: &[u8]) -> Result<(), NoMemory>
    ensures { OnOk result (text.new.items ≡ text.old.items ++ bytes.now) }
{
    if text.extend_from_slice(bytes).is_err() {
        return Err(NoMemory);
    }
    Ok(())
}

/// Adds what stands before the arrow of a line.
fn add_front(text: &mut Vec<u8>, front: &[u8]) -> Result<(), NoMemory>
    ensures { OnOk result (text.new.items ≡ text.old.items ++ (front.now ++ 10 ∷ [])) }
{
    add_bytes(text, front)?;
    add_bytes(text, b"\n")?;
    Ok(())
}

/// Adds a line without the answer that it expects.
fn add_line(text: &mut Vec<u8>, line: &[u8]) -> Result<(), NoMemory>
    ensures text { OnOk result (text.new.items ≡ text.old.items ++ bare_line line.now) }
    ensures short { OnOk result (length text.new.items ≤ length text.old.items + length line.now) }
{
    if caller(line).is_none() {
        return add_bytes(text, line);
    }
    match arrow(line) {
        Some((front, _)) => add_front(text, front),
        None => add_bytes(text, line),
    }
}

/// Returns the text of a scenario file without the answers that it expects. Each line keeps its number.
///
/// # Errors
///
/// `NoMemory` where an allocation fails.
pub fn bare_text(alloc: Global, file: &[u8]) -> Result<Vec<u8>, NoMemory>
    ensures text { IfOk result (λ v. v.items ≡ bare file.now) }
    ensures short { IfOk result (λ v. length v.items ≤ length file.now) }
{
    let mut text = Vec::new(alloc);
    let mut rest = file;
    while !rest.is_empty() {
        let (line, after) = first_line(rest);
        add_line(&mut text, line)?;
        rest = after;
    }
    Ok(text)
}

//! Images in memory.

ghost use Rattle.std.specs.Prelude.{◌≡◌, ◌≤◌, ◌++◌, OnOk, IfOk};
ghost use Rattle.byteorder.specs.Endian.{little_bytes};
ghost use Rattle.board_model.specs.RingImage.{for_each};
ghost use Rattle.ring_trace.specs.WordImage.{word_image, word_descriptor, word_entry, word_element, ring_head};

use crate::words::word_at;
use mc_base::NoMemory;
use split_ring::Closed;
use std::alloc::{AllocError, Global};

/// Returns the image of a finished ring.
///
/// # Errors
///
/// `NoMemory` where an allocation fails.
pub fn image_of(alloc: Global, closed: &Closed) -> Result<Vec<u8>, NoMemory>
    ensures { IfOk result (λ v. v.items ≡ word_image closed.now.size closed.now.words) }
{
    let mut out = Vec::new(alloc);
    match push_image(&mut out, closed.words(), closed.size()) {
        Ok(()) => Ok(out),
        Err(AllocError) => Err(NoMemory),
    }
}

/// Appends the image of these words.
pub fn push_image(out: &mut Vec<u8>, words: &[u64], size: u32) -> Result<(), AllocError>
    ensures { OnOk result (out.new.items ≡ out.old.items ++ word_image size words.now) }
{
    let count = size as usize;
    push_descriptors(out, words, size)?;
    push_head(out, words, 4 * count, 4 * count + 1)?;
    push_offered(out, words, size)?;
    out.extend_from_slice(&[0, 0, 0, 0])?;
    push_head(out, words, 5 * count + 2, 5 * count + 3)?;
    push_used(out, words, size)?;
    out.extend_from_slice(&[0, 0])
}

/// Appends a field of this many bytes.
#[tactic(auto, using(crate::proofs::FieldBytes::lowest_bytes))]
pub fn push_field(out: &mut Vec<u8>, word: u64, width: usize) -> Result<(), AllocError>
    requires { width ≤ 8 }
    ensures { OnOk result (out.new.items ≡ out.old.items ++ little_bytes width word) }
{
    out.extend_from_slice(&word.to_le_bytes()[..width])
}

fn push_descriptor(out: &mut Vec<u8>, words: &[u64], i: u32) -> Result<(), AllocError>
    ensures { OnOk result (out.new.items ≡ out.old.items ++ word_descriptor 0 words.now i) }
{
    let first = 4 * i as usize;
    push_field(out, word_at(words, first), 8)?;
    push_field(out, word_at(words, first + 1), 4)?;
    push_field(out, word_at(words, first + 2), 2)?;
    push_field(out, word_at(words, first + 3), 2)
}

fn push_descriptors(out: &mut Vec<u8>, words: &[u64], size: u32) -> Result<(), AllocError>
    ensures { OnOk result (out.new.items ≡ out.old.items ++ for_each (word_descriptor size words.now) size) }
{
    for i in 0..size {
        push_descriptor(out, words, i)?;
    }
    Ok(())
}

/// Appends the words with flags and idx of a ring.
fn push_head(out: &mut Vec<u8>, words: &[u64], flags: usize, idx: usize) -> Result<(), AllocError>
    ensures { OnOk result (out.new.items ≡ out.old.items ++ ring_head words.now flags idx) }
{
    push_field(out, word_at(words, flags), 2)?;
    push_field(out, word_at(words, idx), 2)
}

fn push_offered(out: &mut Vec<u8>, words: &[u64], size: u32) -> Result<(), AllocError>
    ensures { OnOk result (out.new.items ≡ out.old.items ++ for_each (word_entry size words.now) size) }
{
    let first = 4 * size as usize + 2;
    for p in 0..size {
        push_field(out, word_at(words, first + p as usize), 2)?;
    }
    Ok(())
}

fn push_element(out: &mut Vec<u8>, words: &[u64], size: u32, p: u32) -> Result<(), AllocError>
    ensures { OnOk result (out.new.items ≡ out.old.items ++ word_element size words.now p) }
{
    let id = 5 * size as usize + 4;
    let len = 5 * size as usize + 5;
    push_field(out, word_at(words, id + 2 * p as usize), 4)?;
    push_field(out, word_at(words, len + 2 * p as usize), 4)
}

fn push_used(out: &mut Vec<u8>, words: &[u64], size: u32) -> Result<(), AllocError>
    ensures { OnOk result (out.new.items ≡ out.old.items ++ for_each (word_element size words.now) size) }
{
    for p in 0..size {
        push_element(out, words, size, p)?;
    }
    Ok(())
}

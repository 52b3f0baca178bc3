//! The image of a ring that has not begun.

ghost use Rattle.std.specs.Prelude.{◌≡◌, ◌<◌, ◌++◌, OnOk, IfOk, length};
ghost use Rattle.board_model.specs.RingImage.{image_length, start_image, start_values, for_each, descriptor, offered_entry, used_element};

use crate::constants::{address_of, flags_of};
use crate::image::push_field;
use mc_base::NoMemory;
use std::alloc::{AllocError, Global};

/// Returns the image of a ring before its first step. The size is at most 256, and the queue 0 or 1.
///
/// # Errors
///
/// `NoMemory` where an allocation fails.
#[tactic(auto, using(crate::proofs::Tables::image_has_length))]
pub fn start_image(alloc: Global, size: u32, queue: u8) -> Result<Vec<u8>, NoMemory>
    requires size { size < 257 }
    requires queue { queue < 2 }
    ensures image { IfOk result (λ v. v.items ≡ start_image size queue) }
    ensures len { IfOk result (λ v. length v.items ≡ image_length size) }
{
    let mut out = Vec::new(alloc);
    match push_start(&mut out, size, queue) {
        Ok(()) => Ok(out),
        Err(AllocError) => Err(NoMemory),
    }
}

fn push_start(out: &mut Vec<u8>, size: u32, queue: u8) -> Result<(), AllocError>
    requires size { size < 257 }
    requires queue { queue < 2 }
    ensures { OnOk result (out.new.items ≡ out.old.items ++ start_image size queue) }
{
    push_descriptors(out, size, queue)?;
    out.extend_from_slice(&[0, 0, 0, 0])?;
    push_offered(out, size)?;
    out.extend_from_slice(&[0, 0, 0, 0])?;
    out.extend_from_slice(&[0, 0, 0, 0])?;
    push_used(out, size)?;
    out.extend_from_slice(&[0, 0])
}

fn push_descriptor(out: &mut Vec<u8>, size: u32, queue: u8, i: u32) -> Result<(), AllocError>
    requires size { size < 257 }
    requires queue { queue < 2 }
    requires descriptor { i < size }
    ensures { OnOk result (out.new.items ≡ out.old.items ++ descriptor (start_values size queue) i) }
{
    push_field(out, address_of(size, queue, i), 8)?;
    push_field(out, 0, 4)?;
    push_field(out, flags_of(queue), 2)?;
    push_field(out, 0, 2)
}

fn push_descriptors(out: &mut Vec<u8>, size: u32, queue: u8) -> Result<(), AllocError>
    requires size { size < 257 }
    requires queue { queue < 2 }
    ensures { OnOk result (out.new.items ≡ out.old.items ++ for_each (descriptor (start_values size queue)) size) }
{
    for i in 0..size {
        push_descriptor(out, size, queue, i)?;
    }
    Ok(())
}

/// Appends the places of the available ring, which hold zeros in both queues.
fn push_offered(out: &mut Vec<u8>, size: u32) -> Result<(), AllocError>
    ensures { OnOk result (out.new.items ≡ out.old.items ++ for_each (offered_entry (start_values size 0)) size) }
{
    for _place in 0..size {
        out.extend_from_slice(&[0, 0])?;
    }
    Ok(())
}

/// Appends the places of the used ring, which hold zeros in both queues.
fn push_used(out: &mut Vec<u8>, size: u32) -> Result<(), AllocError>
    ensures { OnOk result (out.new.items ≡ out.old.items ++ for_each (used_element (start_values size 0)) size) }
{
    for _place in 0..size {
        out.extend_from_slice(&[0, 0, 0, 0, 0, 0, 0, 0])?;
    }
    Ok(())
}

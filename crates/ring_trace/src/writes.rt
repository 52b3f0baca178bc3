//! The writes of the two sides of a ring, in order.

ghost use Rattle.std.specs.Prelude.{◌≡◌, ◌<◌, ◌≤◌, ◌+◌, ◌%◌, ◌^◌, ◌++◌, OnOk, IfOk, map, length};
ghost use Rattle.std.specs.List.{All};
ghost use Rattle.board_model.specs.RingImage.{image_length, write, driver_step, driver_writes, device_step, device_writes, written, all_written};
ghost use Rattle.ring_trace.specs.Writes.{write_of, LiesWithin};

use byteorder::{ByteOrder, LittleEndian};
use mc_base::NoMemory;
use std::alloc::{AllocError, Global};

/// A number that is written into an image, so many bytes wide.
#[derive(Clone, Copy, Debug, PartialEq, Eq)]
pub struct Write {
    pub offset: u32,
    pub width: u8,
    pub value: u64,
}

/// Returns the bytes after these writes, one after the other. Each has a width of 1 to 8, a value that fits it, and lies inside
/// the bytes.
///
/// # Errors
///
/// `NoMemory` where an allocation fails.
pub fn fold_writes(alloc: Global, start: &[u8], writes: &[Write]) -> Result<Vec<u8>, NoMemory>
    requires { All (LiesWithin (length start.now)) writes.now }
    ensures bytes { IfOk result (λ v. v.items ≡ all_written start.now (map write_of writes.now)) }
    ensures len { IfOk result (λ v. length v.items ≡ length start.now) }
{
    let mut out = Vec::new(alloc);
    if out.extend_from_slice(start).is_err() {
        return Err(NoMemory);
    }
    for write in writes {
        write_into(&mut out, *write);
    }
    Ok(out)
}

fn write_into(out: &mut [u8], write: Write)
    requires { LiesWithin (length out.old) write }
    ensures written { out.new ≡ written out.old (write_of write) }
    ensures len { length out.new ≡ length out.old }
{
    let place = write.offset as usize;
    LittleEndian::write_uint(&mut out[place..], write.value, usize::from(write.width));
}

/// Returns what the driver writes for each buffer that it offers: the descriptor's length, the number at its place of the
/// available ring, and the index. The size is from 1 to 256, and the numbers are below it.
///
/// # Errors
///
/// `NoMemory` where an allocation fails.
pub fn driver_writes(
    alloc: Global,
    size: u32,
    offered: &[(u16, u32)],
) -> Result<Vec<Write>, NoMemory>
    requires size { (0 < size) × (size < 257) }
    requires numbers { All (λ o. o.0 < size) offered.now }
    ensures writes { IfOk result (λ v. map write_of v.items ≡ driver_writes size offered.now) }
    ensures within { IfOk result (λ v. All (LiesWithin (image_length size)) v.items) }
{
    let mut out = Vec::new(alloc);
    for n in 0..offered.len() {
        if push_offer(&mut out, size, n, offered[n]).is_err() {
            return Err(NoMemory);
        }
    }
    Ok(out)
}

/// Appends the writes of the n-th buffer offered.
fn push_offer(
    out: &mut Vec<Write>,
    size: u32,
    n: usize,
    offer: (u16, u32),
) -> Result<(), AllocError>
    requires size { (0 < size) × (size < 257) }
    requires number { offer.0 < size }
    ensures writes { OnOk result (map write_of out.new.items ≡ map write_of out.old.items ++ driver_step size n offer) }
    ensures within { All (LiesWithin (image_length size)) out.old.items → OnOk result (All (LiesWithin (image_length size)) out.new.items) }
{
    let place = (n % size as usize) as u32;
    let (id, len) = offer;
    out.push(write_at(size, 8 + 16 * u32::from(id), 4, u64::from(len)))?;
    out.push(write_at(size, 16 * size + 4 + 2 * place, 2, u64::from(id)))?;
    out.push(write_at(size, 16 * size + 2, 2, count_after(n)))?;
    Ok(())
}

/// Returns what the device writes for each buffer that it returns: the number and the length at its place of the used ring, and
/// the index. The size is from 1 to 256, and the numbers are below it.
///
/// # Errors
///
/// `NoMemory` where an allocation fails.
pub fn device_writes(
    alloc: Global,
    size: u32,
    returned: &[(u16, u32)],
) -> Result<Vec<Write>, NoMemory>
    requires size { (0 < size) × (size < 257) }
    requires numbers { All (λ o. o.0 < size) returned.now }
    ensures writes { IfOk result (λ v. map write_of v.items ≡ device_writes size returned.now) }
    ensures within { IfOk result (λ v. All (LiesWithin (image_length size)) v.items) }
{
    let mut out = Vec::new(alloc);
    for n in 0..returned.len() {
        if push_return(&mut out, size, n, returned[n]).is_err() {
            return Err(NoMemory);
        }
    }
    Ok(out)
}

/// Appends the writes of the n-th buffer returned.
fn push_return(
    out: &mut Vec<Write>,
    size: u32,
    n: usize,
    offer: (u16, u32),
) -> Result<(), AllocError>
    requires size { (0 < size) × (size < 257) }
    requires number { offer.0 < size }
    ensures writes { OnOk result (map write_of out.new.items ≡ map write_of out.old.items ++ device_step size n offer) }
    ensures within { All (LiesWithin (image_length size)) out.old.items → OnOk result (All (LiesWithin (image_length size)) out.new.items) }
{
    let place = (n % size as usize) as u32;
    let (id, len) = offer;
    out.push(write_at(size, 18 * size + 12 + 8 * place, 4, u64::from(id)))?;
    out.push(write_at(size, 18 * size + 16 + 8 * place, 4, u64::from(len)))?;
    out.push(write_at(size, 18 * size + 10, 2, count_after(n)))?;
    Ok(())
}

/// A write into the image of a ring of this size.
fn write_at(size: u32, offset: u32, width: u8, value: u64) -> Write
    requires width { (1 ≤ width) × (width ≤ 8) × (value < 256 ^ width) }
    requires inside { offset + width ≤ image_length size }
    ensures write { write_of result ≡ write offset width value }
    ensures within { LiesWithin (image_length size) result }
{
    Write {
        offset,
        width,
        value,
    }
}

/// The index once the n-th entry stands, modulo 65536.
fn count_after(n: usize) -> u64
    ensures count { result ≡ (n + 1) % 65536 }
    ensures small { result < 65536 }
{
    ((n % 65536 + 1) % 65536) as u64
}

ghost use Rattle.std.specs.Prelude.{◌≡◌, ◌≤◌, IfOk, length, replicate};
ghost use Rattle.std.specs.Borrow.{sem};
ghost use Rattle.mc_base.specs.Limits.{buffer_size, shortest_buffer, longest_buffer};

use crate::{BUFFER_SIZE, NoMemory};
use std::alloc::Global;
use std::marker::Model;

/// A numbered buffer of 64 to 4,096 bytes, which moves by value: the handle has 16 bytes. It keeps its length.
#[derive(Debug, Drop)]
pub struct Buffer {
    number: u16,
    bytes: Box<Vec<u8>>,
}

impl Model for Buffer {
    ghost use Rattle.std.specs.Prelude.{◌≤◌, vec_len};
    ghost use Rattle.mc_base.specs.Limits.{shortest_buffer, longest_buffer};
    ghost use Rattle.mc_base.specs.Stored.{Stored};

    ghost Value = { Stored };

    ghost view = { λ b. record { number = b.number; bytes = b.bytes.value.items } };

    ghost invariant = { λ b. (shortest_buffer ≤ vec_len b.bytes.value) × (vec_len b.bytes.value ≤ longest_buffer) };
}

impl Buffer {
    ghost use Rattle.mc_base.specs.Lending.{LendsBytes};

    /// Makes a buffer of 512 zero bytes with this number.
    ///
    /// # Errors
    ///
    /// `NoMemory` where an allocation fails.
    pub fn new(alloc: Global, number: u16) -> Result<Buffer, NoMemory>
        ensures number { IfOk result (λ b. b.number ≡ number) }
        ensures zeros { IfOk result (λ b. b.bytes ≡ replicate buffer_size 0) }
    {
        Buffer::sized(alloc, number, BUFFER_SIZE as u32)
    }

    /// Makes a buffer of `length` zero bytes with this number.
    ///
    /// # Errors
    ///
    /// `NoMemory` where an allocation fails.
    pub fn sized(alloc: Global, number: u16, length: u32) -> Result<Buffer, NoMemory>
        requires lawful { (shortest_buffer ≤ length) × (length ≤ longest_buffer) }
        ensures number { IfOk result (λ b. b.number ≡ number) }
        ensures zeros { IfOk result (λ b. b.bytes ≡ replicate length 0) }
    {
        let Ok(zeros) = Vec::from_elem(alloc, 0u8, length as usize) else {
            return Err(NoMemory);
        };
        let Ok(bytes) = Box::new(alloc, zeros) else {
            return Err(NoMemory);
        };
        Ok(Buffer { number, bytes })
    }

    /// Returns the number.
    pub fn number(&self) -> u16
        ensures { result ≡ self.now.number }
    {
        self.number
    }

    /// Lends all its bytes.
    pub fn bytes(&self) -> &[u8]
        ensures value { result.now ≡ self.now.bytes }
        ensures len { (shortest_buffer ≤ length result.now) × (length result.now ≤ longest_buffer) }
    {
        self.bytes.as_slice()
    }

    /// Lends all its bytes for writing.
    pub fn bytes_mut(&mut self) -> &mut [u8]
        ensures* writes_back { sem 𝓛 (LendsBytes self.entry result) }
        ensures value { result.now ≡ self.old.bytes }
        ensures len { (shortest_buffer ≤ length result.now) × (length result.now ≤ longest_buffer) }
    {
        self.bytes.as_mut_slice()
    }
}

//! What stands in every image.

ghost use Rattle.std.specs.Prelude.{◌≡◌, ◌<◌, ◌≤◌};
ghost use Rattle.board_model.specs.RingImage.{buffer_address, buffer_flags};

use mc_base::BUFFER_SIZE;

/// The address of a buffer: those of queue 0 and of queue 1 lie side by side.
pub fn address_of(size: u32, queue: u8, i: u32) -> u64
    requires size { size < 257 }
    requires queue { queue < 2 }
    requires descriptor { i < size }
    ensures { result ≡ buffer_address queue size i }
{
    BUFFER_SIZE as u64 * u64::from(u32::from(queue) * size + i)
}

/// The flags of a descriptor: the device writes the buffers of queue 0.
pub fn flags_of(queue: u8) -> u64
    ensures flags { result ≡ buffer_flags queue }
    ensures small { result ≤ 2 }
{
    if queue == 0 { 2 } else { 0 }
}

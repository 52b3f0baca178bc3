//! The ring itself.
ghost use Rattle.std.specs.Prelude.{◌≡◌, ◌≤◌, ◌<◌, ◌↔◌, map, IfOk, IsErrOf, vec_capacity};
ghost use Rattle.mc_base.specs.Limits.{IsBufferLength};
ghost use Rattle.shared_words.specs.declared.view.Role.TheVariants as role;
ghost use Rattle.shared_words.specs.Shape.{IsRingSize};
ghost use Rattle.shared_words.specs.Slots.{numbers_from};
ghost use Rattle.shared_words.specs.Start.{new_buffer};
ghost use Rattle.shared_words.specs.Shown.{size_of};
ghost use Rattle.split_ring.specs.Ends.{new_end, AreHeld, IsSound};

use crate::counts::Counts;
use crate::device::Device;
use crate::driver::Driver;
use crate::room::Room;
use mc_base::Buffer;
use shared_words::{RingFault, RingTable};
use std::alloc::Global;
use std::fmt;
use std::marker::Model;

/// A split virtqueue. Its two halves lend it to each call, so threads can share it.
#[derive(Drop)]
pub struct Ring {
    pub(crate) table: RingTable,
    pub(crate) queue: u8,
    pub(crate) size: u32,
    pub(crate) length: u32,
    pub(crate) room: Room,
}

impl Model for Ring {
    ghost use Rattle.std.specs.Prelude.{◌≡◌, ◌≤◌};
    ghost use Rattle.mc_base.specs.Limits.{IsBufferLength};
    ghost use Rattle.shared_words.specs.Shape.{IsRingSize};
    ghost use Rattle.shared_words.specs.Shown.{TableShown, size_of};
    ghost use Rattle.split_ring.specs.Room.{HasRoom};

    ghost Value = { TableShown };

    ghost view = { λ r. r.table };

    ghost invariant = { λ r. (r.queue ≡ r.table.queue) × (r.size ≡ size_of r.table.ring) × IsRingSize r.size × HasRoom r.room r.size × (r.length ≡ r.table.ring.width) × IsBufferLength r.length × (r.queue ≤ 1) };
}

impl fmt::Debug for Ring {
    fn fmt<W: fmt::Write>(&self, f: &mut fmt::Formatter<W>) -> fmt::Result {
        f.debug_struct("Ring")
            .field("queue", &self.queue)
            .field("size", &self.size)
            .finish_non_exhaustive()
    }
}

impl Ring {
    /// How many bytes each of its buffers has.
    pub fn length(&self) -> u32
        ensures width { result ≡ self.now.ring.width }
        ensures lawful { IsBufferLength result }
    {
        self.length
    }

    /// Makes a ring with its two halves and its buffers, numbered from 0 to `size` less 1 and each of `length` zeros, which the
    /// driver holds.
    ///
    /// # Errors
    ///
    /// `Queue` where the queue is neither 0 nor 1, and else `Size` where the size is not a power of two from 2 to 32,768,
    /// and else `Length` where the length is not a multiple of 64 from 64 to 4,096. `NoMemory` where an allocation fails.
    pub fn new(
        alloc: Global,
        queue: u8,
        size: u32,
        length: u32,
    ) -> Result<(Ring, Driver, Device, Vec<Buffer>), RingFault>
        ensures queue_refused { IsErrOf result RingFault.Queue ↔ (1 < queue) }
        ensures size_refused { IsErrOf result RingFault.Size ↔ ((queue ≤ 1) × (IsRingSize size → ⊥)) }
        ensures length_refused { IsErrOf result RingFault.Length ↔ ((queue ≤ 1) × IsRingSize size × (IsBufferLength length → ⊥)) }
        ensures ring { IfOk result (λ r. (r.0.queue ≡ queue) × (size_of r.0.ring ≡ size) × IsRingSize size) }
        ensures width { IfOk result (λ r. (r.0.ring.width ≡ length) × IsBufferLength length) }
        ensures halves { IfOk result (λ r. (r.1 ≡ new_end r.0.ring) × (r.2 ≡ new_end r.0.ring)) }
        ensures sound { IfOk result (λ r. IsSound role.Driver r.1 × IsSound role.Device r.2) }
        ensures buffers { IfOk result (λ r. r.3.items ≡ map (new_buffer length) (numbers_from 0 size)) }
        ensures room { IfOk result (λ r. size ≤ vec_capacity r.3) }
        ensures held { IfOk result (λ r. AreHeld role.Driver r.1 r.3.items) }
    {
        let (table, driver, device, buffers) = match RingTable::new(alloc, queue, size, length) {
            Err(fault) => return Err(fault),
            Ok(parts) => parts,
        };
        let Ok(room) = Room::new(alloc, size) else {
            return Err(RingFault::NoMemory);
        };
        let Ok(all) = Vec::from_elem(alloc, true, size as usize) else {
            return Err(RingFault::NoMemory);
        };
        let Ok(none) = Vec::from_elem(alloc, false, size as usize) else {
            return Err(RingFault::NoMemory);
        };
        let ring = Ring {
            table,
            queue,
            size,
            length,
            room,
        };
        let driver = Driver {
            half: driver,
            counts: Counts::none(),
            held: all,
        };
        let device = Device {
            half: device,
            counts: Counts::none(),
            held: none,
        };
        Ok((ring, driver, device, buffers))
    }
}

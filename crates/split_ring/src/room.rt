//! The room for what a ring hands out at its end.
ghost use Rattle.std.specs.Prelude.{IfOk};
ghost use Rattle.split_ring.specs.Room.{HasRoom};

use std::alloc::{AllocError, Global};

/// Empty lists, each with room for every number.
#[derive(Drop)]
pub(crate) struct Room {
    pub offered_left: Vec<u16>,
    pub returned_left: Vec<u16>,
    pub driver_held: Vec<u16>,
    pub device_held: Vec<u16>,
}

impl Room {
    pub fn new(alloc: Global, size: u32) -> Result<Room, AllocError>
        ensures { IfOk result (λ r. HasRoom r size) }
    {
        let size = size as usize;
        Ok(Room {
            offered_left: Vec::with_capacity(alloc, size)?,
            returned_left: Vec::with_capacity(alloc, size)?,
            driver_held: Vec::with_capacity(alloc, size)?,
            device_held: Vec::with_capacity(alloc, size)?,
        })
    }
}

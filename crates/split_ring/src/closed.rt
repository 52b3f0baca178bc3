//! A finished ring.
ghost use Rattle.std.specs.Prelude.{◌≡◌};

use std::marker::Model;

/// What is left of a ring: its words, where its buffers are, and what its halves saw. `Ring::finish` alone makes it.
#[derive(Debug, Drop)]
pub struct Closed {
    pub(crate) queue: u8,
    pub(crate) size: u32,
    pub(crate) length: u32,
    pub(crate) words: Vec<u64>,
    pub(crate) offered_left: Vec<u16>,
    pub(crate) returned_left: Vec<u16>,
    pub(crate) driver_held: Vec<u16>,
    pub(crate) device_held: Vec<u16>,
    pub(crate) driver_looks: u64,
    pub(crate) driver_saw: u64,
    pub(crate) device_looks: u64,
    pub(crate) device_saw: u64,
}

impl Model for Closed {
    ghost use Rattle.split_ring.specs.Finished.{FinishedRing};

    ghost Value = { FinishedRing };

    ghost view = { λ c. record { queue = c.queue; size = c.size; width = c.length; words = c.words.items; offered_left = c.offered_left.items; returned_left = c.returned_left.items; driver_held = c.driver_held.items; device_held = c.device_held.items; driver_looks = c.driver_looks; driver_saw = c.driver_saw; device_looks = c.device_looks; device_saw = c.device_saw } };
}

impl Closed {
    /// Which queue of its link it is.
    pub fn queue(&self) -> u8
        ensures { result ≡ self.now.queue }
    {
        self.queue
    }

    /// How many buffers it has.
    pub fn size(&self) -> u32
        ensures { result ≡ self.now.size }
    {
        self.size
    }

    /// How many bytes each of its buffers has.
    pub fn length(&self) -> u32
        ensures { result ≡ self.now.width }
    {
        self.length
    }

    /// Its words, in their order.
    pub fn words(&self) -> &[u64]
        ensures { result.now ≡ self.now.words }
    {
        self.words.as_slice()
    }

    /// The numbers that were offered and not fetched, oldest first.
    pub fn offered_left(&self) -> &[u16]
        ensures { result.now ≡ self.now.offered_left }
    {
        self.offered_left.as_slice()
    }

    /// The numbers that were returned and not reclaimed, oldest first.
    pub fn returned_left(&self) -> &[u16]
        ensures { result.now ≡ self.now.returned_left }
    {
        self.returned_left.as_slice()
    }

    /// The numbers that the driver holds, in rising order.
    pub fn driver_held(&self) -> &[u16]
        ensures { result.now ≡ self.now.driver_held }
    {
        self.driver_held.as_slice()
    }

    /// The numbers that the device holds, in rising order.
    pub fn device_held(&self) -> &[u16]
        ensures { result.now ≡ self.now.device_held }
    {
        self.device_held.as_slice()
    }

    /// How many looks the driver made, modulo 2^64.
    pub fn driver_looks(&self) -> u64
        ensures { result ≡ self.now.driver_looks }
    {
        self.driver_looks
    }

    /// What they answered in all, modulo 2^64.
    pub fn driver_saw(&self) -> u64
        ensures { result ≡ self.now.driver_saw }
    {
        self.driver_saw
    }

    /// How many looks the device made, modulo 2^64.
    pub fn device_looks(&self) -> u64
        ensures { result ≡ self.now.device_looks }
    {
        self.device_looks
    }

    /// What they answered in all, modulo 2^64.
    pub fn device_saw(&self) -> u64
        ensures { result ≡ self.now.device_saw }
    {
        self.device_saw
    }
}

//! Opening lanes over the rings of a link.

ghost use Rattle.std.specs.Prelude.{◌≡◌, ◌≤◌, IfOk, IsOk, vec_capacity};
ghost use Rattle.mc_base.specs.Limits.{buffer_size};
ghost use Rattle.shared_words.specs.Shape.{IsRingSize};
ghost use Rattle.shared_words.specs.Shown.{size_of};
ghost use Rattle.shared_words.specs.declared.view.Role.TheVariants as role;
ghost use Rattle.split_ring.specs.Ends.{new_end, AreHeld, IsSound};
ghost use Rattle.lane_end.specs.RingOpening.{new_buffers, queue1_sender, queue1_receiver, queue0_sender, queue0_receiver};
ghost use Rattle.lane_end.specs.RingLane.{IsRingLane};

use crate::priming::prime;
use crate::ring_recv::RingRecv;
use crate::ring_send::RingSend;
use mc_base::{Buffer, NoMemory};
use split_ring::{Device, Driver, Ring};
use std::collections::VecDeque;

/// A sender over the driver's half of queue 1.
pub type DriverSend<'a> = RingSend<'a, Driver>;

/// A receiver over the device's half of queue 1.
pub type DeviceRecv<'a> = RingRecv<'a, Device>;

/// A sender over the device's half of queue 0.
pub type DeviceSend<'a> = RingSend<'a, Device>;

/// A receiver over the driver's half of queue 0.
pub type DriverRecv<'a> = RingRecv<'a, Driver>;

/// Opens the lane over queue 1 of a link, from the driver to the device. All buffers are free at the sender, and each has 512
/// bytes.
///
/// The halves and the buffers must be as `Ring::new` returned them. It allocates nothing.
///
/// # Errors
///
/// None: the result is always `Ok`. `NoMemory` is reserved for an opening that allocates.
pub fn open_queue1<'a>(
    on: &'a Ring,
    driver: Driver,
    device: Device,
    buffers: Vec<Buffer>,
) -> Result<(DriverSend<'a>, DeviceRecv<'a>), NoMemory>
    requires queue { on.now.queue ≡ 1 }
    requires size { IsRingSize (size_of on.now.ring) }
    requires width { on.now.ring.width ≡ buffer_size }
    requires halves { (driver ≡ new_end on.now.ring) × (device ≡ new_end on.now.ring) }
    requires sound { IsSound role.Driver driver × IsSound role.Device device }
    requires buffers { buffers.items ≡ new_buffers on.now.ring }
    requires room { size_of on.now.ring ≤ vec_capacity buffers }
    ensures opens { IsOk result }
    ensures sender { IfOk result (λ r. r.0 ≡ queue1_sender on.now.ring) }
    ensures receiver { IfOk result (λ r. r.1 ≡ queue1_receiver on.now.ring) }
    ensures lane { IfOk result (λ r. IsRingLane r.0 r.1) }
{
    let send = RingSend {
        on,
        half: driver,
        free: VecDeque::from_vec(buffers),
    };
    let recv = RingRecv {
        on,
        half: device,
        shown: 0,
    };
    Ok((send, recv))
}

/// Opens the lane over queue 0 of a link, from the device to the driver. The driver offers every buffer whole, with length 512,
/// and the device fetches them all, so that all buffers are free at the sender.
///
/// The halves and the buffers must be as `Ring::new` returned them. It allocates nothing.
///
/// # Errors
///
/// None: the result is always `Ok`. `NoMemory` is reserved for an opening that allocates.
pub fn open_queue0<'a>(
    on: &'a Ring,
    mut driver: Driver,
    mut device: Device,
    buffers: Vec<Buffer>,
) -> Result<(DeviceSend<'a>, DriverRecv<'a>), NoMemory>
    requires queue { on.now.queue ≡ 0 }
    requires size { IsRingSize (size_of on.now.ring) }
    requires width { on.now.ring.width ≡ buffer_size }
    requires halves { (driver ≡ new_end on.now.ring) × (device ≡ new_end on.now.ring) }
    requires sound { IsSound role.Driver driver × IsSound role.Device device }
    requires buffers { buffers.items ≡ new_buffers on.now.ring }
    requires held { AreHeld role.Driver driver buffers.items }
    requires room { size_of on.now.ring ≤ vec_capacity buffers }
    ensures opens { IsOk result }
    ensures sender { IfOk result (λ r. r.0 ≡ queue0_sender on.now.ring) }
    ensures receiver { IfOk result (λ r. r.1 ≡ queue0_receiver on.now.ring) }
    ensures lane { IfOk result (λ r. IsRingLane r.0 r.1) }
{
    let mut free = VecDeque::from_vec(buffers);
    prime(on, &mut driver, &mut device, &mut free);
    let send = RingSend {
        on,
        half: device,
        free,
    };
    let recv = RingRecv {
        on,
        half: driver,
        shown: 0,
    };
    Ok((send, recv))
}

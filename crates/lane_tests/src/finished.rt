//! Lanes over rings, of both queues, that are finished with buffers in every place.
ghost use Rattle.std.specs.Prelude.{◌≡◌, IfOk, List};
ghost use Rattle.shared_words.specs.declared.view.Role.TheVariants as role;
ghost use Rattle.lane_end.specs.SendMoves.{SendMove};
ghost use Rattle.lane_end.specs.ReceiveMoves.{ReceiveMove};
ghost use Rattle.lane_end.specs.LaneRun.{IsLaneRun};

use crate::deeds::{keeps, looks_back, puts_three, takes};
use lane_end::{
    AnyRecv, AnySend, RecvEnd, RingHalf, RingRecv, RingSend, SendEnd, finish_lane,
    finished_ends_are_one_lane, halves_stay_of_one_ring, looks_between_meetings_are_exact,
    open_queue0, open_queue1,
};
use split_ring::{Closed, Ring};
use std::alloc::Global;
use std::test::Fail;

// Puts three frames, of which two are taken and given back and one is kept. The sender looks after the first came back, and
// puts three more.
fn plays<S: SendEnd, R: RecvEnd>(send: &mut S, recv: &mut R)
    ensures sends { (moves : List SendMove) × S.Moved send.old moves send.new }
    ensures receives { (moves : List ReceiveMove) × R.Moved recv.old moves recv.new }
{
    puts_three(send);
    takes(recv, b"a");
    looks_back(send);
    takes(recv, b"a");
    keeps(recv);
    puts_three(send);
}

/// The ring of a lane from the driver, finished after this.
fn finishes_from_driver(alloc: Global) -> Result<Closed, Fail>
    ensures { IfOk result (λ c. (xs : List SendMove) × (ys : List ReceiveMove) × IsLaneRun role.Driver 8 xs ys c) }
{
    halves_stay_of_one_ring();
    let (ring, driver, device, buffers) = Ring::new(alloc, 1, 8, 512)?;
    let Ok((send, recv)) = open_queue1(&ring, driver, device, buffers) else {
        unreachable!()
    };
    let mut send = AnySend::Driver(send);
    let mut recv = AnyRecv::Device(recv);
    plays(&mut send, &mut recv);
    let send = send.into_half();
    let recv = recv.into_half();
    Ok(finish_lane(ring, send, recv))
}

/// The ring of a lane from the device, finished after the same.
fn finishes_from_device(alloc: Global) -> Result<Closed, Fail>
    ensures { IfOk result (λ c. (xs : List SendMove) × (ys : List ReceiveMove) × IsLaneRun role.Device 8 xs ys c) }
{
    halves_stay_of_one_ring();
    let (ring, driver, device, buffers) = Ring::new(alloc, 0, 8, 512)?;
    let Ok((send, recv)) = open_queue0(&ring, driver, device, buffers) else {
        unreachable!()
    };
    let mut send = AnySend::Device(send);
    let mut recv = AnyRecv::Driver(recv);
    plays(&mut send, &mut recv);
    let send = send.into_half();
    let recv = recv.into_half();
    Ok(finish_lane(ring, send, recv))
}

/// What is in each place of a finished ring, and how often each half looked and how many entries it saw.
struct Left {
    driver_held: &'static [u16],
    offered_left: &'static [u16],
    device_held: &'static [u16],
    returned_left: &'static [u16],
    driver: (u64, u64),
    device: (u64, u64),
}

/// Whether this is what is left in a finished ring.
fn is_left(finished: Result<Closed, Fail>, due: &Left) -> Result<bool, Fail> {
    let closed = finished?;
    let mut is_due = closed.driver_held() == due.driver_held;
    is_due &= closed.offered_left() == due.offered_left;
    is_due &= closed.device_held() == due.device_held;
    is_due &= closed.returned_left() == due.returned_left;
    is_due &= (closed.driver_looks(), closed.driver_saw()) == due.driver;
    is_due &= (closed.device_looks(), closed.device_saw()) == due.device;
    Ok(is_due)
}

const FROM_DRIVER: Left = Left {
    driver_held: &[0, 6, 7],
    offered_left: &[3, 4, 5],
    device_held: &[2],
    returned_left: &[1],
    driver: (1, 1),
    device: (3, 6),
};

#[test]
fn each_place_has_its_buffers_from_the_driver(rt: HostRuntime) -> Result<(), Fail> {
    assert!(rt; is_left(finishes_from_driver(rt.alloc()), &FROM_DRIVER)?);
    Ok(())
}

const FROM_DEVICE: Left = Left {
    driver_held: &[2],
    offered_left: &[1],
    device_held: &[0, 6, 7],
    returned_left: &[3, 4, 5],
    driver: (3, 6),
    device: (1, 1),
};

#[test]
fn each_place_has_its_buffers_from_the_device(rt: HostRuntime) -> Result<(), Fail> {
    assert!(rt; is_left(finishes_from_device(rt.alloc()), &FROM_DEVICE)?);
    Ok(())
}

// Looks at what came back, puts three frames, gives one buffer back and keeps another.
fn keeps_one<H: RingHalf, G: RingHalf>(send: &mut RingSend<'_, H>, recv: &mut RingRecv<'_, G>)
    ensures sends { send.new.half.ring ≡ send.old.half.ring }
    ensures receives { recv.new.half.ring ≡ recv.old.half.ring }
{
    looks_back(send);
    puts_three(send);
    takes(recv, b"a");
    keeps(recv);
}

/// The ring of a lane from the driver, finished after this from the halves of its ends.
fn keeps_one_from_driver(alloc: Global) -> Result<Closed, Fail> {
    let (ring, driver, device, buffers) = Ring::new(alloc, 1, 4, 512)?;
    let Ok((mut send, mut recv)) = open_queue1(&ring, driver, device, buffers) else {
        unreachable!()
    };
    keeps_one(&mut send, &mut recv);
    let driver = send.into_half();
    let device = recv.into_half();
    Ok(ring.finish(driver, device))
}

/// The ring of a lane from the device, finished after the same.
fn keeps_one_from_device(alloc: Global) -> Result<Closed, Fail> {
    let (ring, driver, device, buffers) = Ring::new(alloc, 0, 4, 512)?;
    let Ok((mut send, mut recv)) = open_queue0(&ring, driver, device, buffers) else {
        unreachable!()
    };
    keeps_one(&mut send, &mut recv);
    let device = send.into_half();
    let driver = recv.into_half();
    Ok(ring.finish(driver, device))
}

const ONE_FROM_DRIVER: Left = Left {
    driver_held: &[3],
    offered_left: &[2],
    device_held: &[1],
    returned_left: &[0],
    driver: (1, 0),
    device: (2, 5),
};

#[test]
fn a_finished_ring_agrees_with_the_ends_from_the_driver(rt: HostRuntime) -> Result<(), Fail> {
    finished_ends_are_one_lane();
    looks_between_meetings_are_exact();
    assert!(rt; is_left(keeps_one_from_driver(rt.alloc()), &ONE_FROM_DRIVER)?);
    Ok(())
}

const ONE_FROM_DEVICE: Left = Left {
    driver_held: &[1],
    offered_left: &[0],
    device_held: &[3],
    returned_left: &[2],
    driver: (2, 5),
    device: (1, 0),
};

#[test]
fn a_finished_ring_agrees_with_the_ends_from_the_device(rt: HostRuntime) -> Result<(), Fail> {
    assert!(rt; is_left(keeps_one_from_device(rt.alloc()), &ONE_FROM_DEVICE)?);
    Ok(())
}

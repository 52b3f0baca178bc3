//! Ends of any kind, for code that is not generic over its ends.

use crate::opening::{DeviceRecv, DeviceSend, DriverRecv, DriverSend};
use crate::plain_recv::PlainRecv;
use crate::plain_send::PlainSend;
use crate::recv_end::RecvEnd;
use crate::send_end::SendEnd;
use mc_base::Buffer;

/// A sending end of any kind.
#[derive(Drop)]
pub enum AnySend<'a> {
    /// A sender in the same memory as its receiver.
    Plain(PlainSend),
    /// A sender over the driver's half of queue 1.
    Driver(DriverSend<'a>),
    /// A sender over the device's half of queue 0.
    Device(DeviceSend<'a>),
}

/// A receiving end of any kind.
#[derive(Drop)]
pub enum AnyRecv<'a> {
    /// A receiver in the same memory as its sender.
    Plain(PlainRecv),
    /// A receiver over the driver's half of queue 0.
    Driver(DriverRecv<'a>),
    /// A receiver over the device's half of queue 1.
    Device(DeviceRecv<'a>),
}

impl<'a> SendEnd for AnySend<'a> {
    ghost use Rattle.lane_end.specs.AnySender.{size_of_any, free_of_any, AnySends, AnySends-none, AnySends-both, AnySends-size};

    ghost size = { size_of_any };

    ghost free = { free_of_any };

    ghost Moved = { AnySends };

    ghost none = { AnySends-none };

    ghost both = { AnySends-both };

    ghost same_size = { AnySends-size };

    fn free_len(&self) -> u32 {
        match self {
            AnySend::Plain(end) => end.free_len(),
            AnySend::Driver(end) => end.free_len(),
            AnySend::Device(end) => end.free_len(),
        }
    }

    fn look(&mut self) -> u32 {
        match self {
            AnySend::Plain(end) => end.look(),
            AnySend::Driver(end) => end.look(),
            AnySend::Device(end) => end.look(),
        }
    }

    fn put(&mut self, frame: &[u8]) {
        match self {
            AnySend::Plain(end) => end.put(frame),
            AnySend::Driver(end) => end.put(frame),
            AnySend::Device(end) => end.put(frame),
        }
    }
}

impl<'a> RecvEnd for AnyRecv<'a> {
    ghost use Rattle.lane_end.specs.AnyReceiver.{size_of_any, shown_of_any, out_of_any, AnyReceives, AnyReceives-none, AnyReceives-both, AnyReceives-size};

    ghost size = { size_of_any };

    ghost shown = { shown_of_any };

    ghost out = { out_of_any };

    ghost Moved = { AnyReceives };

    ghost none = { AnyReceives-none };

    ghost both = { AnyReceives-both };

    ghost same_size = { AnyReceives-size };

    fn look(&mut self) -> u32 {
        match self {
            AnyRecv::Plain(end) => end.look(),
            AnyRecv::Driver(end) => end.look(),
            AnyRecv::Device(end) => end.look(),
        }
    }

    fn take(&mut self) -> (Buffer, u32) {
        match self {
            AnyRecv::Plain(end) => end.take(),
            AnyRecv::Driver(end) => end.take(),
            AnyRecv::Device(end) => end.take(),
        }
    }

    fn give_back(&mut self, buffer: Buffer) {
        match self {
            AnyRecv::Plain(end) => end.give_back(buffer),
            AnyRecv::Driver(end) => end.give_back(buffer),
            AnyRecv::Device(end) => end.give_back(buffer),
        }
    }
}

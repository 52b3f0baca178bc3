ghost use Rattle.std.specs.Prelude.{◌≡◌, ◌≤◌, ℕ, length};
ghost use Rattle.shared_words.specs.declared.view.Role.{Role};
ghost use Rattle.split_ring.specs.Ends.{End, writes, looks_at, takes, IsLeft, HoldsBuffer, HasWidth, IsSound};
ghost use Rattle.lane_end.specs.Opened.{given_length};

use mc_base::Buffer;
use split_ring::{Device, Driver, Ring};
use std::fmt::Debug;

/// A half of a ring, the driver's or the device's, as the ends of lanes use it. The driver writes entries by `offer` and takes
/// them by `reclaim`; the device writes by `give` and takes by `fetch`.
pub trait RingHalf: Debug + Drop {
    /// Which half it is.
    ghost role: { Role };

    /// What it wrote and took, and what its looks showed.
    ghost end: { Self → End };

    /// Loads the other half's index once, and returns how many entries are shown and not taken.
    fn look_once(&mut self, on: &Ring) -> u32
        requires ring { (end self.old).ring ≡ on.now.ring }
        ensures looked { end self.new ≡ looks_at result (end self.old) }
        ensures shown { (end self.old).shown ≤ (end self.new).shown }
        ensures sound { IsSound role (end self.new) };

    /// Takes the oldest entry shown, of which there must be one: a buffer, and the length written with it.
    fn take_next(&mut self, on: &Ring) -> (Buffer, u32)
        requires ring { (end self.old).ring ≡ on.now.ring }
        requires left { IsLeft (end self.old) }
        ensures taken { end self.new ≡ takes (result.0, result.1) (end self.old) }
        ensures fits { result.1 ≤ (end self.old).ring.width }
        ensures wide { HasWidth (end self.new) result.0 }
        ensures sound { IsSound role (end self.new) };

    /// Writes an entry: a buffer that this half holds, with the length of the frame in it.
    fn write(&mut self, on: &Ring, buffer: Buffer, len: u32)
        requires ring { (end self.old).ring ≡ on.now.ring }
        requires holds { HoldsBuffer role (end self.old) buffer }
        requires fits { len ≤ (end self.old).ring.width }
        ensures written { end self.new ≡ writes (buffer, len) (end self.old) }
        ensures sound { IsSound role (end self.new) };

    /// Writes an entry: a buffer that this half holds, without a frame. The driver writes the length of the whole buffer, and the
    /// device 0.
    fn write_back(&mut self, on: &Ring, buffer: Buffer)
        requires ring { (end self.old).ring ≡ on.now.ring }
        requires holds { HoldsBuffer role (end self.old) buffer }
        ensures written { end self.new ≡ writes (buffer, given_length role (end self.old).ring) (end self.old) }
        ensures sound { IsSound role (end self.new) };
}

impl RingHalf for Driver {
    ghost use Rattle.shared_words.specs.declared.view.Role.TheVariants as roles;

    ghost role = { roles.Driver };

    ghost end = { λ d. d };

    fn look_once(&mut self, on: &Ring) -> u32 {
        self.look(on)
    }

    fn take_next(&mut self, on: &Ring) -> (Buffer, u32) {
        let Some(next) = self.reclaim(on) else {
            unreachable!()
        };
        next
    }

    fn write(&mut self, on: &Ring, buffer: Buffer, len: u32) {
        self.offer(on, buffer, len);
    }

    fn write_back(&mut self, on: &Ring, buffer: Buffer) {
        self.offer(on, buffer, on.length());
    }
}

impl RingHalf for Device {
    ghost use Rattle.shared_words.specs.declared.view.Role.TheVariants as roles;

    ghost role = { roles.Device };

    ghost end = { λ d. d };

    fn look_once(&mut self, on: &Ring) -> u32 {
        self.look(on)
    }

    fn take_next(&mut self, on: &Ring) -> (Buffer, u32) {
        let Some(next) = self.fetch(on) else {
            unreachable!()
        };
        next
    }

    fn write(&mut self, on: &Ring, buffer: Buffer, len: u32) {
        self.give(on, buffer, len);
    }

    fn write_back(&mut self, on: &Ring, buffer: Buffer) {
        self.give(on, buffer, 0);
    }
}

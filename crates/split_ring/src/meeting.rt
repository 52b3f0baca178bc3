//! How the halves of a ring meet.
ghost use Rattle.std.specs.Prelude.{◌≡◌, ◌≤◌, length};
ghost use Rattle.shared_words.specs.Entry.{IsPrefix};
ghost use Rattle.shared_words.specs.declared.view.Role.TheVariants as role;
ghost use Rattle.split_ring.specs.Ends.{shows, IsSound};

use crate::device::Device;
use crate::driver::Driver;
use crate::ring::Ring;

impl Ring {
    /// Shows each half all that the other wrote. No list changes, and no look is counted. Both halves are of this ring.
    pub fn meet(&self, driver: &mut Driver, device: &mut Device)
        requires rings { (driver.old.ring ≡ self.now.ring) × (device.old.ring ≡ self.now.ring) }
        ensures driver { driver.new ≡ shows (length device.old.written) driver.old }
        ensures device { device.new ≡ shows (length driver.old.written) device.old }
        ensures driver_shown { driver.old.shown ≤ length device.old.written }
        ensures device_shown { device.old.shown ≤ length driver.old.written }
        ensures fetched { IsPrefix device.old.taken driver.old.written }
        ensures reclaimed { IsPrefix driver.old.taken device.old.written }
        ensures sound { IsSound role.Driver driver.new × IsSound role.Device device.new }
    {
        self.table.tell(&mut driver.half, &mut device.half);
        self.table.tell(&mut device.half, &mut driver.half);
        driver.counts.show(device.half.written());
        device.counts.show(driver.half.written());
    }
}

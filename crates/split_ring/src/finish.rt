//! How a ring is finished.
ghost use Rattle.std.specs.Prelude.{◌≡◌, ◌+◌, ◌<◌, ◌≤◌, ℕ, [], ◌∷◌, ◌++◌, if◌then◌else◌, length, vec_capacity, vec_len};
ghost use Rattle.std.specs.List.Sorted.{IsStrictlyIncreasing};
ghost use Rattle.shared_words.specs.Entry.{often};
ghost use Rattle.shared_words.specs.Layout.{word_count, field_at};
ghost use Rattle.shared_words.specs.Shape.{IsRingSize};
ghost use Rattle.split_ring.specs.Finished.{IsFinished};
ghost use Rattle.split_ring.specs.Kept.{flag_count};
ghost use Rattle.split_ring.specs.Left.{number_field, numbers_standing, between};

use crate::closed::Closed;
use crate::device::Device;
use crate::driver::Driver;
use crate::ring::Ring;
use shared_words::{ClosedTable, Field, word_of};

/// The entries that one half wrote and the other did not take.
#[derive(Clone, Copy)]
enum Entries {
    Offered,
    Returned,
}

impl Entries {
    // The field with the number at a place.
    fn number(self, place: u16) -> Field
        ensures { result ≡ number_field self place }
    {
        match self {
            Entries::Offered => Field::AvailRing(place),
            Entries::Returned => Field::UsedId(place),
        }
    }
}

// The numbers of the entries from one count on to below another, both modulo 65536.
fn numbers_left(
    words: &[u64],
    size: u32,
    entries: Entries,
    from: u16,
    to: u16,
    mut out: Vec<u16>,
) -> Vec<u16>
    requires size { IsRingSize size }
    requires words { length words.now ≡ word_count size }
    requires small { (p : ℕ) → p < size → field_at words.now size (number_field entries p) < 65536 }
    requires room { (out.items ≡ []) × (between from to ≤ vec_capacity out) }
    ensures { result.items ≡ numbers_standing words.now size entries from (between from to) }
{
    for n in 0..to.wrapping_sub(from) {
        let place = from.wrapping_add(n) & (size - 1) as u16;
        out.push_reserved(words[word_of(size, entries.number(place))] as u16);
    }
    out
}

fn add(out: &mut Vec<u16>, id: u16, is_held: bool)
    requires { vec_len out.old < vec_capacity out.old }
    ensures items { out.new.items ≡ (if is_held then out.old.items ++ id ∷ [] else out.old.items) }
    ensures len { vec_len out.new ≤ vec_len out.old + 1 }
    ensures room { vec_capacity out.new ≡ vec_capacity out.old }
{
    if is_held {
        out.push_reserved(id);
    }
}

// The numbers whose flag is set, in rising order.
fn numbers_held(held: &[bool], mut out: Vec<u16>) -> Vec<u16>
    requires few { length held.now ≤ 65536 }
    requires room { (out.items ≡ []) × (length held.now ≤ vec_capacity out) }
    ensures each { (x : ℕ) → often x result.items ≡ flag_count held.now x }
    ensures rising { IsStrictlyIncreasing result.items }
{
    for id in 0..held.len() {
        add(&mut out, id as u16, held[id]);
    }
    out
}

impl Ring {
    /// Ends the ring, and returns what is left of it. Both halves are of this ring. It takes no memory.
    pub fn finish(self, driver: Driver, device: Device) -> Closed
        requires driver { driver.ring ≡ self.ring }
        requires device { device.ring ≡ self.ring }
        ensures { IsFinished self driver device result }
    {
        let Ring {
            table,
            queue,
            size,
            length,
            room,
        } = self;
        let Driver {
            half: driver,
            counts: drove,
            held: driver_held,
        } = driver;
        let Device {
            half: device,
            counts: served,
            held: device_held,
        } = device;
        let ClosedTable { words, home } = table.close(driver, device);
        drop(home);
        let all = words.as_slice();
        let offered = all[word_of(size, Field::AvailIdx)] as u16;
        let returned = all[word_of(size, Field::UsedIdx)] as u16;
        let offered_left = numbers_left(
            all,
            size,
            Entries::Offered,
            served.taken,
            offered,
            room.offered_left,
        );
        let returned_left = numbers_left(
            all,
            size,
            Entries::Returned,
            drove.taken,
            returned,
            room.returned_left,
        );
        Closed {
            queue,
            size,
            length,
            words,
            offered_left,
            returned_left,
            driver_held: numbers_held(driver_held.as_slice(), room.driver_held),
            device_held: numbers_held(device_held.as_slice(), room.device_held),
            driver_looks: drove.looks,
            driver_saw: drove.saw,
            device_looks: served.looks,
            device_saw: served.saw,
        }
    }
}

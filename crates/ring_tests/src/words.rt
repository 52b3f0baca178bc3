ghost use Rattle.std.specs.Prelude.{◌≡◌, ◌≤◌, length};
ghost use Rattle.mc_base.specs.Limits.{longest_buffer};
ghost use Rattle.shared_words.specs.declared.view.Role.TheVariants as role;
ghost use Rattle.shared_words.specs.declared.view.Staged.TheVariants.{Idle};
ghost use Rattle.shared_words.specs.Shown.{IsHalfOf, HoldsNumber};

use mc_base::Buffer;
use shared_words::{Field, Half, RingFault, RingTable, may_cross_threads, word_of};
use std::alloc::Global;
use std::process::Abort;

/// A queue's size, one of its descriptors and places, and the words of the fields, in the order of `Field`.
type Row = (u32, u16, [usize; 11]);

const WORDS: [Row; 3] = [
    (2, 1, [4, 5, 6, 7, 8, 9, 11, 12, 13, 16, 17]),
    (4, 3, [12, 13, 14, 15, 16, 17, 21, 22, 23, 30, 31]),
    (
        256,
        255,
        [
            1020, 1021, 1022, 1023, 1024, 1025, 1281, 1282, 1283, 1794, 1795,
        ],
    ),
];

/// The words of the fields of a descriptor and a place, where the queue has them.
fn words_at(size: u32, at: u16) -> Option<[usize; 11]> {
    if size > 256 || u32::from(at) >= size {
        return None;
    }
    Some([
        word_of(size, Field::DescAddr(at)),
        word_of(size, Field::DescLen(at)),
        word_of(size, Field::DescFlags(at)),
        word_of(size, Field::DescNext(at)),
        word_of(size, Field::AvailFlags),
        word_of(size, Field::AvailIdx),
        word_of(size, Field::AvailRing(at)),
        word_of(size, Field::UsedFlags),
        word_of(size, Field::UsedIdx),
        word_of(size, Field::UsedId(at)),
        word_of(size, Field::UsedLen(at)),
    ])
}

fn assert_words(rt: &impl Abort, rows: &[Row]) {
    for (size, at, words) in rows {
        assert!(rt; words_at(*size, *at) == Some(*words), "{size}");
    }
}

#[test]
fn the_words_are_those_of_the_layout(rt: HostRuntime) {
    assert_words(&rt, &WORDS);
}

// Offers the buffer, whose number is 1, with the length 26.
fn offer(table: &RingTable, driver: &mut Half, buffer: Buffer)
    requires driver { IsHalfOf table.now role.Driver driver.old × (driver.old.view.staged ≡ Idle) }
    requires holds { (buffer.number ≡ 1) × HoldsNumber driver.old 1 }
    requires fits { 26 ≤ table.now.ring.width }
    requires bytes { length buffer.bytes ≡ table.now.ring.width }
    ensures { IsHalfOf table.now role.Driver driver.new × (driver.new.view.staged ≡ Idle) }
{
    table.put_len(driver, 1, 26);
    table.put_avail(driver, 1);
    table.publish_avail(driver, buffer);
}

// Whether one is shown, and fetched as it was offered.
fn is_fetched(table: &RingTable, device: &mut Half) -> bool
    requires { IsHalfOf table.now role.Device device.old × (device.old.view.staged ≡ Idle) }
    ensures { IsHalfOf table.now role.Device device.new × (device.new.view.staged ≡ Idle) }
{
    if table.look_avail(device) != 1 {
        return false;
    }
    let id = table.read_avail(device);
    let (buffer, len) = table.fetch_len(device);
    id == 1 && buffer.number() == 1 && len == 26
}

// Whether an offer over new words is fetched as it was made, and all of them come back.
fn goes_over(alloc: Global) -> bool {
    let Ok((table, mut driver, mut device, mut buffers)) = RingTable::new(alloc, 1, 2, 512) else {
        return false;
    };
    offer(&table, &mut driver, buffers.remove(1));
    let is_fetched = is_fetched(&table, &mut device);
    let closed = table.close(driver, device);
    is_fetched && closed.words.len() == 18 && closed.home.len() == 2
}

#[test]
fn an_offer_is_fetched_step_by_step(rt: HostRuntime) {
    may_cross_threads();
    assert!(rt; goes_over(rt.alloc()));
}

/// Which of the queue, the size and the length the words are refused for, if they are.
fn refused_for(alloc: Global, queue: u8, size: u32, length: u32) -> Option<&'static str> {
    match RingTable::new(alloc, queue, size, length).err() {
        Some(RingFault::Queue) => Some("queue"),
        Some(RingFault::Size) => Some("size"),
        Some(RingFault::Length) => Some("length"),
        _ => None,
    }
}

static REFUSED: [(u8, u32, &str); 9] = [
    (0, 0, "size"),
    (0, 1, "size"),
    (0, 3, "size"),
    (0, 257, "size"),
    (0, 32_767, "size"),
    (0, 32_769, "size"),
    (0, 65_536, "size"),
    (2, 2, "queue"),
    (2, 3, "queue"),
];

#[test]
fn other_queues_and_sizes_are_refused(rt: HostRuntime) {
    for (queue, size, fault) in &REFUSED {
        assert!(rt;
            refused_for(rt.alloc(), *queue, *size, 512) == Some(*fault),
            "{size}"
        );
        assert!(rt;
            refused_for(rt.alloc(), *queue, *size, 100) == Some(*fault),
            "{size}"
        );
    }
}

static SIZES: [u32; 15] = [
    2, 4, 8, 16, 32, 64, 128, 256, 512, 1024, 2048, 4096, 8192, 16_384, 32_768,
];

#[test]
fn every_power_of_two_up_to_32768_is_a_size(rt: HostRuntime) {
    for size in &SIZES {
        assert!(rt; refused_for(rt.alloc(), 0, *size, 64).is_none(), "{size}");
    }
}

/// Whether each length above this one, below the next multiple of 64, is refused.
fn all_between_are_refused(alloc: Global, multiple: u32) -> bool
    requires { multiple ≤ longest_buffer }
{
    (multiple + 1..multiple + 64).all(|length| refused_for(alloc, 1, 2, length) == Some("length"))
}

#[test]
fn only_multiples_of_64_up_to_4096_are_lengths(rt: HostRuntime) {
    assert!(rt; refused_for(rt.alloc(), 1, 2, 0) == Some("length"));
    assert!(rt; refused_for(rt.alloc(), 1, 2, 4160) == Some("length"));
    assert!(rt; all_between_are_refused(rt.alloc(), 0));
    for k in 1..65 {
        assert!(rt; refused_for(rt.alloc(), 1, 2, 64 * k).is_none(), "{k}");
        assert!(rt; all_between_are_refused(rt.alloc(), 64 * k), "{k}");
    }
}

//! The numbers of the buffers in which a domain puts frames.

ghost use Rattle.std.specs.Prelude.{◌≡◌, ◌<◌, ◌≤◌, true, IfOk, IfSome, OnOk, is_some, length, nat_lt};
ghost use Rattle.std.specs.List.{range_with_len};
ghost use Rattle.ring_numbers.specs.SenderNumbers.{after_sending, are_put, at_start, comes_back, number_at, puts};

use mc_base::NoMemory;
use std::alloc::Global;
use std::collections::VecDeque;
use std::marker::Model;

/// The buffers of a lane over a ring as its sender knows them: which are free, and in which it put each of its frames.
#[derive(Debug, Drop)]
pub struct SenderNumbers {
    used: Vec<(u16, u32)>,
    free: VecDeque<u16>,
    given: VecDeque<u32>,
}

impl Model for SenderNumbers {
    ghost use Rattle.ring_numbers.specs.SenderNumbers.{Numbers};

    ghost Value = { Numbers };

    ghost view = { λ s. record { used = s.used.items; free = s.free.items; given = s.given.items } };
}

impl SenderNumbers {
    /// All buffers of a lane of this size are free. `given` has the places, among the frames that will be put, of those whose buffers the
    /// receiver gives back, in the order in which it does so.
    ///
    /// # Errors
    ///
    /// `NoMemory` where an allocation fails.
    pub fn new(alloc: Global, size: u16, given: &[u32]) -> Result<SenderNumbers, NoMemory>
        ensures { IfOk result (λ s. s ≡ at_start size given.now) }
    {
        Ok(SenderNumbers {
            used: Vec::new(alloc),
            free: all_free(alloc, size)?,
            given: queue_of(alloc, given)?,
        })
    }

    /// Puts a frame of so many bytes. Where no buffer is free, nothing is put.
    ///
    /// # Errors
    ///
    /// `NoMemory` where an allocation fails.
    pub fn put(&mut self, bytes: u32) -> Result<(), NoMemory>
        ensures { OnOk result (self.new ≡ after_sending self.old (puts bytes)) }
    {
        let Some(number) = self.free.pop_front() else {
            return Ok(());
        };
        match self.used.push((number, bytes)) {
            Ok(()) => Ok(()),
            Err(_) => Err(NoMemory),
        }
    }

    /// Has so many buffers come back, the next ones that are given back, if all of them are of frames that were put. Returns whether they
    /// are.
    ///
    /// # Errors
    ///
    /// `NoMemory` where an allocation fails.
    pub fn come_back(&mut self, count: u32) -> Result<bool, NoMemory>
        ensures put { IfOk result (λ is. is ≡ are_put self.old count) }
        ensures state { IfOk result (λ is. is ≡ true → self.new ≡ after_sending self.old (comes_back count)) }
    {
        for _buffer in 0..count {
            let Some(place) = self.given.pop_front() else {
                return Ok(true);
            };
            let Some(number) = number_in(&self.used, place) else {
                return Ok(false);
            };
            if self.free.push_back(number).is_err() {
                return Err(NoMemory);
            }
        }
        Ok(true)
    }

    /// The number of the buffer of each frame that was put, with the frame's length.
    pub fn used(&self) -> &[(u16, u32)]
        ensures { result.now ≡ self.now.used }
    {
        &self.used
    }
}

/// The number of the buffer of the frame at a place, if so many frames were put.
pub(crate) fn number_in(used: &[(u16, u32)], place: u32) -> Option<u16>
    ensures number { IfSome result (λ number. number ≡ number_at used.now place) }
    ensures within { is_some result ≡ nat_lt place (length used.now) }
{
    let (number, _) = used.get(place as usize)?;
    Some(*number)
}

/// The numbers of all buffers of a lane of this size.
fn all_free(alloc: Global, size: u16) -> Result<VecDeque<u16>, NoMemory>
    ensures { IfOk result (λ free. free.items ≡ range_with_len 0 size) }
{
    let mut free = VecDeque::new(alloc);
    for number in 0..size {
        if free.push_back(number).is_err() {
            return Err(NoMemory);
        }
    }
    Ok(free)
}

fn queue_of(alloc: Global, places: &[u32]) -> Result<VecDeque<u32>, NoMemory>
    ensures { IfOk result (λ queue. queue.items ≡ places.now) }
{
    let mut queue = VecDeque::new(alloc);
    for place in places {
        if queue.push_back(*place).is_err() {
            return Err(NoMemory);
        }
    }
    Ok(queue)
}

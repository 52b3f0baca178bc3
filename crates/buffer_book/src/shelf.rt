//! The buffers of one peer, and the items in them.
//!
//! A buffer stands at the place of its number. An item stands at the place of its name, which is the number of the first
//! frame that it had; that frame may be given back before the others. The frames are linked by number, oldest first.
//!
//! A name may come into use again while a lent item still has it. That item then stands aside, at the place of its last
//! frame, which belongs to it alone and stays until the item ends.
ghost use Rattle.std.specs.Prelude.{◌≡◌, ◌<◌, ◌+◌, ◌==◌, ◌^◌, ◌↔◌, IfOk, IfSome, IsSome, IsNone, Some, None, length, option_copied, option_map, option_and_then, replicate, sum_by};
ghost use Rattle.buffer_book.specs.Book.{empty_shelf, item_as, item_on, item_of_shelf, kept_on_place, place_aside, begun, moved_aside, enqueued, joined, lent_on, taken, taken_named, taken_aside, is_single, frame_on, count_of, queued_frames, lent_frames, aside_frames, item_aside, HoldsOnce};
ghost use Rattle.buffer_book.specs.Runs.{columns_of, empty_columns, run_of_item, head_weight, queued_weight, lent_weight, resting_weight};

use crate::cell::{self, Cell, Resting, Run, State};
use crate::held::HeldBuffer;
use crate::places::Places;
use mc_base::NoMemory;
use std::alloc::Global;
use std::marker::Model;

/// For each number of a peer's buffers what stands there, and the item aside whose last frame has the number.
#[derive(Debug, Drop)]
pub struct PeerShelf {
    peer: u8,
    cells: Vec<Cell>,
    aside: Vec<Option<Resting>>,
    aside_count: u32,
}

impl Model for PeerShelf {
    ghost use Rattle.buffer_book.specs.Book.{Shelf};
    ghost use Rattle.buffer_book.specs.Runs.{columns_of, shelf_of_columns, IsSound};

    ghost Value = { Shelf };

    ghost view = { λ s. shelf_of_columns s.peer (columns_of s.cells.items) s.aside.items };

    ghost invariant = { λ s. IsSound (columns_of s.cells.items) s.aside.items s.aside_count };
}

impl PeerShelf {
    /// A shelf for so many buffers, none of which is held.
    pub fn new(alloc: Global, peer: u8, size: u32) -> Result<PeerShelf, NoMemory>
        ensures { IfOk result (λ s. s ≡ empty_shelf (peer, size)) }
    {
        Ok(PeerShelf {
            peer,
            cells: free_cells(alloc, size)?,
            aside: none_aside(alloc, size)?,
            aside_count: 0,
        })
    }

    pub fn is_of(&self, peer: u8) -> bool
        ensures { result ≡ (self.now.peer == peer) }
    {
        self.peer == peer
    }

    /// How many buffers the peer has.
    pub fn size(&self) -> usize
        ensures { result ≡ length self.now.places }
    {
        let cells: &[Cell] = &self.cells;
        cells.len()
    }

    /// Queues an item of one frame, which gives it its name. A lent item of that name stands aside.
    pub fn put(&mut self, number: u16, held: HeldBuffer)
        requires away { kept_on_place self.old.places number ≡ None }
        requires within { number < length self.old.places }
        requires free { IsNone (item_as self.old.items number None) }
        requires number { held.buffer.number ≡ number }
        ensures { self.new ≡ enqueued number held self.old }
    {
        self.free_name(number);
        self.begin(number, held);
    }

    /// Moves a lent item of this name aside.
    fn free_name(&mut self, name: u16)
        requires within { name < length self.old.places }
        requires unqueued { IsNone (item_as self.old.items name None) }
        ensures { self.new ≡ moved_aside name self.old }
    {
        if let State::Lent(serial) = self.cells[name as usize].state {
            self.move_aside(name, serial);
        }
    }

    /// Moves the item of this name aside, which is lent.
    fn move_aside(&mut self, name: u16, serial: u64)
        requires { option_map (λ i. i.lent) (item_on self.old.items name) ≡ Some (Some serial) }
        ensures { self.new ≡ moved_aside name self.old }
    {
        let cell = &self.cells[name as usize];
        let last = cell.last;
        let resting = Resting {
            name,
            first: cell.first,
            more: cell.more,
            serial,
        };
        cell::free(&mut self.cells, name);
        self.aside[last as usize] = Some(resting);
        self.aside_count += 1;
    }

    /// Queues an item of one frame, whose name is free.
    fn begin(&mut self, number: u16, held: HeldBuffer)
        requires away { kept_on_place self.old.places number ≡ None }
        requires within { number < length self.old.places }
        requires free { IsNone (item_on self.old.items number) }
        requires number { held.buffer.number ≡ number }
        ensures { self.new ≡ begun number held self.old }
    {
        cell::hold(&mut self.cells, number, held);
        cell::name(&mut self.cells, number);
    }

    /// Appends a frame to the item of this name.
    pub fn join(&mut self, name: u16, number: u16, held: HeldBuffer)
        requires item { IsSome (item_on self.old.items name) }
        requires away { kept_on_place self.old.places number ≡ None }
        requires within { number < length self.old.places }
        requires number { held.buffer.number ≡ number }
        ensures { self.new ≡ joined name number held self.old }
    {
        let last = self.cells[name as usize].last;
        cell::link(&mut self.cells, last, number);
        cell::lengthen(&mut self.cells, name, number);
        cell::hold(&mut self.cells, number, held);
    }

    /// Lends the item of this name.
    pub fn lend(&mut self, name: u16, serial: u64)
        requires { IsSome (item_on self.old.items name) }
        ensures { self.new ≡ lent_on name serial self.old }
    {
        cell::lend(&mut self.cells, name, serial);
    }

    /// Takes the oldest frame of the item of this name, where it is in this state, and tells whether it was the last.
    pub fn take(&mut self, name: u16, lent: Option<u64>) -> Option<(HeldBuffer, bool)>
        ensures none { IsNone result ↔ IsNone (item_of_shelf self.old name lent) }
        ensures frame { option_map (λ r. r.0) result ≡ option_and_then (frame_on self.old 0) (item_of_shelf self.old name lent) }
        ensures last { option_map (λ r. r.1) result ≡ option_map is_single (item_of_shelf self.old name lent) }
        ensures number { option_map (λ r. r.0.buffer.number) result ≡ option_map (λ i. i.first) (item_of_shelf self.old name lent) }
        ensures shelf { self.new ≡ taken name lent self.old }
        ensures stays { IsNone result → self.new ≡ self.old }
    {
        match cell::named_run(&self.cells, name, lent) {
            Some(run) => Some(self.take_named(name, run)),
            None => self.take_aside(name, lent),
        }
    }

    /// Takes the oldest frame of the item that this name stands for.
    fn take_named(&mut self, name: u16, run: Run) -> (HeldBuffer, bool)
        requires { option_map run_of_item (item_on self.old.items name) ≡ Some run }
        ensures frame { Some result.0 ≡ option_and_then (frame_on self.old 0) (item_on self.old.items name) }
        ensures last { Some result.1 ≡ option_map is_single (item_on self.old.items name) }
        ensures number { Some result.0.buffer.number ≡ option_map (λ i. i.first) (item_on self.old.items name) }
        ensures shelf { self.new ≡ taken_named name self.old }
    {
        let (held, next) = cell::take_held(&mut self.cells, run.first);
        cell::shorten(&mut self.cells, name, next);
        (held, run.more == 0)
    }

    /// Takes the oldest frame of the item of this name that stands aside, where there is one in this state.
    fn take_aside(&mut self, name: u16, lent: Option<u64>) -> Option<(HeldBuffer, bool)>
        ensures none { IsNone result ↔ IsNone (item_aside self.old.aside name lent) }
        ensures frame { option_map (λ r. r.0) result ≡ option_and_then (frame_on self.old 0) (item_aside self.old.aside name lent) }
        ensures last { option_map (λ r. r.1) result ≡ option_map is_single (item_aside self.old.aside name lent) }
        ensures number { option_map (λ r. r.0.buffer.number) result ≡ option_map (λ i. i.first) (item_aside self.old.aside name lent) }
        ensures shelf { self.new ≡ taken_aside (place_aside self.old.aside name lent) self.old }
        ensures stays { IsNone result → self.new ≡ self.old }
    {
        let place = self.place_aside(name, lent)?;
        let resting = self.aside[place]?;
        let (held, next) = cell::take_held(&mut self.cells, resting.first);
        cell::shorten_aside(&mut self.aside, &mut self.aside_count, place, resting, next);
        Some((held, resting.more == 0))
    }

    /// The place of the item of this name and state that stands aside.
    fn place_aside(&self, name: u16, lent: Option<u64>) -> Option<usize>
        ensures place { result ≡ place_aside self.now.aside name lent }
        ensures within { IfSome result (λ l. l < length self.now.aside) }
    {
        let serial = lent?;
        if self.aside_count == 0 {
            return None;
        }
        cell::position_aside(&self.aside, name, serial)
    }

    /// The frames of the item of this name, where it is in this state.
    fn run(&self, name: u16, lent: Option<u64>) -> Option<Run>
        ensures { result ≡ option_map run_of_item (item_of_shelf self.now name lent) }
    {
        if let Some(run) = cell::named_run(&self.cells, name, lent) {
            return Some(run);
        }
        let resting = self.aside[self.place_aside(name, lent)?]?;
        Some(Run {
            first: resting.first,
            more: resting.more,
        })
    }

    /// Counts the frames of the item of this name, where it is in this state.
    pub fn frames(&self, name: u16, lent: Option<u64>) -> Option<u32>
        ensures { result ≡ option_map count_of (item_of_shelf self.now name lent) }
    {
        let _ = &self.peer;
        Some(self.run(name, lent)?.more + 1)
    }

    /// The n-th frame of the item of this name, where it is in this state.
    pub fn frame(&self, name: u16, lent: Option<u64>, n: u32) -> Option<&HeldBuffer>
        requires { IfSome (item_of_shelf self.now name lent) (λ i. n < count_of i) }
        ensures none { IsNone result ↔ IsNone (item_of_shelf self.now name lent) }
        ensures frame { option_copied result ≡ option_and_then (frame_on self.now n) (item_of_shelf self.now name lent) }
    {
        let mut at = self.run(name, lent)?.first;
        for _ in 0..n {
            at = self.cells[at as usize].next;
        }
        self.cells[at as usize].held.as_ref()
    }

    /// Counts the frames of items in queues, and those of lent items.
    pub fn count(&self) -> Places
        ensures queue { result.queue ≡ sum_by queued_frames self.now.items }
        ensures lent { result.lent ≡ sum_by lent_frames self.now.items + sum_by aside_frames self.now.aside }
    {
        let named = count_named(&self.cells);
        if self.aside_count == 0 {
            return named;
        }
        Places {
            lent: named.lent + count_aside(&self.aside),
            ..named
        }
    }

    /// Shows that each frame of an item is held, and in no other item.
    pub fn each_held_once(&self)
        ensures { HoldsOnce self.now }
    {
        let _ = &self.peer;
    }
}

fn free_cells(alloc: Global, size: u32) -> Result<Vec<Cell>, NoMemory>
    ensures { IfOk result (λ v. columns_of v.items ≡ empty_columns size) }
{
    let Ok(mut cells) = Vec::with_capacity(alloc, size as usize) else {
        return Err(NoMemory);
    };
    for _ in 0..size {
        if cells.push(cell::empty()).is_err() {
            return Err(NoMemory);
        }
    }
    Ok(cells)
}

fn none_aside(alloc: Global, size: u32) -> Result<Vec<Option<Resting>>, NoMemory>
    ensures { IfOk result (λ v. v.items ≡ replicate size None) }
{
    let Ok(mut aside) = Vec::with_capacity(alloc, size as usize) else {
        return Err(NoMemory);
    };
    for _ in 0..size {
        if aside.push(None).is_err() {
            return Err(NoMemory);
        }
    }
    Ok(aside)
}

fn count_named(cells: &[Cell]) -> Places
    requires { sum_by head_weight (columns_of cells.now).heads < 2 ^ 32 }
    ensures queue { result.queue ≡ sum_by queued_weight (columns_of cells.now).heads }
    ensures lent { result.lent ≡ sum_by lent_weight (columns_of cells.now).heads }
{
    let mut queue = 0;
    let mut lent = 0;
    for cell in cells {
        match cell.state {
            State::Free => {}
            State::Queued => queue += cell.more + 1,
            State::Lent(_) => lent += cell.more + 1,
        }
    }
    Places { queue, lent }
}

fn count_aside(aside: &[Option<Resting>]) -> u32
    requires { sum_by resting_weight aside.now < 2 ^ 32 }
    ensures { result ≡ sum_by resting_weight aside.now }
{
    let mut count = 0;
    for resting in aside {
        if let Some(resting) = resting {
            count += resting.more + 1;
        }
    }
    count
}

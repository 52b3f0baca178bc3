//! The cells of a queue, linked by index.
//!
//! Each message that waits stands in a cell, and each such cell in two lists: all messages in order of arrival, linked both
//! ways, and the messages of its priority in order of arrival. The cells that are free are a third list.

ghost use Rattle.std.specs.Prelude.{◌≡◌, ◌≢◌, ◌<◌, ◌+◌, ◌-◌, ◌++◌, ◌∷◌, ◌↔◌, [], Some, IfOk, IfSome, IsNone, length, set, drop, find};
ghost use Rattle.std.specs.Vec.{vec_len};
ghost use Rattle.board_model.specs.Choice.{best, oldest, without_best};
ghost use Rattle.message_queue.specs.Linked.{at, upto, is_place, without_place};
ghost use Rattle.message_queue.specs.Queue.{waiting};
ghost use Rattle.message_queue.specs.Cells.{columns_of, with_link, with_next, with_same, with_held, waiting_of, waiting_in, waiting_at, held_in, order_of, room_of, IsSound, IsFirst};

use crate::entry::Entry;
use mc_base::{NoMemory, Priority, Slot};
use std::alloc::Global;

/// Place 0 holds no message: in the order of arrival it stands before the oldest and after the newest, and in the other
/// lists it says that there is no cell.
const NONE: u32 = 0;

/// A place for a message, with the places of its neighbours.
#[derive(Debug, Drop)]
pub struct Cell {
    pub entry: Entry,
    /// The next in order of arrival, or the next free cell.
    pub next: u32,
    /// The one before in order of arrival.
    pub prev: u32,
    /// The next of the same priority.
    pub same: u32,
}

/// The cells, and where each list begins.
#[derive(Debug, Drop)]
pub struct Cells {
    pub cells: Vec<Cell>,
    /// The oldest of each priority.
    pub first: [u32; 4],
    /// The newest of each priority, where there is one.
    pub last: [u32; 4],
    /// The first free cell.
    pub free: u32,
    /// How many messages wait.
    pub len: u32,
}

impl Cells {
    /// Makes so many free cells.
    ///
    /// # Errors
    ///
    /// `NoMemory` where they cannot be reserved.
    pub fn new(alloc: Global, slots: u32) -> Result<Cells, NoMemory>
        ensures sound { IfOk result (λ c. IsSound c) }
        ensures empty { IfOk result (λ c. waiting_in c ≡ []) }
        ensures room { IfOk result (λ c. room_of c ≡ slots) }
    {
        Ok(Cells {
            cells: free_cells(alloc, slots)?,
            first: [NONE; 4],
            last: [NONE; 4],
            free: slots,
            len: 0,
        })
    }

    /// Returns the place of the oldest message of any priority.
    pub fn oldest(&self) -> Option<u32>
        requires { IsSound self.now }
        ensures none { IsNone result ↔ (waiting_in self.now ≡ []) }
        ensures first { IfSome result (λ o. IsFirst self.now o) }
        ensures oldest { IfSome result (λ o. oldest (waiting_in self.now) ≡ Some (held_in self.now o)) }
        ensures rest { IfSome result (λ o. waiting_at self.now (without_place (order_of self.now) o) ≡ drop 1 (waiting_in self.now)) }
    {
        let place = self.cells[0].next;
        if place == NONE {
            return None;
        }
        Some(place)
    }

    /// Returns the place of the oldest message of the best priority.
    pub fn best(&self) -> Option<u32>
        requires { IsSound self.now }
        ensures none { IsNone result ↔ (waiting_in self.now ≡ []) }
        ensures first { IfSome result (λ o. IsFirst self.now o) }
        ensures best { IfSome result (λ o. best (λ w. w.priority) (waiting_in self.now) ≡ Some (held_in self.now o)) }
        ensures rest { IfSome result (λ o. waiting_at self.now (without_place (order_of self.now) o) ≡ without_best (λ w. w.priority) (waiting_in self.now)) }
    {
        first_place(&self.first)
    }

    /// Returns the slot of the message at this place.
    pub fn slot(&self, place: u32) -> Slot
        requires sound { IsSound self.now }
        requires first { IsFirst self.now place }
        ensures { result ≡ (held_in self.now place).slot }
    {
        self.cells[place as usize].entry.slot
    }

    /// Queues a message last. A cell must be free.
    pub fn append(&mut self, entry: Entry)
        requires sound { IsSound self.old }
        requires room { self.old.len < room_of self.old }
        ensures sound { IsSound self.new }
        ensures waiting { waiting_in self.new ≡ waiting_in self.old ++ waiting_of entry ∷ [] }
        ensures room { length self.new.cells.items ≡ length self.old.cells.items }
        ensures len { self.new.len ≡ self.old.len + 1 }
    {
        let place = self.free;
        let newest = self.cells[0].prev;
        let of = entry.priority.number() as usize;
        self.free = self.cells[place as usize].next;
        link(&mut self.cells, newest, place);
        link(&mut self.cells, place, NONE);
        fill(&mut self.cells, place, entry);
        self.put_newest(of, place);
        self.len += 1;
    }

    /// Puts a place last in the order of its priority.
    fn put_newest(&mut self, of: usize, place: u32)
        requires of { of < 4 }
        requires last { at self.old.first of ≢ 0 → at self.old.last of < length self.old.cells.items }
        ensures alone { at self.old.first of ≡ 0 → columns_of self.new.cells.items ≡ columns_of self.old.cells.items }
        ensures oldest { at self.old.first of ≡ 0 → self.new.first ≡ set self.old.first of place }
        ensures behind { at self.old.first of ≢ 0 → columns_of self.new.cells.items ≡ with_same (columns_of self.old.cells.items) (at self.old.last of) place }
        ensures first { at self.old.first of ≢ 0 → self.new.first ≡ self.old.first }
        ensures last { self.new.last ≡ set self.old.last of place }
        ensures room { length self.new.cells.items ≡ length self.old.cells.items }
        ensures others { (self.new.free ≡ self.old.free) × (self.new.len ≡ self.old.len) }
    {
        if self.first[of] == NONE {
            self.first[of] = place;
        } else {
            follow(&mut self.cells, self.last[of], place);
        }
        self.last[of] = place;
    }

    /// Takes the message at this place out, which is the oldest of its priority.
    pub fn take(&mut self, place: u32) -> (Slot, Priority)
        requires sound { IsSound self.old }
        requires first { IsFirst self.old place }
        ensures sound { IsSound self.new }
        ensures message { held_in self.old place ≡ waiting result.0 result.1 }
        ensures rest { waiting_in self.new ≡ waiting_at self.old (without_place (order_of self.old) place) }
        ensures room { length self.new.cells.items ≡ length self.old.cells.items }
        ensures len { self.new.len + 1 ≡ self.old.len }
    {
        let cell = &self.cells[place as usize];
        let (slot, priority) = (cell.entry.slot, cell.entry.priority);
        let (prev, next, same) = (cell.prev, cell.next, cell.same);
        link(&mut self.cells, prev, next);
        set_free(&mut self.cells, place, self.free);
        self.first[priority.number() as usize] = same;
        self.free = place;
        self.len -= 1;
        (slot, priority)
    }
}

/// Makes so many free cells, each before the one below it, and cell 0.
fn free_cells(alloc: Global, slots: u32) -> Result<Vec<Cell>, NoMemory>
    ensures length { IfOk result (λ v. length v.items ≡ slots + 1) }
    ensures ring { IfOk result (λ v. at (columns_of v.items).prev 0 ≡ 0) }
    ensures next { IfOk result (λ v. (columns_of v.items).next ≡ 0 ∷ upto slots) }
{
    let Ok(mut cells) = Vec::with_capacity(alloc, slots as usize + 1) else {
        return Err(NoMemory);
    };
    if cells.push(blank(NONE)).is_err() {
        return Err(NoMemory);
    }
    for below in 0..slots {
        if cells.push(blank(below)).is_err() {
            return Err(NoMemory);
        }
    }
    Ok(cells)
}

/// Makes a free cell before another.
fn blank(next: u32) -> Cell
    ensures { (result.next ≡ next) × (result.prev ≡ 0) × (result.same ≡ 0) }
{
    let Some(priority) = Priority::new(0) else {
        unreachable!()
    };
    let slot = Slot { peer: 0, buffer: 0 };
    Cell {
        entry: Entry { slot, priority },
        next,
        prev: NONE,
        same: NONE,
    }
}

/// Returns the first place that is one.
fn first_place(first: &[u32; 4]) -> Option<u32>
    ensures { result ≡ find is_place first.now }
{
    first.iter().copied().find(|place| *place != NONE)
}

/// Puts one place after another in the order of arrival.
fn link(cells: &mut Vec<Cell>, before: u32, after: u32)
    requires before { before < length cells.old.items }
    requires after { after < length cells.old.items }
    ensures columns { columns_of cells.new.items ≡ with_link (columns_of cells.old.items) before after }
    ensures length { length cells.new.items ≡ length cells.old.items }
{
    cells[before as usize].next = after;
    cells[after as usize].prev = before;
}

/// Puts a free cell before the other free ones.
fn set_free(cells: &mut Vec<Cell>, place: u32, free: u32)
    requires place { place < length cells.old.items }
    ensures columns { columns_of cells.new.items ≡ with_next (columns_of cells.old.items) place free }
    ensures length { length cells.new.items ≡ length cells.old.items }
{
    cells[place as usize].next = free;
}

/// Puts one place after another in the order of their priority.
fn follow(cells: &mut Vec<Cell>, before: u32, after: u32)
    requires before { before < length cells.old.items }
    ensures columns { columns_of cells.new.items ≡ with_same (columns_of cells.old.items) before after }
    ensures length { length cells.new.items ≡ length cells.old.items }
{
    cells[before as usize].same = after;
}

/// Stores a message, the newest of its priority.
fn fill(cells: &mut Vec<Cell>, place: u32, entry: Entry)
    requires place { place < length cells.old.items }
    ensures columns { columns_of cells.new.items ≡ with_held (columns_of cells.old.items) place (waiting_of entry) }
    ensures length { length cells.new.items ≡ length cells.old.items }
{
    let cell = &mut cells[place as usize];
    cell.entry = entry;
    cell.same = NONE;
}

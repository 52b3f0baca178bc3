//! What stands at the number of a buffer.
ghost use Rattle.std.specs.Prelude.{◌≡◌, ◌<◌, ◌+◌, ◌^◌, IsSome, Some, None, IfSome, length, option_map, option_and_then, position, slice_set};
ghost use Rattle.buffer_book.specs.Book.{kept_on_place};
ghost use Rattle.buffer_book.specs.Runs.{columns_of, head_of, with_held, with_link, with_head, head_on, head_as, run_of, named, joined_head, lent_head, shortened, is_state_of, link_on, is_resting, rested, resting_one};

use crate::held::HeldBuffer;

/// The buffer of this number, the frame after it, and the item of this name.
#[derive(Debug, Drop)]
pub struct Cell {
    pub held: Option<HeldBuffer>,
    pub state: State,
    /// How many frames follow the first. This, `first` and `last` count where there is an item.
    pub more: u32,
    pub first: u16,
    pub last: u16,
    /// The frame after the buffer of this number, where one follows it.
    pub next: u16,
}

/// Whether there is an item of a name, and where it is. A lent item has a serial.
#[derive(Clone, Copy, Debug)]
pub enum State {
    Free,
    Queued,
    Lent(u64),
}

/// The first frame of an item, and how many follow it.
#[derive(Clone, Copy, Debug)]
pub struct Run {
    pub first: u16,
    pub more: u32,
}

/// A lent item whose name another item got.
#[derive(Clone, Copy, Debug)]
pub struct Resting {
    pub name: u16,
    pub first: u16,
    pub more: u32,
    pub serial: u64,
}

/// A buffer that is not held, and a name that is free.
pub fn empty() -> Cell
    ensures held { result.held ≡ None }
    ensures head { head_of result ≡ None }
    ensures next { result.next ≡ 0 }
{
    Cell {
        held: None,
        state: State::Free,
        more: 0,
        first: 0,
        last: 0,
        next: 0,
    }
}

/// Whether this is an item in the queue, or one that is lent under this serial.
fn is_state(state: State, lent: Option<u64>) -> bool
    ensures { result ≡ is_state_of state lent }
{
    match (state, lent) {
        (State::Queued, None) => true,
        (State::Lent(a), Some(b)) => a == b,
        _ => false,
    }
}

/// Whether this item has the name and the serial.
fn is_resting(resting: &Option<Resting>, name: u16, serial: u64) -> bool
    ensures { result ≡ is_resting name serial resting.now }
{
    match resting {
        Some(resting) => resting.name == name && resting.serial == serial,
        None => false,
    }
}

/// The place of the item aside that has this name and serial.
pub fn position_aside(aside: &[Option<Resting>], name: u16, serial: u64) -> Option<usize>
    ensures place { result ≡ position (is_resting name serial) aside.now }
    ensures within { IfSome result (λ l. l < length aside.now) }
{
    aside
        .iter()
        .position(|resting| is_resting(resting, name, serial))
}

/// The item that a name stands for, where it is in this state.
pub fn named_run(cells: &[Cell], name: u16, lent: Option<u64>) -> Option<Run>
    ensures { result ≡ option_map run_of (head_as (columns_of cells.now).heads name lent) }
{
    let cell = cells.get(name as usize)?;
    if is_state(cell.state, lent) {
        Some(Run {
            first: cell.first,
            more: cell.more,
        })
    } else {
        None
    }
}

/// Puts a buffer at its place.
pub fn hold(cells: &mut Vec<Cell>, place: u16, held: HeldBuffer)
    requires { place < length cells.old.items }
    ensures { columns_of cells.new.items ≡ with_held (columns_of cells.old.items) place (Some held) }
{
    cells[place as usize].held = Some(held);
}

/// Takes the buffer at a place, and returns the number of the one after it.
pub fn take_held(cells: &mut Vec<Cell>, place: u16) -> (HeldBuffer, u16)
    requires { IsSome (kept_on_place (columns_of cells.old.items).places place) }
    ensures held { Some result.0 ≡ kept_on_place (columns_of cells.old.items).places place }
    ensures next { result.1 ≡ link_on (columns_of cells.old.items) place }
    ensures columns { columns_of cells.new.items ≡ with_held (columns_of cells.old.items) place None }
{
    let cell = &mut cells[place as usize];
    (cell.held.take().unwrap(), cell.next)
}

/// Puts one frame after another.
pub fn link(cells: &mut Vec<Cell>, place: u16, next: u16)
    requires { place < length cells.old.items }
    ensures { columns_of cells.new.items ≡ with_link (columns_of cells.old.items) place next }
{
    cells[place as usize].next = next;
}

/// Names an item of one frame, in the queue.
pub fn name(cells: &mut Vec<Cell>, place: u16)
    requires { place < length cells.old.items }
    ensures { columns_of cells.new.items ≡ with_head (columns_of cells.old.items) place (Some (named place)) }
{
    let cell = &mut cells[place as usize];
    cell.state = State::Queued;
    cell.more = 0;
    cell.first = place;
    cell.last = place;
}

/// Frees a name.
pub fn free(cells: &mut Vec<Cell>, name: u16)
    requires { name < length cells.old.items }
    ensures { columns_of cells.new.items ≡ with_head (columns_of cells.old.items) name None }
{
    cells[name as usize].state = State::Free;
}

/// Counts a frame more, which is the last of the item.
pub fn lengthen(cells: &mut Vec<Cell>, name: u16, last: u16)
    requires item { IsSome (head_on (columns_of cells.old.items).heads name) }
    requires fits { IfSome (head_on (columns_of cells.old.items).heads name) (λ h. h.more + 1 < 2 ^ 32) }
    ensures { columns_of cells.new.items ≡ with_head (columns_of cells.old.items) name (option_map (joined_head last) (head_on (columns_of cells.old.items).heads name)) }
{
    let cell = &mut cells[name as usize];
    cell.more += 1;
    cell.last = last;
}

/// Marks an item lent.
pub fn lend(cells: &mut Vec<Cell>, name: u16, serial: u64)
    requires { IsSome (head_on (columns_of cells.old.items).heads name) }
    ensures { columns_of cells.new.items ≡ with_head (columns_of cells.old.items) name (option_map (lent_head serial) (head_on (columns_of cells.old.items).heads name)) }
{
    cells[name as usize].state = State::Lent(serial);
}

/// Drops the first frame of an item, which the frame `next` follows.
pub fn shorten(cells: &mut Vec<Cell>, name: u16, next: u16)
    requires { IsSome (head_on (columns_of cells.old.items).heads name) }
    ensures { columns_of cells.new.items ≡ with_head (columns_of cells.old.items) name (option_and_then (shortened next) (head_on (columns_of cells.old.items).heads name)) }
{
    let cell = &mut cells[name as usize];
    if cell.more == 0 {
        cell.state = State::Free;
    } else {
        cell.first = next;
        cell.more -= 1;
    }
}

/// Drops the first frame of an item aside, which the frame `next` follows.
pub fn shorten_aside(
    aside: &mut Vec<Option<Resting>>,
    count: &mut u32,
    place: usize,
    resting: Resting,
    next: u16,
)
    requires within { place < length aside.old.items }
    requires counted { 0 < count.old }
    ensures aside { aside.new.items ≡ slice_set aside.old.items place (rested next resting resting.more) }
    ensures count { count.new + 1 ≡ count.old + resting_one (rested next resting resting.more) }
{
    if resting.more == 0 {
        aside[place] = None;
        *count -= 1;
    } else {
        aside[place] = Some(Resting {
            first: next,
            more: resting.more - 1,
            ..resting
        });
    }
}

//! A bell, and how it begins.
ghost use Rattle.std.specs.Prelude.{◌≡◌, ◌≤◌, ◌<◌, ◌↔◌, map, IfOk, IsErrOf};
ghost use Rattle.std.specs.List.{AllByRecursion};
ghost use Rattle.door_bell.specs.Change.{new_sleeper, numbers_below};
ghost use Rattle.door_bell.specs.Shown.{IsRingerOf, ringer_of};

use crate::fault::BellFault;
use crate::kinds::{Begin, PartRinger};
use crate::ringer::Ringer;
use crate::rule::Board;
use crate::sleeper::Sleeper;
use crate::words::STATE;
use std::alloc::{AllocError, Global};
use std::marker::Model;

/// The most ringers of a bell: two for each of seven linked domains.
const MAX_RINGERS: u32 = 14;

/// A bell: a word for its state, and a word for the news of each ringer.
///
/// Threads share it. Each call of its sleeper and its ringers names it.
#[derive(Drop)]
pub struct Bell {
    pub(crate) board: Board,
    pub(crate) ringers: u32,
}

impl Model for Bell {
    ghost use Rattle.door_bell.specs.SeatHolds.{TableHolds};
    ghost use Rattle.door_bell.specs.Shown.{BellShown};

    ghost Value = { BellShown };

    ghost view = { λ b. record { table = b.board.shared.table_id; ringers = b.ringers } };

    ghost invariant = { λ b. TableHolds b.board.shared.table_id b.board.shared.key b.ringers };
}

/// Makes the table of a bell, the seat of its sleeper, and the seats of its ringers.
fn begin(alloc: Global, ringers: u32) -> Result<(Bell, Sleeper, Vec<Ringer>), AllocError>
    requires some { 0 < ringers }
    requires few { ringers ≤ 14 }
    ensures bell { IfOk result (λ r. r.0.ringers ≡ ringers) }
    ensures sleeper { IfOk result (λ r. (r.1.table ≡ r.0.table) × (r.1.view ≡ new_sleeper ringers)) }
    ensures ringers { IfOk result (λ r. r.2.items ≡ map (ringer_of r.0.table) (numbers_below ringers)) }
{
    let words = Vec::from_elem(alloc, 0u64, ringers as usize + 1)?;
    let mut parted = Vec::with_capacity(alloc, ringers as usize)?;
    let (board, mut seat) = Board::of_words(alloc, words.as_slice(), &ringers)?;
    let _zero = board.shared.load::<Begin>(&mut seat, STATE);
    for number in 0..ringers {
        let seat = board.shared.split_seat::<PartRinger>(&mut seat);
        parted.push(Ringer { seat, number }).unwrap();
    }
    Ok((Bell { board, ringers }, Sleeper { seat }, parted))
}

impl Bell {
    /// Makes a bell with its sleeper, which is awake, and 1 to 14 ringers, with the numbers from 0 on.
    ///
    /// # Errors
    ///
    /// - `Count` for any other number of ringers.
    /// - `NoMemory` if an allocation fails.
    pub fn new(alloc: Global, ringers: u32) -> Result<(Bell, Sleeper, Vec<Ringer>), BellFault>
        ensures count { IsErrOf result BellFault.Count ↔ ((1 ≤ ringers) × (ringers ≤ 14) → ⊥) }
        ensures bell { IfOk result (λ r. r.0.ringers ≡ ringers) }
        ensures sleeper { IfOk result (λ r. (r.1.table ≡ r.0.table) × (r.1.view ≡ new_sleeper ringers)) }
        ensures ringers { IfOk result (λ r. r.2.items ≡ map (ringer_of r.0.table) (numbers_below ringers)) }
        ensures of_bell { IfOk result (λ r. AllByRecursion (IsRingerOf r.0) r.2.items) }
    {
        if ringers == 0 || ringers > MAX_RINGERS {
            return Err(BellFault::Count);
        }
        let Ok(parts) = begin(alloc, ringers) else {
            return Err(BellFault::NoMemory);
        };
        Ok(parts)
    }
}

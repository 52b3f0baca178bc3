//! The table of one bell and the rule that it keeps.
use crate::view::BellView;
use atomic_table::{Seat, Table, TableRule};
use std::alloc::Global;

/// The kinds of step, which keep the rule of a bell. A table's key is the number of its ringers.
pub struct BellKinds;

impl TableRule<(), BellView, u32> for BellKinds {
    ghost use Rattle.door_bell.specs.BellRule.{BellRule};
    ghost use Rattle.door_bell.specs.declared.view.BellView.TheVariants.{Opening};

    ghost holds = { BellRule };

    ghost first = { λ ringers. Opening };
}

pub(crate) type Board = Table<(), BellView, u32, BellKinds, Global>;

pub(crate) type Place = Seat<(), BellView>;

//! The table of one queue and the rule that it keeps.
use crate::view::View;
use atomic_table::{Seat, Table, TableRule};
use mc_base::Buffer;
use std::alloc::Global;

/// Which queue of a link, how many buffers it has, and how many bytes each.
#[derive(Clone, Copy)]
pub struct Shape {
    pub queue: u8,
    pub size: u32,
    pub length: u32,
}

/// The kinds of step, which keep the rule of a ring.
pub struct RingKinds;

impl TableRule<Option<Buffer>, View, Shape> for RingKinds {
    ghost use Rattle.shared_words.specs.RingRule.{RingRule};
    ghost use Rattle.shared_words.specs.declared.view.View.TheVariants.{Opening};

    ghost holds = { RingRule };

    ghost first = { λ key. Opening key.length };
}

pub(crate) type Board = Table<Option<Buffer>, View, Shape, RingKinds, Global>;

pub(crate) type Place = Seat<Option<Buffer>, View>;

//! The labels of a wait for several requests.

ghost use Rattle.std.specs.Prelude.{◌≡◌, ◌≤◌, IfOk, length};

use crate::scenario::Label;
use arrayvec::ArrayVec;
use mc_base::NoMemory;
use std::alloc::Global;
use std::marker::Model;

/// At most eight labels. They are boxed because every [`Call`](crate::Call) is as large as the largest, and few calls have them.
#[derive(Debug, Drop)]
pub struct LabelGroup {
    labels: Box<ArrayVec<Label, 8>>,
}

impl Model for LabelGroup {
    ghost use Rattle.std.specs.Prelude.{ℕ};
    ghost use Rattle.arrayvec.specs.ArrayVec.{ArrayVec};

    ghost Value = { ArrayVec (ArrayVec ℕ) };

    ghost view = { λ g. g.labels.value };
}

impl LabelGroup {
    /// Boxes labels.
    ///
    /// # Errors
    ///
    /// `NoMemory` where the allocation fails.
    pub fn new(alloc: Global, labels: ArrayVec<Label, 8>) -> Result<LabelGroup, NoMemory>
        ensures { IfOk result (λ g. g ≡ labels) }
    {
        let Ok(labels) = Box::new(alloc, labels) else {
            return Err(NoMemory);
        };
        Ok(LabelGroup { labels })
    }

    /// Returns the labels in their order.
    pub fn as_slice(&self) -> &[Label]
        ensures labels { result.now ≡ self.now.items }
        ensures few { length result.now ≤ 8 }
    {
        self.labels.as_slice()
    }
}

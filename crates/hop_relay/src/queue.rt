//! Items that are taken one by one.

ghost use Rattle.std.specs.Prelude.{◌≡◌, ◌∷◌, [], MatchOption};

use std::alloc::Global;
use std::marker::Model;
use std::vec::IntoIter;

/// Items that are taken one by one, in their order. Contracts see the list of those that are left.
#[derive(Drop)]
pub struct Queue<T> {
    rest: IntoIter<T, Global>,
}

impl<T> Model for Queue<T> {
    ghost use Rattle.std.specs.Prelude.{List};
    ghost use Rattle.std.specs.Vec.Iter.{into_iter_items};

    ghost Value = { List T };

    ghost view = { λ a. into_iter_items a.rest };
}

impl<T> Queue<T> {
    pub fn new(items: Vec<T>) -> Queue<T>
        ensures { result ≡ items.items }
    {
        Queue {
            rest: items.into_iter(),
        }
    }

    /// Takes the next item, or returns `None` where none is left.
    pub fn take(&mut self) -> Option<T>
        ensures { MatchOption result ((self.old ≡ []) × (self.new ≡ [])) (λ item. self.old ≡ item ∷ self.new) }
    {
        self.rest.next()
    }
}

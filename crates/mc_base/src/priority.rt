ghost use Rattle.std.specs.Prelude.{◌≡◌, ◌≤◌, ◌<◌, ℕ, IfSome, IsNone, ◌↔◌};
ghost use Rattle.mc_base.specs.Limits.{last_priority};

use std::marker::Model;

/// The priority of a message: 0 to 3, and 0 is the best.
#[derive(Clone, Copy, Debug, PartialEq, Eq)]
pub struct Priority {
    number: u8,
}

impl Model for Priority {
    ghost Value = { ℕ };

    ghost view = { λ p. p.number };

    ghost invariant = { λ p. p.number ≤ last_priority };

    ghost inverse = { λ n. record { number = n } };
}

impl Priority {
    /// Returns the priority with this number, or `None` for a number above 3.
    pub fn new(n: u8) -> Option<Priority>
        ensures none { IsNone result ↔ (last_priority < n) }
        ensures value { IfSome result (λ p. p ≡ n) }
    {
        if n > 3 {
            return None;
        }
        Some(Priority { number: n })
    }

    /// Returns the number, 0 to 3.
    pub fn number(self) -> u8
        ensures value { result ≡ self }
        ensures range { result ≤ last_priority }
    {
        self.number
    }
}

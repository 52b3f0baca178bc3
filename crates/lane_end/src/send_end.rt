ghost use Rattle.std.specs.Prelude.{◌≡◌, ◌≤◌, ◌<◌, ◌∷◌, ◌++◌, [], ℕ, List, length};
ghost use Rattle.mc_base.specs.Limits.{buffer_size};
ghost use Rattle.lane_end.specs.SendMoves.{SendMove, Looked, Sent};
ghost use Rattle.lane_end.specs.SenderContract.{AppendsCount, TakesFirst};

/// The sending end of a lane: the contract of every kind. docs/PROFILE.md, "Lanes", has the rules.
///
/// Its free buffers are a list. A put takes the first, and a look appends those that it shows to have come back. No call fails,
/// allocates or waits.
pub trait SendEnd {
    /// The lane's size: how many buffers it has.
    ghost size: { Self → ℕ };

    /// The numbers of the free buffers.
    ghost free: { Self → List ℕ };

    /// These moves, oldest first, lead from the first state of the end to the second.
    ghost Moved: { Self → List SendMove → Self → Type 0 };

    /// Returns how many buffers are free. This is not a move.
    fn free_len(&self) -> u32
        ensures free { result ≡ length (free self.now) }
        ensures room { result ≤ size self.now };

    /// Looks once for buffers that came back, and returns how many it showed. They are now free. Over a ring it loads the other
    /// half's index.
    fn look(&mut self) -> u32
        ensures moved { Moved self.old (Looked result ∷ []) self.new }
        ensures free { AppendsCount result (free self.old) (free self.new) }
        ensures room { length (free self.new) ≤ size self.new }
        ensures size { size self.new ≡ size self.old };

    /// Puts a frame of 1 to 512 bytes, copied once into the first free buffer. A buffer must be free.
    fn put(&mut self, frame: &[u8])
        requires free { 0 < length (free self.old) }
        requires some { 0 < length frame.now }
        requires fits { length frame.now ≤ buffer_size }
        ensures moved { Moved self.old (Sent frame.now ∷ []) self.new }
        ensures free { TakesFirst (free self.old) (free self.new) }
        ensures room { length (free self.new) ≤ size self.new }
        ensures size { size self.new ≡ size self.old };

    /// An empty list of moves leads from each state to itself.
    ghost none: { (e : Self) → Moved e [] e };

    /// Two lists of moves, one after the other, are one list of moves.
    ghost both: { (a b c : Self) (xs ys : List SendMove) → Moved a xs b → Moved b ys c → Moved a (xs ++ ys) c };

    /// Moves do not change the size.
    ghost same_size: { (a b : Self) (xs : List SendMove) → Moved a xs b → size b ≡ size a };
}

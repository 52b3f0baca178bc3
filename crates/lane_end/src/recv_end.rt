ghost use Rattle.std.specs.Prelude.{◌≡◌, ◌≤◌, ◌<◌, ◌+◌, ◌∷◌, ◌++◌, [], ℕ, List, length, take, Contains};
ghost use Rattle.mc_base.specs.Limits.{buffer_size};
ghost use Rattle.lane_end.specs.Numbers.{AreApart};
ghost use Rattle.lane_end.specs.ReceiveMoves.{ReceiveMove, Looked, Took, Gave};
ghost use Rattle.lane_end.specs.ReceiverContract.{without};

use mc_base::Buffer;

/// The receiving end of a lane: the contract of every kind. docs/PROFILE.md, "Lanes", has the rules.
///
/// A look shows frames, and a take returns the oldest of those shown, in its buffer. The buffer is out until it is given back;
/// buffers may be given back in any order. No call fails, allocates or waits.
pub trait RecvEnd {
    /// The lane's size: how many buffers it has.
    ghost size: { Self → ℕ };

    /// How many frames are shown and not taken.
    ghost shown: { Self → ℕ };

    /// The numbers of the buffers taken and not given back.
    ghost out: { Self → List ℕ };

    /// These moves, oldest first, lead from the first state of the end to the second.
    ghost Moved: { Self → List ReceiveMove → Self → Type 0 };

    /// Looks once for frames that came, and returns how many are shown and not taken. Over a ring it loads the other half's index.
    fn look(&mut self) -> u32
        ensures moved { Moved self.old (Looked result ∷ []) self.new }
        ensures more { shown self.old ≤ result }
        ensures shown { shown self.new ≡ result }
        ensures out { out self.new ≡ out self.old }
        ensures apart { AreApart (size self.new) (out self.new) }
        ensures room { length (out self.new) + shown self.new ≤ size self.new }
        ensures size { size self.new ≡ size self.old };

    /// Takes the oldest frame shown, of which there must be one. Returns its buffer and its length, at most 512: the frame is the
    /// buffer's first bytes.
    fn take(&mut self) -> (Buffer, u32)
        requires shown { 0 < shown self.old }
        ensures moved { Moved self.old (Took result.0.number (take result.1 result.0.bytes) ∷ []) self.new }
        ensures fits { result.1 ≤ buffer_size }
        ensures wide { length result.0.bytes ≡ buffer_size }
        ensures shown { shown self.old ≡ shown self.new + 1 }
        ensures out { out self.new ≡ out self.old ++ result.0.number ∷ [] }
        ensures apart { AreApart (size self.new) (out self.new) }
        ensures room { length (out self.new) + shown self.new ≤ size self.new }
        ensures size { size self.new ≡ size self.old };

    /// Gives back a buffer that is out, with all its 512 bytes. A later look of the sender shows it, and it is free again.
    fn give_back(&mut self, buffer: Buffer)
        requires out { Contains (out self.old) buffer.number }
        requires wide { length buffer.bytes ≡ buffer_size }
        ensures moved { Moved self.old (Gave buffer.number ∷ []) self.new }
        ensures shown { shown self.new ≡ shown self.old }
        ensures out { out self.new ≡ without buffer.number (out self.old) }
        ensures apart { AreApart (size self.new) (out self.new) }
        ensures room { length (out self.new) + shown self.new ≤ size self.new }
        ensures size { size self.new ≡ size self.old };

    /// An empty list of moves leads from each state to itself.
    ghost none: { (e : Self) → Moved e [] e };

    /// Two lists of moves, one after the other, are one list of moves.
    ghost both: { (a b c : Self) (xs ys : List ReceiveMove) → Moved a xs b → Moved b ys c → Moved a (xs ++ ys) c };

    /// Moves do not change the size.
    ghost same_size: { (a b : Self) (xs : List ReceiveMove) → Moved a xs b → size b ≡ size a };
}

//! The two ends that a domain holds towards one peer, as one value.

ghost use Rattle.std.specs.Prelude.{◌≡◌, ◌≤◌, ◌<◌, ◌+◌, ◌++◌, ◌∷◌, [], List, length, take, Contains};
ghost use Rattle.mc_base.specs.Limits.{buffer_size};
ghost use Rattle.lane_end.specs.Numbers.{AreApart};
ghost use Rattle.lane_end.specs.SendMoves.{Looked, Sent};
ghost use Rattle.lane_end.specs.ReceiveMoves.{Took, Gave};
ghost use Rattle.lane_end.specs.ReceiveMoves as receiving;
ghost use Rattle.domain_parts.specs.LaneMoves.{LaneMove, sender, receiver};
ghost use Rattle.domain_parts.specs.LaneSeen.{LaneSeen, after_move};

use mc_base::Buffer;

/// A domain's ends of the lane to a peer and of the lane from it, with the calls of [`SendEnd`](lane_end::SendEnd) and
/// [`RecvEnd`](lane_end::RecvEnd). Where the peer is the domain itself the two lanes are one.
pub trait PeerLane {
    /// The sizes of both lanes, how many buffers are free and how many frames are shown, and which buffers are out.
    ghost seen: { Self → LaneSeen };

    /// Whether these moves of both ends, oldest first, lead from the first state to the second.
    ghost Moved: { Self → List LaneMove → Self → Type 0 };

    /// Returns the number of free buffers. It is not a look.
    fn free_len(&self) -> u32
        ensures free { result ≡ (seen self.now).free }
        ensures room { result ≤ (seen self.now).size_to };

    /// Looks once for buffers that came back, and returns how many it showed. These are free from now on.
    fn look_back(&mut self) -> u32
        ensures moved { Moved self.old (sender (Looked result) ∷ []) self.new }
        ensures seen { seen self.new ≡ after_move (sender (Looked result)) (seen self.old) }
        ensures room { (seen self.new).free ≤ (seen self.new).size_to };

    /// Sends a frame of 1 to 512 bytes: copies it into the first free buffer. At least one buffer has to be free.
    fn put(&mut self, frame: &[u8])
        requires free { 0 < (seen self.old).free }
        requires some { 0 < length frame.now }
        requires fits { length frame.now ≤ buffer_size }
        ensures moved { Moved self.old (sender (Sent frame.now) ∷ []) self.new }
        ensures seen { seen self.new ≡ after_move (sender (Sent frame.now)) (seen self.old) };

    /// Looks once for frames that came, and returns how many are shown and not taken.
    fn look_ahead(&mut self) -> u32
        ensures moved { Moved self.old (receiver (receiving.Looked result) ∷ []) self.new }
        ensures seen { seen self.new ≡ after_move (receiver (receiving.Looked result)) (seen self.old) }
        ensures more { (seen self.old).shown ≤ result }
        ensures room { length (seen self.new).out + (seen self.new).shown ≤ (seen self.new).size_from };

    /// Takes the oldest frame that is shown, and returns its buffer and its length in bytes, at most 512.
    fn take(&mut self) -> (Buffer, u32)
        requires { 0 < (seen self.old).shown }
        ensures moved { Moved self.old (receiver (Took result.0.number (take result.1 result.0.bytes)) ∷ []) self.new }
        ensures seen { seen self.new ≡ after_move (receiver (Took result.0.number (take result.1 result.0.bytes))) (seen self.old) }
        ensures fits { result.1 ≤ buffer_size }
        ensures wide { length result.0.bytes ≡ buffer_size }
        ensures apart { AreApart (seen self.new).size_from (seen self.new).out }
        ensures room { length (seen self.new).out + (seen self.new).shown ≤ (seen self.new).size_from };

    /// Gives back a buffer that is out, with all its 512 bytes.
    fn give_back(&mut self, buffer: Buffer)
        requires out { Contains (seen self.old).out buffer.number }
        requires wide { length buffer.bytes ≡ buffer_size }
        ensures moved { Moved self.old (receiver (Gave buffer.number) ∷ []) self.new }
        ensures seen { seen self.new ≡ after_move (receiver (Gave buffer.number)) (seen self.old) };

    /// An empty list of moves changes nothing.
    ghost none: { (l : Self) → Moved l [] l };

    /// Two lists of moves, one after the other, are one list.
    ghost both: { (a b c : Self) (xs ys : List LaneMove) → Moved a xs b → Moved b ys c → Moved a (xs ++ ys) c };

    /// No move changes the size of either lane.
    ghost same_size_to: { (a b : Self) (xs : List LaneMove) → Moved a xs b → (seen b).size_to ≡ (seen a).size_to };

    ghost same_size_from: { (a b : Self) (xs : List LaneMove) → Moved a xs b → (seen b).size_from ≡ (seen a).size_from };
}

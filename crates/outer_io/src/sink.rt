ghost use Rattle.std.specs.Prelude.{◌≡◌, ◌≤◌, ◌<◌, ◌-◌, [], List, ℕ, Option, None, length, IfOk, IsOk, IsOkAnd, OnErr, OnOk};
ghost use Rattle.std.specs.Io.KnownBytes.{WriteAppends};
ghost use Rattle.outer_io.specs.Faults.{HasCause};
ghost use Rattle.outer_io.specs.Calls.{CountsOne, CountsAtMost};
ghost use Rattle.outer_io.specs.Writes.{Writes, WritesStop};

use crate::Failed;

/// Where bytes go.
pub trait Sink {
    /// The bytes that were written, where the sink says.
    ghost written: { Self → Option (List ℕ) };

    /// How often a write has failed.
    ghost faults: { Self → ℕ };

    /// How many writes were made, where the sink says.
    ghost calls: { Self → Option ℕ } = { λ _. None };

    /// So many bytes more are taken without a fault.
    ghost takes: { Self → ℕ → Type 0 } = { λ _ _. ⊥ };

    /// Appends the first bytes of `piece`, which is not empty, and returns how many: one or more.
    ///
    /// # Errors
    ///
    /// `Failed` where the write failed; nothing was appended then.
    fn write(&mut self, piece: &[u8]) -> Result<usize, Failed>
        requires { 0 < length piece.now }
        ensures bound { IfOk result (λ n. (0 < n) × (n ≤ length piece.now)) }
        ensures bytes { WriteAppends (written self.old) (written self.new) result piece.now }
        ensures cause { HasCause (faults self.old) (faults self.new) result }
        ensures counted { CountsOne (calls self.old) (calls self.new) }
        ensures room { (n : ℕ) → takes self.old n → length piece.now ≤ n → IsOkAnd result (λ k. takes self.new (n - k)) };
}

/// Appends the whole piece. With an empty piece no write is made.
///
/// # Errors
///
/// `Failed` where a write failed, which is then the last: the first bytes of the piece were appended, but not all.
pub fn write_all<K: Sink>(sink: &mut K, piece: &[u8]) -> Result<(), Failed>
    ensures bytes { Writes (K.written sink.old) (K.written sink.new) result piece.now }
    ensures cause { HasCause (K.faults sink.old) (K.faults sink.new) result }
    // Each write appends one byte at least, so no more writes are made than there are bytes.
    ensures few_writes { OnOk result (CountsAtMost (K.calls sink.old) (K.calls sink.new) (length piece.now)) }
    ensures few_writes_at_err { OnErr result (WritesStop (K.written sink.old) (K.written sink.new) (K.calls sink.old) (K.calls sink.new) piece.now) }
    ensures room { (n : ℕ) → K.takes sink.old n → length piece.now ≤ n → IsOk result × K.takes sink.new (n - length piece.now) }
    ensures empty { piece.now ≡ [] → IsOk result × (sink.new ≡ sink.old) }
{
    let mut done = 0;
    while done < piece.len() {
        let (_, left) = piece.split_at(done);
        let Ok(count) = sink.write(left) else {
            return Err(Failed);
        };
        done += count;
    }
    Ok(())
}

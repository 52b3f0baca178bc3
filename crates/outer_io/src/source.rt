ghost use Rattle.std.specs.Prelude.{◌≡◌, ◌≤◌, ◌<◌, ◌+◌, List, ℕ, Option, None, length, IfOk, IsOk, IsErrOf, MatchOption, MatchResult};
ghost use Rattle.std.specs.Io.KnownBytes.{ReadConsumes, Consumes, IsAtEnd};
ghost use Rattle.outer_io.specs.Faults.{Rose, HasCause};
ghost use Rattle.outer_io.specs.Calls.{CountsOne, CountsEnd, CountsAtMost, ReadsStop};

use crate::Failed;
use std::alloc::Global;
use thiserror::Error;

/// Bytes that come from outside.
pub trait Source {
    /// The bytes still to come, where the source says.
    ghost rest: { Self → Option (List ℕ) };

    /// How often a read has failed.
    ghost faults: { Self → ℕ };

    /// How many reads were made, where the source says.
    ghost calls: { Self → Option ℕ } = { λ _. None };

    /// How many reads came to the end, where the source says.
    ghost ends: { Self → Option ℕ } = { λ _. None };

    /// No read fails from now on.
    ghost never_fails: { Self → Type 0 } = { λ _. ⊥ };

    /// Moves the next bytes into the front of `buf`, which is not empty, and returns how many. Zero is the end.
    ///
    /// # Errors
    ///
    /// `Failed` where the read failed; no byte is gone then.
    fn read(&mut self, buf: &mut [u8]) -> Result<usize, Failed>
        requires { 0 < length buf.old }
        ensures bound { IfOk result (λ n. n ≤ length buf.new) }
        ensures bytes { ReadConsumes (rest self.old) (rest self.new) result buf.new }
        ensures cause { HasCause (faults self.old) (faults self.new) result }
        ensures counted { CountsOne (calls self.old) (calls self.new) }
        ensures ended { CountsEnd (ends self.old) (ends self.new) result }
        ensures sound { never_fails self.old → IsOk result × never_fails self.new };
}

/// Why the bytes of a source could not be read to their end.
#[derive(Clone, Copy, Debug, PartialEq, Eq, Error)]
pub enum ReadFault {
    /// A read failed, and no more were made.
    #[error("a read failed; the bytes read before are lost")]
    Failed,
    /// More bytes came than the limit. No read failed.
    #[error("the input has more bytes than the limit; shorten it")]
    TooLong,
    /// Memory is out, which may happen at any time; no read failed.
    #[error("out of memory")]
    NoMemory,
}

/// How many bytes are asked for at once.
const CHUNK: usize = 65_536;

/// Reads all bytes to the end, at most `limit`. At most `limit` + 1 reads are made, and none after the end or after one
/// that failed.
///
/// # Errors
///
/// `Failed` where a read failed, `TooLong` where more than `limit` bytes came, `NoMemory` where memory is out. The bytes
/// that were read are lost.
#[tactic(auto, using(crate::proofs::Counted::one_call_more))]
pub fn read_all<S: Source>(
    alloc: Global,
    source: &mut S,
    limit: usize,
) -> Result<Vec<u8>, ReadFault>
    ensures bytes { IfOk result (λ v. Consumes (S.rest source.old) (S.rest source.new) v.items) }
    ensures end { IfOk result (λ _. IsAtEnd (S.rest source.new)) }
    ensures within { IfOk result (λ v. length v.items ≤ limit) }
    ensures too_long { IsErrOf result ReadFault.TooLong → MatchOption (S.rest source.old) (Unit {0}) (λ all. limit < length all) }
    ensures failed { IsErrOf result ReadFault.Failed → Rose (S.faults source.old) (S.faults source.new) }
    ensures sound { S.never_fails source.old → IsErrOf result ReadFault.Failed → ⊥ }
    ensures later { S.faults source.old ≤ S.faults source.new }
    ensures no_fault { (IsErrOf result ReadFault.Failed → ⊥) → S.faults source.new ≡ S.faults source.old }
    ensures reads { CountsAtMost (S.calls source.old) (S.calls source.new) (limit + 1) }
    ensures few_reads { IfOk result (λ v. CountsAtMost (S.calls source.old) (S.calls source.new) (length v.items + 1)) }
    ensures few_reads_at_err { IsErrOf result ReadFault.Failed → ReadsStop (S.rest source.old) (S.rest source.new) (S.calls source.old) (S.calls source.new) limit }
    ensures none_after_end { MatchResult result (λ _. CountsOne (S.ends source.old) (S.ends source.new)) (λ _. S.ends source.new ≡ S.ends source.old) }
{
    let mut bytes = Vec::new(alloc);
    let mut buf = [0u8; CHUNK];
    loop {
        let Ok(count) = source.read(&mut buf) else {
            return Err(ReadFault::Failed);
        };
        if count == 0 {
            return Ok(bytes);
        }
        if count > limit - bytes.len() {
            return Err(ReadFault::TooLong);
        }
        if bytes.extend_from_slice(&buf[..count]).is_err() {
            return Err(ReadFault::NoMemory);
        }
    }
}

//! The entries as the journal keeps them: each of one size, with its bytes in an array that all share.

ghost use Rattle.std.specs.Prelude.{◌≡◌, true, ◌≤◌, ◌<◌, ◌+◌, ◌-◌, ◌^◌, ◌++◌, ℕ, List, IfSome, length, map, slice_get, vec_len, vec_capacity};
ghost use Rattle.std.specs.List.{AllByRecursion};
ghost use Rattle.board_model.specs.Journal.{is_one_idle, joinable, noted_again, noted_idle, noted_spin, spinning};
ghost use Rattle.board_model.specs.Words.{same_word};
ghost use Rattle.mc_journal.specs.Entry.{line_of_entry, bytes_in, bytes_in_told, result_of_told};
ghost use Rattle.mc_journal.specs.Kept.{IsResultWithin, IsWithin, kept_line, kept_result, piece_of};

use crate::entry::{Answer, Entry, Told};
use mc_base::{Fate, Reason, Refusal};

/// Where the bytes of an entry lie.
#[derive(Clone, Copy)]
pub struct Piece {
    start: usize,
    len: usize,
}

/// How a request ended, as it is kept.
#[derive(Clone, Copy)]
pub enum KeptResult {
    Address(u32),
    Accepted,
    Rejected(Reason),
    Bytes(u32, Piece),
    Ended(Refusal),
}

/// An entry that is kept.
#[derive(Clone, Copy)]
pub enum Kept {
    Turn,
    Back(u8, u32),
    Put(u8, Piece),
    See(u8, u32),
    Take(u8, Piece, Fate),
    Idle(u64),
    Again(Refusal),
    Spin(u64, Refusal),
    WaitStart(u32),
    Refused(u32, Refusal),
    Agreed(u32),
    Number(u32, u64),
    Channel(u32, u64, u32),
    Bytes(u32, u32, Piece),
    Done(u32, Option<u8>, KeptResult),
}

/// Keeps an entry. Its bytes go behind the others, for which there is room.
pub fn keep(bytes: &mut Vec<u8>, entry: Entry<'_>) -> Kept
    requires room { vec_len bytes.old + bytes_in entry ≤ vec_capacity bytes.old }
    ensures bytes { (more : List ℕ) × (bytes.new.items ≡ bytes.old.items ++ more) × (length more ≡ bytes_in entry.entry) }
    ensures line { kept_line bytes.new.items result ≡ line_of_entry entry.entry }
    ensures within { IsWithin (length bytes.new.items) result }
    ensures capacity { vec_capacity bytes.old ≤ vec_capacity bytes.new }
{
    match entry {
        Entry::Turn => Kept::Turn,
        Entry::Back { peer, count } => Kept::Back(peer, count),
        Entry::Put { peer, frame } => Kept::Put(peer, keep_bytes(bytes, frame)),
        Entry::See { peer, count } => Kept::See(peer, count),
        Entry::Take { peer, frame, fate } => Kept::Take(peer, keep_bytes(bytes, frame), fate),
        Entry::Idle { turns } => Kept::Idle(turns),
        Entry::Again { word } => Kept::Again(word),
        Entry::Spin { times, word } => Kept::Spin(times, word),
        Entry::WaitStart { number } => Kept::WaitStart(number),
        Entry::Called { number, answer } => match answer {
            Answer::Refused(word) => Kept::Refused(number, word),
            Answer::Ok => Kept::Agreed(number),
            Answer::Number(n) => Kept::Number(number, n),
            Answer::Channel { request, channel } => Kept::Channel(number, request, channel),
            Answer::Bytes { size, bytes: given } => Kept::Bytes(
                number,
                size,
                keep_bytes(bytes, given),
            ),
            Answer::Done { place, result } => {
                Kept::Done(number, place, keep_result(bytes, result))
            }
        },
    }
}

/// Keeps how a request ended.
fn keep_result(bytes: &mut Vec<u8>, told: Told<'_>) -> KeptResult
    requires room { vec_len bytes.old + bytes_in_told told ≤ vec_capacity bytes.old }
    ensures bytes { (more : List ℕ) × (bytes.new.items ≡ bytes.old.items ++ more) × (length more ≡ bytes_in_told told.entry) }
    ensures result { kept_result bytes.new.items result ≡ result_of_told told.entry }
    ensures within { IsResultWithin (length bytes.new.items) result }
    ensures capacity { vec_capacity bytes.old ≤ vec_capacity bytes.new }
{
    match told {
        Told::Address(address) => KeptResult::Address(address),
        Told::Accepted => KeptResult::Accepted,
        Told::Rejected(reason) => KeptResult::Rejected(reason),
        Told::Bytes { size, bytes: given } => KeptResult::Bytes(size, keep_bytes(bytes, given)),
        Told::Ended(word) => KeptResult::Ended(word),
    }
}

/// Appends bytes, for which there is room.
fn keep_bytes(bytes: &mut Vec<u8>, more: &[u8]) -> Piece
    requires { vec_len bytes.old + length more.now ≤ vec_capacity bytes.old }
    ensures bytes { bytes.new.items ≡ bytes.old.items ++ more.now }
    ensures start { result.start ≡ vec_len bytes.old }
    ensures len { result.len ≡ length more.now }
    ensures capacity { vec_capacity bytes.old ≤ vec_capacity bytes.new }
{
    let start = bytes.len();
    bytes.extend_from_slice(more).unwrap();
    Piece {
        start,
        len: more.len(),
    }
}

/// The entry that is kept.
pub fn entry_of(bytes: &[u8], kept: Kept) -> Entry<'_>
    requires { IsWithin (length bytes.now) kept }
    ensures { line_of_entry result ≡ kept_line bytes.now kept }
{
    match kept {
        Kept::Turn => Entry::Turn,
        Kept::Back(peer, count) => Entry::Back { peer, count },
        Kept::Put(peer, piece) => Entry::Put {
            peer,
            frame: bytes_of(bytes, piece),
        },
        Kept::See(peer, count) => Entry::See { peer, count },
        Kept::Take(peer, piece, fate) => Entry::Take {
            peer,
            frame: bytes_of(bytes, piece),
            fate,
        },
        Kept::Idle(turns) => Entry::Idle { turns },
        Kept::Again(word) => Entry::Again { word },
        Kept::Spin(times, word) => Entry::Spin { times, word },
        Kept::WaitStart(number) => Entry::WaitStart { number },
        Kept::Refused(number, word) => Entry::Called {
            number,
            answer: Answer::Refused(word),
        },
        Kept::Agreed(number) => Entry::Called {
            number,
            answer: Answer::Ok,
        },
        Kept::Number(number, n) => Entry::Called {
            number,
            answer: Answer::Number(n),
        },
        Kept::Channel(number, request, channel) => Entry::Called {
            number,
            answer: Answer::Channel { request, channel },
        },
        Kept::Bytes(number, size, piece) => Entry::Called {
            number,
            answer: Answer::Bytes {
                size,
                bytes: bytes_of(bytes, piece),
            },
        },
        Kept::Done(number, place, how) => Entry::Called {
            number,
            answer: Answer::Done {
                place,
                result: told_of(bytes, how),
            },
        },
    }
}

/// Returns how a request ended, as it was kept.
pub fn told_of(bytes: &[u8], kept: KeptResult) -> Told<'_>
    requires { IsResultWithin (length bytes.now) kept }
    ensures { result_of_told result ≡ kept_result bytes.now kept }
{
    match kept {
        KeptResult::Address(address) => Told::Address(address),
        KeptResult::Accepted => Told::Accepted,
        KeptResult::Rejected(reason) => Told::Rejected(reason),
        KeptResult::Bytes(size, piece) => Told::Bytes {
            size,
            bytes: bytes_of(bytes, piece),
        },
        KeptResult::Ended(word) => Told::Ended(word),
    }
}

/// Returns the bytes of a piece.
pub fn bytes_of(bytes: &[u8], piece: Piece) -> &[u8]
    requires { piece.start + piece.len ≤ length bytes.now }
    ensures { result.now ≡ piece_of bytes.now piece }
{
    let (_, rest) = bytes.split_at(piece.start);
    let (front, _) = rest.split_at(piece.len);
    front
}

/// Keeps an idle turn. It joins those before it, up to the greatest count.
pub fn keep_idle(entries: &mut Vec<Kept>)
    requires { vec_len entries.old < vec_capacity entries.old }
    ensures lines { (bytes : List ℕ) → map (kept_line bytes) entries.new.items ≡ noted_idle (map (kept_line bytes) entries.old.items) }
    ensures within { (n : ℕ) → AllByRecursion (IsWithin n) entries.old.items → AllByRecursion (IsWithin n) entries.new.items }
    ensures capacity { vec_capacity entries.new ≡ vec_capacity entries.old }
    ensures one_more { vec_len entries.new ≤ vec_len entries.old + 1 }
{
    match turns_to_join(entries) {
        Some(turns) => {
            let last = entries.len() - 1;
            entries[last] = Kept::Idle(turns + 1);
        }
        None => entries.push_reserved(Kept::Idle(1)),
    }
}

/// The count of the last entry, where one more idle turn can join it.
fn turns_to_join(entries: &[Kept]) -> Option<u64>
    ensures value { (bytes : List ℕ) → result ≡ joinable (slice_get (map (kept_line bytes) entries.now) (length entries.now - 1)) }
    ensures within { IfSome result (λ n. (0 < length entries.now) × (n < 2 ^ 64 - 1)) }
{
    let Some(Kept::Idle(turns)) = entries.last() else {
        return None;
    };
    if *turns < u64::MAX {
        Some(*turns)
    } else {
        None
    }
}

/// Keeps a call that is made again. Where it follows one idle turn it takes that away, and joins those before it that were
/// refused with the same word, up to the greatest count.
pub fn keep_again(entries: &mut Vec<Kept>, word: Refusal)
    requires { vec_len entries.old < vec_capacity entries.old }
    ensures lines { (bytes : List ℕ) → map (kept_line bytes) entries.new.items ≡ noted_again word (map (kept_line bytes) entries.old.items) }
    ensures within { (n : ℕ) → AllByRecursion (IsWithin n) entries.old.items → AllByRecursion (IsWithin n) entries.new.items }
    ensures capacity { vec_capacity entries.new ≡ vec_capacity entries.old }
    ensures one_more { vec_len entries.new ≤ vec_len entries.old + 1 }
{
    if follows_one_idle(entries) {
        entries.pop();
        keep_spin(entries, word);
    } else {
        entries.push_reserved(Kept::Again(word));
    }
}

/// Keeps a call that is made again after one idle turn.
fn keep_spin(entries: &mut Vec<Kept>, word: Refusal)
    requires { vec_len entries.old < vec_capacity entries.old }
    ensures lines { (bytes : List ℕ) → map (kept_line bytes) entries.new.items ≡ noted_spin word (map (kept_line bytes) entries.old.items) }
    ensures within { (n : ℕ) → AllByRecursion (IsWithin n) entries.old.items → AllByRecursion (IsWithin n) entries.new.items }
    ensures capacity { vec_capacity entries.new ≡ vec_capacity entries.old }
    ensures one_more { vec_len entries.new ≤ vec_len entries.old + 1 }
{
    match times_to_join(entries, word) {
        Some(times) => {
            let last = entries.len() - 1;
            entries[last] = Kept::Spin(times + 1, word);
        }
        None => entries.push_reserved(Kept::Spin(1, word)),
    }
}

/// Whether the last entry is one idle turn.
fn follows_one_idle(entries: &[Kept]) -> bool
    ensures value { (bytes : List ℕ) → result ≡ is_one_idle (slice_get (map (kept_line bytes) entries.now) (length entries.now - 1)) }
    ensures some { (result ≡ true) → 0 < length entries.now }
{
    match entries.last() {
        Some(Kept::Idle(turns)) => *turns == 1,
        _ => false,
    }
}

/// The count of the last entry, where one more call that was refused with this word can join it.
fn times_to_join(entries: &[Kept], word: Refusal) -> Option<u64>
    ensures value { (bytes : List ℕ) → result ≡ spinning word (slice_get (map (kept_line bytes) entries.now) (length entries.now - 1)) }
    ensures within { IfSome result (λ n. (0 < length entries.now) × (n < 2 ^ 64 - 1)) }
{
    let Some(Kept::Spin(times, kept)) = entries.last() else {
        return None;
    };
    if is_same_word(*kept, word) && *times < u64::MAX {
        Some(*times)
    } else {
        None
    }
}

/// Whether two words are the same, as they are written.
fn is_same_word(one: Refusal, other: Refusal) -> bool
    ensures { result ≡ same_word one other }
{
    one == other
}

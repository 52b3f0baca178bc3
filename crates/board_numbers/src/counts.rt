//! What the entries of a journal come to in numbers.

ghost use Rattle.std.specs.Prelude.{◌≡◌, ◌+◌, ◌<◌, ◌^◌, ◌==◌, ◌&&◌, ◌∷◌, ◌++◌, ℕ, List, [], is_none, slice_index};
ghost use Rattle.mc_base.specs.FaultRow.{first_fault};
ghost use Rattle.mc_base.specs.LetterFaults.{fields_in, letter_faults};
ghost use Rattle.mc_journal.specs.Entry.{line_of_entry};
ghost use Rattle.board_model.specs.Journal.{Line};
ghost use Rattle.board_model.specs.Messages.{carries_message as is_of_message, ends_item};
ghost use Rattle.board_model.specs.Drops.{drops};
ghost use Rattle.board_numbers.specs.Counts.{one_if, AreCounts, HaveRoom};

use crate::parts::is_last;
use bridge_frame::read_letter;
use mc_base::{Fate, Letter, NAME_SERVICE_ADDRESS};
use mc_journal::{Entry, Journal};
use rpmsg_frame::decode;

/// How many frames were put to each domain and taken from each, by its number; and of how many the messages were sent, were
/// brought, and were lost, since they came to no endpoint or to one on a channel.
#[derive(Clone, Copy)]
pub struct Counts {
    pub puts: [u64; 8],
    pub takes: [u64; 8],
    pub sent: u64,
    pub brought: u64,
    pub lost: u64,
}

impl Counts {
    /// Counts nothing yet.
    pub fn new() -> Counts
        ensures { AreCounts result [] }
    {
        Counts {
            puts: [0; 8],
            takes: [0; 8],
            sent: 0,
            brought: 0,
            lost: 0,
        }
    }

    /// Counts one entry more of a journal.
    pub fn count_entry(&mut self, entry: Entry<'_>)
        requires { HaveRoom self.old }
        ensures { (lines : List Line) → AreCounts self.old lines → AreCounts self.new (lines ++ line_of_entry entry.entry ∷ []) }
    {
        match entry {
            Entry::Put { peer, frame } => {
                add_one(&mut self.puts, peer);
                self.sent += u64::from(carries_message(frame));
            }
            Entry::Take { peer, frame, fate } => {
                add_one(&mut self.takes, peer);
                let brings = carries_message(frame);
                self.brought += u64::from(brings);
                self.lost += u64::from(is_drop(fate) && brings);
            }
            _ => {}
        }
    }
}

/// Counts the entries of a journal, each once.
pub fn count(journal: &Journal) -> Counts
    ensures { AreCounts result journal.now.lines }
{
    let mut counts = Counts::new();
    for at in 0..journal.len() {
        counts.count_entry(journal.entry(at).unwrap());
    }
    counts
}

/// Adds one to the number of a domain.
fn add_one(numbers: &mut [u64; 8], domain: u8)
    requires { (n : ℕ) → n < 8 → slice_index numbers.old n + 1 < 2 ^ 64 }
    ensures { (n : ℕ) → n < 8 → slice_index numbers.new n ≡ slice_index numbers.old n + one_if (domain == n) }
{
    if domain < 8 {
        numbers[usize::from(domain)] += 1;
    }
}

/// Whether a frame is sound and carries a message, or the last part of one. An announcement is known by its destination, address 53.
fn carries_message(frame: &[u8]) -> bool
    ensures { result ≡ is_of_message frame.now }
{
    match decode(frame) {
        Ok(frame) => frame.dst != NAME_SERVICE_ADDRESS && ends_message(frame.payload),
        Err(_) => false,
    }
}

/// Whether a payload is a sound letter of kind 1, which is a message, whole or the last part of one.
fn ends_message(payload: &[u8]) -> bool
    ensures { result ≡ (is_none (first_fault (letter_faults payload.now)) && (slice_index payload.now 2 == 1 && ends_item (fields_in payload.now))) }
{
    payload.len() > 2 && payload[2] == 1 && ends_letter(payload)
}

/// Whether a payload is a sound letter, whole or the last part of one.
fn ends_letter(payload: &[u8]) -> bool
    ensures { result ≡ (is_none (first_fault (letter_faults payload.now)) && ends_item (fields_in payload.now)) }
{
    match read_letter(payload) {
        Ok(
            Letter::MsgPart {
                total,
                offset,
                bytes,
                ..
            },
        ) => is_last(total, offset, bytes),
        Ok(
            Letter::PacketPart {
                total,
                offset,
                bytes,
                ..
            },
        ) => is_last(total, offset, bytes),
        Ok(_) => true,
        Err(_) => false,
    }
}

/// Whether a message that meets this fate is lost.
fn is_drop(fate: Fate) -> bool
    ensures { result ≡ drops fate }
{
    matches!(fate, Fate::NoEndpoint | Fate::OnChannel)
}

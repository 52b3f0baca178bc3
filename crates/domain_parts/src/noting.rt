//! The lines that a turn notes at a peer.

ghost use Rattle.std.specs.Prelude.{◌≡◌, ◌≤◌, ◌+◌, ◌++◌, ◌∷◌, [], ◌||◌, ◌==◌, not};
ghost use Rattle.board_model.specs.Journal.{back_line, see_line};
ghost use Rattle.domain_parts.specs.Beginning.{beginning, look_lines};
ghost use Rattle.domain_parts.specs.Owed.{room_for};

use mc_journal::{Entry, Journal};

/// Notes how many buffers came back, if any did. Returns whether the turn has begun.
pub fn note_back(journal: &mut Journal, peer: u8, begun: bool, back: u32) -> bool
    requires entry_room { room_for begun ≤ journal.old.entry_room }
    ensures lines { journal.new.lines ≡ journal.old.lines ++ look_lines begun (back_line peer) back }
    ensures begins { result ≡ (begun || not (back == 0)) }
    ensures entry_room { journal.old.entry_room + room_for result ≤ journal.new.entry_room + 1 + room_for begun }
    ensures byte_room { journal.old.byte_room ≤ journal.new.byte_room }
{
    if back == 0 {
        return begun;
    }
    tell_back(journal, peer, begun, back);
    true
}

/// Notes how many buffers came back, which is some.
#[cold]
#[inline(never)]
fn tell_back(journal: &mut Journal, peer: u8, begun: bool, back: u32)
    requires entry_room { room_for begun ≤ journal.old.entry_room }
    ensures lines { journal.new.lines ≡ journal.old.lines ++ (beginning begun ++ back_line peer back ∷ []) }
    ensures entry_room { journal.old.entry_room ≤ journal.new.entry_room + room_for begun }
    ensures byte_room { journal.old.byte_room ≤ journal.new.byte_room }
{
    begin_turn(journal, begun);
    journal.note(Entry::Back { peer, count: back });
}

/// Notes how many frames a look showed, if any. Returns whether the turn has begun.
pub fn note_see(journal: &mut Journal, peer: u8, begun: bool, see: u32) -> bool
    requires entry_room { room_for begun ≤ journal.old.entry_room }
    ensures lines { journal.new.lines ≡ journal.old.lines ++ look_lines begun (see_line peer) see }
    ensures begins { result ≡ (begun || not (see == 0)) }
    ensures entry_room { journal.old.entry_room + room_for result ≤ journal.new.entry_room + 1 + room_for begun }
    ensures byte_room { journal.old.byte_room ≤ journal.new.byte_room }
{
    if see == 0 {
        return begun;
    }
    tell_see(journal, peer, begun, see);
    true
}

/// Notes how many frames a look showed, which is some.
#[cold]
#[inline(never)]
fn tell_see(journal: &mut Journal, peer: u8, begun: bool, see: u32)
    requires entry_room { room_for begun ≤ journal.old.entry_room }
    ensures lines { journal.new.lines ≡ journal.old.lines ++ (beginning begun ++ see_line peer see ∷ []) }
    ensures entry_room { journal.old.entry_room ≤ journal.new.entry_room + room_for begun }
    ensures byte_room { journal.old.byte_room ≤ journal.new.byte_room }
{
    begin_turn(journal, begun);
    journal.note(Entry::See { peer, count: see });
}

/// Notes that a turn begins, where it did not before.
pub fn begin_turn(journal: &mut Journal, begun: bool)
    requires entry_room { 1 ≤ journal.old.entry_room }
    ensures lines { journal.new.lines ≡ journal.old.lines ++ beginning begun }
    ensures entry_room { journal.old.entry_room ≤ journal.new.entry_room + 1 }
    ensures used { journal.old.entry_room + 1 ≤ journal.new.entry_room + room_for begun }
    ensures byte_room { journal.old.byte_room ≤ journal.new.byte_room }
{
    if !begun {
        journal.note(Entry::Turn);
    }
}

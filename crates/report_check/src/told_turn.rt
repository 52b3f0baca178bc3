//! What the lines of a turn tell of each peer.

ghost use Rattle.std.specs.Prelude.{◌≡◌, ◌-◌, ◌≤◌, ◌<◌, ◌^◌, ◌++◌, ◌∷◌, [], ℕ, List, Some, length, take};
ghost use Rattle.mc_journal.specs.Entry.{line_of_entry};
ghost use Rattle.mc_journal.specs.Spelled.{AreDigits, frame_digits, spelled_line};
ghost use Rattle.report_text.specs.JournalRead.{lines_of_texts};
ghost use Rattle.report_text.specs.LaneLines.{LaneLine, lane_of};
ghost use Rattle.report_text.specs.SpelledTexts.{IsSpelledText};
ghost use Rattle.report_text.specs.Texts.{lines_told, longest_line};
ghost use Rattle.report_text.specs.TextLines.{lines_in};
ghost use Rattle.report_check.specs.ToldTurns.{AreShort, AreToldPeers, GrowLittle, GrowsLittle, HasRoom, HasShortLines, HaveRoom, IsToldOn, IsToldTurn, frame_on, frame_told, peer_on, told_with, with_line};
ghost use Rattle.std.specs.List.{AllByRecursion};

use mc_journal::{Entry, bytes_spelled, spelled_entry};
use report_text::SpelledText;

/// What the lines of a turn tell of a peer: how many buffers came back, how many frames a look showed, and the lines of the first frames that
/// were taken, without their newlines. Where fewer were taken, empty lines stand behind them.
#[derive(Clone, Copy)]
pub struct ToldPeer<'a> {
    pub back: u64,
    pub see: u64,
    count: usize,
    pub takes: [&'a [u8]; 8],
}

/// What the lines of a turn tell of each peer, by its number.
#[derive(Clone, Copy)]
pub struct ToldTurn<'a> {
    pub peers: [ToldPeer<'a>; 8],
}

/// Reads the frame that was taken from its line. Any other line stands for a frame of one byte.
pub fn told_frame<'r>(line: &[u8], room: &'r mut [u8]) -> &'r [u8]
    requires { length line.now ≤ length room.old }
    ensures { result.now ≡ frame_told line.now }
{
    match spelled_entry(line) {
        Some(entry) => frame_of(entry, room),
        None => &[0],
    }
}

/// The frame that an entry tells was taken. Its bytes stand in `room`.
fn frame_of<'r>(entry: Entry<'_>, room: &'r mut [u8]) -> &'r [u8]
    requires digits { AreDigits (frame_digits entry) }
    requires room { length (frame_digits entry) ≤ length room.old }
    ensures { result.now ≡ frame_on (Some (lane_of (spelled_line (line_of_entry entry.entry)))) }
{
    match entry {
        Entry::Take { frame, .. } => bytes_spelled(frame, room),
        _ => &[0],
    }
}

/// The peer of which an entry tells what its lanes showed.
fn peer_of(entry: Entry<'_>) -> Option<u8>
    ensures { result ≡ peer_on (lane_of (spelled_line (line_of_entry entry.entry))) }
{
    match entry {
        Entry::Back { peer, .. } | Entry::See { peer, .. } => Some(peer),
        Entry::Take { peer, .. } => Some(peer),
        _ => None,
    }
}

/// What is told of a peer by no line.
fn told_nothing<'a>() -> ToldPeer<'a>
    ensures told { (n : ℕ) → IsToldOn n [] result }
    ensures back { result.back ≡ 0 }
    ensures see { result.see ≡ 0 }
    ensures short { (size : ℕ) → HasShortLines size result }
{
    ToldPeer {
        back: 0,
        see: 0,
        count: 0,
        takes: [&[]; 8],
    }
}

/// What is told of a peer with one more line of a frame that was taken.
fn with_take<'a>(told: ToldPeer<'a>, line: &'a [u8]) -> ToldPeer<'a>
    ensures { result ≡ with_line line.entry told.entry }
{
    if told.count >= 8 {
        return told;
    }
    let mut takes = told.takes;
    takes[told.count] = line;
    ToldPeer {
        back: told.back,
        see: told.see,
        count: told.count + 1,
        takes,
    }
}

/// What is told of a peer with the line of one more entry, which tells of it.
fn noted<'a>(told: ToldPeer<'a>, entry: Entry<'_>, line: &'a [u8]) -> ToldPeer<'a>
    requires { HasRoom told }
    ensures told { result ≡ told_with line.entry (lane_of (spelled_line (line_of_entry entry.entry))) told.entry }
    ensures growth { GrowsLittle told.entry result }
{
    match entry {
        Entry::Back { count, .. } => ToldPeer {
            back: told.back + u64::from(count),
            see: told.see,
            count: told.count,
            takes: told.takes,
        },
        Entry::See { count, .. } => ToldPeer {
            back: told.back,
            see: told.see + u64::from(count),
            count: told.count,
            takes: told.takes,
        },
        Entry::Take { .. } => with_take(told, line),
        _ => told,
    }
}

/// Notes the line of an entry.
fn note<'a>(peers: &mut [ToldPeer<'a>; 8], entry: Entry<'_>, line: &'a [u8])
    requires { HaveRoom peers.old }
    ensures told { (ks : List LaneLine) → frame_told line.now ≡ frame_on (Some (lane_of (spelled_line (line_of_entry entry.entry)))) → AreToldPeers peers.old ks → AreToldPeers peers.new (ks ++ lane_of (spelled_line (line_of_entry entry.entry)) ∷ []) }
    ensures growth { GrowLittle peers.old peers.new }
    ensures short { (size : ℕ) → AllByRecursion (HasShortLines size) peers.old → length line.now ≤ size → AllByRecursion (HasShortLines size) peers.new }
{
    match peer_of(entry) {
        Some(peer) if peer < 8 => {
            let place = usize::from(peer);
            peers[place] = noted(peers[place], entry, line);
        }
        _ => (),
    }
}

/// Returns the line that stands before another text, without its newline.
fn line_before<'t>(text: &'t [u8], after: &[u8]) -> &'t [u8]
    requires { length after.now < length text.now }
    ensures { result.now ≡ take (length text.now - length after.now - 1) text.now }
{
    let (line, _) = text.split_at(text.len() - after.len() - 1);
    line
}

/// Reads what the first lines of the journal at the front of a text, those of a turn, tell of each peer.
pub fn read_told<'t>(text: SpelledText<'_, 't>, lines: usize) -> ToldTurn<'t>
    requires spelled { IsSpelledText text }
    requires enough { lines ≤ length (lines_told text.text.now) }
    requires few { length text.text.now < 2 ^ 32 }
    ensures told { IsToldTurn result (lines_of_texts (take lines (lines_in text.entry.text.now))) }
    ensures short { (size : ℕ) → longest_line text.entry.text.now ≤ size → AreShort size result }
{
    let mut peers = [told_nothing(); 8];
    let mut rest = text;
    for _done in 0..lines {
        let Some((entry, after)) = rest.next() else {
            return ToldTurn { peers };
        };
        note(&mut peers, entry, line_before(rest.text, after.text));
        rest = after;
    }
    ToldTurn { peers }
}

/// What is told of each peer by no line, as of an idle turn.
pub fn told_idle<'a>() -> ToldTurn<'a>
    ensures told { IsToldTurn result [] }
    ensures short { (size : ℕ) → AreShort size result }
{
    ToldTurn {
        peers: [told_nothing(); 8],
    }
}

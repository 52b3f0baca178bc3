//! What journals do on the lanes of their domains. Each journal is read once for it, and a frame is read again where it is wanted.

ghost use Rattle.std.specs.Prelude.{◌≡◌, ◌+◌, ◌<◌, ◌≤◌, ◌^◌, ◌==◌, ℕ, IfOk, filter, find, length, option_map, slice_index, sum_by};
ghost use Rattle.std.specs.List.{AllByRecursion};
ghost use Rattle.mc_journal.specs.Entry.{line_of_entry};
ghost use Rattle.report_text.specs.JournalLanes.{HasLanes, frame_at as put_at, frames_at, journals_of};
ghost use Rattle.report_text.specs.LaneLeft.{AreShort};
ghost use Rattle.report_text.specs.LaneLines.{lane_of, lanes_told, puts_told, taken_in};
ghost use Rattle.report_text.specs.Texts.{longest_line};

use crate::entries::next_entry;
use crate::link_pass::JournalLines;
use mc_base::NoMemory;
use mc_journal::Entry;
use std::alloc::Global;

/// A line of a journal by which a frame is put to a peer, and its place in the journal's text, counted in bytes from 0.
#[derive(Clone, Copy)]
pub struct PutLine {
    pub peer: u8,
    pub place: u32,
}

/// What a journal of a report does on lanes: the lines by which it puts frames, in their order, and how many frames it takes from each peer, by
/// the peers' numbers.
#[derive(Drop)]
pub struct JournalLanes<'t> {
    pub journal: JournalLines<'t>,
    pub puts: Vec<PutLine>,
    pub takes: [u64; 8],
}

/// Counts one frame more if an entry takes one.
fn count_take(takes: &mut [u64; 8], entry: Entry<'_>)
    ensures { (p : ℕ) → p < 8 → slice_index takes.old p + 1 < 2 ^ 64 → slice_index takes.new p ≡ slice_index takes.old p + taken_in p (lane_of (line_of_entry entry.entry)) }
{
    match entry {
        Entry::Take { peer, .. } if peer < 8 => {
            let place = usize::from(peer);
            takes[place] = takes[place].saturating_add(1);
        }
        _ => (),
    }
}

/// Reads the journal at the front of a text. Returns the lines by which it puts frames, and how many frames it takes from each peer.
fn read_lanes(
    alloc: Global,
    text: &[u8],
    room: &mut [u8],
) -> Result<(Vec<PutLine>, [u64; 8]), NoMemory>
    requires fits { longest_line text.now ≤ length room.old }
    requires few { length text.now < 2 ^ 32 }
    ensures puts { IfOk result (λ lanes. (to : ℕ) → frames_at to text.now lanes.0.items ≡ puts_told to text.now) }
    ensures takes { IfOk result (λ lanes. (p : ℕ) → p < 8 → slice_index lanes.1 p ≡ sum_by (taken_in p) (lanes_told text.now)) }
{
    let mut puts = Vec::new(alloc);
    let mut takes = [0; 8];
    let mut rest = text;
    while let Some((entry, after)) = next_entry(rest, room) {
        if let Entry::Put { peer, .. } = entry {
            let place = (text.len() - rest.len()) as u32;
            if puts.push(PutLine { peer, place }).is_err() {
                return Err(NoMemory);
            }
        }
        count_take(&mut takes, entry);
        rest = after;
    }
    Ok((puts, takes))
}

/// Reads what each of these journals does on lanes. `room` is as long as their longest line.
///
/// # Errors
///
/// `NoMemory` where an allocation fails.
pub fn lanes_of<'t>(
    alloc: Global,
    journals: &[JournalLines<'t>],
    room: &mut [u8],
) -> Result<Vec<JournalLanes<'t>>, NoMemory>
    requires { AreShort (length room.old) journals.now }
    ensures journals { IfOk result (λ all. journals_of all.items ≡ journals.now) }
    ensures lanes { IfOk result (λ all. AllByRecursion HasLanes all.items) }
{
    let [journal, others @ ..] = journals else {
        return Ok(Vec::new(alloc));
    };
    let (puts, takes) = read_lanes(alloc, journal.text, room)?;
    let mut all = lanes_of(alloc, others, room)?;
    let first = JournalLanes {
        journal: *journal,
        puts,
        takes,
    };
    if all.insert(0, first).is_err() {
        return Err(NoMemory);
    }
    Ok(all)
}

/// Returns what the journal of a domain does on lanes, if the domain is there.
pub(crate) fn journal_of<'l, 't>(
    all: &'l [JournalLanes<'t>],
    domain: u8,
) -> Option<&'l JournalLanes<'t>>
    ensures { option_map (λ found. found.now) result ≡ find (λ l. l.journal.domain == domain) all.now }
{
    let [first, others @ ..] = all else {
        return None;
    };
    if first.journal.domain == domain {
        return Some(first);
    }
    journal_of(others, domain)
}

/// Counts the lines that put a frame to a domain.
pub(crate) fn count_puts(puts: &[PutLine], to: u8) -> u64
    requires { length puts.now < 2 ^ 64 }
    ensures { result ≡ length (filter (λ put. put.peer == to) puts.now) }
{
    let mut count: u64 = 0;
    let mut rest = puts;
    while let [put, after @ ..] = rest {
        if put.peer == to {
            count += 1;
        }
        rest = after;
    }
    count
}

/// Returns the frame that is put by the line at a place of a text, or no bytes where there is no such line.
pub(crate) fn frame_at<'r>(text: &[u8], place: u32, room: &'r mut [u8]) -> &'r [u8]
    requires { longest_line text.now ≤ length room.old }
    ensures { result.now ≡ put_at text.now place }
{
    let (_, line) = text.split_at(text.len().min(place as usize));
    match next_entry(line, room) {
        Some((Entry::Put { frame, .. }, _)) => frame,
        _ => &[],
    }
}

//! The third pass over a report: whether the lines of each journal fit what the domains at the other ends of its lanes did.

ghost use Rattle.std.specs.Prelude.{◌≡◌, ◌+◌, ◌<◌, ◌≤◌, ◌^◌, ◌++◌, ◌∷◌, [], ℕ, List, IfOk, IfSome, length, true, option_map, slice_index};
ghost use Rattle.std.specs.List.{AllByRecursion};
ghost use Rattle.board_model.specs.declared.scenario.Scenario.{Scenario};
ghost use Rattle.mc_journal.specs.Entry.{line_of_entry};
ghost use Rattle.report_text.specs.JournalLanes.{HasLanes, journals_of};
ghost use Rattle.report_text.specs.JournalRead.{JournalText};
ghost use Rattle.report_text.specs.LaneLines.{LaneLine, lane_of, lanes_told};
ghost use Rattle.report_text.specs.LinkPass.{fits as line_fits, link_place as place_of_link, wrong_among, wrong_link as wrong_in};
ghost use Rattle.report_text.specs.LaneLeft.{AreLeft, AreReady, AreShort, AreTold, Changes, ComesBack, GiveBack, HasFew, IsLeft, IsShort, IsTold, PutsNext, TakesNext, left_of};
ghost use Rattle.report_text.specs.Texts.{longest_line};

use crate::entries::next_entry;
use crate::journal_lanes::{JournalLanes, PutLine, count_puts, frame_at, journal_of};
use mc_base::NoMemory;
use mc_journal::Entry;
use std::alloc::Global;

/// The lines of a domain's journal in a report: its text begins with the first of them, and its lines are counted from `number`.
#[derive(Clone, Copy)]
pub struct JournalLines<'a> {
    pub domain: u8,
    pub number: u32,
    pub text: &'a [u8],
}

/// What is left of a lane from a peer: of the lines by which the peer's journal, in this text, puts frames to anyone, those behind the last one
/// whose frame was taken; how many of them put to the domain; and how many buffers that the peer gives back in its whole journal did not come back.
#[derive(Clone, Copy)]
pub struct Left<'a> {
    pub text: &'a [u8],
    pub puts: &'a [PutLine],
    pub count: u64,
    pub given: u64,
}

/// Returns whether a frame is the first that is left of a lane to a domain, and the lines behind that one.
fn next_put<'a>(
    left: Left<'a>,
    to: u8,
    frame: &[u8],
    room: &mut [u8],
) -> Option<(bool, &'a [PutLine])>
    requires fits { longest_line left.text.now ≤ length room.old }
    ensures { PutsNext to frame.now left.entry (option_map (λ x. (x.0, x.1.now)) result) }
{
    let mut rest = left.puts;
    while let [put, after @ ..] = rest {
        if put.peer == to {
            return Some((frame == frame_at(left.text, put.place, room), after));
        }
        rest = after;
    }
    None
}

/// What is left of a lane after a frame is taken, if that is the next one that the peer puts to a domain.
fn without_put<'a>(left: Left<'a>, to: u8, frame: &[u8], room: &mut [u8]) -> Option<Left<'a>>
    requires fits { longest_line left.text.now ≤ length room.old }
    requires count { left.count ≡ length (left_of to left) }
    ensures { TakesNext to frame.now left.entry result }
{
    match next_put(left, to, frame, room) {
        Some((true, after)) => Some(Left {
            puts: after,
            count: left.count - 1,
            ..left
        }),
        _ => None,
    }
}

/// What is left of a lane after so many buffers came back, if there are so many.
fn without_given<'a>(left: Left<'a>, count: u32) -> Option<Left<'a>>
    ensures { ComesBack count left.entry result }
{
    let given = left.given.checked_sub(u64::from(count))?;
    Some(Left { given, ..left })
}

/// Changes what is left of the lane from a peer, if there is something. Returns whether there is.
fn changes<'a>(lefts: &mut [Left<'a>; 8], place: usize, left: Option<Left<'a>>) -> bool
    requires { place < 8 }
    ensures { Changes place left.entry lefts.old lefts.new result }
{
    match left {
        Some(left) => {
            lefts[place] = left;
            true
        }
        None => false,
    }
}

/// Whether an entry of a domain's journal fits what is left of the lanes from its peers, by their numbers. If so, they are left as it leaves
/// them.
fn fits(lefts: &mut [Left<'_>; 8], domain: u8, entry: Entry<'_>, room: &mut [u8]) -> bool
    requires ready { AreReady (length room.old) domain lefts.old }
    ensures fits { (s : Scenario) (js : List JournalText) (before : List LaneLine) → AreLeft s js domain before lefts.old → HasFew js → result ≡ line_fits s js domain before (lane_of (line_of_entry entry.entry)) }
    ensures left { (s : Scenario) (js : List JournalText) (before : List LaneLine) → AreLeft s js domain before lefts.old → HasFew js → result ≡ true → AreLeft s js domain (before ++ lane_of (line_of_entry entry.entry) ∷ []) lefts.new }
    ensures ready { result ≡ true → AreReady (length room.old) domain lefts.new }
{
    match entry {
        Entry::Take { peer, frame, .. } if peer < 8 => {
            let place = usize::from(peer);
            let left = without_put(lefts[place], domain, frame, room);
            changes(lefts, place, left)
        }
        Entry::See { peer, count } if peer < 8 => u64::from(count)
            <= lefts[usize::from(peer)].count,
        Entry::Back { peer, count } if peer < 8 => {
            let place = usize::from(peer);
            let left = without_given(lefts[place], count);
            changes(lefts, place, left)
        }
        Entry::Take { .. } => false,
        Entry::See { count, .. } => count == 0,
        Entry::Back { count, .. } => count == 0,
        _ => true,
    }
}

/// What is left of the lane from a peer to a domain before the domain's journal is read.
fn left_from<'p>(
    journals: &'p [JournalLanes<'_>],
    given: &[[u64; 8]; 8],
    from: usize,
    to: u8,
) -> Left<'p>
    requires from { from < 8 }
    requires to { to < 8 }
    requires lanes { AllByRecursion HasLanes journals.now }
    ensures left { (s : Scenario) (js : List JournalText) → AreTold js (journals_of journals.now) → GiveBack s js given.now → IsLeft s js to [] from result }
    ensures room { (room : ℕ) → AreShort room (journals_of journals.now) → longest_line result.text.now ≤ room }
    ensures count { result.count ≡ length (left_of to result) }
{
    let given = given[from][usize::from(to)];
    match journal_of(journals, from as u8) {
        Some(found) => {
            let puts = found.puts.as_slice();
            Left {
                text: found.journal.text,
                puts,
                count: count_puts(puts, to),
                given,
            }
        }
        None => Left {
            text: &[],
            puts: &[],
            count: 0,
            given,
        },
    }
}

/// What is left of the lanes to a domain before its journal is read, by the peers' numbers.
fn lefts_of<'p>(journals: &'p [JournalLanes<'_>], given: &[[u64; 8]; 8], to: u8) -> [Left<'p>; 8]
    requires to { to < 8 }
    requires lanes { AllByRecursion HasLanes journals.now }
    ensures left { (s : Scenario) (js : List JournalText) → AreTold js (journals_of journals.now) → GiveBack s js given.now → AreLeft s js to [] result }
    ensures ready { (room : ℕ) → AreShort room (journals_of journals.now) → AreReady room to result }
{
    let mut lefts = [left_from(journals, given, 0, to); 8];
    for from in 1..8 {
        lefts[from] = left_from(journals, given, from, to);
    }
    lefts
}

/// The place of the first line of a domain's journal that does not fit, counted from 0.
fn link_place(
    journal: JournalLines<'_>,
    lefts: &mut [Left<'_>; 8],
    room: &mut [u8],
    peers_room: &mut [u8],
) -> Option<usize>
    requires fits { longest_line journal.text.now ≤ length room.old }
    requires ready { AreReady (length peers_room.old) journal.domain lefts.old }
    ensures within { IfSome result (λ place. place < length journal.entry.text.now) }
    ensures place { (s : Scenario) (js : List JournalText) → HasFew js → AreLeft s js journal.entry.domain [] lefts.old → result ≡ place_of_link s js journal.entry.domain [] (lanes_told journal.entry.text.now) }
{
    let mut place = 0;
    let mut rest = journal.text;
    while let Some((entry, after)) = next_entry(rest, room) {
        if !fits(lefts, journal.domain, entry, peers_room) {
            return Some(place);
        }
        place += 1;
        rest = after;
    }
    None
}

/// The number of the first line of a journal, one of these, that does not fit what the domains at the other ends of its lanes did.
fn wrong_link(
    journals: &[JournalLanes<'_>],
    given: &[[u64; 8]; 8],
    journal: JournalLines<'_>,
    room: &mut [u8],
    peers_room: &mut [u8],
) -> Option<u32>
    requires domain { journal.domain < 8 }
    requires fits { IsShort (length room.old) journal }
    requires room { AreShort (length peers_room.old) (journals_of journals.now) }
    requires lanes { AllByRecursion HasLanes journals.now }
    ensures { (s : Scenario) (js : List JournalText) (j : JournalText) → AreTold js (journals_of journals.now) → GiveBack s js given.now → HasFew js → IsTold j journal.entry → result ≡ wrong_in s js j }
{
    let mut lefts = lefts_of(journals, given, journal.domain);
    let place = link_place(journal, &mut lefts, room, peers_room)?;
    Some(journal.number + place as u32)
}

/// The number of the first line, in the first of these journals that has one, that does not fit.
fn wrong_from<'t>(
    journals: &[JournalLanes<'t>],
    given: &[[u64; 8]; 8],
    rest: &[JournalLanes<'t>],
    room: &mut [u8],
    peers_room: &mut [u8],
) -> Option<u32>
    requires domains { AllByRecursion (λ c. c.domain < 8) (journals_of rest.now) }
    requires fits { AreShort (length room.old) (journals_of rest.now) }
    requires room { AreShort (length peers_room.old) (journals_of journals.now) }
    requires lanes { AllByRecursion HasLanes journals.now }
    ensures { (s : Scenario) (js ts : List JournalText) → AreTold js (journals_of journals.now) → GiveBack s js given.now → HasFew js → AreTold ts (journals_of rest.now) → result ≡ wrong_among s js ts }
{
    let [first, others @ ..] = rest else {
        return None;
    };
    match wrong_link(journals, given, first.journal, room, peers_room) {
        Some(number) => Some(number),
        None => wrong_from(journals, given, others, room, peers_room),
    }
}

/// The third pass over a report: whether the lines of its journals fit what the domains at the other ends of their lanes did. Returns the number of the
/// first line of a journal that does not, which is a `take` whose frame is not the next one that the peer put, a `see` of more frames than the
/// peer puts in its whole journal, less those taken before, or a `back` by which more buffers came back than the peer gives back in its whole
/// journal. `given` has how many that are, by the numbers of the domain that gives back and of the other, and `room` is as long as the longest line.
///
/// # Errors
///
/// `NoMemory` where an allocation fails, which may happen at any time.
pub fn wrong_lanes(
    alloc: Global,
    journals: &[JournalLanes<'_>],
    given: &[[u64; 8]; 8],
    room: &mut [u8],
) -> Result<Option<u32>, NoMemory>
    requires domains { AllByRecursion (λ c. c.domain < 8) (journals_of journals.now) }
    requires room { AreShort (length room.old) (journals_of journals.now) }
    requires lanes { AllByRecursion HasLanes journals.now }
    ensures { IfOk result (λ line. (s : Scenario) (js : List JournalText) → AreTold js (journals_of journals.now) → GiveBack s js given.now → line ≡ wrong_among s js js) }
{
    let Ok(mut peers_room) = vec![in alloc; 0u8; room.len()] else {
        return Err(NoMemory);
    };
    Ok(wrong_from(journals, given, journals, room, &mut peers_room))
}

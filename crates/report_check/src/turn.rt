//! The turn that is due where the lanes show what is told, compared with its lines.

ghost use Rattle.std.specs.Prelude.{◌≡◌, ◌<◌, ◌≤◌, List, IfOk, Some, map, length};
ghost use Rattle.std.specs.List.{AllByRecursion};
ghost use Rattle.board_model.specs.Journal.{Line, looked};
ghost use Rattle.board_model.specs.State.{Peer, peer_of};
ghost use Rattle.board_model.specs.Unjoined.{visit_in};
ghost use Rattle.mc_journal.specs.Entry.{line_of_entry};
ghost use Rattle.report_text.specs.StepPass.{due_takes, due_visit, due_visits};
ghost use Rattle.report_check.specs.Doing.{AreVisited, HasPeers, PutsDone, TakesDone, VisitDone, owed_first};
ghost use Rattle.report_check.specs.Meeting.{Meets};
ghost use Rattle.report_check.specs.NamedStates.{plain};
ghost use Rattle.report_check.specs.ToldTurns.{AreShort, HasShortLines, IsToldPeer, IsToldTurn, frame_told};

use crate::due_lines::DueLines;
use crate::named_state::NamedState;
use crate::told_turn::{ToldPeer, ToldTurn, told_frame};
use mc_base::NoMemory;
use mc_journal::Entry;
use std::alloc::Global;

/// Compares the line of a look with the next. A look that showed nothing has none.
fn meets_look(lines: &mut DueLines<'_, '_>, look: Entry<'_>, count: u32) -> Result<bool, NoMemory>
    ensures { IfOk result (λ is. Meets lines.old lines.new (looked (λ n. line_of_entry look.entry) count) is) }
{
    if count == 0 {
        return Ok(true);
    }
    lines.meets(look)
}

/// Puts the owed frames to a peer, so many at most, as long as a buffer is free, and compares their lines with the next.
fn put_owed_frames(
    state: &mut NamedState,
    peer: u8,
    most: u8,
    lines: &mut DueLines<'_, '_>,
) -> Result<bool, NoMemory>
    ensures { (p : Peer) → peer_of (plain state.old) peer ≡ Some p → IfOk result (λ is. PutsDone state.old state.new lines.old lines.new peer (owed_first most state.old.state.number p) is) }
{
    if most == 0 {
        return Ok(true);
    }
    if state.state.free_to(peer) == 0 {
        return Ok(true);
    }
    let mut frame = [0; 512];
    let Some(size) = state.state.owed_frame(peer, &mut frame) else {
        return Ok(true);
    };
    state.state.put_owed(peer);
    let put = Entry::Put {
        peer,
        frame: &frame[..size],
    };
    if !lines.meets(put)? {
        return Ok(false);
    }
    put_owed_frames(state, peer, most - 1, lines)
}

/// Takes frames from a peer, each that of a line, and compares the lines that are due with the next.
fn take_frames(
    state: &mut NamedState,
    alloc: Global,
    peer: u8,
    takes: &[&[u8]],
    lines: &mut DueLines<'_, '_>,
    room: &mut [u8],
) -> Result<bool, NoMemory>
    requires peer { peer < 8 }
    requires room { AllByRecursion (λ l. length l.now ≤ length room.old) takes.now }
    ensures { IfOk result (λ is. TakesDone state.old state.new lines.old lines.new peer (due_takes (plain state.old) peer (map (λ l. frame_told l.now) takes.now)) is) }
{
    let [first, others @ ..] = takes else {
        return Ok(true);
    };
    let frame = told_frame(first, room);
    let fate = state.take(alloc, peer, frame)?;
    if !lines.meets(Entry::Take { peer, frame, fate })? {
        return Ok(false);
    }
    take_frames(state, alloc, peer, others, lines, room)
}

/// Makes the visit that is due at a peer where its lanes show what is told, and compares its lines with the next.
fn visit(
    state: &mut NamedState,
    alloc: Global,
    peer: u8,
    told: &ToldPeer<'_>,
    lines: &mut DueLines<'_, '_>,
    room: &mut [u8],
) -> Result<bool, NoMemory>
    requires peer { peer < 8 }
    requires room { HasShortLines (length room.old) told.now }
    ensures { (ls : List Line) (p : Peer) → IsToldPeer told.now (visit_in ls peer) → peer_of (plain state.old) peer ≡ Some p → IfOk result (λ is. VisitDone state.old state.new lines.old lines.new (due_visit (plain state.old) (visit_in ls peer)) is) }
{
    let back = state.state.look_back(peer, told.back);
    if !meets_look(lines, Entry::Back { peer, count: back }, back)? {
        return Ok(false);
    }
    if !put_owed_frames(state, peer, 8, lines)? {
        return Ok(false);
    }
    let see = state.state.look_ahead(peer, told.see);
    if !meets_look(lines, Entry::See { peer, count: see }, see)? {
        return Ok(false);
    }
    let takes = &told.takes[..see.min(8) as usize];
    take_frames(state, alloc, peer, takes, lines, room)
}

/// Makes the turn that is due where the lanes show what is told, a visit at each of these peers, and compares its lines with the next.
/// Returns whether they are the same; if not, the state is left within the turn.
///
/// # Errors
///
/// `NoMemory` where an allocation fails.
pub fn turn(
    state: &mut NamedState,
    alloc: Global,
    peers: &[u8],
    told: &ToldTurn<'_>,
    lines: &mut DueLines<'_, '_>,
    room: &mut [u8],
) -> Result<bool, NoMemory>
    requires peers { AllByRecursion (λ n. n < 8) peers.now }
    requires room { AreShort (length room.old) told.now }
    ensures { (ls : List Line) → IsToldTurn told.now ls → HasPeers (plain state.old) peers.now → IfOk result (λ is. AreVisited state.old state.new lines.old lines.new (due_visits (plain state.old) (map (visit_in ls) peers.now)) is) }
{
    let [first, others @ ..] = peers else {
        return Ok(true);
    };
    let peer = &told.peers[usize::from(*first)];
    if !visit(state, alloc, *first, peer, lines, room)? {
        return Ok(false);
    }
    turn(state, alloc, others, told, lines, room)
}

//! A domain's way through the parts of its journal.

ghost use Rattle.std.specs.Prelude.{◌≡◌, ◌<◌, ◌≤◌, ◌^◌, IfOk, None, length, take};
ghost use Rattle.std.specs.List.{AllByRecursion};
ghost use Rattle.board_model.specs.JournalParts.{Part, part_entries};
ghost use Rattle.board_model.specs.Step.{RunState};
ghost use Rattle.report_replay.specs.Effects.{HasOwnAddresses};
ghost use Rattle.report_text.specs.JournalRead.{lines_of_texts};
ghost use Rattle.report_text.specs.StepPass.{part_place};
ghost use Rattle.report_text.specs.SpelledTexts.{IsSpelledText};
ghost use Rattle.report_text.specs.TextLines.{lines_in};
ghost use Rattle.report_text.specs.TextPass.{puts_of_script};
ghost use Rattle.report_text.specs.Texts.{lines_told, longest_line};
ghost use Rattle.report_check.specs.Doing.{HasPeers};
ghost use Rattle.report_check.specs.NextParts.{Heads};
ghost use Rattle.report_check.specs.PartsWalked.{IsBegun, IsPartsWalked, IsSomeHead, IsWithin, Way, due_part};
ghost use Rattle.report_check.specs.Runs.{HasFitLines, IsAt, Makes, script_of};

use crate::cursor::{Head, NextPart, next_part};
use crate::due_lines::DueLines;
use crate::run::Run;
use crate::told_turn::read_told;
use mc_base::NoMemory;
use report_text::SpelledText;
use std::alloc::Global;

/// What is found of the parts of a journal.
pub(crate) enum PartsWalked<'a> {
    /// Each line is the one that was due: so many lines, and the text behind them.
    Right { lines: usize, behind: &'a [u8] },
    /// The line at this place, counted from the first, is the first that is not the one due.
    Wrong { place: usize },
}

impl Run<'_> {
    /// Makes what a part of a journal tells, which begins a text. Returns the place of the line that is due instead, if another is.
    fn part(
        &mut self,
        alloc: Global,
        peers: &[u8],
        text: SpelledText<'_, '_>,
        part: NextPart<'_, '_>,
        room: &mut [u8],
    ) -> Result<Option<usize>, NoMemory>
        ghost r: { RunState }
        requires at { IsAt self.old r }
        requires few { length self.old.script.now < 2 ^ 32 }
        requires peers { AllByRecursion (λ n. n < 8) peers.now }
        requires known { HasPeers r.state peers.now }
        requires own { HasOwnAddresses r.state }
        requires lines { HasFitLines self.old }
        requires head { IsSomeHead part.head }
        requires some { 0 < length (take part.lines (lines_in text.text.now)) }
        requires room { longest_line text.text.now ≤ length room.old }
        requires short { length text.text.now < 2 ^ 32 }
        requires enough { part.lines ≤ length (lines_told text.text.now) }
        requires spelled { IsSpelledText text }
        ensures place { (p : Part) → Heads peers.now (lines_of_texts (take part.entry.lines (lines_in text.entry.text.now))) part.entry.head p → IfOk result (λ place. place ≡ part_place (script_of self.old) peers.now r p (take part.entry.lines (lines_in text.entry.text.now))) }
        ensures run { (p : Part) → Heads peers.now (lines_of_texts (take part.entry.lines (lines_in text.entry.text.now))) part.entry.head p → IfOk result (λ place. place ≡ None → Makes (script_of self.old) r (part_entries peers.now (due_part r.state p)) self.old self.new) }
        ensures script { IfOk result (λ place. self.new.script ≡ self.old.script) }
    {
        let mut lines = DueLines::new(alloc, text, part.lines);
        match part.head {
            Head::Idle { turns } => self.idles(alloc, peers, turns, room),
            Head::Spin { times } => self.spins(alloc, peers, times, &mut lines, room),
            Head::Again => self.tries(&mut lines),
            Head::Turn => {
                let told = read_told(text, part.lines);
                self.turns(alloc, peers, &told, &mut lines, room)
            }
            Head::Wait => self.waits(&mut lines),
            Head::Call => self.calls(alloc, &mut lines),
        }
    }
}

/// Makes what the parts of a journal tell, one after the other, up to the first line that is not the one due. `puts` has how many frames each line of
/// the script puts where it succeeds, and `room` is as long as the longest line.
pub(crate) fn walk_parts<'a>(
    run: &mut Run<'_>,
    alloc: Global,
    peers: &[u8],
    puts: &[u64],
    text: SpelledText<'_, 'a>,
    room: &mut [u8],
) -> Result<PartsWalked<'a>, NoMemory>
    ghost way: { Way }
    requires begun { IsBegun peers.now (script_of run.old) text.text.now way }
    requires at { IsAt run.old way.first }
    requires puts { puts.now ≡ puts_of_script (script_of run.old) }
    requires room { longest_line text.text.now ≤ length room.old }
    requires short { length text.text.now < 2 ^ 32 }
    requires spelled { IsSpelledText text }
    ensures found { IfOk result (IsPartsWalked peers.now way text.entry.text.now run.old run.new) }
    ensures within { IfOk result (IsWithin text.entry.text.now) }
    ensures script { IfOk result (λ walked. run.new.script ≡ run.old.script) }
{
    let mut lines = 0;
    let mut rest = text;
    while let Some(part) = next_part(rest, puts) {
        if let Some(place) = run.part(alloc, peers, rest, part, room)? {
            return Ok(PartsWalked::Wrong {
                place: lines + place,
            });
        }
        lines += part.lines;
        rest = part.behind;
    }
    Ok(PartsWalked::Right {
        lines,
        behind: rest.text,
    })
}

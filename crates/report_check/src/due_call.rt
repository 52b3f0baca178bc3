//! The lines of the next call that are due, where no turn is.

ghost use Rattle.std.specs.Prelude.{◌≡◌, ◌∷◌, [], ◌++◌, ◌+◌, ◌<◌, ◌≤◌, ◌^◌, ℕ, Option, Some, IfOk, IfSome, length, option_map, option_to_list, slice_get, take};
ghost use Rattle.mc_base.specs.Limits.{longest_frame};
ghost use Rattle.board_model.specs.Answer.{puts, refusal as refusal_of};
ghost use Rattle.board_model.specs.Step.{RunState, Waited, limit_of as limit_in, next_line as line_next};
ghost use Rattle.mc_journal.specs.Entry.{line_of_entry, plain_answer};
ghost use Rattle.report_replay.specs.PlainCalls.{plain_call};
ghost use Rattle.report_replay.specs.Puts.{FitsFrame};
ghost use Rattle.report_text.specs.StepPass.{due_answer as answer_due, due_at_limit, due_behind, due_by, due_call, due_wait, has_ended as ends_at, other_than};
ghost use Rattle.report_check.specs.Meeting.{Meets, place_after as place_behind};
ghost use Rattle.report_check.specs.Runs.{IsNext, Shows, capped_wait, lines_put, script_of, times_behind as times_with, told_by, waited_of};

use crate::due_lines::DueLines;
use crate::next_call::{NextCall, is_done, is_timeout, limit_of, may_try, tried_word};
use crate::run::{Run, Waiting};
use mc_base::NoMemory;
use mc_journal::{Answer, Entry};

/// Whether a wait that has begun ends with this answer.
fn has_ended(limit: u32, answer: Answer<'_>, wait: Waiting) -> bool
    ensures { (w : Waited) → capped_wait w ≡ waited_of wait → result ≡ ends_at limit (plain_answer answer.entry) w }
{
    let limit = u64::from(limit);
    (wait.turns == limit && is_timeout(answer))
        || (wait.turns <= limit && !wait.done_before && is_done(answer))
}

/// Compares the next line with that of an entry, if there is one.
fn meets_one(entry: Option<Entry<'_>>, lines: &mut DueLines<'_, '_>) -> Result<bool, NoMemory>
    ensures { IfOk result (λ is. Meets lines.old lines.new (option_to_list (option_map line_of_entry entry.entry)) is) }
{
    match entry {
        Some(entry) => lines.meets(entry),
        None => Ok(true),
    }
}

/// How many tries are told in a row behind so many puts.
fn times_behind(puts: u64, times: Option<u64>) -> Option<u64>
    ensures { result ≡ times_with puts times }
{
    if puts == 0 { times } else { None }
}

/// The place of the first line that is not the one due, where those that are due were met, or not.
pub(crate) fn place_after(lines: &DueLines<'_, '_>, met: bool) -> Option<usize>
    ensures { result ≡ place_behind lines.now met }
{
    if met {
        lines.end()
    } else {
        Some(lines.place())
    }
}

impl Run<'_> {
    /// How many frames a call puts.
    fn count_puts(&self, next: &NextCall<'_>) -> u64
        requires { next.now.refusal ≡ refusal_of self.now.state.state next.now.line.now.node (plain_call next.now.call) }
        ensures { result ≡ length (puts self.now.state.state next.now.line.now.node (plain_call next.now.call)) }
    {
        if next.refusal.is_some() {
            return 0;
        }
        match self.state.state.puts_of_success(next.line.node, &next.call) {
            Some((_, count)) => count,
            None => 0,
        }
    }

    /// Writes the n-th frame that a call puts, counted from 0, to the front of `out`, and returns its peer and its length.
    fn put(&self, next: &NextCall<'_>, n: usize, out: &mut [u8; 512]) -> Option<(u8, usize)>
        requires refusal { next.now.refusal ≡ refusal_of self.now.state.state next.now.line.now.node (plain_call next.now.call) }
        requires fits { FitsFrame (plain_call next.now.call) }
        ensures put { option_map (λ x. (x.0, take x.1 out.new)) result ≡ slice_get (puts self.now.state.state next.now.line.now.node (plain_call next.now.call)) n }
        ensures fits { IfSome result (λ x. x.1 ≤ longest_frame) }
    {
        match next.refusal {
            Some(_) => None,
            None => self
                .state
                .state
                .put_of_success(next.line.node, &next.call, n, out),
        }
    }

    /// Compares the next lines with those of the frames that a call puts, which are so many.
    fn meets_puts(
        &self,
        next: &NextCall<'_>,
        count: u64,
        lines: &mut DueLines<'_, '_>,
    ) -> Result<bool, NoMemory>
        requires refusal { next.now.refusal ≡ refusal_of self.now.state.state next.now.line.now.node (plain_call next.now.call) }
        requires fits { FitsFrame (plain_call next.now.call) }
        requires count { count ≡ length (puts self.now.state.state next.now.line.now.node (plain_call next.now.call)) }
        ensures { IfOk result (λ is. Meets lines.old lines.new (lines_put (puts self.now.state.state next.now.line.now.node (plain_call next.now.call))) is) }
    {
        let mut out = [0; 512];
        for n in 0..count {
            if let Some((peer, size)) = self.put(next, n as usize, &mut out) {
                let frame = &out[..size];
                if !lines.meets(Entry::Put { peer, frame })? {
                    return Ok(false);
                }
            }
        }
        Ok(true)
    }

    /// The number of the next line.
    fn number(&self) -> u32
        requires few { length self.now.script.now < 2 ^ 32 }
        requires next { self.now.called < length self.now.script.now }
        ensures { result ≡ self.now.called + 1 }
    {
        self.called as u32 + 1
    }

    /// The line of a call that is answered so, which may be made again. So many tries in a row are one line.
    fn due_answer<'r>(
        &self,
        next: &NextCall<'_>,
        answer: Answer<'r>,
        times: Option<u64>,
    ) -> Entry<'r>
        requires few { length self.now.script.now < 2 ^ 32 }
        requires next { self.now.called < length self.now.script.now }
        ensures { (r : RunState) → Shows self.now r → line_of_entry result ∷ [] ≡ told_by times (answer_due next.entry.now.line.now r (plain_answer answer.entry)) }
    {
        if let Some(word) = tried_word(answer) {
            if may_try(next.line.tries, self.made) {
                return match times {
                    Some(times) => Entry::Spin { times, word },
                    None => Entry::Again { word },
                };
            }
        }
        Entry::Called {
            number: self.number(),
            answer,
        }
    }

    /// The line that is due where the next line waits.
    fn due_in_wait<'r>(&self, limit: u32, answer: Answer<'r>) -> Option<Entry<'r>>
        requires few { length self.now.script.now < 2 ^ 32 }
        requires next { self.now.called < length self.now.script.now }
        ensures { (r : RunState) (times : Option ℕ) → Shows self.now r → option_to_list (option_map line_of_entry result) ≡ told_by times (due_wait limit r (plain_answer answer.entry) r.waited) }
    {
        let number = self.number();
        match self.waited {
            None if is_timeout(answer) => Some(Entry::WaitStart { number }),
            Some(wait) if !has_ended(limit, answer, wait) => None,
            _ => Some(Entry::Called { number, answer }),
        }
    }

    /// Compares the next lines with those of a call that is due behind a turn: its puts and its answer.
    fn meets_behind(
        &self,
        next: &NextCall<'_>,
        times: Option<u64>,
        lines: &mut DueLines<'_, '_>,
    ) -> Result<bool, NoMemory>
        ghost r: { RunState }
        requires shows { Shows self.now r }
        requires few { length self.now.script.now < 2 ^ 32 }
        requires next { self.now.called < length self.now.script.now }
        requires call { IsNext next.now r }
        requires fits { FitsFrame (plain_call next.now.call) }
        ensures { IfOk result (λ is. Meets lines.old lines.new (told_by times (due_behind next.now.line.now r (Some []))) is) }
    {
        let puts = self.count_puts(next);
        if !self.meets_puts(next, puts, lines)? {
            return Ok(false);
        }
        let answer = self.answer(next);
        let entry = self.due_answer(next, answer, times_behind(puts, times));
        lines.meets(entry)
    }

    /// Compares the next lines with those of the next line's call that are due.
    fn meets_call(
        &self,
        next: &NextCall<'_>,
        times: Option<u64>,
        lines: &mut DueLines<'_, '_>,
    ) -> Result<bool, NoMemory>
        ghost r: { RunState }
        requires shows { Shows self.now r }
        requires few { length self.now.script.now < 2 ^ 32 }
        requires next { self.now.called < length self.now.script.now }
        requires call { IsNext next.now r }
        requires fits { FitsFrame (plain_call next.now.call) }
        ensures { IfOk result (λ is. Meets lines.old lines.new (told_by times (due_at_limit (limit_in next.now.line.now.call) next.now.line.now r)) is) }
    {
        match limit_of(&next.line.call) {
            Some(limit) => meets_one(self.due_in_wait(limit, self.answer(next)), lines),
            None if self.turned => self.meets_behind(next, times, lines),
            None => Ok(true),
        }
    }

    /// Compares the next lines with those that are due where no turn is, while the script has a line.
    fn meets_next(
        &self,
        next: Option<&NextCall<'_>>,
        times: Option<u64>,
        lines: &mut DueLines<'_, '_>,
    ) -> Result<bool, NoMemory>
        ghost r: { RunState }
        requires shows { Shows self.now r }
        requires few { length self.now.script.now < 2 ^ 32 }
        requires next { IfSome next (λ n. self.now.called < length self.now.script.now) }
        requires call { IfSome next (λ n. IsNext n.now r) }
        requires fits { IfSome next (λ n. FitsFrame (plain_call n.now.call)) }
        ensures { IfOk result (λ is. Meets lines.old lines.new (told_by times (due_by (option_map (λ n. n.now.line.now) next.entry) r)) is) }
    {
        match next {
            Some(next) => self.meets_call(next, times, lines),
            None => Ok(true),
        }
    }

    /// The place of the first line that is not the one due, where no turn is.
    pub(crate) fn place_of_call(
        &self,
        next: Option<&NextCall<'_>>,
        times: Option<u64>,
        lines: &mut DueLines<'_, '_>,
    ) -> Result<Option<usize>, NoMemory>
        ghost r: { RunState }
        requires shows { Shows self.now r }
        requires few { length self.now.script.now < 2 ^ 32 }
        requires line { option_map (λ n. n.now.line.now) next ≡ line_next (script_of self.now) r }
        requires call { IfSome next (λ n. IsNext n.now r) }
        requires first { lines.old.place ≡ 0 }
        requires fits { IfSome next (λ n. FitsFrame (plain_call n.now.call)) }
        ensures { IfOk result (λ place. place ≡ other_than (told_by times (due_call (script_of self.now) r)) lines.old.texts) }
    {
        let met = self.meets_next(next, times, lines)?;
        Ok(place_after(lines, met))
    }
}

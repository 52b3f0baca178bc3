//! The scenario at the head of a report: read, and compared with its canonical text.

ghost use Rattle.std.specs.Prelude.{◌≡◌, ◌+◌, ◌<◌, ◌≤◌, ◌^◌, None, Some, IfErr, IfOk, IfSome, bytes_eq, if◌then◌else◌, length, max, take};
ghost use Rattle.board_model.specs.Language.{told_by};
ghost use Rattle.board_model.specs.Report.{Mode};
ghost use Rattle.report_text.specs.TextLines.{first_other, lines_in};
ghost use Rattle.report_text.specs.ScenarioPart.{begins_journal as heads_journal, behind_front, front_lines, refused_place as place_if_refused, scenario_from, scenario_in, text_of};
ghost use Rattle.report_text.specs.Texts.{IsBehind, longest_line, rest_of, told_seen};

use crate::lines::{Unread, cut};
use board_model::Scenario;
use mc_base::NoMemory;
use scenario_lang::{ScenarioFault, read_scenario, write_scenario};
use std::alloc::Global;

/// Whether a line begins with the word `journal` and a blank.
fn begins_journal(line: &[u8]) -> bool
    ensures { result ≡ heads_journal line.now }
{
    let name: &[u8] = b"journal";
    match cut(b' ', line) {
        Some((word, _)) => name == word,
        None => false,
    }
}

/// Counts the bytes and the lines before the first line that begins a journal.
fn front_size(text: &[u8]) -> (usize, u32)
    requires { length text.now < 2 ^ 32 }
    ensures bytes { result.0 ≡ length (text_of (front_lines (lines_in text.now))) }
    ensures lines { result.1 ≡ length (front_lines (lines_in text.now)) }
    ensures within { result.0 ≤ length text.now }
    ensures few { result.1 ≤ result.0 }
{
    let mut bytes = 0;
    let mut lines = 0;
    let mut rest = text;
    while let Some((line, after)) = cut(b'\n', rest) {
        if begins_journal(line) {
            return (bytes, lines);
        }
        bytes += line.len() + 1;
        lines += 1;
        rest = after;
    }
    if rest.is_empty() {
        return (bytes, lines);
    }
    if begins_journal(rest) {
        return (bytes, lines);
    }
    (bytes + rest.len(), lines + 1)
}

/// Counts the bytes of the first lines of a text.
pub fn first_bytes(text: &[u8], lines: usize) -> usize
    ensures value { result ≡ length (text_of (take lines (lines_in text.now))) }
    ensures within { result ≤ length text.now }
{
    let mut bytes = 0;
    let mut left = lines;
    let mut rest = text;
    while let Some((line, after)) = cut(b'\n', rest) {
        if left == 0 {
            return bytes;
        }
        bytes += line.len() + 1;
        left -= 1;
        rest = after;
    }
    if left == 0 {
        return bytes;
    }
    bytes + rest.len()
}

fn is_same(one: &[u8], two: &[u8]) -> bool
    ensures { result ≡ bytes_eq one.now two.now }
{
    one == two
}

/// The place, unless the texts are the same.
fn unless_same(place: u32, one: &[u8], two: &[u8]) -> Option<u32>
    ensures { result ≡ (if bytes_eq one.now two.now then None else Some place) }
{
    if is_same(one, two) { None } else { Some(place) }
}

/// Returns the place of the first line that is another in the two texts. Where they are the same, as in a right report, one comparison
/// shows it.
pub fn other_line(one: &[u8], two: &[u8]) -> Option<u32>
    requires { length one.now < 2 ^ 32 }
    ensures value { result ≡ first_other (lines_in one.now) (lines_in two.now) }
    ensures within { IfSome result (λ place. place ≤ length one.now) }
{
    if is_same(one, two) {
        return None;
    }
    line_of_difference(one, two)
}

/// Looks for it line by line.
fn line_of_difference(one: &[u8], two: &[u8]) -> Option<u32>
    requires { length one.now < 2 ^ 32 }
    ensures value { result ≡ first_other (lines_in one.now) (lines_in two.now) }
    ensures within { IfSome result (λ place. place ≤ length one.now) }
{
    let mut place = 0;
    let mut front = one;
    let mut back = two;
    while let Some((line, after)) = cut(b'\n', front) {
        let Some((other, behind)) = cut(b'\n', back) else {
            return unless_same(place, front, back);
        };
        if !is_same(line, other) {
            return Some(place);
        }
        place += 1;
        front = after;
        back = behind;
    }
    unless_same(place, front, back)
}

/// Returns the place of the first wrong line where the line behind the first `passed` is refused.
fn refused_place(alloc: Global, text: &[u8], passed: u32) -> Result<u32, NoMemory>
    requires { length text.now < 4_294_967_295 }
    ensures value { IfOk result (λ place. place ≡ place_if_refused (lines_in text.now) passed (told_by text.now)) }
    ensures within { IfOk result (λ place. place ≤ max passed (length text.now)) }
{
    match read_scenario(alloc, text) {
        Ok(scenario) => {
            let canonical = write_scenario(alloc, &scenario)?;
            match other_line(text, &canonical) {
                Some(place) => Ok(place),
                None => Ok(passed),
            }
        }
        Err(ScenarioFault::Refused { .. }) => Ok(0),
        Err(ScenarioFault::NoMemory) => Err(NoMemory),
    }
}

/// Reads the scenario whose lines these are, or returns the place of the first wrong line.
fn scenario_of(alloc: Global, text: &[u8]) -> Result<Result<Scenario, u32>, NoMemory>
    requires { length text.now < 4_294_967_295 }
    ensures value { IfOk result (λ r. r ≡ scenario_in (lines_in text.now)) }
    ensures within { IfOk result (λ r. IfErr r (λ place. place ≤ length text.now)) }
{
    match read_scenario(alloc, text) {
        Ok(scenario) => {
            let canonical = write_scenario(alloc, &scenario)?;
            match other_line(text, &canonical) {
                Some(place) => Ok(Err(place)),
                None => Ok(Ok(scenario)),
            }
        }
        Err(ScenarioFault::Refused { line, .. }) => {
            let passed = line.saturating_sub(1);
            let (before, _) = text.split_at(first_bytes(text, passed as usize));
            Ok(Err(refused_place(alloc, before, passed)?))
        }
        Err(ScenarioFault::NoMemory) => Err(NoMemory),
    }
}

/// A text, parted before the first line that begins a journal: what stands before it, in how many lines, and what stands behind.
#[derive(Clone, Copy)]
struct Parted<'a> {
    front: &'a [u8],
    lines: u32,
    behind: &'a [u8],
}

fn part_text(text: &[u8]) -> Parted<'_>
    requires { length text.now < 2 ^ 32 }
    ensures front { lines_in result.front.now ≡ front_lines (lines_in text.now) }
    ensures lines { result.lines ≡ length (front_lines (lines_in text.now)) }
    ensures behind { lines_in result.behind.now ≡ behind_front (lines_in text.now) }
    ensures short { length result.front.now ≤ length text.now }
    ensures few { result.lines + length result.behind.now ≤ length text.now }
    ensures fits { longest_line result.behind.now ≤ longest_line text.now }
{
    let (bytes, lines) = front_size(text);
    let (front, behind) = text.split_at(bytes);
    Parted {
        front,
        lines,
        behind,
    }
}

/// Reads the scenario of a report, and returns it with what is left behind it, or the number of its first wrong line.
pub fn read_told<'a>(
    alloc: Global,
    unread: Unread<'a>,
) -> Result<Result<(Scenario, Unread<'a>), u32>, NoMemory>
    requires few { unread.number + length unread.text.now < 2 ^ 32 }
    requires short { length unread.text.now < 4_294_967_295 }
    ensures value { IfOk result (λ r. (m : Mode) → told_seen m r ≡ scenario_from m (rest_of unread.entry)) }
    ensures behind { IfOk result (λ r. IfOk r (λ x. IsBehind unread.entry x.1)) }
{
    let part = part_text(unread.text);
    match scenario_of(alloc, part.front)? {
        Ok(scenario) => Ok(Ok((
            scenario,
            Unread {
                number: unread.number + part.lines,
                text: part.behind,
            },
        ))),
        Err(place) => Ok(Err(unread.number + place)),
    }
}

//! The lines of a journal in a text: whether some domain could have them, whatever its state.

ghost use Rattle.std.specs.Prelude.{◌≡◌, ◌+◌, ◌++◌, ◌<◌, ◌≤◌, ◌^◌, true, false, None, IfOk, IfSome, option_map, length};
ghost use Rattle.std.specs.List.{list_all};
ghost use Rattle.report_text.specs.Texts.{last_of, lines_told, lines_behind, longest_line, told_front, rest_of, seen, IsReached};
ghost use Rattle.report_text.specs.TurnOrder.{is_under as stands_under};
ghost use Rattle.report_text.specs.JournalOrder.{is_turn as begins_turn, puts_numbered as puts_of_number, puts_of_head as puts_by_head, puts_of_line as puts_by};
ghost use Rattle.report_text.specs.TextPass.{entries_from};

use crate::joins::stands;
use crate::lines::Unread;
use crate::outline::Outline;
use crate::reading::next_line;
use crate::turn_order::{is_under, under_place};
use mc_base::NoMemory;
use std::alloc::Global;

fn is_turn(line: Outline) -> bool
    ensures { result ≡ begins_turn line }
{
    matches!(line, Outline::Turn)
}

fn puts_numbered(puts: &[u64], number: u32) -> usize
    ensures { result ≡ puts_of_number puts.now number }
{
    if number == 0 {
        return 0;
    }
    match puts.get(number as usize - 1) {
        Some(count) => *count as usize,
        None => 0,
    }
}

/// Counts the put lines before a line that are the line's, by how many frames each line of the script puts.
pub fn puts_of_line(puts: &[u64], line: Outline) -> usize
    ensures { result ≡ puts_by puts.now line }
{
    match line {
        Outline::Call { number, refused } => {
            if refused {
                0
            } else {
                puts_numbered(puts, number)
            }
        }
        _ => 0,
    }
}

/// Counts the put lines before the next line that are that line's.
fn puts_of_head(puts: &[u64], head: Option<(Outline, &[u8])>) -> usize
    ensures { result ≡ puts_by_head puts.now (option_map (λ x. x.0) head.entry) }
{
    match head {
        Some((line, _)) => puts_of_line(puts, line),
        None => 0,
    }
}

/// Returns the last of these lines, or what stands before them.
fn last_line(before: Option<Outline>, lines: &[Outline]) -> Option<Outline>
    ensures { result ≡ last_of before lines.now }
{
    let mut last = before;
    let mut rest = lines;
    while let [line, after @ ..] = rest {
        last = Some(*line);
        rest = after;
    }
    last
}

/// What stands behind lines that stand under another: the next line of the journal, where there is one, and what follows it.
#[derive(Clone, Copy)]
struct Behind<'a> {
    head: Option<(Outline, &'a [u8])>,
    text: &'a [u8],
}

/// Fills `lines` with the lines at the front of a text that stand under the line before, and returns what is behind them.
fn collect_under<'a>(lines: &mut Vec<Outline>, text: &'a [u8]) -> Result<Behind<'a>, NoMemory>
    ensures lines { IfOk result (λ b. lines_told text.now ≡ lines.new.items ++ lines_told b.text.now) }
    ensures under { IfOk result (λ _. list_all stands_under lines.new.items ≡ true) }
    ensures head { IfOk result (λ b. lines_told b.text.now ≡ told_front (option_map (λ x. (x.0, x.1.now)) b.head)) }
    ensures other { IfOk result (λ b. IfSome b.head (λ x. stands_under x.0 ≡ false)) }
    ensures shorter { IfOk result (λ b. length lines.new.items + length b.text.now ≤ length text.now) }
    ensures later { IfOk result (λ b. IfSome b.head (λ x. length x.1.now < length b.text.now)) }
    ensures short { IfOk result (λ b. longest_line b.text.now ≤ longest_line text.now) }
    ensures fits { IfOk result (λ b. IfSome b.head (λ x. longest_line x.1.now ≤ longest_line text.now)) }
    ensures behind { IfOk result (λ b. lines_behind b.text.now ≡ lines_behind text.now) }
    ensures next { IfOk result (λ b. IfSome b.head (λ x. lines_behind x.1.now ≡ lines_behind text.now)) }
{
    lines.clear();
    let mut rest = text;
    while let Some((line, after)) = next_line(rest) {
        if !is_under(line) {
            return Ok(Behind {
                head: Some((line, after)),
                text: rest,
            });
        }
        if lines.push(line).is_err() {
            return Err(NoMemory);
        }
        rest = after;
    }
    Ok(Behind {
        head: None,
        text: rest,
    })
}

/// Reads the lines of a journal, and returns what is left behind them, or the number of the first that no domain with these peers and
/// this script could have at its place. `puts` has how many frames each line of the script puts where it succeeds.
pub fn read_entries<'a>(
    alloc: Global,
    unread: Unread<'a>,
    peers: &[u8],
    puts: &[u64],
) -> Result<Result<Unread<'a>, u32>, NoMemory>
    requires few { unread.number + length unread.text.now < 2 ^ 32 }
    ensures value { IfOk result (λ r. seen r ≡ entries_from peers.now puts.now (rest_of unread.entry)) }
    ensures behind { IfOk result (λ r. IsReached unread.entry r) }
{
    let mut lines = Vec::new(alloc);
    let mut number = unread.number;
    let mut text = unread.text;
    let mut turn = false;
    let mut last = None;
    loop {
        let behind = collect_under(&mut lines, text)?;
        let claimed = puts_of_head(puts, behind.head);
        if let Some(place) = under_place(peers, turn, claimed, &lines) {
            return Ok(Err(number + place as u32));
        }
        number += lines.len() as u32;
        let Some((line, after)) = behind.head else {
            return Ok(Ok(Unread {
                number,
                text: behind.text,
            }));
        };
        if !stands(last_line(last, &lines), line) {
            return Ok(Err(number));
        }
        number += 1;
        text = after;
        turn = is_turn(line);
        last = Some(line);
    }
}

//! The lines under a line: those of a turn, in their order, and the puts of a call behind them.

ghost use Rattle.std.specs.Prelude.{◌≡◌, ◌<◌, ◌≤◌, ◌^◌, None, IfSome, length};
ghost use Rattle.mc_base.specs.Limits.{turn_limit};
ghost use Rattle.report_text.specs.TurnOrder.{comes_after as is_after, impossible_place as first_impossible, is_at_peer as at_peer, is_next as stands_next, is_peer as has_peer, is_possible as may_stand, is_put as puts, is_under as stands_under, may_follow as follows, order_place as first_unordered, own_count as own_lines, own_place as own_wrong, part_in, peer_in, puts_first as first_puts, puts_last as last_puts, shown_at, takes_due as due_takes, under_place as first_wrong};

use crate::outline::Outline;
use mc_base::TURN_FRAMES;

/// Whether a line stands under another: it is of a turn, or a put.
pub fn is_under(line: Outline) -> bool
    ensures { result ≡ stands_under line }
{
    matches!(
        line,
        Outline::Back { .. } | Outline::Put { .. } | Outline::See { .. } | Outline::Take { .. }
    )
}

fn is_put(line: Outline) -> bool
    ensures { result ≡ puts line }
{
    matches!(line, Outline::Put { .. })
}

fn is_peer(peers: &[u8], peer: u8) -> bool
    ensures { result ≡ has_peer peers.now peer }
{
    peers.iter().any(|other| *other == peer)
}

/// Whether a turn or a call of the domain can have the line: it is of a peer, and no look showed nothing.
fn is_possible(peers: &[u8], line: Outline) -> bool
    ensures { result ≡ may_stand peers.now line }
{
    match line {
        Outline::Back { peer, count } => is_peer(peers, peer) && count > 0,
        Outline::Put { peer } => is_peer(peers, peer),
        Outline::See { peer, count } => is_peer(peers, peer) && count > 0,
        Outline::Take { peer } => is_peer(peers, peer),
        _ => true,
    }
}

fn impossible_place(peers: &[u8], lines: &[Outline]) -> Option<usize>
    ensures value { result ≡ first_impossible peers.now lines.now }
    ensures within { IfSome result (λ place. place ≤ length lines.now) }
{
    let mut place = 0;
    let mut rest = lines;
    while let [line, after @ ..] = rest {
        if !is_possible(peers, *line) {
            return Some(place);
        }
        place += 1;
        rest = after;
    }
    None
}

/// Counts the puts that stand first.
fn puts_first(lines: &[Outline]) -> usize
    ensures value { result ≡ first_puts lines.now }
    ensures within { result ≤ length lines.now }
{
    let mut count = 0;
    let mut rest = lines;
    while let [line, after @ ..] = rest {
        if !is_put(*line) {
            return count;
        }
        count += 1;
        rest = after;
    }
    count
}

/// Counts the puts that stand last.
fn puts_last(lines: &[Outline]) -> usize
    ensures value { result ≡ last_puts 0 lines.now }
    ensures within { result ≤ length lines.now }
{
    let mut count = 0;
    let mut rest = lines;
    while let [line, after @ ..] = rest {
        count = if is_put(*line) { count + 1 } else { 0 };
        rest = after;
    }
    count
}

fn peer_of(line: Outline) -> u8
    ensures { result ≡ peer_in line }
{
    match line {
        Outline::Back { peer, .. } => peer,
        Outline::Put { peer } => peer,
        Outline::See { peer, .. } => peer,
        Outline::Take { peer } => peer,
        _ => 0,
    }
}

/// The part of a visit to which a line belongs.
fn part_of(line: Outline) -> u8
    ensures { result ≡ part_in line }
{
    match line {
        Outline::Back { .. } => 0,
        Outline::Put { .. } => 1,
        Outline::See { .. } => 2,
        _ => 3,
    }
}

fn comes_after(before: Outline, line: Outline) -> bool
    ensures { result ≡ is_after before line }
{
    peer_of(before) < peer_of(line)
        || (peer_of(before) == peer_of(line)
            && (part_of(before) < part_of(line) || (is_put(before) && is_put(line))))
}

fn may_follow(last: Option<Outline>, line: Outline) -> bool
    ensures { result ≡ follows last line }
{
    match last {
        Some(before) => comes_after(before, line),
        None => true,
    }
}

fn is_at_peer(last: Option<Outline>, peer: u8) -> bool
    ensures { result ≡ at_peer last peer }
{
    match last {
        Some(before) => peer_of(before) == peer,
        None => false,
    }
}

/// Whether a line may stand behind the last one, where so many takes are still due.
fn is_next(due: u32, last: Option<Outline>, line: Outline) -> bool
    ensures { result ≡ stands_next due last line }
{
    match line {
        Outline::Take { peer } => due > 0 && is_at_peer(last, peer),
        _ => due == 0 && may_follow(last, line),
    }
}

/// Counts the takes that are due behind a line.
fn takes_due(due: u32, line: Outline) -> u32
    ensures { result ≡ due_takes due line }
{
    match line {
        Outline::See { count, .. } => count.min(TURN_FRAMES as u32),
        Outline::Take { .. } => due.saturating_sub(1),
        _ => 0,
    }
}

/// Returns the place of the first of so many lines of a turn that is out of order, or of the line that shows it.
fn order_place(own: usize, lines: &[Outline]) -> Option<usize>
    ensures value { result ≡ first_unordered own 0 None lines.now }
    ensures within { IfSome result (λ place. place ≤ length lines.now) }
{
    let mut left = own;
    let mut due = 0;
    let mut last = None;
    let mut place = 0;
    let mut rest = lines;
    while let [line, after @ ..] = rest {
        if left == 0 {
            break;
        }
        if !is_next(due, last, *line) {
            return Some(if due == 0 {
                place + puts_first(rest)
            } else {
                place
            });
        }
        due = takes_due(due, *line);
        last = Some(*line);
        left -= 1;
        place += 1;
        rest = after;
    }
    if due == 0 { None } else { Some(place) }
}

fn own_place(turn: bool, own: usize, lines: &[Outline]) -> Option<usize>
    ensures value { result ≡ own_wrong turn own lines.now }
    ensures within { IfSome result (λ place. place ≤ length lines.now) }
{
    if turn {
        if own == 0 {
            return Some(lines.len());
        }
        return order_place(own, lines);
    }
    if own == 0 {
        None
    } else {
        Some(puts_first(lines))
    }
}

fn own_count(puts: usize, lines: &[Outline]) -> usize
    ensures { result ≡ own_lines puts lines.now }
{
    lines.len() - puts.min(puts_last(lines))
}

/// Returns the place of the first wrong line under a turn or another line, where the call behind them has so many puts.
pub fn under_place(peers: &[u8], turn: bool, puts: usize, lines: &[Outline]) -> Option<usize>
    ensures value { result ≡ first_wrong peers.now turn puts lines.now }
    ensures within { IfSome result (λ place. place ≤ length lines.now) }
{
    let first = own_place(turn, own_count(puts, lines), lines);
    let Some(place) = impossible_place(peers, lines) else {
        return first;
    };
    match first {
        Some(other) => Some(place.min(other)),
        None => Some(place),
    }
}

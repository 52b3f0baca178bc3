//! Which lines of a journal are joined: idle turns in a row, and tries in a row.

ghost use Rattle.std.specs.Prelude.{◌≡◌};
ghost use Rattle.board_model.specs.Words.{same_word};
ghost use Rattle.report_text.specs.JournalOrder.{is_count as counts, is_one_idle as one_idle, joins_idle as idle_joins, joins_spin as spin_joins, stands as may_stand};

use crate::outline::Outline;
use mc_base::Refusal;

fn is_same_word(one: Refusal, two: Refusal) -> bool
    ensures { result ≡ same_word one two }
{
    one == two
}

/// Whether one more idle turn would be counted by the last line.
fn joins_idle(last: Option<Outline>) -> bool
    ensures { result ≡ idle_joins last }
{
    match last {
        Some(Outline::Idle { turns }) => turns < u64::MAX,
        _ => false,
    }
}

/// Whether one more try with this word would be counted by the last line.
fn joins_spin(word: Refusal, last: Option<Outline>) -> bool
    ensures { result ≡ spin_joins word last }
{
    match last {
        Some(
            Outline::Spin {
                times,
                word: before,
            },
        ) => is_same_word(before, word) && times < u64::MAX,
        _ => false,
    }
}

fn is_one_idle(last: Option<Outline>) -> bool
    ensures { result ≡ one_idle last }
{
    match last {
        Some(Outline::Idle { turns }) => turns == 1,
        _ => false,
    }
}

fn is_count(n: u64) -> bool
    ensures { result ≡ counts n }
{
    n >= 1
}

/// Whether a line may stand behind the last one: it has a count where it needs one, and is not joined with that line.
pub fn stands(last: Option<Outline>, line: Outline) -> bool
    ensures { result ≡ may_stand last line }
{
    match line {
        Outline::Idle { turns } => is_count(turns) && !joins_idle(last),
        Outline::Spin { times, word } => {
            is_count(times) && !joins_idle(last) && !joins_spin(word, last)
        }
        Outline::Again { .. } => !is_one_idle(last),
        _ => true,
    }
}

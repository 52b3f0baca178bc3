//! Whether two scenarios are the same.

ghost use Rattle.std.specs.Prelude.{◌≡◌, ◌<◌, IfOk, None, length};
ghost use Rattle.board_model.specs.Grammar.{canonical};

use board_model::Scenario;
use mc_base::NoMemory;
use report_text::cut;
use scenario_lang::write_scenario;
use std::alloc::Global;

/// Counts the lines at the front of two texts that are the same.
fn same_lines(one: &[u8], two: &[u8]) -> u32 {
    let mut lines: u32 = 0;
    let mut rest = one;
    let mut others = two;
    while let Some((line, after)) = cut(b'\n', rest) {
        let Some((other, behind)) = cut(b'\n', others) else {
            return lines;
        };
        if line != other {
            return lines;
        }
        lines = lines.saturating_add(1);
        rest = after;
        others = behind;
    }
    lines
}

/// Counts the lines at the front of two texts that are the same, where the texts are not.
fn other_line(one: &[u8], two: &[u8]) -> Option<u32>
    ensures { result ≡ None → one.now ≡ two.now }
{
    if one == two {
        None
    } else {
        Some(same_lines(one, two))
    }
}

/// Returns how many lines of the canonical texts of two scenarios are the same before the first that is another, or `None` where all are.
///
/// # Errors
///
/// `NoMemory` where an allocation fails.
pub fn other_scenario(
    alloc: Global,
    one: &Scenario,
    two: &Scenario,
) -> Result<Option<u32>, NoMemory>
    ensures { IfOk result (λ lines. lines ≡ None → canonical one.now ≡ canonical two.now) }
{
    let text = write_scenario(alloc, one)?;
    let other = write_scenario(alloc, two)?;
    Ok(other_line(&text, &other))
}

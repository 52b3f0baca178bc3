//! The lines of a script that delete endpoints.

ghost use Rattle.std.specs.Prelude.{◌≡◌, ◌-◌, IfOk, List, map, slice_get};
ghost use Rattle.board_model.specs.declared.scenario.CallLine.{CallLine};
ghost use Rattle.board_model.specs.Scenario.{script};
ghost use Rattle.board_model.specs.Tallies.{deleted_in, deletes_line, is_delete};
ghost use Rattle.mc_journal.specs.Entry.{line_of_entry};

use board_model::{Call, Scenario};
use mc_base::NoMemory;
use mc_journal::{Answer, Entry};
use std::alloc::Global;

/// Whether a call deletes an endpoint.
fn is_delete(call: &Call) -> bool
    ensures { result ≡ is_delete call.now }
{
    matches!(call, Call::Delete { .. })
}

/// Whether each line of a domain's script deletes an endpoint.
pub fn script_deletes(alloc: Global, scenario: &Scenario, domain: u8) -> Result<Vec<bool>, NoMemory>
    ensures { IfOk result (λ v. v.items ≡ map (λ c. is_delete c.call) (script scenario.now domain)) }
{
    let mut deletes = Vec::new(alloc);
    let mut rest = scenario.calls.as_slice();
    while let [line, after @ ..] = rest {
        if line.domain == domain {
            if deletes.push(is_delete(&line.call)).is_err() {
                return Err(NoMemory);
            }
        }
        rest = after;
    }
    Ok(deletes)
}

/// How many messages a delete dropped, if the entry is the call of one. It is the number that the call answers.
pub fn deleted_by(deletes: &[bool], entry: Entry<'_>) -> u64
    ensures { (script : List CallLine) → deletes.now ≡ map (λ c. is_delete c.call) script → result ≡ deleted_in script (line_of_entry entry.entry) }
{
    match entry {
        Entry::Called {
            number,
            answer: Answer::Number(count),
        } if is_delete_line(deletes, number) => count,
        _ => 0,
    }
}

/// Whether the line of this number, counted from 1, deletes an endpoint.
fn is_delete_line(deletes: &[bool], number: u32) -> bool
    ensures { (script : List CallLine) → deletes.now ≡ map (λ c. is_delete c.call) script → result ≡ deletes_line (slice_get script (number - 1)) }
{
    match deletes.get(number.saturating_sub(1) as usize) {
        Some(deletes) => *deletes,
        None => false,
    }
}

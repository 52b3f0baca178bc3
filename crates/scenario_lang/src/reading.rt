//! Reading scenario files: domains, links, and every call that is built, with labels and tries.

ghost use Rattle.std.specs.Prelude.{◌≡◌, ◌≤◌, ◌<◌, IfOk, Ok, Err, length};
ghost use Rattle.board_model.specs.Language.{told_by, refused, IsLawfulBoard};
ghost use Rattle.scenario_lang.specs.Refused.{IfRefused};
ghost use Rattle.scenario_lang.specs.Telling.{fault_at};
ghost use Rattle.scenario_lang.specs.LanguageLaws.{CanonicalIsReadBack};

use crate::above::Above;
use crate::fault::{LineFault, ScenarioFault};
use crate::lines::first_line;
use board_model::{LineReason, Scenario};
use std::alloc::Global;

/// Reads a scenario file (docs/FORMATS.md, "Scenario files").
///
/// It takes time in proportion to the size of the text, and the logarithm of the number of labels. The text must have fewer
/// than 4,294,967,295 bytes, since its lines are numbered in a `u32`.
///
/// # Errors
///
/// `Refused` where the text is no scenario, with the first line that has a reason, counted from 1, and the first reason of
/// that line, in the order of `LineReason`. A file without a domain is refused as `Domain` at the line after its last.
/// `NoMemory` where an allocation fails, which may happen at any time.
pub fn read_scenario(alloc: Global, text: &[u8]) -> Result<Scenario, ScenarioFault>
    requires { length text.now < 4_294_967_295 }
    ensures told { IfOk result (λ s. told_by text.now ≡ Ok s) }
    ensures refused { IfRefused result (λ line reason. told_by text.now ≡ Err (refused line reason)) }
    ensures few { IfOk result (λ s. length s.calls ≤ length text.now) }
    ensures lawful { IfOk result IsLawfulBoard }
{
    lines_told(alloc, text)
}

/// What `write_scenario` makes of a lawful scenario is read back as the same scenario. The function has no code: its
/// contract is the law.
pub fn canonical_text_is_read_back()
    ensures { CanonicalIsReadBack }
{}

/// Reads the scenario of the lines of a text, one after the other.
fn lines_told(alloc: Global, text: &[u8]) -> Result<Scenario, ScenarioFault>
    requires { length text.now < 4_294_967_295 }
    ensures told { IfOk result (λ s. told_by text.now ≡ Ok s) }
    ensures refused { IfRefused result (λ line reason. told_by text.now ≡ Err (refused line reason)) }
{
    let mut above = Above::new(alloc);
    let mut words = Vec::new(alloc);
    let mut number = 1u32;
    let mut rest = text;
    while !rest.is_empty() {
        let (line, after) = first_line(rest);
        if let Err(fault) = above.tell_line(alloc, &mut words, line) {
            return Err(at_line(number, fault));
        }
        number += 1;
        rest = after;
    }
    if above.told.domains.as_slice().is_empty() {
        return Err(ScenarioFault::Refused {
            line: number,
            reason: LineReason::Domain,
        });
    }
    Ok(above.into_scenario())
}

/// The fault of a line in its file.
fn at_line(line: u32, fault: LineFault) -> ScenarioFault
    ensures { result ≡ fault_at line fault }
{
    match fault {
        LineFault::Refused(reason) => ScenarioFault::Refused { line, reason },
        LineFault::NoMemory => ScenarioFault::NoMemory,
    }
}

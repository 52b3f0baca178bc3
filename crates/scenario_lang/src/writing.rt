//! A scenario as a text in memory.

ghost use Rattle.std.specs.Prelude.{◌≡◌, IfOk};
ghost use Rattle.board_model.specs.Grammar.{canonical};

use crate::canonical::put_scenario;
use board_model::Scenario;
use mc_base::NoMemory;
use outer_io::{Failed, Sink, Writer};
use std::alloc::Global;

/// A text in memory. A write fails only where an allocation fails.
#[derive(Drop)]
struct TextSink {
    text: Vec<u8>,
    faults: u64,
}

impl Sink for TextSink {
    ghost use Rattle.std.specs.Prelude.{Some};

    ghost written = { λ s. Some s.text.items };

    ghost faults = { λ s. s.faults };

    fn write(&mut self, piece: &[u8]) -> Result<usize, Failed> {
        if self.text.extend_from_slice(piece).is_err() {
            self.faults = self.faults.saturating_add(1);
            return Err(Failed);
        }
        Ok(piece.len())
    }
}

/// Writes the canonical text of a scenario. Where the scenario was read from some text, it is read back as the same scenario:
/// `canonical_text_is_read_back`.
///
/// # Errors
///
/// `NoMemory` where an allocation fails.
pub fn write_scenario(alloc: Global, scenario: &Scenario) -> Result<Vec<u8>, NoMemory>
    ensures { IfOk result (λ v. v.items ≡ canonical scenario.now) }
{
    let mut sink = TextSink {
        text: Vec::new(alloc),
        faults: 0,
    };
    let mut out = Writer::new(&mut sink);
    put_scenario(&mut out, scenario);
    match out.finish() {
        Ok(()) => Ok(sink.text),
        Err(Failed) => Err(NoMemory),
    }
}

//! Texts that are written in memory.

use outer_io::{Failed, Sink};

/// A text in memory. A write fails only where an allocation fails; `faults` counts these.
#[derive(Drop)]
pub struct TextSink {
    pub text: Vec<u8>,
    pub faults: u64,
}

impl Sink for TextSink {
    ghost use Rattle.std.specs.Prelude.{Some};

    ghost written = { λ s. Some s.text.items };

    ghost faults = { λ s. s.faults };

    fn write(&mut self, piece: &[u8]) -> Result<usize, Failed> {
        if self.text.extend_from_slice(piece).is_err() {
            self.faults = self.faults.saturating_add(1);
            return Err(Failed);
        }
        Ok(piece.len())
    }
}

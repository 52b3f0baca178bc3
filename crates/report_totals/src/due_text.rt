//! The lines of numbers that are due.

ghost use Rattle.std.specs.Prelude.{◌≡◌, ◌++◌, IfOk};
ghost use Rattle.board_model.specs.Report.{ending};
ghost use Rattle.board_numbers.specs.NumberLines.{numbers_text};

use crate::text_sink::TextSink;
use board_model::{ChannelTotals, LanePlaces, Totals};
use board_numbers::write_numbers;
use mc_base::NoMemory;
use std::alloc::Global;

/// The text behind the journals that is due: what became of the items of each channel, of the messages, and of the buffers of each lane,
/// these lines of rings, and the last line.
///
/// # Errors
///
/// `NoMemory` where an allocation fails.
pub fn due_text(
    alloc: Global,
    channels: &[ChannelTotals],
    messages: &Totals,
    places: &[LanePlaces],
    rings: &[u8],
) -> Result<Vec<u8>, NoMemory>
    ensures { IfOk result (λ text. text.items ≡ numbers_text channels.now messages.now places.now ++ (rings.now ++ ending)) }
{
    let mut sink = TextSink {
        text: Vec::new(alloc),
        faults: 0,
    };
    if write_numbers(channels, messages, places, &mut sink).is_err() {
        return Err(NoMemory);
    }
    if sink.text.extend_from_slice(rings).is_err() {
        return Err(NoMemory);
    }
    if sink.text.extend_from_slice(b"end\n").is_err() {
        return Err(NoMemory);
    }
    Ok(sink.text)
}

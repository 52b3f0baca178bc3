//! The form `frame`: the hexadecimal text of a frame in, what it says or its first fault out.

ghost use Rattle.std.specs.Prelude.{◌≡◌, ℕ, List, None};
ghost use Rattle.scenario_cli.specs.declared.form.Form.TheVariants.{Frame};
ghost use Rattle.scenario_cli.specs.Hex.{hex_fault, bytes_spelled};
ghost use Rattle.scenario_cli.specs.Answers.{Tells};

mod content;
mod fault;
mod words;

use crate::hex::{HexFault, read_hex};
use crate::status::{self, after_write};
use crate::wrong::write_wrong;
use content::read_content;
use fault::{fault_word, place_of};
use outer_io::Sink;
use std::alloc::Global;
use words::write_right;

/// Writes what the frame of a text says, or what is wrong with the text or the frame and where. Returns the status.
pub fn tell_frame<K: Sink>(alloc: Global, text: &[u8], output: &mut K) -> u8
    ensures { Tells K.Sink Frame text.now result output.old output.new }
{
    match read_hex(alloc, text) {
        Ok(frame) => tell_bytes(&frame, output),
        Err(HexFault::At { place }) => {
            after_write(write_wrong(place, b"hex", output), status::WRONG)
        }
        Err(HexFault::NoMemory) => status::NO_MEMORY,
    }
}

/// Writes what a frame says, or its first fault and where.
fn tell_bytes<K: Sink>(frame: &[u8], output: &mut K) -> u8
    ensures { (text : List ℕ) → hex_fault text ≡ None → frame.now ≡ bytes_spelled text → Tells K.Sink Frame text result output.old output.new }
{
    match read_content(frame) {
        Ok(content) => after_write(write_right(content, output), status::DONE),
        Err(fault) => {
            let place = place_of(fault, frame.len());
            after_write(write_wrong(place, fault_word(fault), output), status::WRONG)
        }
    }
}

//! The refusal of a text for actors: of a relay, or of numbered calls.

ghost use Rattle.std.specs.Prelude.{ℕ, List};
ghost use Rattle.actor_lang.specs.CallsInput.{calls_told};
ghost use Rattle.actor_lang.specs.InputFaults.{Refuses};
ghost use Rattle.actor_lang.specs.RelayInput.{relay_told};
ghost use Rattle.scenario_cli.specs.declared.form.Form.TheVariants.{Relay, Calls};
ghost use Rattle.scenario_cli.specs.Answers.{Tells};

use crate::refused::{input_reason_word, write_refusal};
use crate::status::{self, after_write};
use actor_lang::InputFault;
use outer_io::Sink;

/// Writes the refusal of a text that tells no relay or no numbered calls, where memory for reading it was found. Returns the status.
pub fn tell_input_fault<K: Sink>(fault: InputFault, output: &mut K) -> u8
    ensures relay { (text : List ℕ) → Refuses fault (relay_told text) → Tells K.Sink Relay text result output.old output.new }
    ensures calls { (text : List ℕ) → Refuses fault (calls_told text) → Tells K.Sink Calls text result output.old output.new }
{
    match fault {
        InputFault::Refused { line, reason } => {
            let written = write_refusal(line, input_reason_word(reason), output);
            after_write(written, status::REFUSED)
        }
        InputFault::NoMemory => status::NO_MEMORY,
    }
}

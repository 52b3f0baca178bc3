//! The form `ring`: the bytes of the image of a ring in, what it is of or its first fault out.

ghost use Rattle.scenario_cli.specs.declared.form.Form.TheVariants.{Ring};
ghost use Rattle.std.specs.Prelude.{◌≤◌, length};
ghost use Rattle.scenario_cli.specs.Words.{input_limit};
ghost use Rattle.scenario_cli.specs.Answers.{Tells};

mod words;

use crate::status::{self, after_write};
use crate::wrong::write_wrong;
use outer_io::Sink;
use ring_trace::check_image;
use words::{image_fault_word, write_info};

/// Writes what an image is of, or what is wrong with it and where. Returns the status. It takes no memory.
pub fn tell_image<K: Sink>(image: &[u8], output: &mut K) -> u8
    requires { length image.now ≤ input_limit }
    ensures { Tells K.Sink Ring image.now result output.old output.new }
{
    match check_image(image) {
        Ok(info) => after_write(write_info(info, output), status::DONE),
        Err((place, fault)) => {
            let written = write_wrong(place as usize, image_fault_word(fault), output);
            after_write(written, status::WRONG)
        }
    }
}

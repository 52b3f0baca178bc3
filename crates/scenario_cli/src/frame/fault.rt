//! The word for what is wrong with a frame, and where in the frame it is told.

ghost use Rattle.std.specs.Prelude.{◌≡◌};
ghost use Rattle.board_model.specs.Dealing.{fault_word as word_of_fault};
ghost use Rattle.board_model.specs.Words.{fate_text};
ghost use Rattle.scenario_cli.specs.Places.{place_in, frame_place_in, letter_place_in, ns_place_in};

use domain_core::fault_fate;
use mc_base::{Fault, FrameFault, LetterFault, NsFault};
use mc_journal::fate_word;

/// The word for what is wrong with a frame, as it stands in a take line.
pub fn fault_word(fault: Fault) -> &'static [u8]
    ensures { result.now ≡ fate_text (word_of_fault fault) }
{
    fate_word(fault_fate(fault))
}

/// The place of a fault of a frame of so many bytes: the offset of the field that is wrong, or the number of bytes where
/// this is wrong.
pub fn place_of(fault: Fault, size: usize) -> usize
    ensures { result ≡ place_in fault size }
{
    match fault {
        Fault::Frame(fault) => frame_place(fault, size),
        Fault::Letter(fault) => letter_place(fault),
        Fault::Ns(fault) => ns_place(fault),
    }
}

fn frame_place(fault: FrameFault, size: usize) -> usize
    ensures { result ≡ frame_place_in fault size }
{
    match fault {
        FrameFault::FrameShort => size,
        FrameFault::FrameLong => size,
        FrameFault::HeaderLen => 12,
    }
}

fn letter_place(fault: LetterFault) -> usize
    ensures { result ≡ letter_place_in fault }
{
    match fault {
        LetterFault::PayloadShort => 12,
        LetterFault::Magic => 16,
        LetterFault::Version => 17,
        LetterFault::Kind => 18,
        LetterFault::Argument => 19,
        LetterFault::Channel => 20,
        LetterFault::Size => 12,
    }
}

fn ns_place(fault: NsFault) -> usize
    ensures { result ≡ ns_place_in fault }
{
    match fault {
        NsFault::NsSize => 12,
        NsFault::NsFlags => 52,
        NsFault::NsName => 16,
    }
}

//! The words of faults.

ghost use Rattle.std.specs.Prelude.{◌≡◌, false};
ghost use Rattle.board_model.specs.Dealing.{fault_word as word_of_fault, keeps_buffer};

use mc_base::{Fate, Fault, FrameFault, LetterFault, NsFault};

/// The word of a frame with this fault.
pub(crate) fn fault_word(fault: Fault) -> Fate
    ensures word { result ≡ word_of_fault fault }
    ensures drops { keeps_buffer result ≡ false }
{
    match fault {
        Fault::Frame(FrameFault::FrameShort) => Fate::FrameShort,
        Fault::Frame(FrameFault::FrameLong) => Fate::FrameLong,
        Fault::Frame(FrameFault::HeaderLen) => Fate::HeaderLen,
        Fault::Letter(LetterFault::PayloadShort) => Fate::PayloadShort,
        Fault::Letter(LetterFault::Magic) => Fate::Magic,
        Fault::Letter(LetterFault::Version) => Fate::Version,
        Fault::Letter(LetterFault::Kind) => Fate::Kind,
        Fault::Letter(LetterFault::Argument) => Fate::Argument,
        Fault::Letter(LetterFault::Channel) => Fate::Channel,
        Fault::Letter(LetterFault::Size) => Fate::Size,
        Fault::Ns(NsFault::NsSize) => Fate::NsSize,
        Fault::Ns(NsFault::NsFlags) => Fate::NsFlags,
        Fault::Ns(NsFault::NsName) => Fate::NsName,
    }
}

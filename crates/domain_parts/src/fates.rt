//! The words for what is wrong with a frame.

ghost use Rattle.std.specs.Prelude.{◌≡◌, false};
ghost use Rattle.board_model.specs.Dealing.{fault_word, frame_word, letter_word, ns_word, keeps_buffer};

use mc_base::{Fate, Fault, FrameFault, LetterFault, NsFault};

/// Returns the word under which a domain records a taken frame with this fault.
pub fn fault_fate(fault: Fault) -> Fate
    ensures { result ≡ fault_word fault }
{
    match fault {
        Fault::Frame(fault) => frame_fate(fault),
        Fault::Letter(fault) => letter_fate(fault),
        Fault::Ns(fault) => ns_fate(fault),
    }
}

/// A fault of the frame itself.
pub(crate) fn frame_fate(fault: FrameFault) -> Fate
    ensures word { result ≡ frame_word fault }
    ensures returned { keeps_buffer result ≡ false }
{
    match fault {
        FrameFault::FrameShort => Fate::FrameShort,
        FrameFault::FrameLong => Fate::FrameLong,
        FrameFault::HeaderLen => Fate::HeaderLen,
    }
}

/// A fault of a letter.
pub(crate) fn letter_fate(fault: LetterFault) -> Fate
    ensures word { result ≡ letter_word fault }
    ensures returned { keeps_buffer result ≡ false }
{
    match fault {
        LetterFault::PayloadShort => Fate::PayloadShort,
        LetterFault::Magic => Fate::Magic,
        LetterFault::Version => Fate::Version,
        LetterFault::Kind => Fate::Kind,
        LetterFault::Argument => Fate::Argument,
        LetterFault::Channel => Fate::Channel,
        LetterFault::Size => Fate::Size,
    }
}

/// A fault of a name announcement.
pub(crate) fn ns_fate(fault: NsFault) -> Fate
    ensures word { result ≡ ns_word fault }
    ensures returned { keeps_buffer result ≡ false }
{
    match fault {
        NsFault::NsSize => Fate::NsSize,
        NsFault::NsFlags => Fate::NsFlags,
        NsFault::NsName => Fate::NsName,
    }
}

//! What a frame says.

ghost use Rattle.std.specs.Prelude.{◌≡◌};
ghost use Rattle.mc_base.specs.Fault.{fault};
ghost use Rattle.mc_base.specs.Reading.{reading};
ghost use Rattle.name_service.specs.Said.{reading_of};

use crate::read_ns;
use bridge_frame::{Letter, read_letter};
use mc_base::{Fault, NAME_SERVICE_ADDRESS, Ns};
use rpmsg_frame::decode;

/// What a frame says. A letter's bytes are those of the frame.
#[derive(Debug, Drop)]
pub enum Said<'a> {
    /// It has a fault, of which this is the first.
    Faulty(Fault),
    /// An endpoint's name and address, and whether it is there or gone.
    Announces(Ns),
    /// A letter from one address to another.
    Sends {
        src: u32,
        dst: u32,
        letter: Letter<'a>,
    },
}

/// Reads a frame as its first fault or, where it has none, its announcement, if the destination is 53, and else its letter.
/// The faults and their order are in docs/FORMATS.md.
pub fn read_frame(frame: &[u8]) -> Said<'_>
    ensures { reading_of result ≡ reading frame.now }
{
    let frame = match decode(frame) {
        Ok(frame) => frame,
        Err(fault) => return Said::Faulty(Fault::Frame(fault)),
    };
    if frame.dst == NAME_SERVICE_ADDRESS {
        match read_ns(frame.payload) {
            Ok(ns) => Said::Announces(ns),
            Err(fault) => Said::Faulty(Fault::Ns(fault)),
        }
    } else {
        match read_letter(frame.payload) {
            Ok(letter) => Said::Sends {
                src: frame.src,
                dst: frame.dst,
                letter,
            },
            Err(fault) => Said::Faulty(Fault::Letter(fault)),
        }
    }
}

/// Returns the first fault of a frame, or `None` where it is sound: those of the frame itself, and then those of its
/// payload, which is a name announcement where the destination is 53, and else a letter.
pub fn fault_of(frame: &[u8]) -> Option<Fault>
    ensures { result ≡ fault frame.now }
{
    match read_frame(frame) {
        Said::Faulty(fault) => Some(fault),
        Said::Announces(_) => None,
        Said::Sends { .. } => None,
    }
}

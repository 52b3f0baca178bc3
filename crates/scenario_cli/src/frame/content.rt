//! What a frame says, or what is wrong with it.

ghost use Rattle.std.specs.Prelude.{◌≡◌, List, ℕ, IfOk, MatchResult, None, Some};
ghost use Rattle.mc_base.specs.Fault.{faults, payload_faults};
ghost use Rattle.mc_base.specs.FaultRow.{first_fault};
ghost use Rattle.mc_base.specs.Frame.{IsFrame};
ghost use Rattle.scenario_cli.specs.FrameText.{IsFrameText};
ghost use Rattle.scenario_cli.specs.Content.{content_line};

use bridge_frame::read_letter;
use mc_base::{Fault, Letter, NAME_SERVICE_ADDRESS, Ns};
use name_service::read_ns;
use rpmsg_frame::{Frame, decode};

/// What a sound frame says.
#[derive(Drop)]
pub enum Content<'a> {
    /// A frame to an endpoint.
    Letter {
        src: u32,
        dst: u32,
        letter: Letter<'a>,
    },
    /// A frame to the name service.
    Announcement {
        src: u32,
        ns: Ns,
    },
}

/// What a frame says, or its first fault.
pub fn read_content(frame: &[u8]) -> Result<Content<'_>, Fault>
    ensures sound { IfOk result (λ content. IsFrameText frame.now (content_line content)) }
    ensures fault { MatchResult result
        (λ content. first_fault (faults frame.now) ≡ None)
        (λ e. first_fault (faults frame.now) ≡ Some e) }
{
    match decode(frame) {
        Ok(frame) => payload_content(frame),
        Err(fault) => Err(Fault::Frame(fault)),
    }
}

/// What the payload says: an announcement where the destination is the name service, and else a letter.
fn payload_content(frame: Frame<'_>) -> Result<Content<'_>, Fault>
    ensures sound { (bytes : List ℕ) → IsFrame bytes frame.entry.src frame.entry.dst frame.entry.payload.now
        → IfOk result (λ content. IsFrameText bytes (content_line content)) }
    ensures fault { MatchResult result
        (λ content. first_fault (payload_faults frame.entry.dst frame.entry.payload.now) ≡ None)
        (λ e. first_fault (payload_faults frame.entry.dst frame.entry.payload.now) ≡ Some e) }
{
    let src = frame.src;
    let dst = frame.dst;
    if dst == NAME_SERVICE_ADDRESS {
        match read_ns(frame.payload) {
            Ok(ns) => Ok(Content::Announcement { src, ns }),
            Err(fault) => Err(Fault::Ns(fault)),
        }
    } else {
        match read_letter(frame.payload) {
            Ok(letter) => Ok(Content::Letter { src, dst, letter }),
            Err(fault) => Err(Fault::Letter(fault)),
        }
    }
}

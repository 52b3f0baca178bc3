//! What kind of frame a picture shows.

use mc_base::Letter;
use name_service::{Said, read_frame};

/// The kind of a frame, by which it is coloured.
#[derive(Clone, Copy, Debug, PartialEq, Eq)]
pub enum FrameKind {
    /// A message, a packet, a scalar, or a part of one.
    Data,
    /// A letter by which a channel is connected, opened or closed.
    Control,
    /// An announcement.
    Name,
    /// A frame with a fault.
    Fault,
}

/// Returns the kind of a frame.
pub fn kind_of(frame: &[u8]) -> FrameKind {
    match read_frame(frame) {
        Said::Faulty(_) => FrameKind::Fault,
        Said::Announces(_) => FrameKind::Name,
        Said::Sends { letter, .. } => match letter {
            Letter::Msg { .. }
            | Letter::Packet { .. }
            | Letter::Scalar { .. }
            | Letter::MsgPart { .. }
            | Letter::PacketPart { .. } => FrameKind::Data,
            _ => FrameKind::Control,
        },
    }
}

/// The word of a kind, by which a trace viewer sorts events.
pub fn kind_word(kind: FrameKind) -> &'static [u8] {
    match kind {
        FrameKind::Data => b"data",
        FrameKind::Control => b"control",
        FrameKind::Name => b"name",
        FrameKind::Fault => b"fault",
    }
}

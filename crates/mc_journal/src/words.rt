//! The words of a journal: of refusals, of connections that were rejected, and of what became of frames.

ghost use Rattle.std.specs.Prelude.{◌≡◌};
ghost use Rattle.board_model.specs.Words.{refusal_text, fate_text, reason_text};

use mc_base::{Fate, Reason, Refusal};

/// Returns the word of a refusal.
pub fn refusal_word(word: Refusal) -> &'static [u8]
    ensures { result.now ≡ refusal_text word }
{
    match word {
        Refusal::NodeInvalid => b"node_invalid",
        Refusal::ExistsAlready => b"exists_already",
        Refusal::EndpLimit => b"endp_limit",
        Refusal::AddressSpent => b"address_spent",
        Refusal::EndpInvalid => b"endp_invalid",
        Refusal::PeerInvalid => b"peer_invalid",
        Refusal::OnChannel => b"on_channel",
        Refusal::ChanConnected => b"chan_connected",
        Refusal::EndpBusy => b"endp_busy",
        Refusal::ChanLimit => b"chan_limit",
        Refusal::RequestLimit => b"request_limit",
        Refusal::NotConnected => b"not_connected",
        Refusal::ChanDirection => b"chan_direction",
        Refusal::ChanType => b"chan_type",
        Refusal::ChanClosed => b"chan_closed",
        Refusal::AlreadyOpen => b"already_open",
        Refusal::NotOpen => b"not_open",
        Refusal::MsgSize => b"msg_size",
        Refusal::PktSize => b"pkt_size",
        Refusal::NoBuffer => b"no_buffer",
        Refusal::Empty => b"empty",
        Refusal::SclSize => b"scl_size",
        Refusal::BufInvalid => b"buf_invalid",
        Refusal::RequestInvalid => b"request_invalid",
        Refusal::Pending => b"pending",
        Refusal::TooLate => b"too_late",
        Refusal::Timeout => b"timeout",
        Refusal::LinkInvalid => b"link_invalid",
        Refusal::RawSound => b"raw_sound",
    }
}

/// Returns the word for why a connection was rejected.
pub fn reason_word(reason: Reason) -> &'static [u8]
    ensures { result.now ≡ reason_text reason }
{
    match reason {
        Reason::NoEndpoint => b"no_endpoint",
        Reason::Connected => b"connected",
        Reason::Busy => b"busy",
    }
}

/// Returns the last word of a `take` line: what became of the frame.
pub fn fate_word(fate: Fate) -> &'static [u8]
    ensures { result.now ≡ fate_text fate }
{
    match fate {
        Fate::FrameShort => b"frame_short",
        Fate::FrameLong => b"frame_long",
        Fate::HeaderLen => b"header_len",
        Fate::PayloadShort => b"payload_short",
        Fate::Magic => b"magic",
        Fate::Version => b"version",
        Fate::Kind => b"kind",
        Fate::Argument => b"argument",
        Fate::Channel => b"channel",
        Fate::Size => b"size",
        Fate::NsSize => b"ns_size",
        Fate::NsFlags => b"ns_flags",
        Fate::NsName => b"ns_name",
        Fate::ForeignName => b"foreign_name",
        Fate::NamesFull => b"names_full",
        Fate::UnknownName => b"unknown_name",
        Fate::RepliesFull => b"replies_full",
        Fate::Acted => b"acted",
        Fate::Owed => b"owed",
        Fate::NoEndpoint => b"no_endpoint",
        Fate::OnChannel => b"on_channel",
        Fate::Handed => b"handed",
        Fate::Queued => b"queued",
        Fate::Closed => b"closed",
        Fate::State => b"state",
        Fate::Part => b"part",
        Fate::Stray => b"stray",
    }
}

//! The words of refusals, of take lines and of rejections, read.

ghost use Rattle.std.specs.Prelude.{◌≡◌};
ghost use Rattle.board_model.specs.WordTables.{fate_in, fates, reason_in, reasons, refusal_in, refusals};

use crate::words::{fate_word, reason_word, refusal_word};
use mc_base::{Fate, Reason, Refusal};

fn all_refusals() -> &'static [Refusal]
    ensures { result.now ≡ refusals }
{
    &[
        Refusal::NodeInvalid,
        Refusal::ExistsAlready,
        Refusal::EndpLimit,
        Refusal::AddressSpent,
        Refusal::EndpInvalid,
        Refusal::PeerInvalid,
        Refusal::OnChannel,
        Refusal::ChanConnected,
        Refusal::EndpBusy,
        Refusal::ChanLimit,
        Refusal::RequestLimit,
        Refusal::NotConnected,
        Refusal::ChanDirection,
        Refusal::ChanType,
        Refusal::ChanClosed,
        Refusal::AlreadyOpen,
        Refusal::NotOpen,
        Refusal::MsgSize,
        Refusal::PktSize,
        Refusal::NoBuffer,
        Refusal::Empty,
        Refusal::SclSize,
        Refusal::BufInvalid,
        Refusal::RequestInvalid,
        Refusal::Pending,
        Refusal::TooLate,
        Refusal::Timeout,
        Refusal::LinkInvalid,
        Refusal::RawSound,
    ]
}

/// Returns the refusal of a word, or `None` where it is no word of refusal.
pub fn refusal_of(word: &[u8]) -> Option<Refusal>
    ensures { result ≡ refusal_in word.now }
{
    all_refusals()
        .iter()
        .copied()
        .find(|refusal| refusal_word(*refusal) == word)
}

fn all_fates() -> &'static [Fate]
    ensures { result.now ≡ fates }
{
    &[
        Fate::FrameShort,
        Fate::FrameLong,
        Fate::HeaderLen,
        Fate::PayloadShort,
        Fate::Magic,
        Fate::Version,
        Fate::Kind,
        Fate::Argument,
        Fate::Channel,
        Fate::Size,
        Fate::NsSize,
        Fate::NsFlags,
        Fate::NsName,
        Fate::ForeignName,
        Fate::NamesFull,
        Fate::UnknownName,
        Fate::RepliesFull,
        Fate::Acted,
        Fate::Owed,
        Fate::NoEndpoint,
        Fate::OnChannel,
        Fate::Handed,
        Fate::Queued,
        Fate::Closed,
        Fate::State,
        Fate::Part,
        Fate::Stray,
    ]
}

/// Returns what became of a frame, by the word of its take line, or `None` where it is no such word.
pub fn fate_of(word: &[u8]) -> Option<Fate>
    ensures { result ≡ fate_in word.now }
{
    all_fates()
        .iter()
        .copied()
        .find(|fate| fate_word(*fate) == word)
}

fn all_reasons() -> &'static [Reason]
    ensures { result.now ≡ reasons }
{
    &[Reason::NoEndpoint, Reason::Connected, Reason::Busy]
}

/// Returns why a connection was rejected, or `None` where the word is no reason.
pub fn reason_of(word: &[u8]) -> Option<Reason>
    ensures { result ≡ reason_in word.now }
{
    all_reasons()
        .iter()
        .copied()
        .find(|reason| reason_word(*reason) == word)
}

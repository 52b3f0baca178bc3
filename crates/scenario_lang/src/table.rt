//! The table of calls: the word of each, its arguments, and what may stand before it.

ghost use Rattle.std.specs.Prelude.{◌≡◌};
ghost use Rattle.board_model.specs.Forms.{form, callee_of as call_with};
ghost use Rattle.scenario_lang.specs.Table.{IsRow};

use board_model::ArgumentKind::{
    self, ChannelKind, Content, Limit, Maximum, Name, PacketLabel, PeerDomain, Port, Priority,
    RawFrame, RequestLabel, RequestLabels, ScalarBits, ScalarValue,
};
use board_model::Callee;

/// The form of a call.
#[derive(Clone, Copy)]
pub(crate) struct CallRow {
    pub word: &'static [u8],
    /// The arguments in their order.
    pub arguments: &'static [ArgumentKind],
    /// Whether the call needs a label.
    pub labelled: bool,
    /// Whether the call may be tried more than once.
    pub tried: bool,
}

const NO_LABEL: bool = false;

const A_LABEL: bool = true;

const MAY_TRY: bool = true;

const ONE_TRY: bool = false;

/// Returns the row of a call.
pub fn row_of(callee: Callee) -> CallRow
    ensures { IsRow result (form callee) }
{
    match callee {
        Callee::Create => row(b"create", &[Port], NO_LABEL, MAY_TRY),
        Callee::Delete => row(b"delete", &[Port], NO_LABEL, MAY_TRY),
        Callee::Lookup => row(b"lookup", &[Name], A_LABEL, MAY_TRY),
        Callee::MsgSend => row(
            b"msg_send",
            &[Port, Name, Priority, Content],
            NO_LABEL,
            MAY_TRY,
        ),
        Callee::MsgRecv => row(b"msg_recv", &[Port, Maximum], NO_LABEL, MAY_TRY),
        Callee::MsgRecvI => row(b"msg_recv_i", &[Port, Maximum], A_LABEL, MAY_TRY),
        Callee::MsgAvailable => row(b"msg_available", &[Port], NO_LABEL, MAY_TRY),
        Callee::Connect => row(b"connect", &[Port, Name, ChannelKind], A_LABEL, MAY_TRY),
        Callee::OpenSend => row(b"open_send", &[Port, ChannelKind], NO_LABEL, MAY_TRY),
        Callee::OpenRecv => row(b"open_recv", &[Port, ChannelKind], NO_LABEL, MAY_TRY),
        Callee::PktSend => row(b"pkt_send", &[Port, Content], NO_LABEL, MAY_TRY),
        Callee::PktRecv => row(b"pkt_recv", &[Port], A_LABEL, MAY_TRY),
        Callee::PktRecvI => row(b"pkt_recv_i", &[Port], A_LABEL, MAY_TRY),
        Callee::Release => row(b"release", &[PacketLabel], NO_LABEL, MAY_TRY),
        Callee::SclSend => row(
            b"scl_send",
            &[Port, ScalarBits, ScalarValue],
            NO_LABEL,
            MAY_TRY,
        ),
        Callee::SclRecv => row(b"scl_recv", &[Port, ScalarBits], NO_LABEL, MAY_TRY),
        Callee::CloseSend => row(b"close_send", &[Port], NO_LABEL, MAY_TRY),
        Callee::CloseRecv => row(b"close_recv", &[Port], NO_LABEL, MAY_TRY),
        Callee::Test => row(b"test", &[RequestLabel], NO_LABEL, MAY_TRY),
        Callee::Wait => row(b"wait", &[RequestLabel, Limit], NO_LABEL, ONE_TRY),
        Callee::WaitAny => row(b"wait_any", &[RequestLabels, Limit], NO_LABEL, ONE_TRY),
        Callee::Cancel => row(b"cancel", &[RequestLabel], NO_LABEL, MAY_TRY),
        Callee::Raw => row(b"raw", &[PeerDomain, RawFrame], NO_LABEL, MAY_TRY),
        Callee::Turn => row(b"turn", &[], NO_LABEL, MAY_TRY),
    }
}

fn row(
    word: &'static [u8],
    arguments: &'static [ArgumentKind],
    labelled: bool,
    tried: bool,
) -> CallRow
    ensures { result ≡ (record { word = word.entry; arguments = arguments.entry; labelled = labelled; tried = tried }) }
{
    CallRow {
        word,
        arguments,
        labelled,
        tried,
    }
}

/// Every call, in the order of the table.
const CALLEES: [Callee; 24] = [
    Callee::Create,
    Callee::Delete,
    Callee::Lookup,
    Callee::MsgSend,
    Callee::MsgRecv,
    Callee::MsgRecvI,
    Callee::MsgAvailable,
    Callee::Connect,
    Callee::OpenSend,
    Callee::OpenRecv,
    Callee::PktSend,
    Callee::PktRecv,
    Callee::PktRecvI,
    Callee::Release,
    Callee::SclSend,
    Callee::SclRecv,
    Callee::CloseSend,
    Callee::CloseRecv,
    Callee::Test,
    Callee::Wait,
    Callee::WaitAny,
    Callee::Cancel,
    Callee::Raw,
    Callee::Turn,
];

/// Returns the call with this word.
pub fn callee_of(word: &[u8]) -> Option<Callee>
    ensures { result ≡ call_with word.now }
{
    for callee in &CALLEES {
        if word == row_of(*callee).word {
            return Some(*callee);
        }
    }
    None
}

//! The word by which a call is refused.

ghost use Rattle.std.specs.Prelude.{◌≡◌, ◌||◌, length, nat_lt, option_map};
ghost use Rattle.mc_base.specs.Letter.{bytes_of_bits};
ghost use Rattle.mc_base.specs.Limits.{item_size};
ghost use Rattle.board_model.specs.State.{queue_at};
ghost use Rattle.board_model.specs.Answer.{channel_at, content_size, end_call, holds as condition_of, holds_at_end, is_complete, is_of_other_size, is_sound_raw, lacks_buffers, lacks_complete, lacks_end, lacks_lane, lacks_request, named, packet_named, passes_lane, refusal as first_word, request_named, success_puts, words_of};
ghost use Rattle.report_replay.specs.PlainCalls.{plain_call, plain_end_call};
ghost use Rattle.report_replay.specs.Puts.{headed};
ghost use Rattle.report_replay.specs.Views.{end_of};

use crate::calls::call::DomainCall;
use crate::calls::ends::EndCall;
use crate::channel::ChannelEnd;
use crate::request::{LentPacket, Request};
use crate::state::State;
use mc_base::{
    Bits, ITEM_SIZE, Local, MAX_CHANNELS, MAX_ENDPOINTS, MAX_ENDPOINTS_EVER, MAX_REQUESTS, Refusal,
    frames_needed,
};
use name_service::fault_of;

impl DomainCall<'_> {
    /// The words by which the call may be refused, in their order.
    fn words(&self) -> &'static [Refusal]
        ensures { result.now ≡ words_of (plain_call self.now) }
    {
        use Refusal::*;
        match self {
            DomainCall::Create { .. } => &[NodeInvalid, ExistsAlready, EndpLimit, AddressSpent],
            DomainCall::Delete { .. } => &[EndpInvalid, ChanConnected],
            DomainCall::Lookup { .. } => &[RequestLimit],
            DomainCall::Send { .. } => &[EndpInvalid, OnChannel, PeerInvalid, MsgSize, NoBuffer],
            DomainCall::Receive { .. } => &[EndpInvalid, OnChannel, Empty],
            DomainCall::Request { .. } => &[EndpInvalid, OnChannel, RequestLimit],
            DomainCall::Available { .. } => &[EndpInvalid, OnChannel],
            DomainCall::Connect { .. } => &[
                EndpInvalid,
                ChanConnected,
                EndpBusy,
                PeerInvalid,
                ChanLimit,
                RequestLimit,
                NoBuffer,
            ],
            DomainCall::Open { .. } => &[
                EndpInvalid,
                NotConnected,
                ChanDirection,
                ChanType,
                ChanClosed,
                AlreadyOpen,
                NoBuffer,
            ],
            DomainCall::SendPacket { .. } => &[
                EndpInvalid,
                NotConnected,
                ChanDirection,
                ChanType,
                ChanClosed,
                NotOpen,
                PktSize,
                NoBuffer,
            ],
            DomainCall::LendPacket { .. } => &[
                EndpInvalid,
                NotConnected,
                ChanDirection,
                ChanType,
                ChanClosed,
                NotOpen,
                Empty,
            ],
            DomainCall::RequestPacket { .. } => &[
                EndpInvalid,
                NotConnected,
                ChanDirection,
                ChanType,
                ChanClosed,
                NotOpen,
                RequestLimit,
            ],
            DomainCall::Release { .. } => &[BufInvalid],
            DomainCall::SendScalar { .. } => &[
                EndpInvalid,
                NotConnected,
                ChanDirection,
                ChanType,
                ChanClosed,
                NotOpen,
                NoBuffer,
            ],
            DomainCall::ReceiveScalar { .. } => &[
                EndpInvalid,
                NotConnected,
                ChanDirection,
                ChanType,
                ChanClosed,
                NotOpen,
                Empty,
                SclSize,
            ],
            DomainCall::Close { .. } => &[
                EndpInvalid,
                NotConnected,
                ChanDirection,
                ChanClosed,
                NoBuffer,
            ],
            DomainCall::Test { .. } => &[RequestInvalid, Pending],
            DomainCall::Wait { .. } => &[RequestInvalid, Timeout],
            DomainCall::Cancel { .. } => &[RequestInvalid, TooLate],
            DomainCall::Raw { .. } => &[LinkInvalid, RawSound, NoBuffer],
            DomainCall::Turn => &[],
        }
    }
}

impl DomainCall<'_> {
    /// Whether the call puts a raw frame that has no fault.
    fn is_sound_raw(&self) -> bool
        ensures { result ≡ is_sound_raw (plain_call self.now) }
    {
        match self {
            DomainCall::Raw { bytes, .. } => fault_of(bytes).is_none(),
            _ => false,
        }
    }
}

impl State {
    /// The word by which a call at a node is refused, if it is: the first whose condition holds.
    pub fn refusal(&self, node: u8, call: &DomainCall<'_>) -> Option<Refusal>
        ensures { result ≡ first_word self.now node (plain_call call.now) }
    {
        call.words()
            .iter()
            .copied()
            .find(|word| self.holds(node, call, *word))
    }

    /// Whether the condition of a word holds.
    fn holds(&self, node: u8, call: &DomainCall<'_>, word: Refusal) -> bool
        ensures { result ≡ condition_of self.now node (plain_call call.now) word }
    {
        let here = call.here(node);
        match word {
            Refusal::NodeInvalid => self.nodes <= node,
            Refusal::ExistsAlready => self.place_at(here).is_some(),
            Refusal::EndpLimit => self.endpoints.len() + self.ended.len() >= MAX_ENDPOINTS,
            Refusal::AddressSpent => self.endpoints_given >= MAX_ENDPOINTS_EVER,
            Refusal::EndpInvalid => self.place_at(here).is_none(),
            Refusal::PeerInvalid => self.named(call).is_none(),
            Refusal::OnChannel | Refusal::ChanConnected => self.has_channel(here),
            Refusal::EndpBusy => !self.queue_at(here).is_empty() || self.one_waits(here),
            Refusal::ChanLimit => self.channels_given >= MAX_CHANNELS,
            Refusal::NotConnected
            | Refusal::ChanDirection
            | Refusal::ChanType
            | Refusal::ChanClosed
            | Refusal::AlreadyOpen
            | Refusal::NotOpen => self.end_refuses(here, call, word),
            Refusal::MsgSize | Refusal::PktSize => self.is_too_large(node, call),
            Refusal::SclSize => self.is_of_other_size(here, call),
            Refusal::BufInvalid => self.packet_named(call).is_none(),
            Refusal::NoBuffer => self.lacks_buffers(node, call),
            Refusal::Empty => self.queue_at(here).is_empty(),
            Refusal::RequestLimit => self.requests.len() >= MAX_REQUESTS,
            Refusal::RequestInvalid => self.lacks_request(call),
            Refusal::Pending => !self.is_named_complete(call),
            Refusal::TooLate => self.is_named_complete(call),
            Refusal::Timeout => self.lacks_complete(call),
            Refusal::LinkInvalid => self.lacks_lane(call),
            Refusal::RawSound => call.is_sound_raw(),
        }
    }

    /// Whether the channel of the endpoint refuses the call by this word.
    fn end_refuses(&self, here: Local, call: &DomainCall<'_>, word: Refusal) -> bool
        ensures { result ≡ holds_at_end (end_call (length (queue_at self.now here)) (plain_call call.now)) (channel_at self.now here) word }
    {
        end_refuses(
            call.asks_of_end(self.queue_at(here).len()),
            self.channel_at(here),
            word,
        )
    }

    /// The address of the endpoint that a call names.
    fn named(&self, call: &DomainCall<'_>) -> Option<u32>
        ensures { result ≡ named self.now (plain_call call.now) }
    {
        match call {
            DomainCall::Send { to, .. } | DomainCall::Connect { to, .. } => self.address_of(*to),
            _ => None,
        }
    }

    /// Whether the front item at the endpoint has another size than the scalar that is asked for.
    fn is_of_other_size(&self, here: Local, call: &DomainCall<'_>) -> bool
        ensures { result ≡ is_of_other_size (plain_call call.now) (queue_at self.now here) }
    {
        match (call, self.queue_at(here).first()) {
            (DomainCall::ReceiveScalar { bits, .. }, Some(item)) => {
                item.content.as_slice().len() != bytes_of(*bits)
            }
            _ => false,
        }
    }

    /// The lent packet that a call names.
    fn packet_named(&self, call: &DomainCall<'_>) -> Option<&LentPacket>
        ensures { option_map (λ p. p.now) result ≡ packet_named self.now (plain_call call.now) }
    {
        match call {
            DomainCall::Release { packet } => self.packet_at(*packet),
            _ => None,
        }
    }

    /// The request that a call names.
    fn request_named(&self, call: &DomainCall<'_>) -> Option<&Request>
        ensures { option_map (λ r. r.now) result ≡ request_named self.now (plain_call call.now) }
    {
        match call {
            DomainCall::Test { request } | DomainCall::Cancel { request } => self.request_at(
                *request,
            ),
            _ => None,
        }
    }

    fn is_named_complete(&self, call: &DomainCall<'_>) -> bool
        ensures { result ≡ is_complete (request_named self.now (plain_call call.now)) }
    {
        match self.request_named(call) {
            Some(request) => request.outcome.is_some(),
            None => false,
        }
    }

    /// Whether a request that a call names does not exist.
    fn lacks_request(&self, call: &DomainCall<'_>) -> bool
        ensures { result ≡ lacks_request self.now (plain_call call.now) }
    {
        match call {
            DomainCall::Wait { requests, .. } => { !self.all_stand(requests.as_slice()) }
            _ => self.request_named(call).is_none(),
        }
    }

    /// Whether none of the requests that a wait names is complete.
    fn lacks_complete(&self, call: &DomainCall<'_>) -> bool
        ensures { result ≡ lacks_complete self.now (plain_call call.now) }
    {
        match call {
            DomainCall::Wait { requests, .. } => { !self.one_is_complete(requests.as_slice()) }
            _ => false,
        }
    }

    /// Whether the peer of a raw frame is neither linked nor the domain itself.
    fn lacks_lane(&self, call: &DomainCall<'_>) -> bool
        ensures { result ≡ lacks_lane self.now (plain_call call.now) }
    {
        match call {
            DomainCall::Raw { to, .. } => self.place_of_peer(*to).is_none(),
            _ => false,
        }
    }

    #[tactic(auto, using(crate::proofs::FramesFor::packet_headed))]
    /// The peer to which success puts frames, and how many, if it puts any.
    pub fn puts_of_success(&self, node: u8, call: &DomainCall<'_>) -> Option<(u8, u64)>
        ensures { result ≡ headed (success_puts self.now node (plain_call call.now)) }
    {
        match call {
            DomainCall::Send { to, bytes, .. } => Some((to.domain, frames_needed(bytes.len()))),
            DomainCall::Connect { to, .. } => Some((to.domain, 1)),
            DomainCall::SendPacket { bytes, .. } => {
                let end = self.channel_at(call.here(node))?;
                Some((end.peer, frames_needed(bytes.len())))
            }
            DomainCall::Open { .. } | DomainCall::SendScalar { .. } | DomainCall::Close { .. } => {
                let end = self.channel_at(call.here(node))?;
                Some((end.peer, 1))
            }
            DomainCall::Raw { to, .. } => Some((*to, 1)),
            _ => None,
        }
    }

    /// Whether the call sends more bytes than a message or a packet has, or more frames than the lane has buffers.
    fn is_too_large(&self, node: u8, call: &DomainCall<'_>) -> bool
        ensures { result ≡ (nat_lt item_size (content_size (plain_call call.now)) || passes_lane self.now (success_puts self.now node (plain_call call.now))) }
    {
        call.content_size() > ITEM_SIZE || self.passes_lane(node, call)
    }

    /// Whether the lane has fewer buffers than success would put frames.
    fn passes_lane(&self, node: u8, call: &DomainCall<'_>) -> bool
        ensures { result ≡ passes_lane self.now (success_puts self.now node (plain_call call.now)) }
    {
        match self.puts_of_success(node, call) {
            Some((peer, count)) => u64::from(self.size_to(peer)) < count,
            None => false,
        }
    }

    /// Whether the lane has fewer free buffers than success would put frames.
    fn lacks_buffers(&self, node: u8, call: &DomainCall<'_>) -> bool
        ensures { result ≡ lacks_buffers self.now (success_puts self.now node (plain_call call.now)) }
    {
        match self.puts_of_success(node, call) {
            Some((peer, count)) => u64::from(self.free_to(peer)) < count,
            None => false,
        }
    }
}

/// Whether an end of a channel, or an endpoint that has none, refuses what is asked of it by this word.
fn end_refuses(asked: Option<EndCall>, end: Option<ChannelEnd>, word: Refusal) -> bool
    ensures { result ≡ holds_at_end (option_map plain_end_call asked) (option_map end_of end) word }
{
    match (asked, end) {
        (None, _) => false,
        (Some(_), None) => lacks_end(word),
        (Some(asked), Some(end)) => end.refuses(asked, word),
    }
}

/// A call at an endpoint without a channel is not connected.
fn lacks_end(word: Refusal) -> bool
    ensures { result ≡ lacks_end word }
{
    word == Refusal::NotConnected
}

/// How many bytes a scalar has.
pub(crate) fn bytes_of(bits: Bits) -> usize
    ensures { result ≡ bytes_of_bits bits }
{
    match bits {
        Bits::B8 => 1,
        Bits::B16 => 2,
        Bits::B32 => 4,
        Bits::B64 => 8,
    }
}

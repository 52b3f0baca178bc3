//! What a call gives back where it is not refused.

ghost use Rattle.std.specs.Prelude.{◌≡◌, OnOk, option_map, option_to_list};
ghost use Rattle.board_model.specs.CallChanges.{held_by, item_lent, success_returned};
ghost use Rattle.report_replay.specs.Naming.{AddsItems};
ghost use Rattle.report_replay.specs.PlainCalls.{plain_call};

use crate::calls::answers::best_of;
use crate::calls::call::DomainCall;
use crate::frame_names::FrameNames;
use crate::item::Item;
use crate::request::{Asked, LentPacket, Outcome, Request};
use crate::state::State;
use mc_base::{NoMemory, Side};
use std::slice::from_ref;

impl State {
    /// Adds the names of the frames whose buffers a call at a node gives back that is not refused, in the order of giving back: of all that is
    /// queued where an endpoint is deleted or a receiver's end closes, of the message or scalar that is received, of the packet that is
    /// released, and of the message of a request that is told of.
    ///
    /// # Errors
    ///
    /// `NoMemory` where a list of names cannot grow.
    pub fn note_returned(
        &self,
        node: u8,
        call: &DomainCall<'_>,
        names: &mut FrameNames,
    ) -> Result<(), NoMemory>
        ensures { OnOk result (AddsItems (success_returned self.now node (plain_call call.now)) names.old names.new) }
    {
        names.add_items(self.returned(node, call))
    }

    #[tactic(auto, using(crate::proofs::Returned::all_queued))]
    /// The items whose buffers a call gives back that is not refused.
    fn returned(&self, node: u8, call: &DomainCall<'_>) -> &[Item]
        ensures { result.now ≡ success_returned self.now node (plain_call call.now) }
    {
        let queue = self.queue_at(call.here(node));
        match call {
            DomainCall::Delete { .. }
            | DomainCall::Close {
                side: Side::Receiver,
                ..
            } => queue,
            DomainCall::Receive { .. } => slice_of(best_of(queue)),
            DomainCall::ReceiveScalar { .. } => slice_of(queue.first()),
            DomainCall::Release { packet } => item_lent(self.packet_at(*packet)),
            DomainCall::Test { request } => message_held(self.request_at(*request)),
            DomainCall::Wait { requests, .. } => {
                message_held(self.request_at(self.first_complete(requests.as_slice())))
            }
            _ => &[],
        }
    }
}

/// The items that an option holds.
fn slice_of(item: Option<&Item>) -> &[Item]
    ensures { result.now ≡ option_to_list (option_map (λ i. i.now) item.entry) }
{
    match item {
        Some(item) => from_ref(item),
        None => &[],
    }
}

/// The item of a lent packet.
fn item_lent(packet: Option<&LentPacket>) -> &[Item]
    ensures { result.now ≡ item_lent (option_map (λ p. p.now) packet.entry) }
{
    match packet {
        Some(packet) => from_ref(&packet.item),
        None => &[],
    }
}

/// The message that a request holds. A packet stays with the domain, since it is lent when the request is tested.
fn message_held(request: Option<&Request>) -> &[Item]
    ensures { result.now ≡ held_by (option_map (λ r. r.now) request.entry) }
{
    let Some(request) = request else {
        return &[];
    };
    match (request.asked, &request.outcome) {
        (Asked::Packet { .. }, _) => &[],
        (_, Some(Outcome::Item(item))) => from_ref(item),
        _ => &[],
    }
}

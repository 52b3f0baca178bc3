//! The serials that success gives.

ghost use Rattle.std.specs.Prelude.{◌≡◌};
ghost use Rattle.board_model.specs.State.{request_at_place};
ghost use Rattle.board_model.specs.Labels.{packet_tested, success_packet, success_request};
ghost use Rattle.report_replay.specs.PlainCalls.{plain_call};

use crate::calls::call::DomainCall;
use crate::request::{Asked, Outcome};
use crate::state::State;

impl State {
    /// The serial of the request that success gives.
    pub fn request_of_success(&self, call: &DomainCall<'_>) -> Option<u64>
        ensures { result ≡ success_request self.now (plain_call call.now) }
    {
        match call {
            DomainCall::Lookup { .. }
            | DomainCall::Request { .. }
            | DomainCall::Connect { .. }
            | DomainCall::RequestPacket { .. } => Some(self.requests_given),
            _ => None,
        }
    }

    /// The serial of the packet that success lends.
    pub fn packet_of_success(&self, call: &DomainCall<'_>) -> Option<u64>
        ensures { result ≡ success_packet self.now (plain_call call.now) }
    {
        match call {
            DomainCall::LendPacket { .. } => Some(self.packets_lent),
            DomainCall::Test { request } => self.packet_tested(*request),
            DomainCall::Wait { requests, .. } => {
                self.packet_tested(self.first_complete(requests.as_slice()))
            }
            _ => None,
        }
    }

    /// The serial of the packet that a test of a request lends.
    fn packet_tested(&self, request: Option<usize>) -> Option<u64>
        ensures { result ≡ packet_tested self.now (request_at_place self.now request) }
    {
        let request = self.request_at(request)?;
        match (request.asked, &request.outcome) {
            (Asked::Packet { .. }, Some(Outcome::Item(_))) => Some(self.packets_lent),
            _ => None,
        }
    }
}

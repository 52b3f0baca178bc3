//! What a call does where it is not refused.

ghost use Rattle.std.specs.Prelude.{◌≡◌, ◌<◌, ◌+◌, [], ◌∷◌, None, OnOk, Some, option_map};
ghost use Rattle.mc_base.specs.Limits.{creation_limit};
ghost use Rattle.mc_base.specs.declared.channel.Side.TheVariants.{Sender, Receiver};
ghost use Rattle.board_model.specs.State.{live_at, message_at, packet_at, has_item};
ghost use Rattle.board_model.specs.Change.{best_gone, buffers_used, changed_all, channel_set, oldest_gone, request_added};
ghost use Rattle.board_model.specs.CallChanges.{at_end, at_live, best_item, closing, lending, new_sender, success_changes, tested};
ghost use Rattle.board_model.specs.ChannelEnds.{closed_end, opened_end};
ghost use Rattle.board_model.specs.Choice.{oldest};
ghost use Rattle.board_model.specs.DomainCall.{connect_from, create_at, delete_at, lookup_of};
ghost use Rattle.board_model.specs.Answer.{refusal};
ghost use Rattle.report_replay.specs.PlainCalls.{plain_call};
ghost use Rattle.report_replay.specs.Effects.{HasOwnAddresses, TakesNoMemory};
ghost use Rattle.report_replay.specs.Views.{end_of};

use crate::calls::call::DomainCall;
use crate::channel::{ChannelEnd, Stage};
use crate::peer::Announcement;
use crate::request::{Asked, Outcome};
use crate::state::State;
use mc_base::{EndName, FIRST_ADDRESS, Kind, Local, NoMemory, Refusal, Side, frames_needed};
use std::alloc::Global;

impl State {
    /// Does what a call at a node does that is not refused.
    pub fn succeed(
        &mut self,
        alloc: Global,
        node: u8,
        call: &DomainCall<'_>,
    ) -> Result<(), NoMemory>
        requires succeeds { refusal self.old node (plain_call call.now) ≡ None }
        requires own { HasOwnAddresses self.old }
        ensures { OnOk result (self.new ≡ changed_all self.old (success_changes self.old node (plain_call call.now))) }
    {
        let here = call.here(node);
        match *call {
            DomainCall::Create { port } => self.create(alloc, node, port),
            DomainCall::Delete { port } => self.delete(node, port),
            DomainCall::Lookup { name } => self.look_up(node, name),
            DomainCall::Connect { port, to, kind } => self.connect(node, port, to, kind),
            DomainCall::Request { max, .. } => self.request_message(here, max),
            DomainCall::LendPacket { .. } => self.lend_oldest(here),
            DomainCall::RequestPacket { .. } => self.request_packet(here),
            DomainCall::Test { request } => self.test(request),
            DomainCall::Wait { ref requests, .. } => {
                let request = self.first_complete(requests.as_slice());
                self.test(request)
            }
            _ => {
                self.succeed_in_place(node, call);
                Ok(())
            }
        }
    }

    /// Does what a call does that takes no memory.
    fn succeed_in_place(&mut self, node: u8, call: &DomainCall<'_>)
        requires { TakesNoMemory (plain_call call.now) }
        ensures { self.new ≡ changed_all self.old (success_changes self.old node (plain_call call.now)) }
    {
        let here = call.here(node);
        match *call {
            DomainCall::Send { to, bytes, .. } => {
                self.use_buffers(to.domain, frames_needed(bytes.len()))
            }
            DomainCall::Receive { .. } => self.receive(here),
            DomainCall::Open { .. } => self.open_channel(here),
            DomainCall::SendPacket { bytes, .. } => {
                self.send_over_channel(here, frames_needed(bytes.len()))
            }
            DomainCall::SendScalar { .. } => self.send_over_channel(here, 1),
            DomainCall::ReceiveScalar { .. } => self.receive_scalar(here),
            DomainCall::Close {
                side: Side::Sender,
                ..
            } => self.close_sender(here),
            DomainCall::Close {
                side: Side::Receiver,
                ..
            } => self.close_receiver(here),
            DomainCall::Release { packet } => {
                let _ = self.remove_packet(packet);
            }
            DomainCall::Cancel { request } => {
                let _ = self.remove_request(request);
            }
            DomainCall::Raw { to, .. } => self.use_buffers(to, 1),
            _ => {}
        }
    }

    /// Makes an endpoint. Each linked domain is owed its announcement, and lookups of its name are complete.
    fn create(&mut self, alloc: Global, node: u8, port: u16) -> Result<(), NoMemory>
        requires { self.old.endpoints_given < creation_limit }
        ensures { OnOk result (self.new ≡ changed_all self.old (success_changes self.old node (create_at port))) }
    {
        let at = Local { node, port };
        let address = FIRST_ADDRESS + self.endpoints_given;
        let name = EndName {
            domain: self.number,
            node,
            port,
        };
        self.make_endpoint(alloc, at)?;
        self.announce(Announcement {
            local: at,
            address,
            create: true,
        })?;
        self.find_name(name, address);
        Ok(())
    }

    /// Ends an endpoint, with the receives that wait there. Each linked domain is owed the announcement of that.
    fn delete(&mut self, node: u8, port: u16) -> Result<(), NoMemory>
        ensures { OnOk result (self.new ≡ changed_all self.old (success_changes self.old node (delete_at port))) }
    {
        let Some(endpoint) = self.live_at(Local { node, port }) else {
            return Ok(());
        };
        let local = endpoint.local;
        let address = endpoint.address;
        self.end_waiting(address, Refusal::EndpInvalid);
        self.remove_endpoint(address)?;
        self.announce(Announcement {
            local,
            address,
            create: false,
        })
    }

    /// Adds a request for the address of a name, which is complete if it is known.
    fn look_up(&mut self, node: u8, name: EndName) -> Result<(), NoMemory>
        ensures { OnOk result (self.new ≡ changed_all self.old (success_changes self.old node (lookup_of name))) }
    {
        let outcome = match self.address_of(name) {
            Some(address) => Some(Outcome::Address(address)),
            None => None,
        };
        self.add_request(Asked::Name(name), outcome)
    }

    /// Takes the oldest message of the best priority away.
    fn receive(&mut self, at: Local)
        ensures { self.new ≡ changed_all self.old (at_live (live_at self.old at) (λ e. best_gone e.address ∷ [])) }
    {
        if let Some(endpoint) = self.live_at(at) {
            let address = endpoint.address;
            let _ = self.take_best(address);
        }
    }

    /// Adds a request for a message, to which the oldest of the best priority goes, if there is one.
    fn request_message(&mut self, at: Local, max: u32) -> Result<(), NoMemory>
        requires { HasOwnAddresses self.old }
        ensures { OnOk result (self.new ≡ changed_all self.old (at_live (live_at self.old at) (λ e.
            best_gone e.address ∷ request_added (message_at e.local max) (option_map has_item (best_item e)) ∷ []))) }
    {
        let Some(endpoint) = self.live_at(at) else {
            return Ok(());
        };
        let local = endpoint.local;
        let address = endpoint.address;
        let outcome = match self.take_best(address) {
            Some(item) => Some(Outcome::Item(item)),
            None => None,
        };
        self.add_request(Asked::Message { at: local, max }, outcome)
    }

    /// Adds a request for a packet, to which the oldest goes, if there is one.
    fn request_packet(&mut self, at: Local) -> Result<(), NoMemory>
        requires { HasOwnAddresses self.old }
        ensures { OnOk result (self.new ≡ changed_all self.old (at_live (live_at self.old at) (λ e.
            oldest_gone e.address ∷ request_added (packet_at e.local) (option_map has_item (oldest e.queue)) ∷ []))) }
    {
        let Some(endpoint) = self.live_at(at) else {
            return Ok(());
        };
        let local = endpoint.local;
        let address = endpoint.address;
        let outcome = match self.take_oldest(address) {
            Some(item) => Some(Outcome::Item(item)),
            None => None,
        };
        self.add_request(Asked::Packet { at: local }, outcome)
    }

    /// Lends the oldest packet.
    fn lend_oldest(&mut self, at: Local) -> Result<(), NoMemory>
        requires { HasOwnAddresses self.old }
        ensures { OnOk result (self.new ≡ changed_all self.old (at_live (live_at self.old at) (λ e. oldest_gone e.address ∷ lending (oldest e.queue)))) }
    {
        let Some(endpoint) = self.live_at(at) else {
            return Ok(());
        };
        let address = endpoint.address;
        match self.take_oldest(address) {
            Some(item) => self.lend(item),
            None => Ok(()),
        }
    }

    /// Takes the oldest scalar away.
    fn receive_scalar(&mut self, at: Local)
        ensures { self.new ≡ changed_all self.old (at_live (live_at self.old at) (λ e. oldest_gone e.address ∷ [])) }
    {
        if let Some(endpoint) = self.live_at(at) {
            let address = endpoint.address;
            let _ = self.take_oldest(address);
        }
    }

    /// Uses so many buffers of the lane over which the channel of an endpoint goes.
    fn send_over_channel(&mut self, at: Local, count: u64)
        ensures { self.new ≡ changed_all self.old (at_end (live_at self.old at) (λ e c. buffers_used c.peer count ∷ [])) }
    {
        if let Some(end) = self.channel_at(at) {
            self.use_buffers(end.peer, count);
        }
    }

    /// Connects an endpoint to a named one: adds a request for the answer, and uses the next number of a channel.
    fn connect(&mut self, node: u8, port: u16, to: EndName, kind: Kind) -> Result<(), NoMemory>
        requires { self.old.channels_given < 65535 }
        ensures { OnOk result (self.new ≡ changed_all self.old (success_changes self.old node (connect_from port to kind))) }
    {
        let Some(endpoint) = self.live_at(Local { node, port }) else {
            return Ok(());
        };
        let address = endpoint.address;
        let end = self.connecting_end(to, kind);
        let number = end.number;
        self.use_buffers(to.domain, 1);
        self.set_channel(address, Some(end));
        self.add_request(Asked::Channel(number), None)?;
        self.give_channel();
        Ok(())
    }

    /// The end that connects to a named endpoint, on the channel that is numbered next.
    fn connecting_end(&self, to: EndName, kind: Kind) -> ChannelEnd
        requires { self.now.channels_given < 65535 }
        ensures end { end_of result ≡ new_sender self.now to kind }
        ensures number { result.number ≡ self.now.channels_given + 1 }
    {
        ChannelEnd {
            side: Side::Sender,
            kind,
            owner: self.number,
            number: self.channels_given + 1,
            peer: to.domain,
            peer_address: self.address_of(to).unwrap_or(0),
            stage: Stage::Connecting,
            far_open: false,
            far_closed: false,
        }
    }

    /// Opens the end of a channel at an endpoint.
    fn open_channel(&mut self, at: Local)
        ensures { self.new ≡ changed_all self.old (at_end (live_at self.old at) (λ e c. buffers_used c.peer 1 ∷ channel_set e.address (Some (opened_end c)) ∷ [])) }
    {
        let Some(endpoint) = self.live_at(at) else {
            return;
        };
        let address = endpoint.address;
        let Some(end) = endpoint.channel else {
            return;
        };
        self.use_buffers(end.peer, 1);
        self.set_channel(address, Some(end.opened()));
    }

    /// Closes the sender's end of a channel at an endpoint.
    fn close_sender(&mut self, at: Local)
        ensures { self.new ≡ changed_all self.old (at_end (live_at self.old at) (closing Sender)) }
    {
        let Some(endpoint) = self.live_at(at) else {
            return;
        };
        let address = endpoint.address;
        let Some(end) = endpoint.channel else {
            return;
        };
        self.use_buffers(end.peer, 1);
        self.set_channel(address, end.closed());
    }

    /// Closes the receiver's end of a channel at an endpoint, with the receives that wait there and all that is queued.
    fn close_receiver(&mut self, at: Local)
        ensures { self.new ≡ changed_all self.old (at_end (live_at self.old at) (closing Receiver)) }
    {
        let Some(endpoint) = self.live_at(at) else {
            return;
        };
        let address = endpoint.address;
        let Some(end) = endpoint.channel else {
            return;
        };
        self.use_buffers(end.peer, 1);
        self.end_waiting(address, Refusal::ChanClosed);
        self.drop_queue(address, end.closed());
    }

    /// Takes away a request that is told of. A packet that it holds is lent.
    fn test(&mut self, request: Option<usize>) -> Result<(), NoMemory>
        ensures { OnOk result (self.new ≡ changed_all self.old (tested self.old request)) }
    {
        let Some(request) = self.remove_request(request) else {
            return Ok(());
        };
        match (request.asked, request.outcome) {
            (Asked::Packet { .. }, Some(Outcome::Item(item))) => self.lend(item),
            _ => Ok(()),
        }
    }
}

impl ChannelEnd {
    /// The end as it is once it opened.
    fn opened(self) -> ChannelEnd
        ensures { end_of result ≡ opened_end (end_of self) }
    {
        ChannelEnd {
            stage: Stage::Open,
            ..self
        }
    }

    /// The end as it is once it closed, or `None` where the channel ends by that.
    fn closed(self) -> Option<ChannelEnd>
        ensures { option_map end_of result ≡ closed_end (end_of self) }
    {
        if self.far_closed {
            return None;
        }
        Some(ChannelEnd {
            stage: Stage::Closed,
            ..self
        })
    }
}

//! The labels of a script, with the serials of the requests and packets that were given for them.

ghost use Rattle.std.specs.Prelude.{◌≡◌, ◌≤◌, ◌∷◌, [], Some, None, OnOk, find, length, map, option_map};
ghost use Rattle.board_model.specs.Scenario.{label_in};
ghost use Rattle.board_model.specs.Answer.{is_complete_at, refusal};
ghost use Rattle.board_model.specs.DomainCall.{close_at, open_at};
ghost use Rattle.board_model.specs.Labels.{call_of, labels_after, no_labels};
ghost use Rattle.board_model.specs.Labels as plain;
ghost use Rattle.report_replay.specs.HeldLabels.{HoldLabels, NamesLabel, TellsSerial, lending_by, packet_by, request_by};
ghost use Rattle.report_replay.specs.PlainCalls.{plain_call};

use crate::calls::DomainCall;
use crate::state::State;
use arrayvec::ArrayVec;
use board_model::{Call, CallLine, Label};
use mc_base::{Kind, NoMemory, Side};
use std::alloc::Global;
use std::collections::HashMap;

/// What was given for the labels of a script: the serials of requests, and of the packets that were lent under them.
#[derive(Debug, Drop)]
pub struct Labels<'s> {
    requests: HashMap<&'s [u8], u64>,
    packets: HashMap<&'s [u8], u64>,
}

impl<'s> Labels<'s> {
    pub fn new(alloc: Global) -> Labels<'s>
        ensures { HoldLabels result no_labels }
    {
        Labels {
            requests: HashMap::new(alloc),
            packets: HashMap::new(alloc),
        }
    }

    /// The call of a line, as a domain in this state knows it.
    pub fn call_of<'c>(&self, state: &State, call: &'c Call) -> DomainCall<'c>
        ensures { (ls : plain.Labels) → HoldLabels self.now ls → plain_call result ≡ call_of ls state.now call.now }
    {
        match *call {
            Call::Create { port } => DomainCall::Create { port },
            Call::Delete { port } => DomainCall::Delete { port },
            Call::Lookup { name } => DomainCall::Lookup { name },
            Call::MsgSend {
                port,
                to,
                priority,
                ref bytes,
            } => DomainCall::Send {
                port,
                to,
                priority,
                bytes: bytes.as_slice(),
            },
            Call::MsgRecv { port, max } => DomainCall::Receive { port, max },
            Call::MsgRecvI { port, max } => DomainCall::Request { port, max },
            Call::MsgAvailable { port } => DomainCall::Available { port },
            Call::Connect { port, to, kind } => DomainCall::Connect { port, to, kind },
            Call::OpenSend { port, kind } => open(port, Side::Sender, kind),
            Call::OpenRecv { port, kind } => open(port, Side::Receiver, kind),
            Call::PktSend { port, ref bytes } => DomainCall::SendPacket {
                port,
                bytes: bytes.as_slice(),
            },
            Call::PktRecv { port } => DomainCall::LendPacket { port },
            Call::PktRecvI { port } => DomainCall::RequestPacket { port },
            Call::SclSend { port, bits, value } => DomainCall::SendScalar { port, bits, value },
            Call::SclRecv { port, bits } => DomainCall::ReceiveScalar { port, bits },
            Call::CloseSend { port } => close(port, Side::Sender),
            Call::CloseRecv { port } => close(port, Side::Receiver),
            Call::Raw { domain, ref bytes } => DomainCall::Raw {
                to: domain,
                bytes: bytes.as_slice(),
            },
            Call::Turn => DomainCall::Turn,
            _ => self.named_call(state, call),
        }
    }

    /// The call of a line that names a request or a packet by a label.
    fn named_call<'c>(&self, state: &State, call: &'c Call) -> DomainCall<'c>
        requires { NamesLabel call.now }
        ensures { (ls : plain.Labels) → HoldLabels self.now ls → plain_call result ≡ call_of ls state.now call.now }
    {
        match call {
            Call::Release { label } => DomainCall::Release {
                packet: self.packet_at(state, label),
            },
            Call::Test { label } => DomainCall::Test {
                request: self.request_at(state, label),
            },
            Call::Wait { label, .. } => DomainCall::Wait {
                requests: one(self.request_at(state, label)),
                says_place: false,
            },
            Call::WaitAny { labels, .. } => DomainCall::Wait {
                requests: self.requests_at(state, labels.as_slice()),
                says_place: true,
            },
            Call::Cancel { label } => DomainCall::Cancel {
                request: self.request_at(state, label),
            },
            _ => DomainCall::Turn,
        }
    }

    /// Notes what a line gives for labels whose call was made in this state and is not refused. What is held for a label stays.
    pub fn note(
        &mut self,
        state: &State,
        line: &'s CallLine,
        call: &DomainCall<'_>,
    ) -> Result<(), NoMemory>
        requires succeeds { refusal state.now line.now.node (plain_call call.now) ≡ None }
        requires call { (ls : plain.Labels) → HoldLabels self.old ls → plain_call call.now ≡ call_of ls state.now line.now.call }
        ensures { OnOk result ((ls : plain.Labels) → HoldLabels self.old ls → HoldLabels self.new (labels_after ls state.now line.now)) }
    {
        let lending = self.lending_label(state, line);
        hold(
            &mut self.requests,
            line.label.as_ref(),
            state.request_of_success(call),
        )?;
        hold(&mut self.packets, lending, state.packet_of_success(call))?;
        Ok(())
    }

    /// The label that a line lends a packet under: its own, or that of the request which it tests or waits for.
    fn lending_label<'c>(&self, state: &State, line: &'c CallLine) -> Option<&'c Label>
        ensures { option_map (λ l. l.now.items) result ≡ lending_by self.now state.now line.now.call (label_in line.now) }
    {
        match &line.call {
            Call::Test { label } | Call::Wait { label, .. } => Some(label),
            Call::WaitAny { labels, .. } => self.complete_label(state, labels.as_slice()),
            _ => line.label.as_ref(),
        }
    }

    /// The first label whose request is complete.
    fn complete_label<'c>(&self, state: &State, labels: &'c [Label]) -> Option<&'c Label>
        ensures { option_map (λ l. l.now) result ≡ find (λ l. is_complete_at state.now (request_by self.now state.now l.items)) labels.now }
    {
        labels.iter().find(|label| state.is_complete_at(self.request_at(state, label)))
    }

    /// The place of the request that was given for a label.
    fn request_at(&self, state: &State, label: &Label) -> Option<usize>
        ensures { result ≡ request_by self.now state.now label.now.items }
    {
        match self.requests.get(label.as_slice()) {
            Some(serial) => state.place_of_request(*serial),
            None => None,
        }
    }

    /// The places of the requests that were given for labels, in their order.
    fn requests_at(&self, state: &State, labels: &[Label]) -> ArrayVec<Option<usize>, 8>
        requires { length labels.now ≤ 8 }
        ensures { result.items ≡ map (λ l. request_by self.now state.now l.items) labels.now }
    {
        let mut places = ArrayVec::new();
        for label in labels {
            places.push(self.request_at(state, label));
        }
        places
    }

    /// The place of the packet that was lent under a label.
    fn packet_at(&self, state: &State, label: &Label) -> Option<usize>
        ensures { result ≡ packet_by self.now state.now label.now.items }
    {
        match self.packets.get(label.as_slice()) {
            Some(serial) => state.place_of_packet(*serial),
            None => None,
        }
    }
}

fn open(port: u16, side: Side, kind: Kind) -> DomainCall<'static>
    ensures { plain_call result ≡ open_at port side kind }
{
    DomainCall::Open { port, side, kind }
}

fn close(port: u16, side: Side) -> DomainCall<'static>
    ensures { plain_call result ≡ close_at port side }
{
    DomainCall::Close { port, side }
}

fn one(request: Option<usize>) -> ArrayVec<Option<usize>, 8>
    ensures { result.items ≡ request ∷ [] }
{
    let mut requests = ArrayVec::new();
    requests.push(request);
    requests
}

/// Holds the serial that a line gives for a label. One that is held for the label stays.
fn hold<'s>(
    serials: &mut HashMap<&'s [u8], u64>,
    label: Option<&'s Label>,
    serial: Option<u64>,
) -> Result<(), NoMemory>
    ensures { OnOk result (TellsSerial (option_map (λ l. l.now.items) label.entry) serial serials.old serials.new) }
{
    let (Some(label), Some(serial)) = (label, serial) else {
        return Ok(());
    };
    hold_for(serials, label.as_slice(), serial)
}

fn hold_for<'s>(
    serials: &mut HashMap<&'s [u8], u64>,
    label: &'s [u8],
    serial: u64,
) -> Result<(), NoMemory>
    ensures { OnOk result (TellsSerial (Some label.now) (Some serial) serials.old serials.new) }
{
    if serials.contains_key(label) {
        return Ok(());
    }
    match serials.insert(label, serial) {
        Ok(_) => Ok(()),
        Err(_) => Err(NoMemory),
    }
}

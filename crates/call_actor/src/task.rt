//! What a client has to do, and its next line by its place and the answer that it is told.

ghost use Rattle.std.specs.Prelude.{◌≡◌, ◌<◌, ◌≤◌, ◌+◌, IfOk, codes, None, Some, length, option_map, slice_get};
ghost use Rattle.mc_journal.specs.Entry.{plain_answer};
ghost use Rattle.call_logs.specs.Roles.{bye_line, receive_line, request_line};
ghost use Rattle.call_actor.specs.CallLimits.{call_limit};
ghost use Rattle.call_actor.specs.ClientSteps.{
  after_expected as going_after_expected,
  after_received as going_after_received,
  after_sent as going_after_sent,
  asks_call as going_asks_call,
  create_line,
  ends as going_ends,
  going,
  going_on,
  going_told,
  is_expected as is_expected_of,
  lookup_line,
  wait_line,
};
ghost use Rattle.call_actor.specs.ClientStands.{IsWithin};

use crate::bytes::{bye, got_in, is_reply, request};
use crate::lines::{endpoint, lookup, once, priority, tried, wait};
use crate::place::{ClientPlace, Going};
use crate::told::{bytes_in, is_refused};
use board_model::{Call, CallLine, Label};
use call_logs::Got;
use mc_base::NoMemory;
use mc_journal::Answer;
use std::alloc::Global;
use std::marker::Model;

/// The calls of a client, and how often it sends each request.
#[derive(Drop)]
pub struct Task {
    alloc: Global,
    domain: u8,
    repeat: u8,
    /// The cell and the amount of each call.
    calls: Vec<(u8, u64)>,
}

impl Model for Task {
    ghost use Rattle.call_actor.specs.ClientSteps.{ClientRole};
    ghost use Rattle.call_actor.specs.Tasks.{role_in, IsTask};

    ghost Value = { ClientRole };

    ghost view = { role_in };

    ghost invariant = { IsTask };
}

impl Task {
    pub fn new(alloc: Global, domain: u8, repeat: u8, calls: Vec<(u8, u64)>) -> Task
        requires { length calls.items ≤ call_limit }
        ensures { result ≡ record { domain = domain; repeat = repeat; calls = calls.items } }
    {
        Task {
            alloc,
            domain,
            repeat,
            calls,
        }
    }

    /// Returns where a client goes from a place, when it is told an answer, or nothing at first.
    pub fn follow(
        &self,
        place: ClientPlace,
        first: [u8; 16],
        told: Option<&Answer<'_>>,
    ) -> Result<Going, NoMemory>
        requires { IsWithin self.now place }
        ensures { IfOk result (λ g. g ≡ going self.now place first (option_map (λ a. plain_answer a.now) told.entry)) }
    {
        match told {
            Some(answer) => self.follow_told(place, first, answer),
            None => Ok(self.begin(place, first)),
        }
    }

    /// The first line, where there was none yet.
    fn begin(&self, place: ClientPlace, first: [u8; 16]) -> Going
        ensures { result ≡ going self.now place first None }
    {
        match place {
            ClientPlace::New => goes(ClientPlace::Created, first, None, self.create()),
            ClientPlace::Created | ClientPlace::LookedUp | ClientPlace::Waited => ends(first),
            ClientPlace::Sent { .. } | ClientPlace::Received { .. } => ends(first),
            ClientPlace::Left | ClientPlace::Ended => ends(first),
        }
    }

    fn follow_told(
        &self,
        place: ClientPlace,
        first: [u8; 16],
        answer: &Answer<'_>,
    ) -> Result<Going, NoMemory>
        requires { IsWithin self.now place }
        ensures { IfOk result (λ g. g ≡ going_told self.now place first (plain_answer answer.now)) }
    {
        if is_refused(answer) {
            return Ok(ends(first));
        }
        self.go_on(place, first, answer)
    }

    /// After an answer that is no refusal.
    fn go_on(
        &self,
        place: ClientPlace,
        first: [u8; 16],
        answer: &Answer<'_>,
    ) -> Result<Going, NoMemory>
        requires { IsWithin self.now place }
        ensures { IfOk result (λ g. g ≡ going_on self.now place first (plain_answer answer.now)) }
    {
        match place {
            ClientPlace::New | ClientPlace::Left | ClientPlace::Ended => Ok(ends(first)),
            ClientPlace::Created => Ok(goes(ClientPlace::LookedUp, first, None, self.lookup())),
            ClientPlace::LookedUp => Ok(goes(ClientPlace::Waited, first, None, self.wait())),
            ClientPlace::Waited => self.ask_call(0, 1, first, None),
            ClientPlace::Sent { call, times } => self.after_sent(call, times, first),
            ClientPlace::Received { call, times } => {
                self.after_received(call, times, first, bytes_in(answer))
            }
        }
    }

    /// After a send of a call: the next send of it, or the first receive.
    fn after_sent(&self, call: u32, times: u8, first: [u8; 16]) -> Result<Going, NoMemory>
        requires call { call < length self.now.calls }
        requires times { times ≤ self.now.repeat }
        ensures { IfOk result (λ g. g ≡ going_after_sent self.now call times first) }
    {
        if times < self.repeat {
            self.ask_call(call, times + 1, first, None)
        } else {
            let place = ClientPlace::Received { call, times: 1 };
            Ok(goes(place, first, None, self.receive()))
        }
    }

    /// After a message that came for a call.
    fn after_received(
        &self,
        call: u32,
        times: u8,
        first: [u8; 16],
        message: &[u8],
    ) -> Result<Going, NoMemory>
        requires call { call < length self.now.calls }
        requires times { times ≤ self.now.repeat }
        ensures { IfOk result (λ g. g ≡ going_after_received self.now call times first message.now) }
    {
        if !self.is_expected(call, times, &first, message) {
            return Ok(ends(first));
        }
        let mut kept = first;
        if times == 1 {
            kept.copy_from_slice(message);
        }
        self.after_expected(call, times, kept)
    }

    /// After a reply to a call: the next receive, or the next call.
    fn after_expected(&self, call: u32, times: u8, first: [u8; 16]) -> Result<Going, NoMemory>
        requires call { call < length self.now.calls }
        requires times { times ≤ self.now.repeat }
        ensures { IfOk result (λ g. g ≡ going_after_expected self.now call times first) }
    {
        if times < self.repeat {
            let place = ClientPlace::Received {
                call,
                times: times + 1,
            };
            Ok(goes(place, first, None, self.receive()))
        } else {
            self.ask_call(call + 1, 1, first, Some(got_in(&first)))
        }
    }

    /// The send of this time of the call at a place, or the bye where there is no call.
    fn ask_call(
        &self,
        call: u32,
        times: u8,
        first: [u8; 16],
        got: Option<Got>,
    ) -> Result<Going, NoMemory>
        requires { call ≤ length self.now.calls }
        ensures { IfOk result (λ g. g ≡ going_asks_call self.now call times first got (slice_get self.now.calls call)) }
    {
        match self.calls.get(call as usize) {
            Some(asked) => {
                let line = self.send(call + 1, *asked)?;
                Ok(goes(ClientPlace::Sent { call, times }, first, got, line))
            }
            None => Ok(goes(ClientPlace::Left, first, got, self.leave()?)),
        }
    }

    /// Whether a message is the reply that is expected: the first of a call is one to it, and each other is the same.
    fn is_expected(&self, call: u32, times: u8, first: &[u8; 16], message: &[u8]) -> bool
        requires { call < length self.now.calls }
        ensures { result ≡ is_expected_of call times first.now message.now }
    {
        if times == 1 {
            is_reply(self.number(call), message)
        } else {
            first.as_slice() == message
        }
    }

    /// The number of a call by its place.
    fn number(&self, call: u32) -> u32
        requires { call < length self.now.calls }
        ensures { result ≡ call + 1 }
    {
        let _calls = self.calls.len();
        call + 1
    }

    fn create(&self) -> CallLine
        ensures { result ≡ create_line self.now }
    {
        once(self.domain, Call::Create { port: 1 })
    }

    fn lookup(&self) -> CallLine
        ensures { result ≡ lookup_line self.now }
    {
        lookup(self.domain, label_a(), 0)
    }

    fn wait(&self) -> CallLine
        ensures { result ≡ wait_line self.now }
    {
        wait(self.domain, label_a())
    }

    fn receive(&self) -> CallLine
        ensures { result ≡ receive_line self.now.domain }
    {
        tried(self.domain, Call::MsgRecv { port: 1, max: 488 })
    }

    fn send(&self, number: u32, call: (u8, u64)) -> Result<CallLine, NoMemory>
        ensures { IfOk result (λ line. line ≡ request_line self.now.domain number call) }
    {
        let bytes = request(self.alloc, self.domain, number, call)?;
        let call = Call::MsgSend {
            port: 1,
            to: endpoint(0),
            priority: priority(1),
            bytes,
        };
        Ok(tried(self.domain, call))
    }

    fn leave(&self) -> Result<CallLine, NoMemory>
        ensures { IfOk result (λ line. line ≡ bye_line self.now.domain) }
    {
        let bytes = bye(self.alloc, self.domain)?;
        let call = Call::MsgSend {
            port: 1,
            to: endpoint(0),
            priority: priority(1),
            bytes,
        };
        Ok(tried(self.domain, call))
    }
}

fn label_a() -> Label
    ensures { result.items ≡ codes "a" }
{
    let mut label = Label::new();
    label.push(b'a');
    label
}

fn goes(place: ClientPlace, first: [u8; 16], got: Option<Got>, line: CallLine) -> Going
    ensures { result ≡ record { place = place; first = first; got = got; line = Some line } }
{
    Going {
        place,
        first,
        got,
        line: Some(line),
    }
}

fn ends(first: [u8; 16]) -> Going
    ensures { result ≡ going_ends first }
{
    Going {
        place: ClientPlace::Ended,
        first,
        got: None,
        line: None,
    }
}

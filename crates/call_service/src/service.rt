//! The service: its cells, the calls that it carried out, and the last call of each client.

ghost use Rattle.std.specs.Prelude.{◌≡◌, ◌<◌, ◌++◌, ◌∷◌, [], IfOk, true, false, length, nat_le, slice_get};
ghost use Rattle.call_service.specs.Served.{AreNumbered, carried_out, is_next, last_of, next_number, reply_of, value};
ghost use Rattle.call_service.specs.Handled.{handled, opening};
ghost use Rattle.call_service.specs.Steps.{arrival_of, kept_call, kept_last, reply_again_by, reply_or_full, service_after};

use crate::carried::Carried;
use crate::reply::{Reply, Status, write_reply};
use crate::request::{Request, ServiceFault, read_request};
use mc_base::NoMemory;
use std::alloc::Global;
use std::marker::Model;

/// How many cells there are.
const CELLS: usize = 16;

/// How many numbers of domains there are. Number 0 is the server's own.
const DOMAINS: usize = 8;

/// The number of a client's last call that was carried out, 0 where there is none, and the reply to it.
#[derive(Clone, Copy, Debug)]
pub struct Last {
    pub number: u32,
    pub reply: Reply,
}

/// How a request relates to the calls of its client that were carried out.
#[derive(Clone, Copy, Debug)]
pub enum Arrival {
    /// It is one of them, and has this reply.
    Repeat(Reply),
    /// It is the next.
    Next,
    /// It is neither.
    Gap,
}

/// A server of numbered calls: sixteen cells, which begin at 0, and the history of the calls that were carried out.
#[derive(Debug, Drop)]
pub struct Service {
    history: Vec<Carried>,
    /// How many calls the history has room for.
    room: u32,
    cells: [u64; CELLS],
    /// By the client's number.
    last: [Last; DOMAINS],
}

impl Model for Service {
    ghost use Rattle.call_service.specs.Handled.{State};
    ghost use Rattle.call_service.specs.Kept.{IsKept, state_of};

    ghost Value = { State };

    ghost view = { state_of };

    ghost invariant = { IsKept };
}

impl Service {
    /// Makes a service that can carry out this many calls.
    ///
    /// # Errors
    ///
    /// `NoMemory` where an allocation fails.
    pub fn new(alloc: Global, calls: u32) -> Result<Service, NoMemory>
        ensures { IfOk result (λ s. s ≡ opening calls) }
    {
        let Ok(history) = Vec::with_capacity(alloc, calls as usize) else {
            return Err(NoMemory);
        };
        let none = Last {
            number: 0,
            reply: Reply {
                status: Status::Done,
                value: 0,
            },
        };
        Ok(Service {
            history,
            room: calls,
            cells: [0; CELLS],
            last: [none; DOMAINS],
        })
    }

    /// Handles a request: returns its client and writes the reply (docs/PROFILE.md, "Numbered calls").
    ///
    /// It takes no memory, and its time does not grow with the number of calls that were carried out. The service does not check who sent
    /// the request.
    ///
    /// # Errors
    ///
    /// The first of these that holds. The service and `reply` stay as they are.
    ///
    /// - `Form`: the request does not have 16 bytes, the first is not 0x51, or the fourth is not 0.
    /// - `Client`: the client is not 1 to 7.
    /// - `Cell`: the cell is over 15.
    /// - `Full`: the call would be carried out, and the history has as many entries as the service was made for.
    pub fn handle(&mut self, request: &[u8], reply: &mut [u8; 16]) -> Result<u8, ServiceFault>
        ensures answer { result ≡ (handled self.old request.now reply.old).answer }
        ensures service { self.new ≡ (handled self.old request.now reply.old).service }
        ensures reply { reply.new ≡ (handled self.old request.now reply.old).reply }
    {
        let request = read_request(request)?;
        let answer = self.answer(request)?;
        write_reply(request.number, answer, reply);
        Ok(request.client)
    }

    /// Returns how many calls were carried out.
    pub fn len(&self) -> usize
        ensures { result ≡ length self.now.history }
    {
        self.history.len()
    }

    /// Returns the call that was carried out at this place, counted from 0, or `None` past the last.
    pub fn entry(&self, at: usize) -> Option<Carried>
        ensures { result ≡ slice_get self.now.history at }
    {
        self.history.get(at).copied()
    }

    /// Returns the value of a cell, 0 to 15: the sum of what the calls on it added.
    pub fn cell(&self, cell: u8) -> u64
        requires { cell < 16 }
        ensures { result ≡ value self.now.history cell }
    {
        self.cells[usize::from(cell)]
    }

    /// Returns the reply to a request, and carries it out where it is its client's next.
    fn answer(&mut self, request: Request) -> Result<Reply, ServiceFault>
        requires client { request.client < 8 }
        requires cell { request.cell < 16 }
        ensures answer { result ≡ reply_or_full self.old request }
        ensures service { self.new ≡ service_after self.old request }
    {
        match self.arrival(request) {
            Arrival::Repeat(reply) => Ok(reply),
            Arrival::Gap => Ok(Reply {
                status: Status::Gap,
                value: 0,
            }),
            Arrival::Next => {
                if self.is_full() {
                    return Err(ServiceFault::Full);
                }
                Ok(self.carry_out(request))
            }
        }
    }

    fn arrival(&self, request: Request) -> Arrival
        requires { request.client < 8 }
        ensures { result ≡ arrival_of self.now.history request }
    {
        let last = self.last_call(request.client);
        if request.number == 0 {
            Arrival::Gap
        } else if request.number <= last.number {
            Arrival::Repeat(again(request.number, last))
        } else if request.number - 1 == last.number {
            Arrival::Next
        } else {
            Arrival::Gap
        }
    }

    /// Carries out a call: adds its amount to its cell, appends it to the history, and keeps its reply.
    fn carry_out(&mut self, request: Request) -> Reply
        requires client { request.client < 8 }
        requires cell { request.cell < 16 }
        requires next { is_next self.old.history request ≡ true }
        requires room { nat_le self.old.room (length self.old.history) ≡ false }
        ensures reply { result ≡ reply_of (carried_out self.old.history request) }
        ensures service { self.new ≡ record self.old { history = self.old.history ++ carried_out self.old.history request ∷ [] } }
    {
        let call = add(self.cell(request.cell), request);
        self.keep(call);
        reply_to(call)
    }

    fn last_call(&self, client: u8) -> Last
        requires { client < 8 }
        ensures last { result ≡ kept_last (last_of client self.now.history) }
        ensures numbered { AreNumbered self.now.history }
    {
        self.last[usize::from(client)]
    }

    fn is_full(&self) -> bool
        ensures { result ≡ nat_le self.now.room (length self.now.history) }
    {
        self.len() >= self.room as usize
    }

    /// Appends a call to the history, and keeps its reply and its cell's value.
    fn keep(&mut self, call: Carried)
        requires client { call.client < 8 }
        requires cell { call.cell < 16 }
        requires next { call.number ≡ next_number call.client self.old.history }
        requires value { call.value ≡ value (self.old.history ++ call ∷ []) call.cell }
        requires room { nat_le self.old.room (length self.old.history) ≡ false }
        ensures { self.new ≡ record self.old { history = self.old.history ++ call ∷ [] } }
    {
        self.cells[usize::from(call.cell)] = call.value;
        self.last[usize::from(call.client)] = Last {
            number: call.number,
            reply: reply_to(call),
        };
        self.history.push(call).unwrap();
    }
}

/// Returns the reply to a call that was carried out.
fn reply_to(call: Carried) -> Reply
    ensures { result ≡ reply_of call }
{
    let status = if call.over {
        Status::Over
    } else {
        Status::Done
    };
    Reply {
        status,
        value: call.value,
    }
}

/// Returns the reply to a repeat of a call of this number, by the client's last call.
fn again(number: u32, last: Last) -> Reply
    ensures { result ≡ reply_again_by number last }
{
    if number == last.number {
        last.reply
    } else {
        Reply {
            status: Status::Old,
            value: 0,
        }
    }
}

/// Returns the call that adds to a cell of this value.
fn add(old: u64, request: Request) -> Carried
    ensures { result ≡ kept_call old request }
{
    let (over, value) = match old.checked_add(request.amount) {
        Some(sum) => (false, sum),
        None => (true, old),
    };
    Carried {
        client: request.client,
        number: request.number,
        cell: request.cell,
        amount: request.amount,
        over,
        value,
    }
}

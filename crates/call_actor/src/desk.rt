//! What the server holds.

ghost use Rattle.std.specs.Prelude.{◌≡◌, ◌≤◌, ◌<◌, ◌+◌, ◌^◌, ℕ, IfOk, IfSome, None, replicate, false, length};
ghost use Rattle.call_service.specs.Handled.{handled, opening};
ghost use Rattle.call_logs.specs.CallBytes.{bye_in as bye_of};
ghost use Rattle.call_actor.specs.ServerSteps.{have_left as have_all_left, marked, with_message};

use crate::bytes::bye_in;
use call_service::{Service, ServiceFault};
use mc_base::NoMemory;
use std::alloc::Global;
use std::marker::Model;

/// How many numbers of domains there are.
const DOMAINS: usize = 8;

/// The service, and what became of the messages that came.
#[derive(Drop)]
pub struct Desk {
    service: Service,
    /// The reply that the service wrote last.
    reply: [u8; 16],
    /// How many messages came.
    received: u32,
    /// Whether a client's bye came, by its number.
    left: [bool; DOMAINS],
}

impl Model for Desk {
    ghost use Rattle.call_actor.specs.ServerSteps.{Held};
    ghost use Rattle.call_actor.specs.Desks.{held_in, IsDesk};

    ghost Value = { Held };

    ghost view = { held_in };

    ghost invariant = { IsDesk };
}

impl Desk {
    /// Makes one whose service is made for this many calls.
    ///
    /// # Errors
    ///
    /// `NoMemory` where an allocation fails.
    pub fn new(alloc: Global, calls: u32) -> Result<Desk, NoMemory>
        ensures { IfOk result (λ desk. desk ≡ record { service = opening calls; reply = replicate 16 0; received = 0; left = replicate 8 false }) }
    {
        Ok(Desk {
            service: Service::new(alloc, calls)?,
            reply: [0; 16],
            received: 0,
            left: [false; DOMAINS],
        })
    }

    pub fn service(&self) -> &Service
        ensures { result.now ≡ self.now.service }
    {
        &self.service
    }

    pub fn reply(&self) -> &[u8; 16]
        ensures { result.now ≡ self.now.reply }
    {
        &self.reply
    }

    pub fn received(&self) -> u32
        ensures { result ≡ self.now.received }
    {
        self.received
    }

    /// Handles a message: returns what the service answers to it, and marks the client whose bye it is.
    pub fn take(&mut self, message: &[u8]) -> Result<u8, ServiceFault>
        requires { self.old.received + 1 < 2 ^ 32 }
        ensures answer { result ≡ (handled self.old.service message.now self.old.reply).answer }
        ensures desk { self.new ≡ with_message self.old (handled self.old.service message.now self.old.reply) message.now }
    {
        let answer = self.service.handle(message, &mut self.reply);
        self.received += 1;
        mark(&mut self.left, bye_in(message));
        answer
    }

    /// Returns whether the byes of all clients came.
    pub fn have_left(&self, clients: u8) -> bool
        requires { clients < 8 }
        ensures { result ≡ have_all_left clients self.now.left }
    {
        all_marked(&self.left, clients)
    }
}

fn mark(left: &mut [bool; DOMAINS], bye: Option<u8>)
    requires { IfSome bye (λ d. d < 8) }
    ensures { left.new ≡ marked bye left.old }
{
    if let Some(client) = bye {
        left[usize::from(client)] = true;
    }
}

fn all_marked(left: &[bool; DOMAINS], clients: u8) -> bool
    requires { clients < 8 }
    ensures { result ≡ have_all_left clients left.now }
{
    for client in 1..clients + 1 {
        if !left[usize::from(client)] {
            return false;
        }
    }
    true
}

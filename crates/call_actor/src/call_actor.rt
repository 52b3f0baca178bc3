//! The actors of numbered calls.

ghost use Rattle.std.specs.Prelude.{◌≡◌, ◌≤◌, ◌<◌, IfOk, length, option_map, slice_get};
ghost use Rattle.std.specs.List.{AllByRecursion};
ghost use Rattle.call_actor.specs.CallLimits.{call_limit};
ghost use Rattle.call_actor.specs.CallActors.{IsNew, gots_of_actor, service_of_actor};
ghost use Rattle.call_actor.specs.ClientSteps.{tuple_of};
ghost use Rattle.call_actor.specs.declared.role.CallRole.TheVariants.{Client as client_of, Server as server_of};

use crate::client::Client;
use crate::role::CallRole;
use crate::server::Server;
use board_model::CallLine;
use board_runner::Actor;
use call_logs::Got;
use call_service::Service;
use mc_base::NoMemory;
use mc_journal::Answer;
use std::alloc::Global;

/// A domain of a board of numbered calls: an [`Actor`] that gives the lines of its role (docs/PROFILE.md, "Numbered calls on a board").
#[derive(Drop)]
pub enum CallActor {
    /// A client, which makes its calls one after the other.
    Client(Client),
    /// The server, domain 0, which carries them out.
    Server(Server),
}

impl CallActor {
    /// Makes the client of a domain, 1 to 7, which sends each request `repeat` times, 1 to 4. `lines` holds the cell, 0 to 15, and the
    /// amount of each of its calls in order, at most 100,000.
    ///
    /// # Errors
    ///
    /// `NoMemory` where an allocation fails.
    pub fn client(
        alloc: Global,
        domain: u8,
        repeat: u8,
        lines: Vec<(u8, u64)>,
    ) -> Result<CallActor, NoMemory>
        requires some { 1 ≤ domain }
        requires domain { domain ≤ 7 }
        requires often { 1 ≤ repeat }
        requires repeat { repeat ≤ 4 }
        requires cells { AllByRecursion (λ k. k.0 < 16) lines.items }
        requires few { length lines.items ≤ call_limit }
        ensures { IfOk result (IsNew (client_of domain repeat lines.items)) }
    {
        Ok(CallActor::Client(Client::new(alloc, domain, repeat, lines)))
    }

    /// Makes the server of 1 to 7 clients, which send each request `repeat` times, 1 to 4. `lines` is the number of calls of all clients,
    /// at most 100,000: its service has room for as many.
    ///
    /// # Errors
    ///
    /// `NoMemory` where an allocation fails.
    pub fn server(alloc: Global, clients: u8, repeat: u8, lines: u32) -> Result<CallActor, NoMemory>
        requires some { 1 ≤ clients }
        requires clients { clients ≤ 7 }
        requires often { 1 ≤ repeat }
        requires repeat { repeat ≤ 4 }
        requires few { lines ≤ call_limit }
        ensures { IfOk result (IsNew (server_of clients repeat lines)) }
    {
        Ok(CallActor::Server(Server::new(alloc, clients, repeat, lines)?))
    }

    /// Returns the service of the server, or `None` for a client.
    pub fn service(&self) -> Option<&Service>
        ensures { option_map (λ s. s.now) result ≡ service_of_actor self.now }
    {
        match self {
            CallActor::Client(_) => None,
            CallActor::Server(server) => Some(server.service()),
        }
    }

    /// Returns the number, the status and the value that a client got of its call at this place, counted from 0. `None` past the last,
    /// and for the server.
    pub fn got(&self, at: usize) -> Option<(u32, u8, u64)>
        ensures { result ≡ option_map tuple_of (slice_get (gots_of_actor self.now) at) }
    {
        match self {
            CallActor::Client(client) => client.got(at),
            CallActor::Server(_) => None,
        }
    }

    /// Returns what a client got of its calls, in order. The server gets nothing.
    pub fn gots(&self) -> &[Got]
        ensures { result.now ≡ gots_of_actor self.now }
    {
        match self {
            CallActor::Client(client) => client.gots(),
            CallActor::Server(_) => &[],
        }
    }
}

impl Actor for CallActor {
    ghost use Rattle.call_actor.specs.CallActors.{EndsActor, FitsActor, line_asked, role_of_actor, todo_of_actor};
    ghost use Rattle.call_actor.specs.CallRoles.{domain_of_role};

    type Role = CallRole;

    ghost role = { role_of_actor };

    ghost domain = { λ a. domain_of_role (role_of_actor a) };

    ghost todo = { todo_of_actor };

    ghost asked = { line_asked };

    ghost Fits = { FitsActor };

    ghost Ends = { EndsActor };

    fn next(&mut self, told: Option<&Answer<'_>>) -> Result<Option<CallLine>, NoMemory> {
        match self {
            CallActor::Client(client) => client.next(told),
            CallActor::Server(server) => server.next(told),
        }
    }
}

fn moves<T: Send>() {}

/// Shows that an actor of numbered calls may move to another thread.
pub fn call_actors_may_move() {
    moves::<CallActor>();
}

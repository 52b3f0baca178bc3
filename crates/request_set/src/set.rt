//! The requests of a domain.

ghost use Rattle.std.specs.Prelude.{◌≡◌, ◌≢◌, ◌≤◌, ◌+◌, ◌↔◌, ◌&&◌, ◌==◌, IsErr, IsSome, IfOk, IfSome, OnOk, OnErr, Some, is_none, length, nat_le, find, position, option_map};
ghost use Rattle.std.specs.List.{AllByRecursion};
ghost use Rattle.mc_base.specs.Limits.{request_limit, no_key};
ghost use Rattle.request_set.specs.Requests.{Requests, no_requests, keys, request_of, IsPending, with_request, without_request, with_complete, receives_at, waits_at, oldest_waiting, listed, tested, cancelled, progress_of, is_done, first_done};
ghost use Rattle.slab.specs.Slab.{get};
ghost use Rattle.request_set.specs.InSet.{standing_of, standing_in};

use crate::{Ask, Complete};
use arrayvec::ArrayVec;
use mc_base::{Local, MAX_REQUESTS, NoMemory, Refusal, RequestId, RequestLimit};
use slab::Slab;
use std::alloc::Global;
use std::marker::Model;

/// The key that no request has.
const NO_KEY: u32 = u32::MAX;

/// What is kept of a request under its key.
#[derive(Clone, Copy, Debug)]
pub(crate) struct Request {
    serial: u64,
    ask: Ask,
    complete: Option<Complete>,
}

impl Request {
    /// Whether this is a pending receive at the endpoint.
    fn waits_at(&self, local: Local) -> bool
        ensures { result ≡ (is_none self.now.complete && receives_at local self.now.ask) }
    {
        self.complete.is_none() && self.ask.receives_at(local)
    }
}

/// The requests of a domain: at most 64, each pending, or complete and not yet tested off.
#[derive(Debug, Drop)]
pub struct RequestSet {
    slab: Slab<Request>,
    // The keys of the requests, in the order in which they were added.
    order: ArrayVec<u32, MAX_REQUESTS>,
    // The serial of the next request.
    given: u64,
}

impl Model for RequestSet {
    ghost use Rattle.request_set.specs.Requests.{Requests};

    ghost Value = { Requests };

    ghost use Rattle.request_set.specs.InSet.{requests_of, KeepsOrder};

    ghost view = { requests_of };

    ghost invariant = { KeepsOrder };
}

impl RequestSet {
    /// Makes an empty set with room for 64 requests.
    ///
    /// # Errors
    ///
    /// `NoMemory` where the room cannot be reserved.
    pub fn new(alloc: Global) -> Result<RequestSet, NoMemory>
        ensures { IfOk result (λ s. s ≡ no_requests) }
    {
        let Ok(slab) = Slab::with_capacity(alloc, MAX_REQUESTS) else {
            return Err(NoMemory);
        };
        // Keys are below the capacity, so that none is `NO_KEY`.
        if slab.capacity() > NO_KEY as usize {
            return Err(NoMemory);
        }
        Ok(RequestSet {
            slab,
            order: ArrayVec::new(),
            given: 0,
        })
    }

    /// Adds a request, pending, and returns its id. Its serial is the number of requests added before, modulo 2^64.
    ///
    /// # Errors
    ///
    /// `RequestLimit` where 64 requests exist; nothing changes then.
    pub fn add(&mut self, ask: Ask) -> Result<RequestId, RequestLimit>
        ensures limit { IsErr result ↔ (request_limit ≤ length self.old.standing) }
        ensures refused { OnErr result (self.new ≡ self.old) }
        ensures serial { IfOk result (λ id. id.serial ≡ self.old.given) }
        ensures fresh { IfOk result (λ id. AllByRecursion (λ key. key ≢ id.key) (keys self.old)) }
        ensures key { IfOk result (λ id. id.key ≢ no_key) }
        ensures added { IfOk result (λ id. self.new ≡ with_request self.old id ask) }
        ensures pending { IfOk result (λ id. IsPending self.new id) }
    {
        if self.order.is_full() {
            return Err(RequestLimit);
        }
        let serial = self.given;
        let request = Request {
            serial,
            ask,
            complete: None,
        };
        let key = self.slab.insert_reserved(request) as u32;
        self.order.push(key);
        self.given = serial.wrapping_add(1);
        Ok(RequestId { key, serial })
    }

    /// Whether 64 requests exist.
    pub fn is_full(&self) -> bool
        ensures { result ≡ nat_le request_limit (length self.now.standing) }
    {
        self.order.len() >= MAX_REQUESTS
    }

    /// Ends a request that is complete, and returns how.
    ///
    /// # Errors
    ///
    /// `RequestInvalid` where no request has the id, `Pending` where it is not complete; nothing changes then.
    pub fn test(&mut self, id: RequestId) -> Result<Complete, Refusal>
        ensures answer { result ≡ tested (progress_of self.old id) }
        ensures ended { OnOk result (self.new ≡ without_request self.old id) }
        ensures fewer { OnOk result (length self.new.standing + 1 ≡ length self.old.standing) }
        ensures refused { OnErr result (self.new ≡ self.old) }
    {
        let request = self.kept(id).ok_or(Refusal::RequestInvalid)?;
        let complete = request.complete.ok_or(Refusal::Pending)?;
        self.end(id);
        Ok(complete)
    }

    /// Ends a request that is pending.
    ///
    /// # Errors
    ///
    /// `RequestInvalid` where no request has the id, `TooLate` where it is complete; nothing changes then.
    pub fn cancel(&mut self, id: RequestId) -> Result<(), Refusal>
        ensures answer { result ≡ cancelled (progress_of self.old id) }
        ensures ended { OnOk result (self.new ≡ without_request self.old id) }
        ensures fewer { OnOk result (length self.new.standing + 1 ≡ length self.old.standing) }
        ensures refused { OnErr result (self.new ≡ self.old) }
    {
        let request = self.kept(id).ok_or(Refusal::RequestInvalid)?;
        if request.complete.is_some() {
            return Err(Refusal::TooLate);
        }
        self.end(id);
        Ok(())
    }

    /// Makes a pending request complete. It is kept until it is tested.
    pub fn complete(&mut self, id: RequestId, with: Complete)
        requires { IsPending self.old id }
        ensures { self.new ≡ with_complete self.old id with }
    {
        if let Some(request) = self.slab.get_mut(id.key as usize) {
            request.complete = Some(with);
        }
    }

    /// Returns the oldest pending receive of an endpoint, or `None` where none waits there.
    pub fn waiting(&self, local: Local) -> Option<RequestId>
        ensures oldest { result ≡ oldest_waiting self.now local }
        ensures pending { IfSome result (λ id. IsPending self.now id) }
    {
        oldest_of(&self.slab, &self.order, local)
    }

    /// Returns what a request asks for, or `None` where no request has the id.
    pub fn asked(&self, id: RequestId) -> Option<Ask>
        ensures { result ≡ option_map (λ r. r.ask) (request_of self.now id) }
    {
        Some(self.kept(id)?.ask)
    }

    /// Returns the request at a place, counted from 0 in the order in which they were added, and how it is complete, or
    /// `None` past the end.
    pub fn listed(&self, at: u32) -> Option<(RequestId, Ask, Option<Complete>)>
        ensures place { result ≡ listed self.now at }
        ensures progress { IfSome result (λ r. progress_of self.now r.0 ≡ Some r.2) }
    {
        let key = *self.order.get(at as usize)?;
        let request = self.slab.get(key as usize)?;
        let id = RequestId {
            key,
            serial: request.serial,
        };
        Some((id, request.ask, request.complete))
    }

    /// Returns the first place in the list whose request is complete, or `None` where there is none.
    pub fn first_done(&self, ids: &[RequestId]) -> Option<usize>
        ensures { result ≡ first_done self.now ids.now }
    {
        ids.iter().position(|id| self.is_done(*id))
    }

    /// Whether the request with this id exists and is complete.
    fn is_done(&self, id: RequestId) -> bool
        ensures { result ≡ is_done (progress_of self.now id) }
    {
        match self.kept(id) {
            Some(request) => request.complete.is_some(),
            None => false,
        }
    }

    /// What is kept of the request with this id.
    fn kept(&self, id: RequestId) -> Option<Request>
        ensures { option_map (standing_of id.key) result ≡ request_of self.now id }
    {
        match self.slab.get(id.key as usize) {
            Some(request) if request.serial == id.serial => Some(*request),
            _ => None,
        }
    }

    /// Takes a request out.
    fn end(&mut self, id: RequestId)
        requires { IsSome (request_of self.old id) }
        ensures ended { self.new ≡ without_request self.old id }
        ensures fewer { length self.new.standing + 1 ≡ length self.old.standing }
    {
        let place = place_of(&self.order, id.key).unwrap();
        self.order.remove(place);
        self.slab.remove(id.key as usize);
    }
}

fn place_of(order: &[u32], key: u32) -> Option<usize>
    ensures { result ≡ position (λ k. k == key) order.now }
{
    order.iter().position(|k| *k == key)
}

/// The oldest pending receive of an endpoint among these keys.
fn oldest_of(slab: &Slab<Request>, order: &[u32], local: Local) -> Option<RequestId>
    ensures { result ≡ option_map (λ r. r.id) (find (waits_at local) (standing_in (get slab.now) order.now)) }
{
    for key in order {
        let Some(request) = slab.get(*key as usize) else {
            continue;
        };
        if request.waits_at(local) {
            return Some(RequestId {
                key: *key,
                serial: request.serial,
            });
        }
    }
    None
}

//! The table itself.

ghost use Rattle.std.specs.Prelude.{◌≡◌, ◌<◌, ◌^◌, [], ◌∷◌, ◌++◌, map, IfOk, IfSome, IsTrue, OnOk, OnErr, option_map, vec_capacity};
ghost use Rattle.std.specs.List.{AllByRecursion};
ghost use Rattle.std.specs.VecDeque.{deque_capacity, deque_len};
ghost use Rattle.mc_base.specs.Announcement.{is_name};
ghost use Rattle.endpoint_table.specs.Table.{opening_table, live_at, live_with_address, owed_to, announcement_of, created, deleted, paid_to, create_answer, delete_answer};
ghost use Rattle.endpoint_table.specs.InTable.{name_in, one_more, settled_events, settled_records};

use crate::announced::Announced;
use crate::debts::{self, Debt};
use crate::name::name_of;
use crate::record::Record;
use crate::records;
use mc_base::{
    EndName, FIRST_ADDRESS, Local, MAX_ENDPOINTS, MAX_ENDPOINTS_EVER, MAX_OWED_ANNOUNCEMENTS,
    NoMemory, Ns, Refusal,
};
use name_service::KnownNames;
use std::alloc::Global;
use std::collections::VecDeque;
use std::marker::Model;

/// The endpoints of a domain and what is owed to the linked domains. At most 64 records are in use, and at most 128
/// announcements are owed to one linked domain.
#[derive(Debug, Drop)]
pub struct EndpointTable {
    domain: u8,
    nodes: u8,
    // In rising order of the addresses.
    records: Vec<Record>,
    // The addresses of the live endpoints, to be found by name.
    live: KnownNames,
    // What is still owed to at least one linked domain, the oldest first.
    events: VecDeque<Announced>,
    debts: Vec<Debt>,
    given: u32,
}

impl Model for EndpointTable {
    ghost use Rattle.endpoint_table.specs.Table.{Table};

    ghost Value = { Table };

    ghost use Rattle.endpoint_table.specs.InTable.{table_of, IsKept};

    ghost view = { table_of };

    ghost invariant = { IsKept };
}

impl EndpointTable {
    /// Makes the table of a domain with so many nodes, which is linked to these. No endpoint is there yet.
    ///
    /// # Errors
    ///
    /// `NoMemory` where an allocation fails.
    pub fn new(
        alloc: Global,
        domain: u8,
        nodes: u8,
        peers: &[u8],
    ) -> Result<EndpointTable, NoMemory>
        ensures { IfOk result (λ t. t ≡ opening_table domain nodes peers.now) }
    {
        let Ok(records) = Vec::with_capacity(alloc, MAX_ENDPOINTS) else {
            return Err(NoMemory);
        };
        let live = KnownNames::new(alloc)?;
        let Ok(events) = VecDeque::with_capacity(alloc, MAX_OWED_ANNOUNCEMENTS) else {
            return Err(NoMemory);
        };
        let debts = debts::none_owed(alloc, peers)?;
        Ok(EndpointTable {
            domain,
            nodes,
            records,
            live,
            events,
            debts,
            given: 0,
        })
    }

    /// Creates an endpoint, and returns its address: 1024, and one more for each that was created before. Its creation is
    /// owed to each linked domain.
    ///
    /// # Errors
    ///
    /// The first of these: `NodeInvalid` where the node is not below the domain's number of nodes, `ExistsAlready` where the
    /// endpoint is live, `EndpLimit` where 64 records are in use, `AddressSpent` where 60,000 endpoints were created. Nothing
    /// changes then.
    pub fn create(&mut self, local: Local) -> Result<u32, Refusal>
        ensures answer { result ≡ create_answer self.old local }
        ensures created { OnOk result (self.new ≡ created self.old local) }
        ensures refused { OnErr result (self.new ≡ self.old) }
    {
        if local.node >= self.nodes {
            return Err(Refusal::NodeInvalid);
        }
        if self.find(local).is_some() {
            return Err(Refusal::ExistsAlready);
        }
        if self.records.len() >= MAX_ENDPOINTS {
            return Err(Refusal::EndpLimit);
        }
        if self.given >= MAX_ENDPOINTS_EVER {
            return Err(Refusal::AddressSpent);
        }
        let address = FIRST_ADDRESS + self.given;
        self.given += 1;
        let record = Record {
            local,
            address,
            live: true,
        };
        self.records.push(record).unwrap();
        self.live
            .learn(name_in(self.domain, local), address)
            .unwrap();
        let event = Announced {
            local,
            address,
            create: true,
        };
        announce(&mut self.records, &mut self.events, &mut self.debts, event);
        Ok(address)
    }

    /// Deletes an endpoint. Its end is owed to each linked domain, and its record is in use until it was paid to all of them.
    ///
    /// # Errors
    ///
    /// `EndpInvalid` exactly where the endpoint is not live. Nothing changes then.
    pub fn delete(&mut self, local: Local) -> Result<(), Refusal>
        ensures answer { result ≡ delete_answer self.old local }
        ensures deleted { OnOk result (self.new ≡ deleted self.old local) }
        ensures refused { OnErr result (self.new ≡ self.old) }
    {
        let address = self.find(local).ok_or(Refusal::EndpInvalid)?;
        records::end(&mut self.records, address);
        self.live.forget(name_in(self.domain, local));
        let event = Announced {
            local,
            address,
            create: false,
        };
        announce(&mut self.records, &mut self.events, &mut self.debts, event);
        Ok(())
    }

    /// Returns the address of a live endpoint, or `None` where it is not live.
    pub fn find(&self, local: Local) -> Option<u32>
        ensures { result ≡ option_map (λ r. r.address) (live_at self.now local) }
    {
        self.live.find(name_in(self.domain, local))
    }

    /// Returns the live endpoint of an address, or `None` where no live endpoint has it.
    pub fn by_address(&self, addr: u32) -> Option<Local>
        ensures { result ≡ option_map (λ r. r.local) (live_with_address self.now addr) }
    {
        let record = records::with_address(&self.records, addr)?;
        Some(record.local)
    }

    /// Returns the oldest announcement that is owed to a linked domain, or `None` where none is, or where the domain is not
    /// linked.
    pub fn owed(&self, peer: u8) -> Option<Ns>
        ensures oldest { option_map (λ ns. (ns.name.items, ns.addr, ns.create)) result ≡ option_map (announcement_of self.now.domain) (owed_to self.now peer) }
        ensures lawful { IfSome result (λ ns. IsTrue (is_name ns.name.items)) }
    {
        let event = debts::oldest_owed(&self.events, &self.debts, peer)?;
        Some(announcement_of(self.domain, event))
    }

    /// Pays a linked domain the oldest announcement that is owed to it. A record that was in use for this alone is free from
    /// now on.
    pub fn paid(&mut self, peer: u8)
        ensures { self.new ≡ paid_to self.old peer }
    {
        debts::pay(&mut self.debts, peer);
        settle(&mut self.records, &mut self.events, &mut self.debts);
    }
}

/// What is announced of an endpoint of this domain. Its name takes room that is not cleared where nothing is owed.
#[inline(never)]
fn announcement_of(domain: u8, event: Announced) -> Ns
    ensures announced { (result.name.items, result.addr, result.create) ≡ announcement_of domain event }
    ensures lawful { IsTrue (is_name result.name.items) }
{
    Ns {
        name: name_of(domain, event.local),
        addr: event.address,
        create: event.create,
    }
}

/// The name of an endpoint of this domain among those of all domains.
fn name_in(domain: u8, local: Local) -> EndName
    ensures { result ≡ name_in domain local }
{
    EndName {
        domain,
        node: local.node,
        port: local.port,
    }
}

/// Owes an event to all linked domains.
fn announce(
    records: &mut Vec<Record>,
    events: &mut VecDeque<Announced>,
    debts: &mut [Debt],
    event: Announced,
)
    requires room { deque_len events.old < deque_capacity events.old }
    requires within { AllByRecursion (λ d. d.owed < 2 ^ 63) debts.old }
    ensures records { records.new.items ≡ settled_records records.old.items (events.old.items ++ event ∷ []) (map one_more debts.old) }
    ensures events { events.new.items ≡ settled_events (events.old.items ++ event ∷ []) (map one_more debts.old) }
    ensures debts { debts.new ≡ map one_more debts.old }
    ensures record_room { vec_capacity records.new ≡ vec_capacity records.old }
    ensures event_room { deque_capacity events.new ≡ deque_capacity events.old }
{
    events.push_back_reserved(event);
    debts::tell_all(debts);
    settle(records, events, debts);
}

/// Drops the oldest event where it was paid to all linked domains, and with an end the record that was in use for it.
fn settle(records: &mut Vec<Record>, events: &mut VecDeque<Announced>, debts: &[Debt])
    ensures records { records.new.items ≡ settled_records records.old.items events.old.items debts.now }
    ensures events { events.new.items ≡ settled_events events.old.items debts.now }
    ensures record_room { vec_capacity records.new ≡ vec_capacity records.old }
    ensures event_room { deque_capacity events.new ≡ deque_capacity events.old }
{
    if debts::is_owed(debts, events.len()) {
        return;
    }
    if let Some(event) = events.pop_front() {
        if !event.create {
            records::free(records, event.address);
        }
    }
}

//! The labels that were set, each in its domain.

ghost use Rattle.std.specs.Prelude.{◌≡◌, ◌==◌, ◌&&◌, ◌||◌, ℕ, List, IfErr, OnOk, bytes_eq};
ghost use Rattle.board_model.specs.Forms.{gives_request as is_of_request, gives_packet as is_of_packet};
ghost use Rattle.board_model.specs.Language.{nothing_told};
ghost use Rattle.scenario_lang.specs.declared.fault.LineFault.TheVariants.{NoMemory as no_memory};
ghost use Rattle.scenario_lang.specs.Telling.{has_label, Keeps};

use crate::fault::LineFault;
use board_model::Call;
use std::alloc::Global;
use std::collections::BTreeSet;

/// Labels with their domains.
#[derive(Drop)]
pub(crate) struct LabelSet<'a> {
    pub told: BTreeSet<(u8, &'a [u8])>,
}

/// The labels of requests, and those of packets. That of a request for a packet is both.
#[derive(Drop)]
pub(crate) struct Labels<'a> {
    pub requests: LabelSet<'a>,
    pub packets: LabelSet<'a>,
}

fn gives_request(call: &Call) -> bool
    ensures { result ≡ is_of_request call.now }
{
    matches!(
        call,
        Call::Lookup { .. } | Call::MsgRecvI { .. } | Call::Connect { .. } | Call::PktRecvI { .. }
    )
}

fn gives_packet(call: &Call) -> bool
    ensures { result ≡ is_of_packet call.now }
{
    matches!(call, Call::PktRecv { .. } | Call::PktRecvI { .. })
}

impl<'a> LabelSet<'a> {
    /// Returns whether a domain has set a label.
    pub fn has(&self, domain: u8, label: &'a [u8]) -> bool
        ensures { result ≡ has_label self.now.told.keys domain label.now }
    {
        self.told.contains(&(domain, label))
    }

    /// Sets a label.
    fn tell(&mut self, domain: u8, label: &'a [u8]) -> Result<(), LineFault>
        ensures told { OnOk result ((d : ℕ) (l : List ℕ) → has_label self.new.told.keys d l ≡ (has_label self.old.told.keys d l || ((domain == d) && bytes_eq l label.now))) }
        ensures memory { IfErr result (λ e. e ≡ no_memory) }
    {
        match self.told.insert((domain, label)) {
            Ok(_) => Ok(()),
            Err(_) => Err(LineFault::NoMemory),
        }
    }

    /// Sets a label where it is one of these.
    fn tell_if(&mut self, is_one: bool, domain: u8, label: &'a [u8]) -> Result<(), LineFault>
        ensures told { OnOk result ((d : ℕ) (l : List ℕ) → has_label self.new.told.keys d l ≡ (has_label self.old.told.keys d l || (is_one && ((domain == d) && bytes_eq l label.now)))) }
        ensures memory { IfErr result (λ e. e ≡ no_memory) }
    {
        if is_one {
            return self.tell(domain, label);
        }
        Ok(())
    }
}

impl<'a> Labels<'a> {
    pub fn new(alloc: Global) -> Labels<'a>
        ensures { Keeps result nothing_told }
    {
        Labels {
            requests: LabelSet {
                told: BTreeSet::new(alloc),
            },
            packets: LabelSet {
                told: BTreeSet::new(alloc),
            },
        }
    }

    /// Returns whether a domain has set a label.
    pub fn has(&self, domain: u8, label: &'a [u8]) -> bool
        ensures { result ≡ (has_label self.now.requests.told.keys domain label.now || has_label self.now.packets.told.keys domain label.now) }
    {
        self.requests.has(domain, label) || self.packets.has(domain, label)
    }

    /// Sets the label of a call.
    pub fn tell(&mut self, domain: u8, label: &'a [u8], call: &Call) -> Result<(), LineFault>
        ensures requests { OnOk result ((d : ℕ) (l : List ℕ) → has_label self.new.requests.told.keys d l ≡ (has_label self.old.requests.told.keys d l || (is_of_request call.now && ((domain == d) && bytes_eq l label.now)))) }
        ensures packets { OnOk result ((d : ℕ) (l : List ℕ) → has_label self.new.packets.told.keys d l ≡ (has_label self.old.packets.told.keys d l || (is_of_packet call.now && ((domain == d) && bytes_eq l label.now)))) }
        ensures memory { IfErr result (λ e. e ≡ no_memory) }
    {
        self.requests.tell_if(gives_request(call), domain, label)?;
        self.packets.tell_if(gives_packet(call), domain, label)
    }
}

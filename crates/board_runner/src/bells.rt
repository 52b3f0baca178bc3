//! The bells of a board, one for each domain that has links, and the ends of its peers, which ring it.

ghost use Rattle.std.specs.Prelude.{◌≡◌, ◌≤◌, IfOk, OnOk};
ghost use Rattle.std.specs.List.{AllByRecursion};
ghost use Rattle.door_bell.specs.Shown.{IsRingerOf};
ghost use Rattle.board_runner.specs.Bells.{HaveParts};

use crate::owned::{Owned, take_owned};
use crate::wires::Wire;
use board_model::Scenario;
use board_numbers::{append, size_between};
use domain_core::Link;
use door_bell::{Bell, BellFault, BellRecv, BellSend, Ringer, Sleeper};
use mc_base::{MAX_DOMAINS, NoMemory};
use station_ends::{Sleeps, StationRecv, StationSend};
use std::alloc::Global;
use std::sync::Wait;

/// The sleeper and the ringers of a domain's bell.
#[derive(Drop)]
pub struct BellParts {
    pub owner: u8,
    pub sleeper: Sleeper,
    pub ringers: Vec<Ringer>,
}

/// A ringer with its bell.
#[derive(Drop)]
struct Bellpull<'a> {
    ringer: Ringer,
    on: &'a Bell,
    ghost of_bell: { IsRingerOf on.now ringer },
}

/// A bell for each domain that has links, in rising order of the domains, and its parts.
///
/// # Errors
///
/// `NoMemory`, at any time.
pub fn bells_of(alloc: Global, scenario: &Scenario) -> Result<(Vec<Bell>, Vec<BellParts>), NoMemory>
    ensures { IfOk result (λ r. HaveParts r.0.items r.1.items) }
{
    let mut bells = Vec::new(alloc);
    let mut parts = Vec::new(alloc);
    for owner in 0..MAX_DOMAINS {
        add_bell(
            alloc,
            owner,
            count_links(scenario, owner),
            &mut bells,
            &mut parts,
        )?;
    }
    Ok((bells, parts))
}

/// Adds the bell of a domain with so many links, and its parts: a ringer for each of the two ends of each peer. A domain without links has
/// no bell.
fn add_bell(
    alloc: Global,
    owner: u8,
    links: u32,
    bells: &mut Vec<Bell>,
    parts: &mut Vec<BellParts>,
) -> Result<(), NoMemory>
    requires few { links ≤ 8 }
    requires parts { HaveParts bells.old.items parts.old.items }
    ensures { OnOk result (HaveParts bells.new.items parts.new.items) }
{
    match Bell::new(alloc, 2 * links) {
        Ok((bell, sleeper, ringers)) => {
            let own = BellParts {
                owner,
                sleeper,
                ringers,
            };
            append(bells, bell)?;
            append(parts, own)?;
            Ok(())
        }
        Err(BellFault::Count) => Ok(()),
        Err(BellFault::NoMemory) => Err(NoMemory),
    }
}

/// How many links a domain has.
fn count_links(scenario: &Scenario, domain: u8) -> u32
    ensures { result ≤ 8 }
{
    let mut count = 0;
    for peer in 0..MAX_DOMAINS {
        if size_between(scenario, domain, peer).is_some() {
            count += 1;
        }
    }
    count
}

/// Has the ends of wires ring the bells of their peers, and returns them with the pace of each domain that has a bell. Contracts see
/// the ends inside, and so the same wires.
///
/// # Errors
///
/// `NoMemory` where a list cannot grow.
pub fn hang_bells<'a, R: Wait>(
    alloc: Global,
    rt: &'a R,
    bells: &'a [Bell],
    parts: Vec<BellParts>,
    wires: Vec<Wire<'a>>,
) -> Result<(Vec<Wire<'a>>, Vec<Owned<Sleeps<'a, R>>>), NoMemory>
    requires { HaveParts bells.now parts.items }
    ensures { IfOk result (λ r. r.0.items ≡ wires.entry.items) }
{
    let (paces, pulls) = paces_of(alloc, rt, bells, parts)?;
    let wires = ringing(alloc, wires, pulls)?;
    Ok((wires, paces))
}

/// The paces of the domains that have bells, and the ringers of all bells.
fn paces_of<'a, R: Wait>(
    alloc: Global,
    rt: &'a R,
    bells: &'a [Bell],
    parts: Vec<BellParts>,
) -> Result<(Vec<Owned<Sleeps<'a, R>>>, Vec<Owned<Bellpull<'a>>>), NoMemory>
    requires { HaveParts bells.now parts.items }
{
    let mut paces = Vec::new(alloc);
    let mut pulls = Vec::new(alloc);
    let mut at = 0;
    for own in parts {
        let Some(on) = bells.get(at) else {
            unreachable!()
        };
        let BellParts {
            owner,
            sleeper,
            ringers,
        } = own;
        let item = Sleeps::new(rt, sleeper, on);
        append(&mut paces, Owned { owner, item })?;
        add_pulls(&mut pulls, owner, on, ringers)?;
        at += 1;
    }
    Ok((paces, pulls))
}

/// Appends the ringers of a domain's bell.
fn add_pulls<'a>(
    pulls: &mut Vec<Owned<Bellpull<'a>>>,
    owner: u8,
    on: &'a Bell,
    ringers: Vec<Ringer>,
) -> Result<(), NoMemory>
    requires { AllByRecursion (IsRingerOf on.now) ringers.items }
{
    for ringer in ringers {
        let item = Bellpull { ringer, on };
        append(pulls, Owned { owner, item })?;
    }
    Ok(())
}

/// Has the ends of all wires ring.
fn ringing<'a>(
    alloc: Global,
    wires: Vec<Wire<'a>>,
    mut pulls: Vec<Owned<Bellpull<'a>>>,
) -> Result<Vec<Wire<'a>>, NoMemory>
    ensures { IfOk result (λ v. v.items ≡ wires.entry.items) }
{
    let mut ringing = Vec::new(alloc);
    for wire in wires {
        append(&mut ringing, ringing_wire(wire, &mut pulls))?;
    }
    Ok(ringing)
}

/// Has both ends of a wire ring the bell of their peer, which has ringers for them.
fn ringing_wire<'a>(wire: Wire<'a>, pulls: &mut Vec<Owned<Bellpull<'a>>>) -> Wire<'a>
    ensures { result ≡ wire.entry }
{
    let Wire { owner, link } = wire;
    let Link {
        peer,
        size,
        send,
        recv,
    } = link;
    let send = ringing_send(send, take_owned(pulls, peer));
    let recv = ringing_recv(recv, take_owned(pulls, peer));
    Wire {
        owner,
        link: Link {
            peer,
            size,
            send,
            recv,
        },
    }
}

fn ringing_send<'a>(end: StationSend<'a>, pull: Option<Bellpull<'a>>) -> StationSend<'a>
    ensures { result ≡ end.entry }
{
    match pull {
        Some(pull) => { StationSend::rung(BellSend::new(end.into_any(), pull.ringer, pull.on)) }
        None => end,
    }
}

fn ringing_recv<'a>(end: StationRecv<'a>, pull: Option<Bellpull<'a>>) -> StationRecv<'a>
    ensures { result ≡ end.entry }
{
    match pull {
        Some(pull) => { StationRecv::rung(BellRecv::new(end.into_any(), pull.ringer, pull.on)) }
        None => end,
    }
}

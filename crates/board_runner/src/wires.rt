//! The links of a board over its rings, before the domains have them.

ghost use Rattle.std.specs.Prelude.{◌≡◌, ◌<◌, IfOk, IfSome, length, position};
ghost use Rattle.board_runner.specs.Wired.{AreRings, HaveParts, driver_link, device_link, leads_from, wires_for};

use crate::rings::{LinkHalves, LinkRings};
use board_model::LinkLine;
use board_numbers::append;
use domain_core::Link;
use lane_end::{AnyRecv, AnySend, open_queue0, open_queue1};
use mc_base::NoMemory;
use station_ends::{StationRecv, StationSend};
use std::alloc::Global;

/// A domain's ends of a link, with the number of the domain.
#[derive(Drop)]
pub struct Wire<'a> {
    pub owner: u8,
    pub link: Link<StationSend<'a>, StationRecv<'a>>,
}

/// Opens the lanes of all links: of each link its driver's ends and then its device's.
///
/// # Errors
///
/// `NoMemory` where the list cannot grow.
pub fn wires_of<'a>(
    alloc: Global,
    links: &[LinkLine],
    rings: &'a [LinkRings],
    halves: Vec<LinkHalves>,
) -> Result<Vec<Wire<'a>>, NoMemory>
    requires { AreRings links.now rings.now halves.items }
    ensures { IfOk result (λ v. v.items ≡ wires_for links.now rings.now) }
{
    let mut wires = Vec::new(alloc);
    let mut at = 0;
    for two in halves {
        let (Some(line), Some(on)) = (links.get(at), rings.get(at)) else {
            unreachable!()
        };
        let (there, back) = open_link(*line, on, two)?;
        append(&mut wires, there)?;
        append(&mut wires, back)?;
        at += 1;
    }
    Ok(wires)
}

/// Opens the two lanes of a link, and returns its driver's ends and its device's.
fn open_link<'a>(
    line: LinkLine,
    on: &'a LinkRings,
    halves: LinkHalves,
) -> Result<(Wire<'a>, Wire<'a>), NoMemory>
    requires { HaveParts line.size on.now halves }
    ensures { IfOk result (λ r. (r.0 ≡ record { owner = line.driver; link = driver_link line on.now }) × (r.1 ≡ record { owner = line.device; link = device_link line on.now })) }
{
    let one = halves.queue1;
    let (to_device, from_driver) = open_queue1(&on.queue1, one.driver, one.device, one.buffers)?;
    let zero = halves.queue0;
    let (to_driver, from_device) = open_queue0(&on.queue0, zero.driver, zero.device, zero.buffers)?;
    let there = Wire {
        owner: line.driver,
        link: Link {
            peer: line.device,
            size: line.size,
            send: StationSend::polled(AnySend::Driver(to_device)),
            recv: StationRecv::polled(AnyRecv::Driver(from_device)),
        },
    };
    let back = Wire {
        owner: line.device,
        link: Link {
            peer: line.driver,
            size: line.size,
            send: StationSend::polled(AnySend::Device(to_driver)),
            recv: StationRecv::polled(AnyRecv::Device(from_driver)),
        },
    };
    Ok((there, back))
}

/// The place of a domain's ends of its link to a peer.
pub fn place_of_wire(wires: &[Wire<'_>], domain: u8, peer: u8) -> Option<usize>
    ensures place { result ≡ position (leads_from domain peer) wires.now }
    ensures within { IfSome result (λ i. i < length wires.now) }
{
    wires
        .iter()
        .position(|w| w.owner == domain && w.link.peer == peer)
}

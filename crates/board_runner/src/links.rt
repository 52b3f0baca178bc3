//! The links of a domain over rings.

ghost use Rattle.std.specs.Prelude.{◌≡◌, ◌≢◌, ℕ, IfOk, OnOk};
ghost use Rattle.board_runner.specs.Wired.{wire_at, links_wired};

use crate::wires::{Wire, place_of_wire};
use domain_core::Link;
use mc_base::{MAX_DOMAINS, NoMemory};
use station_ends::{StationRecv, StationSend};
use std::alloc::Global;

/// The links of a domain in the rising order of their peers, taken out of the wires of its board.
///
/// # Errors
///
/// `NoMemory` where the list cannot grow.
pub(crate) fn links_of<'a>(
    alloc: Global,
    wires: &mut Vec<Wire<'a>>,
    domain: u8,
) -> Result<Vec<Link<StationSend<'a>, StationRecv<'a>>>, NoMemory>
    ensures links { IfOk result (λ v. v.items ≡ links_wired wires.old.items domain 8) }
    ensures others { OnOk result ((a b : ℕ) → a ≢ domain → wire_at wires.new.items a b ≡ wire_at wires.old.items a b) }
{
    let Ok(mut links) = Vec::with_capacity(alloc, MAX_DOMAINS as usize) else {
        return Err(NoMemory);
    };
    for peer in 0..MAX_DOMAINS {
        if let Some(place) = place_of_wire(wires, domain, peer) {
            let wire = wires.remove(place);
            links.push(wire.link).unwrap();
        }
    }
    Ok(links)
}

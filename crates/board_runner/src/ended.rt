//! The links of domains that ran, taken apart. What is left of them borrows no ring.

ghost use Rattle.std.specs.Prelude.{◌≡◌, ◌<◌, ℕ, IfOk, IfSome, OnOk, length, map, position};
ghost use Rattle.std.specs.List.{AllByRecursion};
ghost use Rattle.board_runner.specs.Ended.{EndMore, HasRings, IsOverRings, WireEnds, WiresEnd, ended_at, is_ended_at, wire_of, wires_left};
ghost use Rattle.board_model.specs.Language.{IsLawfulBoard};
ghost use Rattle.board_numbers.specs.ToldChannels.{TellChannels};
ghost use Rattle.board_runner.specs.EndedStations.{TellStations, ended_station};
ghost use Rattle.board_runner.specs.Outcome.{lines_in};

use crate::ending::{channel_totals, tallies_of};
use crate::station::Station;
use board_model::{ChannelTotals, Scenario, Seq};
use board_numbers::{Tally, add, append};
use domain_core::{Journal, Link};
use lane_end::{RecvHalf, SendHalf};
use mc_base::NoMemory;
use station_ends::{StationRecv, StationSend};
use std::alloc::Global;

/// What is left of a domain's ends of its link to a peer.
#[derive(Drop)]
pub struct EndedLink {
    pub owner: u8,
    pub peer: u8,
    pub send: SendHalf,
    pub recv: RecvHalf,
}

/// What is left of the stations of a board: their numbers and their journals, in the order of the stations, what became of the items of
/// their channels, and their links.
#[derive(Drop)]
pub struct Remains {
    pub tallies: Seq<Tally>,
    pub journals: Seq<Journal>,
    pub channels: Seq<ChannelTotals>,
    pub links: Vec<EndedLink>,
}

/// Takes stations apart.
///
/// # Errors
///
/// `NoMemory`, at any time.
pub(crate) fn take_apart(
    alloc: Global,
    scenario: &Scenario,
    stations: Vec<Station<'_>>,
) -> Result<Remains, NoMemory>
    requires lawful { IsLawfulBoard scenario.now }
    requires rings { AllByRecursion HasRings stations.items }
    ensures tallies { IfOk result (λ left. TellStations stations.entry.items left.tallies) }
    ensures journals { IfOk result (λ left. lines_in left.journals ≡ map (λ st. st.journal.lines) stations.entry.items) }
    ensures channels { IfOk result (λ left. TellChannels scenario.now (map ended_station stations.entry.items) left.channels) }
    ensures links { IfOk result (λ left. WiresEnd (wires_left stations.entry.items) left.links.items) }
{
    let tallies = tallies_of(alloc, &stations)?;
    let channels = channel_totals(alloc, scenario, &stations)?;
    let (journals, links) = end_stations(alloc, stations)?;
    Ok(Remains {
        tallies,
        journals,
        channels,
        links,
    })
}

/// Ends the links of stations, and returns their journals and what is left of the links.
fn end_stations(
    alloc: Global,
    stations: Vec<Station<'_>>,
) -> Result<(Seq<Journal>, Vec<EndedLink>), NoMemory>
    requires { AllByRecursion HasRings stations.items }
    ensures journals { IfOk result (λ r. lines_in r.0 ≡ map (λ st. st.journal.lines) stations.entry.items) }
    ensures links { IfOk result (λ r. WiresEnd (wires_left stations.entry.items) r.1.items) }
{
    let mut journals = Seq::new(Vec::new(alloc));
    let mut links = Vec::new(alloc);
    for station in stations {
        let Station {
            domain,
            domain_number,
            journal,
            ..
        } = station;
        let ends = domain.into_links();
        end_links(domain_number, ends, &mut links)?;
        add(&mut journals, journal)?;
    }
    Ok((journals, links))
}

/// Ends the links of a domain, and appends what is left of them.
fn end_links(
    owner: u8,
    links: Vec<Link<StationSend<'_>, StationRecv<'_>>>,
    ended: &mut Vec<EndedLink>,
) -> Result<(), NoMemory>
    requires { AllByRecursion IsOverRings links.items }
    ensures { OnOk result (EndMore owner links.entry.items ended.old.items ended.new.items) }
{
    for link in links {
        append(ended, end_link(owner, link))?;
    }
    Ok(())
}

/// Ends a domain's ends of a link.
fn end_link(owner: u8, link: Link<StationSend<'_>, StationRecv<'_>>) -> EndedLink
    requires { IsOverRings link }
    ensures { WireEnds (wire_of owner link.entry) result }
{
    let Link {
        peer,
        send,
        recv,
        ..
    } = link;
    EndedLink {
        owner,
        peer,
        send: send.into_any().into_half(),
        recv: recv.into_any().into_half(),
    }
}

/// Takes out what is left of a domain's ends of its link to a peer, or returns `None` where it has none.
pub(crate) fn take_ended(ended: &mut Vec<EndedLink>, owner: u8, peer: u8) -> Option<EndedLink>
    ensures taken { result ≡ ended_at ended.old.items owner peer }
    ensures others { (a b : ℕ) → (owner ≡ a → peer ≡ b → ⊥) → ended_at ended.new.items a b ≡ ended_at ended.old.items a b }
{
    match place_of_ended(ended, owner, peer) {
        Some(place) => Some(ended.remove(place)),
        None => None,
    }
}

/// The place of what is left of a domain's ends of its link to a peer.
fn place_of_ended(ended: &[EndedLink], owner: u8, peer: u8) -> Option<usize>
    ensures place { result ≡ position (is_ended_at owner peer) ended.now }
    ensures within { IfSome result (λ i. i < length ended.now) }
{
    ended
        .iter()
        .position(|e| e.owner == owner && e.peer == peer)
}

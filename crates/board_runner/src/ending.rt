//! The outcome that a run's stations leave.

ghost use Rattle.std.specs.Prelude.{◌≡◌, [], IfOk, map};
ghost use Rattle.board_model.specs.Language.{IsLawfulBoard};
ghost use Rattle.board_model.specs.SerialRun.{finished, serial_run};
ghost use Rattle.board_numbers.specs.Tallied.{AreHeld};
ghost use Rattle.board_numbers.specs.ToldChannels.{TellChannels};
ghost use Rattle.board_runner.specs.EndedStations.{TellsStation, TellStations, ended_station};
ghost use Rattle.board_runner.specs.Outcome.{lines_in, IsOutcome};
ghost use Rattle.board_runner.specs.Stations.{IsRun};

use crate::Outcome;
use crate::station::Station;
use board_model::{ChannelTotals, Scenario, Seq};
use board_numbers::{
    HeldBuffers, Tally, add, channels_of, count, count_journal, no_items, places_of, totals_of,
};
use domain_core::{Domain, Journal, Places};
use mc_base::{MAX_DOMAINS, NoMemory};
use station_ends::{StationRecv, StationSend};
use std::alloc::Global;

/// Makes the outcome of a serial run that left these stations, which are in rising number. `NoMemory` is the only error.
pub fn outcome_of(
    alloc: Global,
    scenario: &Scenario,
    stations: Vec<Station<'_>>,
) -> Result<Outcome, NoMemory>
    requires lawful { IsLawfulBoard scenario.now }
    requires run { IsRun scenario.now (finished scenario.now) stations.items }
    ensures told { IfOk result (λ o. IsOutcome scenario.now o (serial_run scenario.now)) }
    ensures rings { IfOk result (λ o. o.rings ≡ []) }
{
    let tallies = tallies_of(alloc, &stations)?;
    let places = places_of(alloc, scenario, tallies.as_slice())?;
    let channels = channel_totals(alloc, scenario, &stations)?;
    let messages = totals_of(scenario, tallies.as_slice());
    Ok(Outcome {
        journals: journals_of(alloc, stations)?,
        rings: Seq::new(Vec::new(alloc)),
        places,
        channels,
        messages,
    })
}

/// The tallies of stations.
pub fn tallies_of(alloc: Global, stations: &[Station<'_>]) -> Result<Seq<Tally>, NoMemory>
    ensures { IfOk result (λ tallies. TellStations stations.now tallies) }
{
    let mut tallies = Seq::new(Vec::new(alloc));
    for at in 0..stations.len() {
        let tally = tally_of(&stations[at]);
        add(&mut tallies, tally)?;
    }
    Ok(tallies)
}

/// The tally of a station.
fn tally_of(station: &Station<'_>) -> Tally
    ensures { TellsStation station.now result }
{
    Tally {
        counts: count(&station.journal),
        deleted: station.dropped,
        held: held_by(&station.domain),
    }
}

/// How many messages are queued in a domain, and where it holds buffers.
fn held_by(domain: &Domain<StationSend<'_>, StationRecv<'_>>) -> HeldBuffers
    ensures { AreHeld domain.now.state result }
{
    let mut held = HeldBuffers {
        queued: domain.messages_queued(),
        places: [Places { queue: 0, lent: 0 }; 8],
    };
    for peer in 0..MAX_DOMAINS {
        if let Some(places) = domain.places(peer) {
            held.places[usize::from(peer)] = places;
        }
    }
    held
}

/// What became of the items of the channels that the domains of stations numbered.
pub fn channel_totals(
    alloc: Global,
    scenario: &Scenario,
    stations: &[Station<'_>],
) -> Result<Seq<ChannelTotals>, NoMemory>
    requires lawful { IsLawfulBoard scenario.now }
    ensures { IfOk result (TellChannels scenario.now (map ended_station stations.now)) }
{
    let mut counts = no_items(alloc, stations)?;
    for station in stations {
        count_journal(&mut counts, station.domain_number, &station.journal);
    }
    channels_of(alloc, scenario, stations, &counts)
}

/// The journals of stations.
fn journals_of(alloc: Global, stations: Vec<Station<'_>>) -> Result<Seq<Journal>, NoMemory>
    ensures { IfOk result (λ journals. lines_in journals ≡ map (λ st. st.journal.lines) stations.entry.items) }
{
    let mut journals = Seq::new(Vec::new(alloc));
    for station in stations {
        add(&mut journals, station.journal)?;
    }
    Ok(journals)
}

//! A board at its opening.

ghost use Rattle.std.specs.Prelude.{◌≡◌, IfOk};
ghost use Rattle.board_model.specs.Language.{IsLawfulBoard};
ghost use Rattle.board_model.specs.LinkedBoard.{IsLinkedBoard};
ghost use Rattle.board_model.specs.Scenario.{rising};
ghost use Rattle.board_model.specs.SerialRun.{opened};
ghost use Rattle.board_runner.specs.Opened.{AreOpened, IsLineIn, IsOpened};
ghost use Rattle.board_runner.specs.Wired.{IsWired, AreLinksOn};
ghost use Rattle.board_runner.specs.Runs.{AllCarried};
ghost use Rattle.board_runner.specs.Stations.{IsRun};

use crate::links::links_of;
use crate::station::Station;
use crate::wires::Wire;
use board_model::{DomainLine, Scenario};
use board_numbers::line_of;
use domain_core::{Domain, Journal, Link};
use mc_base::{MAX_DOMAINS, NoMemory};
use station_ends::{StationRecv, StationSend};
use std::alloc::Global;
use std::collections::HashMap;

/// The domains of a lawful board in rising number, before the first line, with the links of the board.
///
/// # Errors
///
/// `NoMemory`, at any time.
pub(crate) fn open_stations<'a>(
    alloc: Global,
    scenario: &Scenario,
    mut wires: Vec<Wire<'a>>,
) -> Result<Vec<Station<'a>>, NoMemory>
    requires lawful { IsLawfulBoard scenario.now }
    requires wired { IsWired scenario.now wires.items }
    ensures run { IfOk result (λ v. IsRun scenario.now (opened scenario.now) v.items) }
    ensures carried { IfOk result (λ v. AllCarried v.items) }
    ensures opens { IfOk result (λ v. AreOpened scenario.now wires.entry.items (rising scenario.now) v.items) }
{
    let Ok(mut stations) = Vec::with_capacity(alloc, MAX_DOMAINS as usize) else {
        return Err(NoMemory);
    };
    for number in 0..MAX_DOMAINS {
        if let Some(line) = line_of(scenario, number) {
            let links = links_of(alloc, &mut wires, number)?;
            let station = open_station(alloc, scenario, line, links)?;
            stations.push(station).unwrap();
        }
    }
    Ok(stations)
}

/// A domain with its links, before its first line.
fn open_station<'a>(
    alloc: Global,
    _scenario: &Scenario,
    line: DomainLine,
    links: Vec<Link<StationSend<'a>, StationRecv<'a>>>,
) -> Result<Station<'a>, NoMemory>
    requires board { IsLinkedBoard _scenario.now }
    requires line { IsLineIn _scenario.now line }
    requires links { AreLinksOn _scenario.now line links.items }
    ensures { IfOk result (λ st. IsOpened _scenario.now links.entry.items line st) }
{
    let domain = Domain::open(alloc, line.domain, line.nodes, line.pool, links)?;
    let journal = Journal::new(alloc)?;
    Ok(Station {
        domain,
        journal,
        ids: HashMap::new(alloc),
        packets: HashMap::new(alloc),
        domain_number: line.domain,
        number: 0,
        dropped: 0,
    })
}

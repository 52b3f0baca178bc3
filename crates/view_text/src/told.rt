//! What the form `text` tells of a report, ready to be written.

ghost use Rattle.std.specs.Prelude.{◌≡◌, IfOk, IfSome, is_some, true, vec_len};
ghost use Rattle.std.specs.List.{AllByRecursion};
ghost use Rattle.report_events.specs.Events.{AreInOrder};
ghost use Rattle.report_view.specs.Rooms.{FitsIn};

use crate::filter::Filter;
use crate::standing::{Standing, standings_of};
use crate::survey::{Queued, find_limits};
use event_order::Event;
use report_events::{EventFault, events_of};
use report_view::{View, room_for};
use std::alloc::Global;

/// What is told of a report: its events in one order, where it is shown in that, and what was missing where waits reached their limits.
#[derive(Drop)]
pub struct ToldText {
    pub(crate) filter: Filter,
    pub(crate) together: Option<Vec<Event>>,
    pub(crate) standings: Vec<Standing>,
    pub(crate) queued: Vec<Queued>,
    pub(crate) room: Vec<u8>,
}

/// Returns the events of a report in one order, where it is shown in that. Where a wait reached its limit they serve to say what was missing, and a
/// report without such an order has none.
fn events_for(
    alloc: Global,
    report: &[u8],
    view: &View<'_>,
    together: bool,
    has_limits: bool,
) -> Result<Option<Vec<Event>>, EventFault>
    ensures order { IfOk result (λ found. IfSome found (λ es. AreInOrder view.now.domains.items es.items)) }
    ensures found { together ≡ true → IfOk result (λ found. is_some found ≡ true) }
{
    if together {
        return Ok(Some(events_of(alloc, report, view)?));
    }
    if !has_limits {
        return Ok(None);
    }
    match events_of(alloc, report, view) {
        Ok(events) => Ok(Some(events)),
        Err(EventFault::NoCause { .. }) => Ok(None),
        Err(EventFault::NoMemory) => Err(EventFault::NoMemory),
    }
}

/// Reads what a report tells, and of which calls it is shown: all domains in one order if `together` says so, or else one after the other.
///
/// The events of the report are listed only if it is shown in one order or a wait reached its limit: they take up to 52 bytes each.
///
/// # Errors
///
/// `NoCause` where the report is to be shown in one order and has none. `NoMemory` where an allocation fails.
pub fn read_text(
    alloc: Global,
    report: &[u8],
    view: &View<'_>,
    filter: Filter,
    together: bool,
) -> Result<ToldText, EventFault>
    ensures room { IfOk result (λ told. AllByRecursion (FitsIn (vec_len told.room)) view.now.domains.items) }
    ensures together { IfOk result (λ told. is_some told.together ≡ together) }
    ensures order { IfOk result (λ told. IfSome told.together (λ es. AreInOrder view.now.domains.items es.items)) }
{
    let mut room = room_for(alloc, &view.domains)?;
    let limits = find_limits(alloc, &view.told.scenario, &view.domains, &mut room)?;
    let has_limits = !limits.lines.is_empty();
    let events = events_for(alloc, report, view, together, has_limits)?;
    let standings = match &events {
        Some(events) => standings_of(alloc, events, &limits.lines)?,
        None => Vec::new(alloc),
    };
    Ok(ToldText {
        filter,
        together: if together { events } else { None },
        standings,
        queued: limits.queued,
        room,
    })
}

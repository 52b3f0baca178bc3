//! Calls that connect, open and close channels.

ghost use Rattle.std.specs.Prelude.{◌≡◌, IfOk};
ghost use Rattle.mc_base.specs.declared.channel.Side.TheVariants.{Receiver, Sender};
ghost use Rattle.board_model.specs.DomainCall.{connect_from, open_at, close_at};
ghost use Rattle.domain_core.specs.Calls.{given_by};
ghost use Rattle.board_runner.specs.Lines.{CallsDomain};

use super::Made;
use crate::answers::{of_connect, of_number, of_unit};
use domain_core::{CALL_BYTES, CALL_ENTRIES, Domain, Journal};
use mc_base::{EndName, Kind, Local, NoMemory, Refusal, RequestId};
use station_ends::{StationRecv, StationSend};

/// Connects an endpoint to one that can receive. A call that is refused gives no request.
pub fn connect(
    domain: &mut Domain<StationSend<'_>, StationRecv<'_>>,
    journal: &mut Journal,
    from: Local,
    to: EndName,
    kind: Kind,
) -> Result<Made<'static>, NoMemory>
    ensures { IfOk result (λ made. CallsDomain from.node (connect_from from.port to kind) domain.old domain.new journal.old.lines journal.new.lines made) }
{
    journal.reserve(CALL_ENTRIES, CALL_BYTES)?;
    let connected = domain.connect(journal, from, to, kind);
    Ok(Made {
        answer: of_connect(connected),
        given: request_of(connected),
        lent: None,
    })
}

/// The request that a connect gave.
fn request_of(connected: Result<(RequestId, u32), Refusal>) -> Option<RequestId>
    ensures { result ≡ given_by connected }
{
    match connected {
        Ok((id, _)) => Some(id),
        Err(_) => None,
    }
}

/// Opens the sender's end of a channel.
pub fn open_send(
    domain: &mut Domain<StationSend<'_>, StationRecv<'_>>,
    journal: &mut Journal,
    at: Local,
    kind: Kind,
) -> Result<Made<'static>, NoMemory>
    ensures { IfOk result (λ made. CallsDomain at.node (open_at at.port Sender kind) domain.old domain.new journal.old.lines journal.new.lines made) }
{
    journal.reserve(CALL_ENTRIES, CALL_BYTES)?;
    let answer = of_unit(domain.open_send(journal, at, kind));
    Ok(Made {
        answer,
        given: None,
        lent: None,
    })
}

/// Opens the receiver's end of a channel.
pub fn open_recv(
    domain: &mut Domain<StationSend<'_>, StationRecv<'_>>,
    journal: &mut Journal,
    at: Local,
    kind: Kind,
) -> Result<Made<'static>, NoMemory>
    ensures { IfOk result (λ made. CallsDomain at.node (open_at at.port Receiver kind) domain.old domain.new journal.old.lines journal.new.lines made) }
{
    journal.reserve(CALL_ENTRIES, CALL_BYTES)?;
    let answer = of_unit(domain.open_recv(journal, at, kind));
    Ok(Made {
        answer,
        given: None,
        lent: None,
    })
}

/// Closes the sender's end of a channel.
pub fn close_send(
    domain: &mut Domain<StationSend<'_>, StationRecv<'_>>,
    journal: &mut Journal,
    at: Local,
) -> Result<Made<'static>, NoMemory>
    ensures { IfOk result (λ made. CallsDomain at.node (close_at at.port Sender) domain.old domain.new journal.old.lines journal.new.lines made) }
{
    journal.reserve(CALL_ENTRIES, CALL_BYTES)?;
    let answer = of_unit(domain.close_send(journal, at));
    Ok(Made {
        answer,
        given: None,
        lent: None,
    })
}

/// Closes the receiver's end of a channel, and returns how many items were dropped there.
pub fn close_recv(
    domain: &mut Domain<StationSend<'_>, StationRecv<'_>>,
    journal: &mut Journal,
    at: Local,
) -> Result<Made<'static>, NoMemory>
    ensures { IfOk result (λ made. CallsDomain at.node (close_at at.port Receiver) domain.old domain.new journal.old.lines journal.new.lines made) }
{
    journal.reserve(CALL_ENTRIES, CALL_BYTES)?;
    let answer = of_number(domain.close_recv(journal, at));
    Ok(Made {
        answer,
        given: None,
        lent: None,
    })
}

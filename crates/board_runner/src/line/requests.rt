//! Calls that give and end requests.

ghost use Rattle.std.specs.Prelude.{◌≡◌, ℕ, IfOk, length};
ghost use Rattle.mc_base.specs.Limits.{asked_limit};
ghost use Rattle.board_model.specs.DomainCall.{lookup_of, request_at, test_of, cancel_of};
ghost use Rattle.domain_core.specs.DomainView.{place_of_id};
ghost use Rattle.board_runner.specs.Lines.{CallsDomain};

use super::Made;
use crate::answers::{of_request, of_test, of_tested_packet, of_unit};
use crate::packets::copy_packet;
use domain_core::{CALL_BYTES, CALL_ENTRIES, Domain, Journal};
use mc_base::{Done, EndName, Local, NoMemory, RequestId};
use station_ends::{StationRecv, StationSend};

/// Asks for the address of an endpoint. A call that is refused gives no request.
pub fn lookup(
    domain: &mut Domain<StationSend<'_>, StationRecv<'_>>,
    journal: &mut Journal,
    name: EndName,
) -> Result<Made<'static>, NoMemory>
    ensures { IfOk result (λ made. (node : ℕ) → CallsDomain node (lookup_of name) domain.old domain.new journal.old.lines journal.new.lines made) }
{
    journal.reserve(CALL_ENTRIES, CALL_BYTES)?;
    let found = domain.lookup(journal, name);
    Ok(Made {
        answer: of_request(found),
        given: found.ok(),
        lent: None,
    })
}

/// Requests a message. A call that is refused gives no request.
pub fn request(
    domain: &mut Domain<StationSend<'_>, StationRecv<'_>>,
    journal: &mut Journal,
    at: Local,
    max: u32,
) -> Result<Made<'static>, NoMemory>
    ensures { IfOk result (λ made. CallsDomain at.node (request_at at.port max) domain.old domain.new journal.old.lines journal.new.lines made) }
{
    journal.reserve(CALL_ENTRIES, CALL_BYTES)?;
    let requested = domain.msg_recv_i(journal, at, max);
    Ok(Made {
        answer: of_request(requested),
        given: requested.ok(),
        lent: None,
    })
}

/// Ends a request if it is complete. What it brings goes to `out`, which has 9,000 bytes. A packet that it brings is lent.
pub fn test<'r>(
    domain: &mut Domain<StationSend<'_>, StationRecv<'_>>,
    journal: &mut Journal,
    id: RequestId,
    out: &'r mut [u8],
) -> Result<Made<'r>, NoMemory>
    requires { length out.old ≡ asked_limit }
    ensures { IfOk result (λ made. (node : ℕ) → CallsDomain node (test_of (place_of_id domain.old.ids id)) domain.old domain.new journal.old.lines journal.new.lines made) }
{
    journal.reserve(CALL_ENTRIES, CALL_BYTES)?;
    let tested = domain.test(journal, id, out);
    if let Ok(Done::Packet(packet)) = tested {
        return Ok(Made {
            answer: of_tested_packet(None, copy_packet(domain, packet, out), out),
            given: None,
            lent: Some(packet),
        });
    }
    Ok(Made {
        answer: of_test(tested, out),
        given: None,
        lent: None,
    })
}

/// Ends a request that is pending.
pub fn cancel(
    domain: &mut Domain<StationSend<'_>, StationRecv<'_>>,
    journal: &mut Journal,
    id: RequestId,
) -> Result<Made<'static>, NoMemory>
    ensures { IfOk result (λ made. (node : ℕ) → CallsDomain node (cancel_of (place_of_id domain.old.ids id)) domain.old domain.new journal.old.lines journal.new.lines made) }
{
    journal.reserve(CALL_ENTRIES, CALL_BYTES)?;
    let answer = of_unit(domain.cancel(journal, id));
    Ok(Made {
        answer,
        given: None,
        lent: None,
    })
}

//! Calls that make and end endpoints, send and receive messages, put frames as they are, and make turns alone.

ghost use Rattle.std.specs.Prelude.{◌<◌, ◌≤◌, ◌^◌, ℕ, IfOk, length};
ghost use Rattle.mc_base.specs.Limits.{asked_limit};
ghost use Rattle.board_model.specs.DomainCall.{create_at, delete_at, send_from, receive_at, available_at, raw_to, turn_alone};
ghost use Rattle.board_model.specs.Tallies.{number_told};
ghost use Rattle.mc_journal.specs.Entry.{plain_answer};
ghost use Rattle.board_runner.specs.Lines.{CallsDomain};

use super::Made;
use crate::answers::{of_number, of_receive, of_unit};
use domain_core::{Answer, CALL_BYTES, CALL_ENTRIES, Domain, Journal};
use mc_base::{EndName, Local, NoMemory, Priority};
use station_ends::{StationRecv, StationSend};

/// Makes an endpoint.
pub fn create(
    domain: &mut Domain<StationSend<'_>, StationRecv<'_>>,
    journal: &mut Journal,
    at: Local,
) -> Result<Made<'static>, NoMemory>
    ensures { IfOk result (λ made. CallsDomain at.node (create_at at.port) domain.old domain.new journal.old.lines journal.new.lines made) }
{
    journal.reserve(CALL_ENTRIES, CALL_BYTES)?;
    let answer = of_number(domain.create(journal, at));
    Ok(Made {
        answer,
        given: None,
        lent: None,
    })
}

/// Ends an endpoint.
pub fn delete(
    domain: &mut Domain<StationSend<'_>, StationRecv<'_>>,
    journal: &mut Journal,
    at: Local,
) -> Result<Made<'static>, NoMemory>
    ensures call { IfOk result (λ made. CallsDomain at.node (delete_at at.port) domain.old domain.new journal.old.lines journal.new.lines made) }
    ensures drops { IfOk result (λ made. number_told (plain_answer made.answer) < 2 ^ 32) }
{
    journal.reserve(CALL_ENTRIES, CALL_BYTES)?;
    let answer = of_number(domain.delete(journal, at));
    Ok(Made {
        answer,
        given: None,
        lent: None,
    })
}

/// Sends a message.
pub fn send(
    domain: &mut Domain<StationSend<'_>, StationRecv<'_>>,
    journal: &mut Journal,
    from: Local,
    to: EndName,
    priority: Priority,
    bytes: &[u8],
) -> Result<Made<'static>, NoMemory>
    ensures { IfOk result (λ made. CallsDomain from.node (send_from from.port to priority bytes.now) domain.old domain.new journal.old.lines journal.new.lines made) }
{
    journal.reserve(CALL_ENTRIES, CALL_BYTES)?;
    let answer = of_unit(domain.msg_send(journal, from, to, priority, bytes));
    Ok(Made {
        answer,
        given: None,
        lent: None,
    })
}

/// Receives a message into `out`, which has at most 9,000 bytes.
pub fn receive<'r>(
    domain: &mut Domain<StationSend<'_>, StationRecv<'_>>,
    journal: &mut Journal,
    at: Local,
    out: &'r mut [u8],
) -> Result<Made<'r>, NoMemory>
    requires { length out.old ≤ asked_limit }
    ensures { IfOk result (λ made. CallsDomain at.node (receive_at at.port (length out.old)) domain.old domain.new journal.old.lines journal.new.lines made) }
{
    journal.reserve(CALL_ENTRIES, CALL_BYTES)?;
    let received = domain.msg_recv(journal, at, out);
    Ok(Made {
        answer: of_receive(received, out),
        given: None,
        lent: None,
    })
}

/// Counts the messages that are queued.
pub fn available(
    domain: &mut Domain<StationSend<'_>, StationRecv<'_>>,
    journal: &mut Journal,
    at: Local,
) -> Result<Made<'static>, NoMemory>
    ensures { IfOk result (λ made. CallsDomain at.node (available_at at.port) domain.old domain.new journal.old.lines journal.new.lines made) }
{
    journal.reserve(CALL_ENTRIES, CALL_BYTES)?;
    let answer = of_number(domain.msg_available(journal, at));
    Ok(Made {
        answer,
        given: None,
        lent: None,
    })
}

/// Puts a frame to a domain as it is.
pub fn put_raw(
    domain: &mut Domain<StationSend<'_>, StationRecv<'_>>,
    journal: &mut Journal,
    peer: u8,
    frame: &[u8],
) -> Result<Made<'static>, NoMemory>
    requires some { 1 ≤ length frame.now }
    requires fits { length frame.now ≤ 512 }
    ensures { IfOk result (λ made. (node : ℕ) → CallsDomain node (raw_to peer frame.now) domain.old domain.new journal.old.lines journal.new.lines made) }
{
    journal.reserve(CALL_ENTRIES, CALL_BYTES)?;
    let answer = of_unit(domain.raw_put(journal, peer, frame));
    Ok(Made {
        answer,
        given: None,
        lent: None,
    })
}

/// Makes a turn alone.
pub fn turn(
    domain: &mut Domain<StationSend<'_>, StationRecv<'_>>,
    journal: &mut Journal,
) -> Result<Made<'static>, NoMemory>
    ensures { IfOk result (λ made. (node : ℕ) → CallsDomain node turn_alone domain.old domain.new journal.old.lines journal.new.lines made) }
{
    journal.reserve(CALL_ENTRIES, CALL_BYTES)?;
    domain.turn(journal);
    Ok(Made {
        answer: Answer::Ok,
        given: None,
        lent: None,
    })
}

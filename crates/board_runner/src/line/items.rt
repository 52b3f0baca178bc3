//! Calls that send and receive items on channels, and that release packets.

ghost use Rattle.std.specs.Prelude.{◌≡◌, ◌<◌, ◌*◌, ◌^◌, ℕ, IfOk, length};
ghost use Rattle.mc_base.specs.Letter.{bytes_of_bits};
ghost use Rattle.mc_base.specs.Limits.{asked_limit};
ghost use Rattle.board_model.specs.DomainCall.{lend_at, packet_from, packet_request_at, release_of, scalar_at, scalar_from};
ghost use Rattle.domain_core.specs.DomainView.{place_of_packet_id};
ghost use Rattle.board_runner.specs.Lines.{CallsDomain};

use super::Made;
use crate::answers::{of_packet, of_request, of_scalar, of_unit};
use crate::packets::copy_packet;
use domain_core::{Answer, CALL_BYTES, CALL_ENTRIES, Domain, Journal};
use mc_base::{Bits, Local, NoMemory, PacketId};
use station_ends::{StationRecv, StationSend};

/// Sends a packet.
pub fn send_packet(
    domain: &mut Domain<StationSend<'_>, StationRecv<'_>>,
    journal: &mut Journal,
    at: Local,
    bytes: &[u8],
) -> Result<Made<'static>, NoMemory>
    ensures { IfOk result (λ made. CallsDomain at.node (packet_from at.port bytes.now) domain.old domain.new journal.old.lines journal.new.lines made) }
{
    journal.reserve(CALL_ENTRIES, CALL_BYTES)?;
    let answer = of_unit(domain.pkt_send(journal, at, bytes));
    Ok(Made {
        answer,
        given: None,
        lent: None,
    })
}

/// Receives a packet, which is lent. Its bytes go to `out`, which has 9,000 bytes.
pub fn receive_packet<'r>(
    domain: &mut Domain<StationSend<'_>, StationRecv<'_>>,
    journal: &mut Journal,
    at: Local,
    out: &'r mut [u8],
) -> Result<Made<'r>, NoMemory>
    requires { length out.old ≡ asked_limit }
    ensures { IfOk result (λ made. CallsDomain at.node (lend_at at.port) domain.old domain.new journal.old.lines journal.new.lines made) }
{
    journal.reserve(CALL_ENTRIES, CALL_BYTES)?;
    match domain.pkt_recv(journal, at) {
        Ok(packet) => Ok(Made {
            answer: of_packet(copy_packet(domain, packet, out), out),
            given: None,
            lent: Some(packet),
        }),
        Err(word) => Ok(Made {
            answer: Answer::Refused(word),
            given: None,
            lent: None,
        }),
    }
}

/// Requests a packet. A call that is refused gives no request.
pub fn request_packet(
    domain: &mut Domain<StationSend<'_>, StationRecv<'_>>,
    journal: &mut Journal,
    at: Local,
) -> Result<Made<'static>, NoMemory>
    ensures { IfOk result (λ made. CallsDomain at.node (packet_request_at at.port) domain.old domain.new journal.old.lines journal.new.lines made) }
{
    journal.reserve(CALL_ENTRIES, CALL_BYTES)?;
    let requested = domain.pkt_recv_i(journal, at);
    Ok(Made {
        answer: of_request(requested),
        given: requested.ok(),
        lent: None,
    })
}

/// Releases a packet that is lent.
pub fn release(
    domain: &mut Domain<StationSend<'_>, StationRecv<'_>>,
    journal: &mut Journal,
    packet: PacketId,
) -> Result<Made<'static>, NoMemory>
    ensures { IfOk result (λ made. (node : ℕ) → CallsDomain node (release_of (place_of_packet_id domain.old.packets packet)) domain.old domain.new journal.old.lines journal.new.lines made) }
{
    journal.reserve(CALL_ENTRIES, CALL_BYTES)?;
    let answer = of_unit(domain.release(journal, packet));
    Ok(Made {
        answer,
        given: None,
        lent: None,
    })
}

/// Sends a number, which fits its bits.
pub fn send_scalar(
    domain: &mut Domain<StationSend<'_>, StationRecv<'_>>,
    journal: &mut Journal,
    at: Local,
    bits: Bits,
    value: u64,
) -> Result<Made<'static>, NoMemory>
    requires { value < 2 ^ (8 * bytes_of_bits bits) }
    ensures { IfOk result (λ made. CallsDomain at.node (scalar_from at.port bits value) domain.old domain.new journal.old.lines journal.new.lines made) }
{
    journal.reserve(CALL_ENTRIES, CALL_BYTES)?;
    let answer = of_unit(domain.scl_send(journal, at, bits, value));
    Ok(Made {
        answer,
        given: None,
        lent: None,
    })
}

/// Receives a number of so many bits.
pub fn receive_scalar(
    domain: &mut Domain<StationSend<'_>, StationRecv<'_>>,
    journal: &mut Journal,
    at: Local,
    bits: Bits,
) -> Result<Made<'static>, NoMemory>
    ensures { IfOk result (λ made. CallsDomain at.node (scalar_at at.port bits) domain.old domain.new journal.old.lines journal.new.lines made) }
{
    journal.reserve(CALL_ENTRIES, CALL_BYTES)?;
    let answer = of_scalar(domain.scl_recv(journal, at, bits));
    Ok(Made {
        answer,
        given: None,
        lent: None,
    })
}

//! The bytes of packets that are lent.

ghost use Rattle.std.specs.Prelude.{◌≡◌, ◌≤◌, ◌+◌, ◌++◌, ◌↔◌, IfErr, IfOk, IsErr, IsNone, None, Some, length, option_map, take};
ghost use Rattle.mc_base.specs.Limits.{asked_limit};
ghost use Rattle.mc_base.specs.declared.refusal.Refusal.TheVariants.{BufInvalid};
ghost use Rattle.domain_core.specs.DomainView.{packet_lent_as};

use domain_core::Domain;
use mc_base::{PacketId, Refusal};
use station_ends::{StationRecv, StationSend};

/// Copies the bytes of a lent packet to the front of `out`, which has 9,000 bytes, one piece after the other. Returns how many they are.
///
/// # Errors
///
/// `BufInvalid` exactly where no lent packet has the id.
pub fn copy_packet(
    domain: &Domain<StationSend<'_>, StationRecv<'_>>,
    packet: PacketId,
    out: &mut [u8],
) -> Result<u32, Refusal>
    requires { length out.old ≡ asked_limit }
    ensures bytes { IfOk result (λ size. Some (take size out.new) ≡ option_map (λ p. p.item.content) (packet_lent_as domain.now packet)) }
    ensures within { IfOk result (λ size. size ≤ length out.new) }
    ensures refused { IsErr result ↔ IsNone (packet_lent_as domain.now packet) }
    ensures word { IfErr result (λ word. word ≡ BufInvalid) }
{
    let pieces = domain.pkt_pieces(packet)?;
    let mut size = 0;
    for n in 0..pieces {
        size = append(out, size, domain.pkt_piece(packet, n)?);
    }
    Ok(size)
}

/// Copies bytes into `out` behind its first `size` bytes. Returns the size with them.
fn append(out: &mut [u8], size: u32, bytes: &[u8]) -> u32
    requires fits { size + length bytes.now ≤ length out.old }
    requires room { length out.old ≤ asked_limit }
    ensures size { result ≡ size + length bytes.now }
    ensures bytes { take result out.new ≡ take size out.old ++ bytes.now }
{
    let end = size as usize + bytes.len();
    out[size as usize..end].copy_from_slice(bytes);
    end as u32
}

ghost use Rattle.std.specs.Prelude.{◌≡◌, ℕ, Bool, List, IfOk, IsOkAnd, MatchResult, None, Some};
ghost use Rattle.mc_base.specs.Announcement.{IsNs, announcement_faults};
ghost use Rattle.mc_base.specs.FaultRow.{first_fault};

use crate::name::{before_nul, is_legal, owned};
use byteorder::{ByteOrder, LittleEndian};
use mc_base::{NAME_SIZE, NS_SIZE, Ns, NsFault};

/// Reads the announcement in the payload of a frame to the name service. The name is the bytes before the first NUL among
/// the first 31, or all 31; any bytes may follow it in its field.
///
/// # Errors
///
/// The first of these: `NsSize` for a payload that has not 40 bytes, `NsFlags` for flags that are neither 0 nor 1, `NsName`
/// for a name that is empty or has a byte outside 0x20 to 0x7e.
pub fn read_ns(payload: &[u8]) -> Result<Ns, NsFault>
    // What is read is an announcement of these values.
    ensures sound { IfOk result (λ ns. IsNs payload.now ns.name.items ns.addr ns.create) }
    // Each announcement is read, with its values.
    ensures complete { (name : List ℕ) (addr : ℕ) (create : Bool) → IsNs payload.now name addr create
        → IsOkAnd result (λ ns. (ns.name.items ≡ name) × (ns.addr ≡ addr) × (ns.create ≡ create)) }
    // The fault is the first of the table, and there is none where an announcement is read.
    ensures fault { MatchResult result
        (λ ns. first_fault (announcement_faults payload.now) ≡ None)
        (λ e. first_fault (announcement_faults payload.now) ≡ Some e) }
{
    if payload.len() != NS_SIZE {
        return Err(NsFault::NsSize);
    }
    let flags = LittleEndian::read_u32(&payload[36..]);
    if flags > 1 {
        return Err(NsFault::NsFlags);
    }
    let (field, _) = payload.split_at(NAME_SIZE);
    let name = before_nul(field);
    if !is_legal(name) {
        return Err(NsFault::NsName);
    }
    Ok(Ns {
        name: owned(name),
        addr: LittleEndian::read_u32(&payload[32..]),
        create: flags == 0,
    })
}

ghost use Rattle.std.specs.Prelude.{◌≡◌, ◌≤◌, ◌-◌, ◌++◌, IsTrue, length, drop, replicate};
ghost use Rattle.mc_base.specs.Announcement.{announcement, flags_of, is_name};
ghost use Rattle.byteorder.specs.Endian.{little_bytes};

use byteorder::{ByteOrder, LittleEndian};
use mc_base::Ns;

/// How many bytes the name's field has: one more than the longest name, since a NUL follows it.
const NAME_FIELD: usize = 32;

/// Writes the 40 bytes of an announcement. The rest of `out` stays.
pub fn write_ns(ns: &Ns, out: &mut [u8])
    requires lawful { IsTrue (is_name ns.now.name.items) }
    requires room { 40 ≤ length out.old }
    ensures { out.new ≡ announcement ns.now.name.items ns.now.addr ns.now.create ++ drop 40 out.old }
{
    write_name(ns.name.as_slice(), out);
    write_numbers(ns.addr, ns.create, &mut out[NAME_FIELD..]);
}

/// Writes a name, and NUL behind it in all that is left of its field.
fn write_name(name: &[u8], out: &mut [u8])
    requires short { length name.now ≤ 31 }
    requires room { 32 ≤ length out.old }
    ensures { out.new ≡ name.now ++ (replicate (32 - length name.now) 0 ++ drop 32 out.old) }
{
    out[..NAME_FIELD].fill(0);
    out[..name.len()].copy_from_slice(name);
}

/// Writes the address and the flags.
fn write_numbers(addr: u32, create: bool, out: &mut [u8])
    requires { 8 ≤ length out.old }
    ensures { out.new ≡ little_bytes 4 addr ++ (little_bytes 4 (flags_of create) ++ drop 8 out.old) }
{
    let flags = if create { 0 } else { 1 };
    LittleEndian::write_u32(out, addr);
    LittleEndian::write_u32(&mut out[4..], flags);
}

//! The name of an endpoint as all domains have it.

ghost use Rattle.std.specs.Prelude.{◌≡◌, ◌≤◌, ◌+◌, ◌++◌, IsTrue, decimal, length};
ghost use Rattle.arrayvec.specs.ArrayVec.{array_vec_len};
ghost use Rattle.mc_base.specs.Announcement.{is_name};
ghost use Rattle.endpoint_table.specs.Table.{name_of};

use arrayvec::ArrayVec;
use itoa::Buffer;
use mc_base::{Local, NAME_SIZE};

/// The name `mcapi:D:N:P` of an endpoint of this domain.
pub fn name_of(domain: u8, local: Local) -> ArrayVec<u8, NAME_SIZE>
    ensures bytes { result.items ≡ name_of domain local }
    ensures lawful { IsTrue (is_name result.items) }
{
    let mut name = ArrayVec::new();
    let _room = name.try_extend_from_slice(b"mcapi:");
    push_number(&mut name, domain as u16);
    name.push(b':');
    push_number(&mut name, local.node as u16);
    name.push(b':');
    push_number(&mut name, local.port);
    name
}

/// Appends a number in decimal.
fn push_number(name: &mut ArrayVec<u8, NAME_SIZE>, n: u16)
    requires { array_vec_len name.old + length (decimal n) ≤ 31 }
    ensures bytes { name.new.items ≡ name.old.items ++ decimal n }
    ensures len { array_vec_len name.new ≡ array_vec_len name.old + length (decimal n) }
{
    let mut digits = Buffer::new();
    let _room = name.try_extend_from_slice(digits.format(n).as_bytes());
}

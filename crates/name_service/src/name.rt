ghost use Rattle.std.specs.Prelude.{◌≡◌, ◌≤◌, ◌==◌, length, not, take_while};
ghost use Rattle.mc_base.specs.Announcement.{is_name, is_printable as is_printable_byte};

use arrayvec::ArrayVec;
use mc_base::NAME_SIZE;

/// Whether these bytes may be announced as a name: there are some, and all are from 0x20 to 0x7e.
pub fn is_legal(name: &[u8]) -> bool
    ensures { result ≡ is_name name.now }
{
    !name.is_empty() && name.iter().all(|b| is_printable(*b))
}

fn is_printable(b: u8) -> bool
    ensures { result ≡ is_printable_byte b }
{
    matches!(b, 0x20..=0x7e)
}

/// The bytes before the first NUL, or all of them.
pub(crate) fn before_nul(bytes: &[u8]) -> &[u8]
    ensures { result.now ≡ take_while (λ b. not (b == 0)) bytes.now }
{
    for (i, b) in bytes.iter().enumerate() {
        if *b == 0 {
            let (front, _) = bytes.split_at(i);
            return front;
        }
    }
    bytes
}

/// A copy of a name's bytes.
pub(crate) fn owned(name: &[u8]) -> ArrayVec<u8, NAME_SIZE>
    requires { length name.now ≤ 31 }
    ensures { result.items ≡ name.now }
{
    let mut copy = ArrayVec::new();
    let _fits = copy.try_extend_from_slice(name);
    copy
}

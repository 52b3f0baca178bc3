//! Messages and packets that come in parts: an item is counted at its last part.

ghost use Rattle.std.specs.Prelude.{◌≡◌, ◌+◌, ◌==◌, length};

/// Whether these bytes, of which so many come before, are the last of all.
pub fn is_last(total: u16, offset: u16, bytes: &[u8]) -> bool
    ensures { result ≡ (offset + length bytes.now == total) }
{
    usize::from(offset) + bytes.len() == usize::from(total)
}

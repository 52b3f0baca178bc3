//! The fields of a split virtqueue and their words.
ghost use Rattle.std.specs.Prelude.{◌≡◌, ◌<◌};
ghost use Rattle.shared_words.specs.Layout.{word, word_count, HasPlace};

/// A field of a split virtqueue: of the descriptor table, of the available ring or of the used ring.
#[derive(Clone, Copy, Debug, PartialEq, Eq)]
pub enum Field {
    /// The address of a descriptor's buffer.
    DescAddr(u16),
    /// The length of a descriptor's buffer.
    DescLen(u16),
    DescFlags(u16),
    DescNext(u16),
    AvailFlags,
    /// How many buffers were offered, modulo 65536.
    AvailIdx,
    /// The number of the buffer that is offered at a place.
    AvailRing(u16),
    UsedFlags,
    /// How many buffers were returned, modulo 65536.
    UsedIdx,
    /// The number of the buffer that is returned at a place.
    UsedId(u16),
    /// The length that is returned at a place.
    UsedLen(u16),
}

/// The word of a field in the table of a queue of this size. Its descriptor or place is below the size.
pub const fn word_of(size: u32, field: Field) -> usize
    requires { HasPlace size field }
    ensures word { result ≡ word size field }
    ensures within { result < word_count size }
{
    let size = size as usize;
    match field {
        Field::DescAddr(i) => 4 * i as usize,
        Field::DescLen(i) => 4 * i as usize + 1,
        Field::DescFlags(i) => 4 * i as usize + 2,
        Field::DescNext(i) => 4 * i as usize + 3,
        Field::AvailFlags => 4 * size,
        Field::AvailIdx => 4 * size + 1,
        Field::AvailRing(p) => 4 * size + 2 + p as usize,
        Field::UsedFlags => 5 * size + 2,
        Field::UsedIdx => 5 * size + 3,
        Field::UsedId(p) => 5 * size + 4 + 2 * p as usize,
        Field::UsedLen(p) => 5 * size + 5 + 2 * p as usize,
    }
}

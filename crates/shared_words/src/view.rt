//! What the halves of a ring know. No value of these types but `Role` is made: contracts and proofs alone speak of them.
use mc_base::Buffer;
use std::collections::LinkedList;

/// Which half of a ring. The driver offers buffers, and the device returns them.
#[derive(Clone, Copy)]
pub enum Role {
    Driver,
    Device,
}

impl Role {
    ghost use Rattle.std.specs.Prelude.{◌≡◌};
    ghost use Rattle.shared_words.specs.Way.{other};

    pub(crate) fn other(self) -> Role
        ensures { result ≡ other self }
    {
        match self {
            Role::Driver => Role::Device,
            Role::Device => Role::Driver,
        }
    }
}

/// What a half has begun and not ended. At most one thing is.
pub enum Staged {
    Idle,
    /// The length of this number is stored, and the number is not.
    LengthStored(u64, u64),
    /// This number is stored, and its length is not.
    NumberStored(u64),
    /// This number and its length are stored, and the index is not.
    BothStored(u64, u64),
    /// This number was read, and its length was not.
    NumberRead(u64),
}

/// The view of one half. An entry is a buffer with a length.
pub struct HalfView {
    /// What this half offered or returned.
    pub written: LinkedList<(Buffer, u64)>,
    /// What this half fetched or reclaimed.
    pub taken: LinkedList<(Buffer, u64)>,
    /// How many entries of the other half were shown.
    pub shown: u64,
    /// What each look showed.
    pub looks: LinkedList<u64>,
    pub staged: Staged,
    /// How many steps this half made: the loads and stores of its calls. Notes, and the parting and joining of views, are
    /// none of them.
    pub steps: u64,
    /// How many bytes each buffer of the ring has.
    pub width: u64,
}

/// The view of a seat of the ring's table.
pub enum View {
    /// Before the ring begins. It has the number of bytes of each buffer.
    Opening(u64),
    /// The views of the driver and of the device.
    Whole(HalfView, HalfView),
    /// The view of one half.
    Live(Role, HalfView),
    /// A copy of a half's view at some moment.
    Note(Role, HalfView),
    /// The view of one half, into which a note of the other half was just taken.
    Told(Role, HalfView, HalfView),
    Spent,
}

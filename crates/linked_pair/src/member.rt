/// Which of the two domains of a pair.
#[derive(Clone, Copy, Debug, PartialEq, Eq)]
pub enum Which {
    One,
    Two,
}

/// How a domain is opened.
#[derive(Clone, Copy, Debug, PartialEq, Eq)]
pub struct Member {
    /// The domain's number, 0 to 7.
    pub number: u8,
    /// How many nodes it has, 1 to 16. They are numbered from 0.
    pub nodes: u8,
    /// How many buffers of 512 bytes it has for messages inside it, 1 to 256.
    pub pool: u32,
}

//! The roles of the domains of a relay.

use board_model::Seq;

/// What a domain of a relay is, and from what its actor is made.
#[derive(Drop)]
pub enum Role {
    /// The first domain, 0, which sends these packets.
    First { packets: Seq<Seq<u8>> },
    /// A domain between, which sends on what it receives, at most so many packets.
    Middle { domain: u8, most: u32 },
    /// The last domain, which receives at most so many packets.
    Last { domain: u8, most: u32 },
}

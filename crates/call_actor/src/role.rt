//! What actors of numbered calls are made from.

use board_model::Seq;

/// What an actor of numbered calls is, and from what it was made.
#[derive(Drop)]
pub enum CallRole {
    /// A client of this domain, which sends each request so often, with the cell and the amount of each of its calls.
    Client {
        domain: u8,
        repeat: u8,
        calls: Seq<(u8, u64)>,
    },
    /// The server of so many clients, which send each request so often and have so many calls together.
    Server {
        clients: u8,
        repeat: u8,
        calls: u32,
    },
}

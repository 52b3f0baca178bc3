/// A call of one of the clients: what it adds to which cell.
#[derive(Clone, Copy, Debug, PartialEq, Eq)]
pub struct NumberedCall {
    /// The domain of the client, from 1 to the number of clients.
    pub client: u8,
    /// The cell, 0 to 15.
    pub cell: u8,
    pub amount: u64,
}

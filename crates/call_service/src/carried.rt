/// A call that was carried out.
#[derive(Clone, Copy, Debug, PartialEq, Eq)]
pub struct Carried {
    /// The client's domain, 1 to 7.
    pub client: u8,
    /// The client's number for the call, from 1 on.
    pub number: u32,
    /// The cell, 0 to 15.
    pub cell: u8,
    pub amount: u64,
    /// Whether the sum was over the greatest `u64`. Such a call added nothing.
    pub over: bool,
    /// The cell's value after the call.
    pub value: u64,
}

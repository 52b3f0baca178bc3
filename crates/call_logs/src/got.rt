/// What a client got of a call whose replies came.
#[derive(Clone, Copy, Debug, PartialEq, Eq)]
pub struct Got {
    /// The number of the call, from 1 on.
    pub number: u32,
    /// The status of its reply: 0 where the call was carried out, 1 where its sum was over the greatest `u64` too.
    pub status: u8,
    /// The value of the cell after the call.
    pub value: u64,
}

/// How many messages or items were accepted, taken and dropped, and how many are queued or in the ring.
#[derive(Clone, Copy, Debug, PartialEq, Eq)]
pub struct Totals {
    pub accepted: u64,
    pub taken: u64,
    pub dropped: u64,
    pub queued: u64,
    pub ring: u64,
}

/// The totals of the items of a channel, named by its sender's domain and by the number that this domain gave the channel.
#[derive(Clone, Copy, Debug, PartialEq, Eq)]
pub struct ChannelTotals {
    pub owner: u8,
    pub number: u32,
    pub totals: Totals,
}

/// Where the buffers of the lane from one domain to another are. The four numbers add up to the lane's size.
#[derive(Clone, Copy, Debug, PartialEq, Eq)]
pub struct LanePlaces {
    pub from: u8,
    pub to: u8,
    pub free: u32,
    pub ring: u32,
    pub queue: u32,
    pub lent: u32,
}

//! A domain's run in numbers.

use crate::counts::Counts;
use buffer_book::Places;

/// How many messages are queued in a domain, and where it holds the buffers of the lanes from other domains and from itself, by
/// their numbers.
#[derive(Clone, Copy)]
pub struct HeldBuffers {
    pub queued: u32,
    pub places: [Places; 8],
}

/// What the run of a domain comes to: what its journal counts, how many messages its deletes dropped, and what it holds at its
/// end.
#[derive(Clone, Copy)]
pub struct Tally {
    pub counts: Counts,
    pub deleted: u64,
    pub held: HeldBuffers,
}

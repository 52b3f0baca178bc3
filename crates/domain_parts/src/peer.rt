//! The peers of a domain.

use crate::replies::Replies;
use name_service::KnownNames;

/// What a domain keeps for a linked domain, or for itself: its number, the ends towards it, the names that are known from it, and
/// the replies that are owed to it.
#[derive(Debug, Drop)]
pub struct Peer<P> {
    pub number: u8,
    pub ends: P,
    pub known: KnownNames,
    pub replies: Replies,
}

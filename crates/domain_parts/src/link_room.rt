//! Room for the links that a domain gives back.

ghost use Rattle.std.specs.Prelude.{◌≡◌, ◌≤◌, [], vec_capacity};

use crate::link::Link;
use mc_base::{MAX_DOMAINS, NoMemory};
use std::alloc::Global;

/// Room for the links of a domain, so that giving them back takes no memory.
#[derive(Debug, Drop)]
pub struct LinkRoom<S, R> {
    pub links: Vec<Link<S, R>>,
    ghost empty: { links.items ≡ [] },
    ghost room: { 8 ≤ vec_capacity links },
}

impl<S, R> LinkRoom<S, R> {
    pub fn new(alloc: Global) -> Result<LinkRoom<S, R>, NoMemory> {
        let Ok(links) = Vec::with_capacity(alloc, MAX_DOMAINS as usize) else {
            return Err(NoMemory);
        };
        Ok(LinkRoom { links })
    }
}

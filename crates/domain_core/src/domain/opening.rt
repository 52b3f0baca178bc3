//! How a domain is opened, gives its links back, and how its links carry.

ghost use Rattle.std.specs.Prelude.{◌≡◌, ◌≤◌, [], IfOk};
ghost use Rattle.std.specs.List.{AllByRecursion};
ghost use Rattle.mc_base.specs.Limits.{last_domain, node_limit, pool_limit};
ghost use Rattle.board_model.specs.State.{opening};
ghost use Rattle.domain_parts.specs.Carrying.{AreLinked, Carries};
ghost use Rattle.domain_parts.specs.Opening.{IsOpenLink, AreLinksOf, neighbours_opened, ends_opened, links_in};
ghost use Rattle.lane_end.specs.Loop.{new_loop};

use crate::domain::Domain;
use domain_parts::{Holdings, Link, LinkRoom};
use lane_end::{MeetsEnd, RecvEnd, SendEnd};
use mc_base::NoMemory;
use std::alloc::Global;

impl<S: SendEnd + Drop, R: RecvEnd + Drop> Domain<S, R> {
    /// Opens a domain: its number, 0 to 7, its number of nodes, 1 to 16, the number of buffers of 512 bytes for frames between
    /// its own endpoints, 1 to 256, and its links, in rising order of their peers, which are other domains.
    ///
    /// Each link's size is that of both its ends, at most 256; all buffers of its sender are free, and nothing is shown or out at
    /// its receiver. All memory that later calls need is allocated here.
    ///
    /// # Errors
    ///
    /// `NoMemory` where an allocation fails. The links are dropped.
    pub fn open(
        alloc: Global,
        number: u8,
        nodes: u8,
        pool: u32,
        links: Vec<Link<S, R>>,
    ) -> Result<Domain<S, R>, NoMemory>
        requires number { number ≤ last_domain }
        requires some_nodes { 1 ≤ nodes }
        requires nodes { nodes ≤ node_limit }
        requires some_pool { 1 ≤ pool }
        requires pool { pool ≤ pool_limit }
        requires peers { AreLinksOf number links.items }
        requires open { AllByRecursion (IsOpenLink S.size S.free R.size R.shown R.out) links.items }
        ensures state { IfOk result (λ d. d.state ≡ opening number nodes (neighbours_opened number pool links.items)) }
        ensures numbered { IfOk result (λ d. d.numbered ≡ opening number nodes (neighbours_opened number pool links.items)) }
        ensures ends { IfOk result (λ d. d.ends ≡ ends_opened number (new_loop pool) links.items) }
        ensures ids { IfOk result (λ d. d.ids ≡ []) }
        ensures packets { IfOk result (λ d. d.packets ≡ []) }
    {
        Ok(Domain {
            inside: Holdings::open(alloc, number, nodes, pool, links)?,
            room: LinkRoom::new(alloc)?,
        })
    }

    /// Ends the domain and returns its links as they are, in rising order of their peers.
    pub fn into_links(self) -> Vec<Link<S, R>>
        ensures { result.items ≡ links_in self.ends }
    {
        self.inside.into_links(self.room)
    }
}

/// Carries the link between two linked domains in one thread: the ends of both its lanes meet.
///
/// Over plain lanes the frames that each sent come to the other, and the buffers that each gave back come back; the next turns see
/// them. Over rings each end learns all that the other did.
pub fn carry<S: MeetsEnd<R> + Drop, R: RecvEnd + Drop>(
    one: &mut Domain<S, R>,
    two: &mut Domain<S, R>,
)
    requires linked { AreLinked S.May one.old.state.number two.old.state.number one.old.ends two.old.ends }
    ensures carries { Carries S.Met one.old.state.number two.old.state.number one.old.ends two.old.ends one.new.ends two.new.ends }
    ensures one { one.new ≡ record one.old { ends = one.new.ends } }
    ensures two { two.new ≡ record two.old { ends = two.new.ends } }
    ensures linked { AreLinked S.May one.new.state.number two.new.state.number one.new.ends two.new.ends }
{
    domain_parts::carry(&mut one.inside, &mut two.inside);
}

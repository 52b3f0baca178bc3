//! How the inside of a domain begins and ends, and how two are carried.

ghost use Rattle.std.specs.Prelude.{◌≡◌, ◌≤◌, [], IfOk};
ghost use Rattle.std.specs.List.{AllByRecursion};
ghost use Rattle.mc_base.specs.Limits.{last_domain, node_limit, pool_limit};
ghost use Rattle.board_model.specs.State.{opening};
ghost use Rattle.lane_end.specs.Loop.{new_loop};
ghost use Rattle.domain_parts.specs.Carried.{FirstMeet, MayMeet};
ghost use Rattle.domain_parts.specs.Opening.{AreLinksOf, IsOpenLink, ends_opened, links_in, neighbours_opened};
ghost use Rattle.domain_parts.specs.Parts.{shown, state_of};

use crate::carrying::{MeetingEnds, carry_between};
use crate::endpoints::Endpoints;
use crate::ends::Ends;
use crate::holdings::Holdings;
use crate::link::Link;
use crate::link_room::LinkRoom;
use crate::linking::{buffers_in, links_of, numbers_of, peers_of, sizes_of};
use buffer_book::BufferBook;
use endpoint_table::EndpointTable;
use lane_end::{RecvEnd, SendEnd};
use mc_base::NoMemory;
use request_set::RequestSet;
use std::alloc::Global;

impl<S: SendEnd + Drop, R: RecvEnd + Drop> Holdings<Ends<S, R>> {
    /// Makes the inside of a domain with its number, its nodes, the buffers of its own lane, and its links. `NoMemory` is the only
    /// error; the links are dropped then.
    pub fn open(
        alloc: Global,
        number: u8,
        nodes: u8,
        pool: u32,
        links: Vec<Link<S, R>>,
    ) -> Result<Holdings<Ends<S, R>>, NoMemory>
        requires number { number ≤ last_domain }
        requires some_nodes { 1 ≤ nodes }
        requires nodes { nodes ≤ node_limit }
        requires some_pool { 1 ≤ pool }
        requires pool { pool ≤ pool_limit }
        requires peers { AreLinksOf number links.items }
        requires open { AllByRecursion (IsOpenLink S.size S.free R.size R.shown R.out) links.items }
        ensures state { IfOk result (λ h. (shown h).state ≡ opening number nodes (neighbours_opened number pool links.items)) }
        ensures numbered { IfOk result (λ h. (shown h).numbered ≡ opening number nodes (neighbours_opened number pool links.items)) }
        ensures ends { IfOk result (λ h. h.ends ≡ ends_opened number (new_loop pool) links.items) }
        ensures ids { IfOk result (λ h. (shown h).ids ≡ []) }
        ensures packets { IfOk result (λ h. (shown h).packets ≡ []) }
    {
        let linked = numbers_of(alloc, &links)?;
        let sizes = sizes_of(alloc, number, pool, &links)?;
        Ok(Holdings {
            endpoints: Endpoints::open(alloc, number, buffers_in(&sizes))?,
            table: EndpointTable::new(alloc, number, nodes, &linked)?,
            book: BufferBook::new(alloc, &sizes)?,
            peers: peers_of(alloc, number, pool, links)?,
            requests: RequestSet::new(alloc)?,
        })
    }

    /// Its links, in the rising order of their peers, as they are.
    pub fn into_links(self, room: LinkRoom<S, R>) -> Vec<Link<S, R>>
        ensures { result.items ≡ links_in self.ends }
    {
        links_of(room, self.peers)
    }
}

/// Has the ends of two domains towards each other meet, and leaves all else of them.
pub fn carry<P: MeetingEnds>(one: &mut Holdings<P>, two: &mut Holdings<P>)
    requires { MayMeet P.leads P.May (state_of one.old.parts).number (state_of two.old.parts).number one.old.ends two.old.ends }
    ensures met { FirstMeet P.leads P.Met (state_of one.old.parts).number (state_of two.old.parts).number one.old.ends two.old.ends one.new.ends two.new.ends }
    ensures one { one.new ≡ record one.old { ends = one.new.ends } }
    ensures two { two.new ≡ record two.old { ends = two.new.ends } }
{
    let first = one.endpoints.number();
    let second = two.endpoints.number();
    carry_between(&mut one.peers, first, &mut two.peers, second);
}

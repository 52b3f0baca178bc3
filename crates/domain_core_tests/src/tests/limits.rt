//! The most endpoints that a domain ever makes, and links of each size.

ghost use Rattle.std.specs.Prelude.{◌≡◌, [], ◌∷◌, IfOk};
ghost use Rattle.linked_pair.specs.Links.{new_link};

use super::*;
use domain_core::{CALL_BYTES, CALL_ENTRIES};
use lane_end::{PlainRecv, PlainSend};
use linked_pair::{PlainLink, plain_link};

/// Ends of a link whose other ends are nowhere.
fn loose_link(alloc: Global, peer: u8, size: u32) -> Result<PlainLink, Fail>
    ensures link { IfOk result (λ l. l ≡ new_link peer size) }
{
    let (link, _) = plain_link(alloc, 3, peer, size)?;
    Ok(link)
}

/// Links of domain 3, which stands between two of its peers.
fn three_links(alloc: Global) -> Result<Vec<PlainLink>, Fail>
    ensures { IfOk result (λ v. v.items ≡ new_link 0 1 ∷ new_link 2 2 ∷ new_link 5 256 ∷ []) }
{
    let mut links = Vec::new(alloc);
    links.push(loose_link(alloc, 0, 1)?)?;
    links.push(loose_link(alloc, 2, 2)?)?;
    links.push(loose_link(alloc, 5, 256)?)?;
    Ok(links)
}

/// Domain 3 with these links.
fn between(alloc: Global) -> Result<Domain<PlainSend, PlainRecv>, Fail> {
    let links = three_links(alloc)?;
    let domain = Domain::open(alloc, 3, 1, 256, links)?;
    Ok(domain)
}

/// The peer of a link, its size, and how many buffers are free at its sender.
type Row = (u8, u32, u32);

/// The creation of the endpoint was put to each.
const AFTER_A_CREATION: [Row; 3] = [(0, 1, 0), (2, 2, 1), (5, 256, 255)];

fn row_of(link: &PlainLink) -> Row {
    (link.peer, link.size, link.send.free_len())
}

fn assert_links(rt: &impl Abort, links: &[PlainLink], rows: &[Row]) {
    assert!(rt; links.len() == rows.len());
    for (link, row) in links.iter().zip(rows) {
        assert!(rt; row_of(link) == *row);
    }
}

/// Asserts that there are lanes to these domains, and to no other.
fn assert_peers(rt: &impl Abort, domain: &Domain<PlainSend, PlainRecv>, peers: &[u8]) {
    for number in 0..8u8 {
        let linked = peers.contains(&number);
        assert!(rt; domain.places(number).is_some() == linked, "{number}");
        assert!(rt; domain.has_peer(number) == linked, "{number}");
    }
}

/// Makes an endpoint and a turn, and asserts that they go well.
fn assert_created(
    rt: &impl Abort,
    domain: &mut Domain<PlainSend, PlainRecv>,
    journal: &mut Journal,
) -> Result<(), Fail> {
    assert!(rt; answers(domain, journal, (Create(0, 1), Ok(1024)))?);
    journal.reserve(176, 90_112)?;
    assert!(rt; !domain.turn(journal));
    Ok(())
}

#[test]
fn links_of_each_size_are_opened_and_given_back(rt: HostRuntime) -> Result<(), Fail> {
    let mut journal = Journal::new(rt.alloc())?;
    let domain = checked(between(rt.alloc()), |domain| {
        assert_peers(&rt, domain, &[0, 2, 3, 5]);
        assert_created(&rt, domain, &mut journal)
    })?;
    assert_links(&rt, &domain.into_links(), &AFTER_A_CREATION);
    Ok(())
}

/// Whether an endpoint is made, with this address, and deleted.
fn comes_and_goes(lone: &mut Lone, address: u32) -> Result<bool, NoMemory> {
    let at = Local { node: 0, port: 1 };
    // Neither call uses more than its part of the room.
    lone.journal.reserve(2 * CALL_ENTRIES, 2 * CALL_BYTES)?;
    Ok(
        lone.domain.create(&mut lone.journal, at) == Ok(address)
            && lone.domain.delete(&mut lone.journal, at) == Ok(0),
    )
}

/// Makes 60,000 endpoints, and asserts that there is no address for another.
fn assert_all_spent(rt: &impl Abort, lone: &mut Lone) -> Result<(), Fail> {
    for i in 0..60_000 {
        assert!(rt; comes_and_goes(lone, 1024 + i)?, "{i}");
    }
    assert_calls(
        rt,
        lone,
        "none is left",
        &[(Create(0, 1), Err(Refusal::AddressSpent))],
    )
}

#[test]
fn sixty_thousand_endpoints_one_after_the_other(rt: HostRuntime) -> Result<(), Fail> {
    assert_of(Lone::open(rt.alloc(), 1, 1), |lone| {
        assert_all_spent(&rt, lone)
    })
}

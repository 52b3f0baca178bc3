//! The board of a relay.

ghost use Rattle.std.specs.Prelude.{◌≡◌, ◌≤◌, ◌<◌, [], IfOk, map, true};
ghost use Rattle.board_model.specs.Language.{IsLawfulBoard};
ghost use Rattle.board_model.specs.LineReasons.{is_link_size};
ghost use Rattle.hop_relay.specs.RelayBoard.{
  IsRelayBoard,
  numbers_below,
  relay_domain as line_of_domain,
  relay_link as line_of_link,
};

use board_model::{DomainLine, LinkLine, Scenario, Seq};
use board_numbers::append;
use mc_base::NoMemory;
use std::alloc::Global;

/// Makes the board of a relay over so many hops, from 1 to 7 (docs/PROFILE.md, "Relays"): domains from 0 to `hops`, each of one node and a
/// pool of two buffers, and a link from each to the next, with rings of `size` buffers, a power of two from 2 to 256. It has no call line.
///
/// # Errors
///
/// `NoMemory` where an allocation fails.
pub fn relay_board(alloc: Global, hops: u8, size: u32) -> Result<Scenario, NoMemory>
    requires some { 1 ≤ hops }
    requires hops { hops ≤ 7 }
    requires size { is_link_size size ≡ true }
    ensures board { IfOk result (λ s. IsRelayBoard hops size s) }
    ensures bare { IfOk result (λ s. s.calls ≡ []) }
    ensures lawful { IfOk result IsLawfulBoard }
{
    let domains = relay_domains(alloc, hops + 1)?;
    let links = relay_links(alloc, hops, size)?;
    Ok(Scenario {
        domains: Seq::new(domains),
        links: Seq::new(links),
        calls: Seq::new(Vec::new(alloc)),
    })
}

/// So many domains, from 0 on.
fn relay_domains(alloc: Global, count: u8) -> Result<Vec<DomainLine>, NoMemory>
    ensures { IfOk result (λ v. v.items ≡ map line_of_domain (numbers_below count)) }
{
    let mut domains = Vec::new(alloc);
    for domain in 0..count {
        append(&mut domains, relay_domain(domain))?;
    }
    Ok(domains)
}

fn relay_domain(domain: u8) -> DomainLine
    ensures { result ≡ line_of_domain domain }
{
    DomainLine {
        domain,
        nodes: 1,
        pool: 2,
    }
}

/// The link of each hop.
fn relay_links(alloc: Global, hops: u8, size: u32) -> Result<Vec<LinkLine>, NoMemory>
    ensures { IfOk result (λ v. v.items ≡ map (line_of_link size) (numbers_below hops)) }
{
    let mut links = Vec::new(alloc);
    for driver in 0..hops {
        append(&mut links, relay_link(driver, size))?;
    }
    Ok(links)
}

/// The link from a domain to the next.
fn relay_link(driver: u8, size: u32) -> LinkLine
    requires { driver < 255 }
    ensures { result ≡ line_of_link size driver }
{
    LinkLine {
        driver,
        device: driver + 1,
        size,
    }
}

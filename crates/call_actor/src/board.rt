//! The board of numbered calls.

ghost use Rattle.std.specs.Prelude.{◌≡◌, ◌≤◌, ◌+◌, [], IfOk, map, true};
ghost use Rattle.board_model.specs.Language.{IsLawfulBoard};
ghost use Rattle.board_model.specs.LineReasons.{is_link_size};
ghost use Rattle.call_service.specs.Served.{rising};
ghost use Rattle.call_actor.specs.CallsBoards.{IsCallsBoard, call_domain as line_of_domain, call_link as line_of_link};

use board_model::{DomainLine, LinkLine, Scenario, Seq};
use board_numbers::append;
use mc_base::NoMemory;
use std::alloc::Global;

/// Makes the board of numbered calls of so many clients, at most 7: the server and the clients, domains of one node and a pool of two
/// buffers, and a link from the server to each client, with rings of `size` buffers, a power of two from 2 to 256. It has no call line.
///
/// # Errors
///
/// `NoMemory` where an allocation fails.
pub fn calls_board(alloc: Global, clients: u8, size: u32) -> Result<Scenario, NoMemory>
    requires clients { clients ≤ 7 }
    requires size { is_link_size size ≡ true }
    ensures board { IfOk result (λ s. IsCallsBoard clients size s) }
    ensures bare { IfOk result (λ s. s.calls ≡ []) }
    ensures lawful { IfOk result IsLawfulBoard }
{
    let domains = call_domains(alloc, clients + 1)?;
    let links = call_links(alloc, clients, size)?;
    Ok(Scenario {
        domains: Seq::new(domains),
        links: Seq::new(links),
        calls: Seq::new(Vec::new(alloc)),
    })
}

/// So many domains, from 0 on.
fn call_domains(alloc: Global, count: u8) -> Result<Vec<DomainLine>, NoMemory>
    ensures { IfOk result (λ v. v.items ≡ map line_of_domain (rising 0 count)) }
{
    let mut domains = Vec::new(alloc);
    for domain in 0..count {
        append(&mut domains, call_domain(domain))?;
    }
    Ok(domains)
}

fn call_domain(domain: u8) -> DomainLine
    ensures { result ≡ line_of_domain domain }
{
    DomainLine {
        domain,
        nodes: 1,
        pool: 2,
    }
}

/// The link to each client.
fn call_links(alloc: Global, clients: u8, size: u32) -> Result<Vec<LinkLine>, NoMemory>
    ensures { IfOk result (λ v. v.items ≡ map (line_of_link size) (rising 1 clients)) }
{
    let mut links = Vec::new(alloc);
    for before in 0..clients {
        append(&mut links, call_link(before + 1, size))?;
    }
    Ok(links)
}

/// The link from the server to a client.
fn call_link(client: u8, size: u32) -> LinkLine
    ensures { result ≡ line_of_link size client }
{
    LinkLine {
        driver: 0,
        device: client,
        size,
    }
}

//! The lines of a domain before its first packet.

ghost use Rattle.std.specs.Prelude.{◌≡◌, ◌≤◌, ◌++◌, [], IfOk, OnOk};
ghost use Rattle.hop_relay.specs.Roles.{connecting, opening};
ghost use Rattle.hop_relay.specs.declared.role.Role.TheVariants.{First as first_of, Middle as middle_of, Last as last_of};

use crate::lines::{
    labelled, labelled_tried, letter, once, open_recv, open_send, receiver, waited,
};
use board_model::{Call, CallLine};
use board_numbers::append;
use mc_base::{Kind, NoMemory};
use std::alloc::Global;

/// Creates the endpoint that sends, connects it to the next domain, and opens it.
pub fn opening_of_first(alloc: Global) -> Result<Vec<CallLine>, NoMemory>
    ensures { IfOk result (λ v. v.items ≡ opening (first_of [])) }
{
    let mut lines = Vec::new(alloc);
    append(&mut lines, once(0, Call::Create { port: 1 }))?;
    add_connecting(&mut lines, 0)?;
    append(&mut lines, open_send(0))?;
    Ok(lines)
}

/// Creates both endpoints, connects to the next domain, and opens both.
pub fn opening_of_middle(alloc: Global, domain: u8) -> Result<Vec<CallLine>, NoMemory>
    requires { domain ≤ 6 }
    ensures { IfOk result (λ v. v.items ≡ opening (middle_of domain 0)) }
{
    let mut lines = Vec::new(alloc);
    append(&mut lines, once(domain, Call::Create { port: 1 }))?;
    append(&mut lines, once(domain, Call::Create { port: 2 }))?;
    add_connecting(&mut lines, domain)?;
    append(&mut lines, open_recv(domain))?;
    append(&mut lines, open_send(domain))?;
    Ok(lines)
}

/// Creates the endpoint that receives, and opens it.
pub fn opening_of_last(alloc: Global, domain: u8) -> Result<Vec<CallLine>, NoMemory>
    ensures { IfOk result (λ v. v.items ≡ opening (last_of domain 0)) }
{
    let mut lines = Vec::new(alloc);
    append(&mut lines, once(domain, Call::Create { port: 2 }))?;
    append(&mut lines, open_recv(domain))?;
    Ok(lines)
}

/// Adds the lines that look up the endpoint of the next domain and make a channel to it.
fn add_connecting(lines: &mut Vec<CallLine>, domain: u8) -> Result<(), NoMemory>
    requires { domain ≤ 6 }
    ensures { OnOk result (lines.new.items ≡ lines.old.items ++ connecting domain) }
{
    let name = receiver(domain + 1);
    let connect = Call::Connect {
        port: 1,
        to: name,
        kind: Kind::Packet,
    };
    append(lines, labelled(domain, letter(b'a'), Call::Lookup { name }))?;
    append(lines, waited(domain, letter(b'a')))?;
    append(lines, labelled_tried(domain, letter(b'c'), connect))?;
    append(lines, waited(domain, letter(b'c')))?;
    Ok(())
}

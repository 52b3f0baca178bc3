//! The load board: four domains in a ring of links, of which each sends packets to the next one.

ghost use Rattle.std.specs.Prelude.{◌≡◌, ◌≤◌, ◌+◌, ◌++◌, ◌∷◌, [], IfOk, OnOk, decimal, length, map};
ghost use Rattle.arrayvec.specs.ArrayVec.{array_vec_len};
ghost use Rattle.board_model.specs.Forms.{label_of};
ghost use Rattle.board_model.specs.Language.{IsLawfulBoard};
ghost use Rattle.board_model.specs.MadeLines.{
  once as line_once,
  tried as line_tried,
  labelled as line_labelled,
  labelled_tried as line_labelled_tried,
  waited as line_waited,
  packet_label as label_of_packet,
};
ghost use Rattle.board_model.specs.LoadBoard.{
  ring_numbers,
  ring_domain,
  ring_link,
  next_on_ring,
  far_end as far_end_of,
  creates,
  lookups,
  connects,
  opens,
  sends,
  receives,
  releases,
  closes,
  packet_bytes as bytes_of_packet,
  for_each,
  opening,
  exchange,
  exchanges,
  load_calls as calls_of_load,
  load_board,
  load_limit,
};
ghost use Rattle.scenario_lang.specs.LanguageLaws.{LoadBoardsAreLawful};
ghost use Rattle.scenario_lang.specs.LoadGroups.{lines_in, IsOfLoad};

use crate::numerals::label_from;
use board_model::{Call, CallLine, DomainLine, Label, LinkLine, Scenario, Seq};
use itoa::Buffer;
use mc_base::{EndName, Kind, NoMemory};
use std::alloc::Global;

/// A group of lines, which is written for each domain before the next group begins.
#[derive(Clone, Copy)]
enum Group {
    /// Two endpoints, 1 to send and 2 to receive.
    Creates,
    /// The lookup of the endpoint at which the next domain receives, and a wait for it.
    Lookups,
    /// The connect to it, and a wait for that.
    Connects,
    /// The open of both ends of the domain.
    Opens,
    /// The send of a packet.
    Sends(u32),
    /// The receive of one.
    Receives(u32),
    /// The release of one.
    Releases(u32),
    /// The close of both ends.
    Closes,
}

/// Makes the load board of so many packets, from 1 to 100,000 (docs/FORMATS.md, "The load board"): four domains in a ring of
/// links, of which each sends the numbers from 1 on to the domain after it, as packets of four bytes.
///
/// It takes memory for 40 lines and 12 a packet.
///
/// # Errors
///
/// `NoMemory` where an allocation fails.
#[tactic(auto, unfolding(board_model::specs::LoadBoard::load_board))]
pub fn load_scenario(alloc: Global, packets: u32) -> Result<Scenario, NoMemory>
    requires some { 1 ≤ packets }
    requires few { packets ≤ load_limit }
    ensures board { IfOk result (λ s. s ≡ load_board packets) }
    ensures lawful { IfOk result IsLawfulBoard }
{
    let domains = load_domains(alloc)?;
    let links = load_links(alloc)?;
    let calls = load_calls(alloc, packets)?;
    Ok(Scenario {
        domains: Seq::new(domains),
        links: Seq::new(links),
        calls: Seq::new(calls),
    })
}

/// Each load board is lawful. The function has no code: its contract is the law.
pub fn load_boards_are_lawful()
    ensures { LoadBoardsAreLawful }
{}

/// The domains, each of one node and a pool of two buffers.
fn load_domains(alloc: Global) -> Result<Vec<DomainLine>, NoMemory>
    ensures { IfOk result (λ v. v.items ≡ map ring_domain ring_numbers) }
{
    let domains = [domain(0), domain(1), domain(2), domain(3)];
    let Ok(lines) = Vec::from_slice(alloc, &domains) else {
        return Err(NoMemory);
    };
    Ok(lines)
}

fn domain(number: u8) -> DomainLine
    ensures { result ≡ ring_domain number }
{
    DomainLine {
        domain: number,
        nodes: 1,
        pool: 2,
    }
}

/// The links, from each domain to the one after it.
fn load_links(alloc: Global) -> Result<Vec<LinkLine>, NoMemory>
    ensures { IfOk result (λ v. v.items ≡ map ring_link ring_numbers) }
{
    let links = [link(0), link(1), link(2), link(3)];
    let Ok(lines) = Vec::from_slice(alloc, &links) else {
        return Err(NoMemory);
    };
    Ok(lines)
}

fn link(driver: u8) -> LinkLine
    requires { driver ≤ 3 }
    ensures { result ≡ ring_link driver }
{
    LinkLine {
        driver,
        device: next(driver),
        size: 16,
    }
}

/// The domain after one.
fn next(domain: u8) -> u8
    requires { domain ≤ 3 }
    ensures { result ≡ next_on_ring domain }
{
    (domain + 1) % 4
}

/// All lines, in their groups.
fn load_calls(alloc: Global, packets: u32) -> Result<Vec<CallLine>, NoMemory>
    requires { packets ≤ load_limit }
    ensures { IfOk result (λ v. v.items ≡ calls_of_load packets) }
{
    let Ok(mut lines) = Vec::with_capacity(alloc, 40 + 12 * packets as usize) else {
        return Err(NoMemory);
    };
    add_opening(alloc, &mut lines)?;
    add_exchanges(alloc, &mut lines, packets)?;
    add_group(alloc, &mut lines, Group::Closes)?;
    Ok(lines)
}

/// Adds the lines with which the channels are made.
fn add_opening(alloc: Global, lines: &mut Vec<CallLine>) -> Result<(), NoMemory>
    ensures { OnOk result (lines.new.items ≡ lines.old.items ++ opening) }
{
    add_group(alloc, lines, Group::Creates)?;
    add_group(alloc, lines, Group::Lookups)?;
    add_group(alloc, lines, Group::Connects)?;
    add_group(alloc, lines, Group::Opens)?;
    Ok(())
}

/// Adds the lines of all packets.
fn add_exchanges(alloc: Global, lines: &mut Vec<CallLine>, packets: u32) -> Result<(), NoMemory>
    requires { packets ≤ load_limit }
    ensures { OnOk result (lines.new.items ≡ lines.old.items ++ exchanges packets) }
{
    for before in 0..packets {
        add_exchange(alloc, lines, before + 1)?;
    }
    Ok(())
}

/// Adds the lines by which a packet goes over each channel.
fn add_exchange(alloc: Global, lines: &mut Vec<CallLine>, packet: u32) -> Result<(), NoMemory>
    requires { packet ≤ load_limit }
    ensures { OnOk result (lines.new.items ≡ lines.old.items ++ exchange packet) }
{
    add_group(alloc, lines, Group::Sends(packet))?;
    add_group(alloc, lines, Group::Receives(packet))?;
    add_group(alloc, lines, Group::Releases(packet))?;
    Ok(())
}

/// Adds a group, for each domain.
fn add_group(alloc: Global, lines: &mut Vec<CallLine>, group: Group) -> Result<(), NoMemory>
    requires { IsOfLoad group }
    ensures { OnOk result (lines.new.items ≡ lines.old.items ++ for_each (lines_in group)) }
{
    add_lines(alloc, lines, group, 0)?;
    add_lines(alloc, lines, group, 1)?;
    add_lines(alloc, lines, group, 2)?;
    add_lines(alloc, lines, group, 3)?;
    Ok(())
}

/// Adds the lines of a group for one domain.
fn add_lines(
    alloc: Global,
    lines: &mut Vec<CallLine>,
    group: Group,
    domain: u8,
) -> Result<(), NoMemory>
    requires packet { IsOfLoad group }
    requires domain { domain ≤ 3 }
    ensures { OnOk result (lines.new.items ≡ lines.old.items ++ lines_in group domain) }
{
    match group {
        Group::Creates => add_creates(lines, domain)?,
        Group::Lookups => add_lookup(lines, domain)?,
        Group::Connects => add_connect(lines, domain)?,
        Group::Opens => add_opens(lines, domain)?,
        Group::Sends(packet) => add_send(alloc, lines, domain, packet)?,
        Group::Receives(packet) => add_receive(lines, domain, packet)?,
        Group::Releases(packet) => add_release(lines, domain, packet)?,
        Group::Closes => add_closes(lines, domain)?,
    }
    Ok(())
}

fn add_creates(lines: &mut Vec<CallLine>, domain: u8) -> Result<(), NoMemory>
    ensures { OnOk result (lines.new.items ≡ lines.old.items ++ creates domain) }
{
    add(lines, once(domain, Call::Create { port: 1 }))?;
    add(lines, once(domain, Call::Create { port: 2 }))?;
    Ok(())
}

fn add_lookup(lines: &mut Vec<CallLine>, domain: u8) -> Result<(), NoMemory>
    requires { domain ≤ 3 }
    ensures { OnOk result (lines.new.items ≡ lines.old.items ++ lookups domain) }
{
    let name = far_end(domain);
    add(
        lines,
        labelled(domain, label_from(b"a"), Call::Lookup { name }),
    )?;
    add(lines, waited(domain, label_from(b"a")))?;
    Ok(())
}

fn add_connect(lines: &mut Vec<CallLine>, domain: u8) -> Result<(), NoMemory>
    requires { domain ≤ 3 }
    ensures { OnOk result (lines.new.items ≡ lines.old.items ++ connects domain) }
{
    let connect = Call::Connect {
        port: 1,
        to: far_end(domain),
        kind: Kind::Packet,
    };
    add(lines, labelled_tried(domain, label_from(b"c"), connect))?;
    add(lines, waited(domain, label_from(b"c")))?;
    Ok(())
}

fn add_opens(lines: &mut Vec<CallLine>, domain: u8) -> Result<(), NoMemory>
    ensures { OnOk result (lines.new.items ≡ lines.old.items ++ opens domain) }
{
    let kind = Kind::Packet;
    add(lines, tried(domain, Call::OpenRecv { port: 2, kind }))?;
    add(lines, tried(domain, Call::OpenSend { port: 1, kind }))?;
    Ok(())
}

fn add_send(
    alloc: Global,
    lines: &mut Vec<CallLine>,
    domain: u8,
    packet: u32,
) -> Result<(), NoMemory>
    ensures { OnOk result (lines.new.items ≡ lines.old.items ++ sends packet domain) }
{
    let bytes = packet_bytes(alloc, packet)?;
    add(lines, tried(domain, Call::PktSend { port: 1, bytes }))?;
    Ok(())
}

fn add_receive(lines: &mut Vec<CallLine>, domain: u8, packet: u32) -> Result<(), NoMemory>
    requires { packet ≤ load_limit }
    ensures { OnOk result (lines.new.items ≡ lines.old.items ++ receives packet domain) }
{
    let receive = Call::PktRecv { port: 2 };
    add(lines, labelled_tried(domain, packet_label(packet), receive))?;
    Ok(())
}

fn add_release(lines: &mut Vec<CallLine>, domain: u8, packet: u32) -> Result<(), NoMemory>
    requires { packet ≤ load_limit }
    ensures { OnOk result (lines.new.items ≡ lines.old.items ++ releases packet domain) }
{
    let label = packet_label(packet);
    add(lines, once(domain, Call::Release { label }))?;
    Ok(())
}

fn add_closes(lines: &mut Vec<CallLine>, domain: u8) -> Result<(), NoMemory>
    ensures { OnOk result (lines.new.items ≡ lines.old.items ++ closes domain) }
{
    add(lines, tried(domain, Call::CloseSend { port: 1 }))?;
    add(lines, tried(domain, Call::CloseRecv { port: 2 }))?;
    Ok(())
}

/// Adds a line.
fn add(lines: &mut Vec<CallLine>, line: CallLine) -> Result<(), NoMemory>
    ensures { OnOk result (lines.new.items ≡ lines.old.items ++ line ∷ []) }
{
    if lines.push(line).is_err() {
        return Err(NoMemory);
    }
    Ok(())
}

/// A line with neither label nor tries.
fn once(domain: u8, call: Call) -> CallLine
    ensures { result ≡ line_once domain call }
{
    CallLine {
        domain,
        node: 0,
        label: None,
        tries: None,
        call,
    }
}

/// A line that is tried as often as a line may be.
fn tried(domain: u8, call: Call) -> CallLine
    ensures { result ≡ line_tried domain call }
{
    CallLine {
        domain,
        node: 0,
        label: None,
        tries: Some(u32::MAX),
        call,
    }
}

/// A line with a label.
fn labelled(domain: u8, label: Label, call: Call) -> CallLine
    ensures { result ≡ line_labelled domain label.items call }
{
    CallLine {
        domain,
        node: 0,
        label: Some(label),
        tries: None,
        call,
    }
}

/// A line with a label that is tried as often as a line may be.
fn labelled_tried(domain: u8, label: Label, call: Call) -> CallLine
    ensures { result ≡ line_labelled_tried domain label.items call }
{
    CallLine {
        domain,
        node: 0,
        label: Some(label),
        tries: Some(u32::MAX),
        call,
    }
}

/// The line that waits for a request as long as a line may.
fn waited(domain: u8, label: Label) -> CallLine
    ensures { result ≡ line_waited domain label.items }
{
    let limit = u32::MAX;
    once(domain, Call::Wait { label, limit })
}

/// The name of the endpoint at which the next domain receives.
fn far_end(domain: u8) -> EndName
    requires { domain ≤ 3 }
    ensures { result ≡ far_end_of domain }
{
    EndName {
        domain: next(domain),
        node: 0,
        port: 2,
    }
}

/// The label of a packet: `p` and its number.
fn packet_label(packet: u32) -> Label
    requires { packet ≤ load_limit }
    ensures { result ≡ label_of (label_of_packet packet) }
{
    let mut label = Label::new();
    label.push(b'p');
    push_number(&mut label, packet);
    label
}

/// Appends a number in decimal.
fn push_number(label: &mut Label, n: u32)
    requires { array_vec_len label.old + length (decimal n) ≤ 16 }
    ensures { label.new.items ≡ label.old.items ++ decimal n }
{
    let mut digits = Buffer::new();
    let _room = label.try_extend_from_slice(digits.format(n).as_bytes());
}

/// The bytes of a packet: its number, the lowest byte first.
fn packet_bytes(alloc: Global, packet: u32) -> Result<Seq<u8>, NoMemory>
    ensures { IfOk result (λ bytes. bytes ≡ bytes_of_packet packet) }
{
    let Ok(bytes) = Vec::from_slice(alloc, &packet.to_le_bytes()) else {
        return Err(NoMemory);
    };
    Ok(Seq::new(bytes))
}

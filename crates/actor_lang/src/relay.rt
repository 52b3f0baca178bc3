//! The text of a relay.

ghost use Rattle.std.specs.Prelude.{◌≡◌, ◌≤◌, ◌<◌, ◌∷◌, [], Some, Ok, IfOk, IfErr, length, map};
ghost use Rattle.actor_lang.specs.InputLines.{input_lines};
ghost use Rattle.actor_lang.specs.InputFaults.{Refuses, at_line, told_from};
ghost use Rattle.actor_lang.specs.RelayInput.{relay_told, relay_head, relay_of_words, relay_numbers, fits_ring, packet_line, IsFitRelay};
ghost use Rattle.actor_lang.specs.Texts.{relay_of};
ghost use Rattle.actor_lang.specs.Parts.{Answers};

use crate::fault::{InputFault, InputReason, LAST_LINE};
use crate::lines::{first_line, words};
use crate::numbers::{number, ring_size};
use board_model::{decode_pairs, is_dash};
use mc_base::{ITEM_SIZE, frames_needed};
use std::alloc::Global;

/// What the text of a relay says.
#[derive(Drop)]
pub struct RelayText {
    /// Over how many links the packets go, 1 to 7.
    pub hops: u8,
    /// How many buffers a ring has, a power of two from 2 to 256.
    pub size: u32,
    /// The packets in their order: at most 100,000, of at most 8,192 bytes, each of which needs no more frames than a ring has buffers.
    pub packets: Vec<Vec<u8>>,
}

/// What the first line of a relay says.
#[derive(Clone, Copy)]
struct RelayHead {
    hops: u8,
    size: u32,
}

/// Reads the text of a relay (docs/FORMATS.md, "Text of a relay").
///
/// It takes time in proportion to the size of the text, and memory for the packets alone. The text must have fewer than 4,294,967,295
/// bytes, since its lines are numbered in a `u32`.
///
/// # Errors
///
/// `Refused` where the text is none of a relay, with the first line that has a reason, counted from 1, and its first reason: `Form` or
/// `Number` at line 1, `Many` at line 100,002, and `Bytes` at the line of a packet. `NoMemory` where an allocation fails, which may happen at
/// any time.
pub fn read_relay(alloc: Global, text: &[u8]) -> Result<RelayText, InputFault>
    requires { length text.now < 4_294_967_295 }
    ensures told { IfOk result (λ t. relay_told text.now ≡ Ok (relay_of t)) }
    ensures refused { IfErr result (λ e. Refuses e (relay_told text.now)) }
    ensures fit { IfOk result (λ t. IsFitRelay (relay_of t)) }
{
    if text.is_empty() {
        return Err(InputFault::at(1, InputReason::Form));
    }
    let (line, rest) = first_line(text);
    let head = match head(line) {
        Ok(head) => head,
        Err(reason) => return Err(InputFault::at(1, reason)),
    };
    let packets = packets(alloc, head.size, rest)?;
    Ok(RelayText {
        hops: head.hops,
        size: head.size,
        packets,
    })
}

/// Reads the first line.
fn head(line: &[u8]) -> Result<RelayHead, InputReason>
    ensures head { result ≡ relay_head line.now }
    ensures size { IfOk result (λ h. 2 ≤ h.size) }
{
    let Some(words) = words(line) else {
        return Err(InputReason::Form);
    };
    match words.as_slice() {
        [relay, hops, rings, size] => head_of(relay, hops, rings, size),
        _ => Err(InputReason::Form),
    }
}

/// Reads the four words of the first line.
fn head_of(relay: &[u8], hops: &[u8], rings: &[u8], size: &[u8]) -> Result<RelayHead, InputReason>
    ensures head { result ≡ relay_of_words (Some (relay.now ∷ hops.now ∷ rings.now ∷ size.now ∷ [])) }
    ensures size { IfOk result (λ h. 2 ≤ h.size) }
{
    if relay == b"relay".as_slice() && rings == b"size".as_slice() {
        numbers(hops, size)
    } else {
        Err(InputReason::Form)
    }
}

/// Reads the numbers of the first line.
fn numbers(hops: &[u8], size: &[u8]) -> Result<RelayHead, InputReason>
    ensures head { result ≡ relay_numbers (hops.now, size.now) }
    ensures size { IfOk result (λ h. 2 ≤ h.size) }
{
    match (number(1, 7, hops), ring_size(2, size)) {
        (Some(hops), Some(size)) => Ok(RelayHead {
            hops: hops as u8,
            size,
        }),
        _ => Err(InputReason::Number),
    }
}

/// Reads the lines of packets, from line 2 on.
fn packets(alloc: Global, size: u32, text: &[u8]) -> Result<Vec<Vec<u8>>, InputFault>
    requires size { 2 ≤ size }
    requires numbered { length text.now < 4_294_967_294 }
    ensures { Answers (λ v. map (λ p. p.items) v.items) result (told_from (packet_line size) 2 (input_lines text.now)) }
{
    let mut packets = Vec::new(alloc);
    let mut number = 2u32;
    let mut rest = text;
    while !rest.is_empty() {
        let (line, after) = first_line(rest);
        let packet = packet(alloc, size, number, line)?;
        if packets.push(packet).is_err() {
            return Err(InputFault::NoMemory);
        }
        number += 1;
        rest = after;
    }
    Ok(packets)
}

/// Whether a packet of so many bytes may go over rings of this size.
fn fits(size: u32, len: usize) -> bool
    ensures { result ≡ fits_ring size len }
{
    len <= ITEM_SIZE && frames_needed(len) <= u64::from(size)
}

/// Reads the packet of the line with this number.
fn packet(alloc: Global, size: u32, number: u32, line: &[u8]) -> Result<Vec<u8>, InputFault>
    requires { 2 ≤ size }
    ensures { Answers (λ p. p.items) result (at_line number (packet_line size number line.now)) }
{
    if number > LAST_LINE {
        return Err(InputFault::at(number, InputReason::Many));
    }
    if is_dash(line) {
        return Ok(Vec::new(alloc));
    }
    let len = line.len() / 2;
    if len == 0 || line.len() % 2 != 0 || !fits(size, len) {
        return Err(InputFault::at(number, InputReason::Bytes));
    }
    let Ok(mut packet) = vec![in alloc; 0u8; len] else {
        return Err(InputFault::NoMemory);
    };
    if decode_pairs(line, &mut packet) {
        Ok(packet)
    } else {
        Err(InputFault::at(number, InputReason::Bytes))
    }
}

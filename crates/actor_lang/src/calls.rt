//! The text of numbered calls.

ghost use Rattle.std.specs.Prelude.{◌≡◌, ◌<◌, ◌∷◌, [], Some, Ok, IfOk, IfErr, length};
ghost use Rattle.actor_lang.specs.InputLines.{input_lines};
ghost use Rattle.actor_lang.specs.InputFaults.{Refuses, at_line, told_from};
ghost use Rattle.actor_lang.specs.CallsInput.{calls_told, calls_head, calls_of_words, calls_numbers};
ghost use Rattle.actor_lang.specs.CallsInput.{call_in, call_numbers, call_line, AreFitCalls};
ghost use Rattle.actor_lang.specs.CallsInput.{are_fixed as are_fixed_words};
ghost use Rattle.actor_lang.specs.Texts.{calls_of};
ghost use Rattle.actor_lang.specs.Parts.{Answers};

use crate::fault::{InputFault, InputReason, LAST_LINE};
use crate::lines::{first_line, words};
use crate::numbers::{number, ring_size};
use call_logs::NumberedCall;
use std::alloc::Global;

/// What the text of numbered calls says.
#[derive(Drop)]
pub struct CallsText {
    /// How many clients there are, 1 to 7. They are domains 1 and up.
    pub clients: u8,
    /// How many buffers a ring has, a power of two from 4 to 256.
    pub size: u32,
    /// How often each request is sent, 1 to 4.
    pub repeat: u8,
    /// The calls of all clients in the order of the text: at most 100,000. Those of one client are its calls in order.
    pub calls: Vec<NumberedCall>,
}

/// What the first line of numbered calls says.
#[derive(Clone, Copy)]
struct CallsHead {
    clients: u8,
    size: u32,
    repeat: u8,
}

/// Reads the text of numbered calls (docs/FORMATS.md, "Text of numbered calls").
///
/// It takes time in proportion to the size of the text, and memory for the calls alone. The text must have fewer than 4,294,967,295
/// bytes, since its lines are numbered in a `u32`.
///
/// # Errors
///
/// `Refused` where the text is none of numbered calls, with the first line that has a reason, counted from 1, and its first reason:
/// `Form` or `Number` at any line, and `Many` at line 100,002. `NoMemory` where an allocation fails, which may happen at any time.
pub fn read_calls(alloc: Global, text: &[u8]) -> Result<CallsText, InputFault>
    requires { length text.now < 4_294_967_295 }
    ensures told { IfOk result (λ t. calls_told text.now ≡ Ok (calls_of t)) }
    ensures refused { IfErr result (λ e. Refuses e (calls_told text.now)) }
    ensures fit { IfOk result (λ t. AreFitCalls (calls_of t)) }
{
    if text.is_empty() {
        return Err(InputFault::at(1, InputReason::Form));
    }
    let (line, rest) = first_line(text);
    let head = match head(line) {
        Ok(head) => head,
        Err(reason) => return Err(InputFault::at(1, reason)),
    };
    let calls = calls(alloc, head.clients, rest)?;
    Ok(CallsText {
        clients: head.clients,
        size: head.size,
        repeat: head.repeat,
        calls,
    })
}

/// Reads the first line.
fn head(line: &[u8]) -> Result<CallsHead, InputReason>
    ensures { result ≡ calls_head line.now }
{
    let Some(words) = words(line) else {
        return Err(InputReason::Form);
    };
    match words.as_slice() {
        [calls, clients, rings, size, times, repeat] => {
            head_of(calls, clients, rings, size, times, repeat)
        }
        _ => Err(InputReason::Form),
    }
}

/// Reads the six words of the first line.
fn head_of(
    calls: &[u8],
    clients: &[u8],
    rings: &[u8],
    size: &[u8],
    times: &[u8],
    repeat: &[u8],
) -> Result<CallsHead, InputReason>
    ensures { result ≡ calls_of_words (Some (calls.now ∷ clients.now ∷ rings.now ∷ size.now ∷ times.now ∷ repeat.now ∷ [])) }
{
    if are_fixed(calls, rings, times) {
        numbers(clients, size, repeat)
    } else {
        Err(InputReason::Form)
    }
}

/// Whether the words beside the numbers of the first line are those that they must be.
fn are_fixed(calls: &[u8], rings: &[u8], times: &[u8]) -> bool
    ensures { result ≡ are_fixed_words calls.now rings.now times.now }
{
    calls == b"calls".as_slice() && rings == b"size".as_slice() && times == b"repeat".as_slice()
}

/// Reads the numbers of the first line.
fn numbers(clients: &[u8], size: &[u8], repeat: &[u8]) -> Result<CallsHead, InputReason>
    ensures { result ≡ calls_numbers (clients.now, size.now, repeat.now) }
{
    match (
        number(1, 7, clients),
        ring_size(4, size),
        number(1, 4, repeat),
    ) {
        (Some(clients), Some(size), Some(repeat)) => Ok(CallsHead {
            clients: clients as u8,
            size,
            repeat: repeat as u8,
        }),
        _ => Err(InputReason::Number),
    }
}

/// Reads the lines of calls, from line 2 on.
fn calls(alloc: Global, clients: u8, text: &[u8]) -> Result<Vec<NumberedCall>, InputFault>
    requires { length text.now < 4_294_967_294 }
    ensures { Answers (λ v. v.items) result (told_from (call_line clients) 2 (input_lines text.now)) }
{
    let mut calls = Vec::new(alloc);
    let mut number = 2u32;
    let mut rest = text;
    while !rest.is_empty() {
        let (line, after) = first_line(rest);
        let call = numbered_call(clients, number, line)?;
        if calls.push(call).is_err() {
            return Err(InputFault::NoMemory);
        }
        number += 1;
        rest = after;
    }
    Ok(calls)
}

/// Reads the call of the line with this number.
fn numbered_call(clients: u8, number: u32, line: &[u8]) -> Result<NumberedCall, InputFault>
    ensures { Answers (λ call. call) result (at_line number (call_line clients number line.now)) }
{
    match call(clients, line) {
        Ok(call) if number <= LAST_LINE => Ok(call),
        Ok(_) => Err(InputFault::at(number, InputReason::Many)),
        Err(reason) => Err(InputFault::at(number, reason)),
    }
}

/// Reads a call.
fn call(clients: u8, line: &[u8]) -> Result<NumberedCall, InputReason>
    ensures { result ≡ call_in clients line.now }
{
    let Some(words) = words(line) else {
        return Err(InputReason::Form);
    };
    match words.as_slice() {
        [client, cell, amount] => call_of(clients, client, cell, amount),
        _ => Err(InputReason::Form),
    }
}

/// Reads the numbers of a call.
fn call_of(
    clients: u8,
    client: &[u8],
    cell: &[u8],
    amount: &[u8],
) -> Result<NumberedCall, InputReason>
    ensures { result ≡ call_numbers clients (client.now, cell.now, amount.now) }
{
    match (
        number(1, u64::from(clients), client),
        number(0, 15, cell),
        number(0, u64::MAX, amount),
    ) {
        (Some(client), Some(cell), Some(amount)) => Ok(NumberedCall {
            client: client as u8,
            cell: cell as u8,
            amount,
        }),
        _ => Err(InputReason::Number),
    }
}

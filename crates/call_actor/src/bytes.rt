//! The messages of a client as bytes.

ghost use Rattle.std.specs.Prelude.{◌≡◌, ◌≤◌, ◌++◌, IfOk, length, drop};
ghost use Rattle.call_logs.specs.CallBytes.{bye_bytes, bye_in as bye_of, got_in as got_of, is_reply as is_reply_to, request_bytes};
ghost use Rattle.call_actor.specs.ClientBytes.{request_head};

use board_model::Seq;
use byteorder::{ByteOrder, LittleEndian};
use call_logs::Got;
use mc_base::NoMemory;
use std::alloc::Global;

/// How many bytes a message has.
pub const MESSAGE_LEN: usize = 16;

/// Returns whether a message is a reply to the call of this number that was carried out.
pub fn is_reply(number: u32, message: &[u8]) -> bool
    ensures { result ≡ is_reply_to number message.now }
{
    message.len() == MESSAGE_LEN
        && message[0] == 0x52
        && message[1] < 2
        && message[2] == 0
        && message[3] == 0
        && LittleEndian::read_u32(&message[4..]) == number
}

/// Returns what a reply says.
pub fn got_in(reply: &[u8; 16]) -> Got
    ensures { result ≡ got_of reply.now }
{
    Got {
        number: LittleEndian::read_u32(&reply[4..]),
        status: reply[1],
        value: LittleEndian::read_u64(&reply[8..]),
    }
}

/// Returns the request of a client's call of this number, which adds an amount to a cell.
pub fn request(alloc: Global, client: u8, number: u32, call: (u8, u64)) -> Result<Seq<u8>, NoMemory>
    ensures { IfOk result (λ bytes. bytes ≡ request_bytes client number call.0 call.1) }
{
    let mut bytes = [0; MESSAGE_LEN];
    write_request(client, number, call, &mut bytes);
    let Ok(bytes) = Vec::from_slice(alloc, &bytes) else {
        return Err(NoMemory);
    };
    Ok(Seq::new(bytes))
}

/// Writes a request. What is behind its 16 bytes stays.
fn write_request(client: u8, number: u32, call: (u8, u64), out: &mut [u8])
    requires { 16 ≤ length out.old }
    ensures { out.new ≡ request_bytes client number call.0 call.1 ++ drop 16 out.old }
{
    let (cell, amount) = call;
    write_head(client, number, cell, out);
    LittleEndian::write_u64(&mut out[8..], amount);
}

/// Writes the first eight bytes of a request. What is behind them stays.
fn write_head(client: u8, number: u32, cell: u8, out: &mut [u8])
    requires { 8 ≤ length out.old }
    ensures { out.new ≡ request_head client number cell ++ drop 8 out.old }
{
    out[0] = 0x51;
    out[1] = client;
    out[2] = cell;
    out[3] = 0;
    LittleEndian::write_u32(&mut out[4..], number);
}

/// Returns the bye of a client.
pub fn bye(alloc: Global, client: u8) -> Result<Seq<u8>, NoMemory>
    ensures { IfOk result (λ bytes. bytes ≡ bye_bytes client) }
{
    let bytes = bye_message(client);
    let Ok(bytes) = Vec::from_slice(alloc, &bytes) else {
        return Err(NoMemory);
    };
    Ok(Seq::new(bytes))
}

fn bye_message(client: u8) -> [u8; MESSAGE_LEN]
    ensures { result ≡ bye_bytes client }
{
    let mut bytes = [0; MESSAGE_LEN];
    bytes[0] = 0x53;
    bytes[1] = client;
    bytes
}

/// Returns the client whose bye a message is, or `None` where it is none.
pub fn bye_in(message: &[u8]) -> Option<u8>
    ensures { result ≡ bye_of message.now }
{
    let client = message.get(1).copied().unwrap_or(0);
    if message == bye_message(client).as_slice() && client > 0 && client < 8 {
        Some(client)
    } else {
        None
    }
}

/// Returns the bytes of a reply.
pub fn reply(alloc: Global, reply: &[u8; MESSAGE_LEN]) -> Result<Seq<u8>, NoMemory>
    ensures { IfOk result (λ bytes. bytes ≡ reply.now) }
{
    let Ok(bytes) = Vec::from_slice(alloc, reply) else {
        return Err(NoMemory);
    };
    Ok(Seq::new(bytes))
}

//! What a letter says, in words.
#![tactic(auto, using(crate::proofs::TextSteps::text_steps))]

ghost use Rattle.report_view.specs.Texts.{PutsText};

use crate::bytes::put_bytes;
use mc_base::{Bits, Letter};
use mc_journal::reason_word;
use outer_io::{Sink, Writer};
use scenario_lang::kind_word;

/// Puts what a letter says.
pub fn put_letter<K: Sink>(out: &mut Writer<'_, K>, letter: &Letter<'_>)
    ensures { PutsText K.Sink out.old out.new }
{
    match *letter {
        Letter::Msg { priority, bytes } => {
            put_content(
                out,
                b"message of priority ",
                u32::from(priority.number()),
                bytes,
            )
        }
        Letter::Connect { channel, kind } => {
            put_pair(out, b"connect channel ", channel, kind_word(kind))
        }
        Letter::Accept { channel } => put_channel(out, b"accept channel ", channel),
        Letter::Reject { channel, reason } => {
            put_pair(out, b"reject channel ", channel, reason_word(reason))
        }
        Letter::RecvOpen { channel } => put_channel(out, b"receiver opened channel ", channel),
        Letter::SendOpen { channel } => put_channel(out, b"sender opened channel ", channel),
        Letter::Packet { channel, bytes } => {
            put_content(out, b"packet on channel ", channel, bytes)
        }
        Letter::Scalar {
            channel,
            bits,
            value,
        } => put_scalar(out, channel, bits, value),
        Letter::SendClose { channel } => put_channel(out, b"sender closed channel ", channel),
        Letter::RecvClose { channel } => put_channel(out, b"receiver closed channel ", channel),
        Letter::MsgPart {
            priority,
            total,
            offset,
            bytes,
        } => {
            put_cut(out, total, offset);
            let number = u32::from(priority.number());
            put_content(out, b"message of priority ", number, bytes)
        }
        Letter::PacketPart {
            channel,
            total,
            offset,
            bytes,
        } => {
            put_cut(out, total, offset);
            put_content(out, b"packet on channel ", channel, bytes)
        }
    }
}

/// Puts where a part lies in its message or packet.
fn put_cut<K: Sink>(out: &mut Writer<'_, K>, total: u16, offset: u16)
    ensures { PutsText K.Sink out.old out.new }
{
    out.put(b"part from byte ");
    out.put_number(u64::from(offset));
    out.put(b" of ");
    out.put_number(u64::from(total));
    out.put(b", ");
}

fn put_channel<K: Sink>(out: &mut Writer<'_, K>, words: &[u8], channel: u32)
    ensures { PutsText K.Sink out.old out.new }
{
    out.put(words);
    out.put_number(u64::from(channel));
}

fn put_pair<K: Sink>(out: &mut Writer<'_, K>, words: &[u8], channel: u32, last: &[u8])
    ensures { PutsText K.Sink out.old out.new }
{
    put_channel(out, words, channel);
    out.put(b", ");
    out.put(last);
}

fn put_content<K: Sink>(out: &mut Writer<'_, K>, words: &[u8], number: u32, bytes: &[u8])
    ensures { PutsText K.Sink out.old out.new }
{
    put_channel(out, words, number);
    out.put(b", ");
    put_bytes(out, bytes);
}

fn put_scalar<K: Sink>(out: &mut Writer<'_, K>, channel: u32, bits: Bits, value: u64)
    ensures { PutsText K.Sink out.old out.new }
{
    put_channel(out, b"scalar on channel ", channel);
    out.put(b", ");
    out.put_number(bits_in(bits));
    out.put(b" bits, ");
    out.put_number(value);
}

/// How many bits a scalar has.
fn bits_in(bits: Bits) -> u64 {
    match bits {
        Bits::B8 => 8,
        Bits::B16 => 16,
        Bits::B32 => 32,
        Bits::B64 => 64,
    }
}

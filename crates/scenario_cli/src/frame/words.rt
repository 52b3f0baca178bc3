//! The lines of frames, put to a sink piece by piece.

ghost use Rattle.std.specs.Prelude.{◌≡◌, ◌≤◌, ◌*◌, ◌++◌, ◌∷◌, [], ℕ, length, codes, decimal, IsOk, OnErr, if◌then◌else◌};
ghost use Rattle.mc_base.specs.Limits.{name_service_address};
ghost use Rattle.mc_base.specs.Text.{hex_text};
ghost use Rattle.mc_base.specs.Letter.{saying_of, bytes_of_bits};
ghost use Rattle.outer_io.specs.Faults.{HasCause};
ghost use Rattle.outer_io.specs.Puts.{Puts};
ghost use Rattle.outer_io.specs.Writes.{Writes, WritesStop};
ghost use Rattle.board_model.specs.Grammar.{spaced};
ghost use Rattle.scenario_cli.specs.FrameText.{saying_words, announcement_words, right_line};
ghost use Rattle.scenario_cli.specs.Content.{content_line};

use crate::frame::content::Content;
use mc_base::{Bits, Letter, NAME_SERVICE_ADDRESS, Ns};
use mc_journal::reason_word;
use outer_io::{Failed, Sink, Writer};
use scenario_lang::kind_word;

/// Writes the line of a sound frame.
pub fn write_right<K: Sink>(content: Content<'_>, sink: &mut K) -> Result<(), Failed>
    ensures bytes { Writes (K.written sink.old) (K.written sink.new) result (content_line content.entry) }
    ensures cause { HasCause (K.faults sink.old) (K.faults sink.new) result }
    ensures room { (n : ℕ) → K.takes sink.old n → length (content_line content.entry) ≤ n → IsOk result }
    ensures few_writes_at_err { OnErr result (WritesStop (K.written sink.old) (K.written sink.new) (K.calls sink.old) (K.calls sink.new) (content_line content.entry)) }
{
    let mut out = Writer::new(sink);
    put_right(&mut out, content);
    out.finish()
}

fn put_right<K: Sink>(out: &mut Writer<'_, K>, content: Content<'_>)
    ensures { Puts K.Sink out.old out.new (content_line content.entry) }
{
    match content {
        Content::Letter { src, dst, letter } => put_letter_line(out, src, dst, &letter),
        Content::Announcement { src, ns } => put_announcement_line(out, src, &ns),
    }
}

fn put_letter_line<K: Sink>(out: &mut Writer<'_, K>, src: u32, dst: u32, letter: &Letter<'_>)
    ensures { Puts K.Sink out.old out.new (right_line src dst (saying_words (saying_of letter.now))) }
{
    put_addresses(out, src, dst);
    put_letter(out, letter);
    out.put(b"\n");
}

fn put_announcement_line<K: Sink>(out: &mut Writer<'_, K>, src: u32, ns: &Ns)
    ensures { Puts K.Sink out.old out.new (right_line src name_service_address (announcement_words ns.now.name.items ns.now.addr ns.now.create)) }
{
    put_addresses(out, src, NAME_SERVICE_ADDRESS);
    put_announcement(out, ns);
    out.put(b"\n");
}

/// The first word and the addresses, each with a blank after it.
fn put_addresses<K: Sink>(out: &mut Writer<'_, K>, src: u32, dst: u32)
    ensures { Puts K.Sink out.old out.new (codes "right " ++ (decimal src ++ (32 ∷ (decimal dst ++ (32 ∷ []))))) }
{
    out.put(b"right ");
    out.put_number(src as u64);
    out.put(b" ");
    out.put_number(dst as u64);
    out.put(b" ");
}

fn put_letter<K: Sink>(out: &mut Writer<'_, K>, letter: &Letter<'_>)
    ensures { Puts K.Sink out.old out.new (spaced (saying_words (saying_of letter.now))) }
{
    match *letter {
        Letter::Msg { priority, bytes } => {
            put_bytes(out, b"msg ", u32::from(priority.number()), bytes)
        }
        Letter::Connect { channel, kind } => {
            put_pair(out, b"connect ", channel, kind_word(kind))
        }
        Letter::Accept { channel } => put_channel(out, b"accept ", channel),
        Letter::Reject { channel, reason } => {
            put_pair(out, b"reject ", channel, reason_word(reason))
        }
        Letter::RecvOpen { channel } => put_channel(out, b"recv_open ", channel),
        Letter::SendOpen { channel } => put_channel(out, b"send_open ", channel),
        Letter::Packet { channel, bytes } => put_bytes(out, b"packet ", channel, bytes),
        Letter::Scalar {
            channel,
            bits,
            value,
        } => put_scalar(out, channel, bits, value),
        Letter::SendClose { channel } => put_channel(out, b"send_close ", channel),
        Letter::RecvClose { channel } => put_channel(out, b"recv_close ", channel),
        Letter::MsgPart {
            priority,
            total,
            offset,
            bytes,
        } => {
            let number = u32::from(priority.number());
            put_part(out, b"msg_part ", number, total, offset, bytes)
        }
        Letter::PacketPart {
            channel,
            total,
            offset,
            bytes,
        } => put_part(out, b"packet_part ", channel, total, offset, bytes),
    }
}

/// A word with a blank, and a channel.
fn put_channel<K: Sink>(out: &mut Writer<'_, K>, word: &[u8], channel: u32)
    ensures { Puts K.Sink out.old out.new (word.now ++ decimal channel) }
{
    out.put(word);
    out.put_number(channel as u64);
}

/// A word with a blank, a channel, and one word more.
fn put_pair<K: Sink>(out: &mut Writer<'_, K>, word: &[u8], channel: u32, last: &[u8])
    ensures { Puts K.Sink out.old out.new (word.now ++ (decimal channel ++ (32 ∷ last.now))) }
{
    out.put(word);
    out.put_number(channel as u64);
    out.put(b" ");
    out.put(last);
}

/// A word with a blank, a number, and bytes.
fn put_bytes<K: Sink>(out: &mut Writer<'_, K>, word: &[u8], number: u32, bytes: &[u8])
    ensures { Puts K.Sink out.old out.new (word.now ++ (decimal number ++ (32 ∷ hex_text bytes.now))) }
{
    out.put(word);
    out.put_number(number as u64);
    out.put(b" ");
    out.put_hex(bytes);
}

/// A word with a blank, a number, how many bytes the whole has, how many of them come before, and bytes.
fn put_part<K: Sink>(
    out: &mut Writer<'_, K>,
    word: &[u8],
    number: u32,
    total: u16,
    offset: u16,
    bytes: &[u8],
)
    ensures { Puts K.Sink out.old out.new (word.now ++ (decimal number ++ (32 ∷ (decimal total ++ (32 ∷ (decimal offset ++ (32 ∷ hex_text bytes.now))))))) }
{
    out.put(word);
    out.put_number(number as u64);
    out.put(b" ");
    out.put_number(total as u64);
    put_bytes(out, b" ", offset as u32, bytes);
}

fn put_scalar<K: Sink>(out: &mut Writer<'_, K>, channel: u32, bits: Bits, value: u64)
    ensures { Puts K.Sink out.old out.new (codes "scalar " ++ (decimal channel ++ (32 ∷ (decimal (8 * bytes_of_bits bits) ++ (32 ∷ decimal value))))) }
{
    out.put(b"scalar ");
    out.put_number(channel as u64);
    out.put(b" ");
    out.put_number(bits_of(bits));
    out.put(b" ");
    out.put_number(value);
}

fn put_announcement<K: Sink>(out: &mut Writer<'_, K>, ns: &Ns)
    ensures { Puts K.Sink out.old out.new (spaced (announcement_words ns.now.name.items ns.now.addr ns.now.create)) }
{
    out.put(announcement_word(ns.create));
    out.put(ns.name.as_slice());
    out.put(b" ");
    out.put_number(ns.addr as u64);
}

/// The first two words of an announcement, each with a blank after it.
fn announcement_word(create: bool) -> &'static [u8]
    ensures { result.now ≡ (if create then codes "name create " else codes "name destroy ") }
{
    if create {
        b"name create "
    } else {
        b"name destroy "
    }
}

/// How many bits a scalar has.
fn bits_of(bits: Bits) -> u64
    ensures { result ≡ 8 * bytes_of_bits bits }
{
    match bits {
        Bits::B8 => 8,
        Bits::B16 => 16,
        Bits::B32 => 32,
        Bits::B64 => 64,
    }
}

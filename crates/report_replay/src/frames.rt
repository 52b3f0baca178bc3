//! Frames of letters, written by the letters' fields: a channel of a replayed state may have any number.

ghost use Rattle.std.specs.Prelude.{◌≡◌, ◌≤◌, ◌+◌, ◌++◌, IfSome, List, ℕ, [], drop, length, option_map, slice_get, take};
ghost use Rattle.mc_base.specs.Frame.{made};
ghost use Rattle.mc_base.specs.Letter.{carried, carrier_fields, fields_of, piece, piece_spelling, spelled};
ghost use Rattle.mc_base.specs.Limits.{item_size, longest_frame, piece_size, single_size};
ghost use Rattle.mc_base.specs.Pieces.{item_spellings};
ghost use Rattle.report_replay.specs.Puts.{fields_by, frames_on};
ghost use Rattle.report_replay.specs.Views.{carrier_of};

use crate::part::Carrier;
use byteorder::{ByteOrder, LittleEndian};
use mc_base::{LETTER_HEADER_SIZE, PIECE_SIZE, SINGLE_SIZE, frames_needed};
use rpmsg_frame::encode_into;

/// The fields of a letter before its content, by the table of docs/FORMATS.md.
#[derive(Clone, Copy)]
pub(crate) struct Head {
    pub(crate) version: u8,
    pub(crate) kind: u8,
    pub(crate) argument: u8,
    pub(crate) channel: u32,
}

/// From and to which address of a peer a frame goes.
#[derive(Clone, Copy)]
pub(crate) struct Way {
    pub(crate) peer: u8,
    pub(crate) source: u32,
    pub(crate) destination: u32,
}

impl Way {
    /// Writes the frame of a letter, or of a part of one, to the front of `out`, and returns its peer and its length.
    pub(crate) fn put(self, head: Head, content: &[u8], out: &mut [u8; 512]) -> (u8, usize)
        requires { length content.now ≤ single_size }
        ensures peer { result.0 ≡ self.peer }
        ensures fits { result.1 ≤ longest_frame }
        ensures frame { take result.1 out.new ≡ made self.source self.destination (spelled (fields_by head content.now)) }
    {
        let mut payload = [0; 496];
        let len = write_letter(head, content, &mut payload);
        let len = encode_into(self.source, self.destination, &payload[..len], out);
        (self.peer, len)
    }

    /// Writes the n-th frame of a message or a packet, counted from 0, to the front of `out`, and returns its peer and its length. `None` comes
    /// where so many frames or fewer carry all bytes.
    pub(crate) fn put_item(
        self,
        carrier: Carrier,
        bytes: &[u8],
        n: usize,
        out: &mut [u8; 512],
    ) -> Option<(u8, usize)>
        requires { length bytes.now ≤ item_size }
        ensures frame { option_map (λ put. (put.0, take put.1 out.new)) result ≡ slice_get (frames_on self (item_spellings (carrier_of carrier) bytes.now)) n }
        ensures fits { IfSome result (λ put. put.1 ≤ longest_frame) }
    {
        if n as u64 >= frames_needed(bytes.len()) {
            return None;
        }
        if bytes.len() <= SINGLE_SIZE {
            return Some(self.put(carrier.head(), bytes, out));
        }
        let offset = n * PIECE_SIZE;
        let (_, rest) = bytes.split_at(offset);
        let piece = &rest[..rest.len().min(PIECE_SIZE)];
        Some(self.put_piece(carrier, bytes.len() as u16, offset as u16, piece, out))
    }

    /// Writes the frame of a part of a message or a packet, and returns its peer and its length.
    fn put_piece(
        self,
        carrier: Carrier,
        total: u16,
        offset: u16,
        bytes: &[u8],
        out: &mut [u8; 512],
    ) -> (u8, usize)
        requires { length bytes.now ≤ piece_size }
        ensures peer { result.0 ≡ self.peer }
        ensures fits { result.1 ≤ longest_frame }
        ensures frame { take result.1 out.new ≡ made self.source self.destination (piece_spelling (piece (carrier_of carrier) total offset bytes.now)) }
    {
        let mut content = [0; SINGLE_SIZE];
        LittleEndian::write_u16(&mut content, total);
        LittleEndian::write_u16(&mut content[2..], offset);
        let end = PART_HEADER_SIZE + bytes.len();
        content[PART_HEADER_SIZE..end].copy_from_slice(bytes);
        self.put(carrier.piece_head(), &content[..end], out)
    }
}

impl Carrier {
    /// What stands before the bytes of a whole message or packet.
    fn head(self) -> Head
        ensures { (bytes : List ℕ) → fields_by result bytes ≡ fields_of (carried (carrier_of self) bytes) }
    {
        match self {
            Carrier::Message(priority) => Head {
                version: 1,
                kind: 1,
                argument: priority.number(),
                channel: 0,
            },
            Carrier::Packet(channel) => Head {
                version: 1,
                kind: 7,
                argument: 0,
                channel,
            },
        }
    }

    /// What stands before the numbers and the bytes of a part.
    fn piece_head(self) -> Head
        ensures { (content : List ℕ) → fields_by result content ≡ carrier_fields (carrier_of self) content }
    {
        match self {
            Carrier::Message(priority) => Head {
                version: 2,
                kind: 1,
                argument: priority.number(),
                channel: 0,
            },
            Carrier::Packet(channel) => Head {
                version: 2,
                kind: 7,
                argument: 0,
                channel,
            },
        }
    }
}

/// How many bytes of a part's content come before its own bytes: how many the whole has, and how many of those come before.
const PART_HEADER_SIZE: usize = 4;

/// Writes a letter, and returns its length. The rest of `out` stays.
fn write_letter(head: Head, content: &[u8], out: &mut [u8]) -> usize
    requires { 8 + length content.now ≤ length out.old }
    ensures written { let text = spelled (fields_by head content.now) in
        out.new ≡ text ++ drop (length text) out.old }
    ensures len { result ≡ length (spelled (fields_by head content.now)) }
{
    write_head(head, out);
    let end = LETTER_HEADER_SIZE + content.len();
    out[LETTER_HEADER_SIZE..end].copy_from_slice(content);
    end
}

/// Writes the magic number and the fields before the content. The rest of `out` stays.
fn write_head(head: Head, out: &mut [u8])
    requires { 8 ≤ length out.old }
    ensures { out.new ≡ spelled (fields_by head []) ++ drop 8 out.old }
{
    out[0] = 0x4d;
    out[1] = head.version;
    out[2] = head.kind;
    out[3] = head.argument;
    LittleEndian::write_u32(&mut out[4..], head.channel);
}

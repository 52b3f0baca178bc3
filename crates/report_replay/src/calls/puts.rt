//! The frames that a call puts where it is not refused.

ghost use Rattle.std.specs.Prelude.{◌≡◌, ◌≤◌, ◌<◌, ◌*◌, ◌^◌, ◌++◌, ◌∷◌, IfSome, None, ℕ, [], drop, false, option_map, option_to_list, slice_get, take, true, unwrap_or};
ghost use Rattle.std.specs.List.{flat_map};
ghost use Rattle.byteorder.specs.Endian.{little_bytes};
ghost use Rattle.mc_base.specs.Letter.{PlainLetter, bytes_of_bits, connect, fields_of, scalar, version_1};
ghost use Rattle.board_model.specs.State.{address_at};
ghost use Rattle.board_model.specs.Answer.{address_of, closing_letter, opening_letter, over_end, post, puts_of, refusal, success_posts, success_puts};
ghost use Rattle.report_replay.specs.PlainCalls.{plain_call};
ghost use Rattle.mc_base.specs.Limits.{longest_frame};
ghost use Rattle.report_replay.specs.Puts.{FitsFrame, fields_by, over_way, sends_item, way};

use crate::calls::call::DomainCall;
use crate::calls::words::bytes_of;
use crate::frames::{Head, Way};
use crate::part::Carrier;
use crate::state::State;
use byteorder::{ByteOrder, LittleEndian};
use mc_base::{Bits, EndName, Kind, Local, Side};

impl State {
    /// Writes the n-th frame that success puts, counted from 0, to the front of `out`, and returns its peer and its length. `None` comes where
    /// success puts so many frames or fewer.
    pub fn put_of_success(
        &self,
        node: u8,
        call: &DomainCall<'_>,
        n: usize,
        out: &mut [u8; 512],
    ) -> Option<(u8, usize)>
        requires succeeds { refusal self.now node (plain_call call.now) ≡ None }
        requires fits { FitsFrame (plain_call call.now) }
        ensures frame { option_map (λ put. (put.0, take put.1 out.new)) result ≡ slice_get (success_puts self.now node (plain_call call.now)) n }
        ensures fits { IfSome result (λ put. put.1 ≤ longest_frame) }
    {
        if call.sends_item() {
            return self.put_item(node, call, n, out);
        }
        if n > 0 {
            return None;
        }
        self.put_alone(node, call, out)
    }

    /// Writes the n-th frame of the message or packet that success puts.
    fn put_item(
        &self,
        node: u8,
        call: &DomainCall<'_>,
        n: usize,
        out: &mut [u8; 512],
    ) -> Option<(u8, usize)>
        requires succeeds { refusal self.now node (plain_call call.now) ≡ None }
        requires item { sends_item (plain_call call.now) ≡ true }
        ensures frame { option_map (λ put. (put.0, take put.1 out.new)) result ≡ slice_get (success_puts self.now node (plain_call call.now)) n }
        ensures fits { IfSome result (λ put. put.1 ≤ longest_frame) }
    {
        let here = call.here(node);
        match *call {
            DomainCall::Send {
                to,
                priority,
                bytes,
                ..
            } => {
                let carrier = Carrier::Message(priority);
                self.way_to(here, to).put_item(carrier, bytes, n, out)
            }
            DomainCall::SendPacket { bytes, .. } => {
                let Some((way, channel)) = self.way_at(here) else {
                    return None;
                };
                way.put_item(Carrier::Packet(channel), bytes, n, out)
            }
            _ => None,
        }
    }

    /// Writes the frame that success puts, if it puts one, where the call sends no message and no packet.
    fn put_alone(&self, node: u8, call: &DomainCall<'_>, out: &mut [u8; 512]) -> Option<(u8, usize)>
        requires succeeds { refusal self.now node (plain_call call.now) ≡ None }
        requires alone { sends_item (plain_call call.now) ≡ false }
        requires fits { FitsFrame (plain_call call.now) }
        ensures frame { option_to_list (option_map (λ put. (put.0, take put.1 out.new)) result) ≡ success_puts self.now node (plain_call call.now) }
        ensures fits { IfSome result (λ put. put.1 ≤ longest_frame) }
    {
        if let DomainCall::Raw { to, bytes } = *call {
            out[..bytes.len()].copy_from_slice(bytes);
            return Some((to, bytes.len()));
        }
        self.put_letter(node, call, out)
    }

    /// Writes the frame of the letter that success puts, if it puts one, where the call sends no message and no packet.
    fn put_letter(
        &self,
        node: u8,
        call: &DomainCall<'_>,
        out: &mut [u8; 512],
    ) -> Option<(u8, usize)>
        requires succeeds { refusal self.now node (plain_call call.now) ≡ None }
        requires alone { sends_item (plain_call call.now) ≡ false }
        requires fits { FitsFrame (plain_call call.now) }
        ensures fits { IfSome result (λ put. put.1 ≤ longest_frame) }
        ensures frame { option_to_list (option_map (λ put. (put.0, take put.1 out.new)) result) ≡ flat_map puts_of (success_posts self.now node (plain_call call.now)) }
    {
        let here = call.here(node);
        match *call {
            DomainCall::Connect { to, kind, .. } => {
                let head = connect_head(kind, self.channels_given + 1);
                Some(self.way_to(here, to).put(head, &[], out))
            }
            DomainCall::Open { side, .. } => {
                let Some((way, channel)) = self.way_at(here) else {
                    return None;
                };
                Some(way.put(opening_head(side, channel), &[], out))
            }
            DomainCall::SendScalar { bits, value, .. } => {
                let Some((way, channel)) = self.way_at(here) else {
                    return None;
                };
                Some(put_scalar(way, channel, bits, value, out))
            }
            DomainCall::Close { side, .. } => {
                let Some((way, channel)) = self.way_at(here) else {
                    return None;
                };
                Some(way.put(closing_head(side, channel), &[], out))
            }
            _ => None,
        }
    }

    /// The way from an endpoint to a named one.
    fn way_to(&self, here: Local, to: EndName) -> Way
        ensures { result ≡ way to.domain (unwrap_or (address_at self.now here) 0) (unwrap_or (address_of self.now to) 0) }
    {
        Way {
            peer: to.domain,
            source: self.address_at(here).unwrap_or(0),
            destination: self.address_of(to).unwrap_or(0),
        }
    }

    /// The way over the channel of an endpoint, with the channel's number.
    fn way_at(&self, here: Local) -> Option<(Way, u32)>
        ensures { (letter : ℕ → PlainLetter) → over_end self.now here letter ≡ over_way result letter }
    {
        let endpoint = self.live_at(here)?;
        let end = endpoint.channel?;
        let way = Way {
            peer: end.peer,
            source: endpoint.address,
            destination: end.peer_address,
        };
        Some((way, end.number))
    }
}

impl DomainCall<'_> {
    /// Whether the call sends a message or a packet, which may go in several frames.
    fn sends_item(&self) -> bool
        ensures { result ≡ sends_item (plain_call self.now) }
    {
        matches!(
            self,
            DomainCall::Send { .. } | DomainCall::SendPacket { .. }
        )
    }
}

fn head(kind: u8, argument: u8, channel: u32) -> Head
    ensures { fields_by result [] ≡ version_1 kind argument channel [] }
{
    Head {
        version: 1,
        kind,
        argument,
        channel,
    }
}

fn connect_head(kind: Kind, channel: u32) -> Head
    ensures { fields_by result [] ≡ fields_of (connect channel kind) }
{
    match kind {
        Kind::Packet => head(2, 0, channel),
        Kind::Scalar => head(2, 1, channel),
    }
}

fn opening_head(side: Side, channel: u32) -> Head
    ensures { fields_by result [] ≡ fields_of (opening_letter side channel) }
{
    match side {
        Side::Sender => head(6, 0, channel),
        Side::Receiver => head(5, 0, channel),
    }
}

fn closing_head(side: Side, channel: u32) -> Head
    ensures { fields_by result [] ≡ fields_of (closing_letter side channel) }
{
    match side {
        Side::Sender => head(9, 0, channel),
        Side::Receiver => head(10, 0, channel),
    }
}

/// Writes the frame of a scalar.
fn put_scalar(way: Way, channel: u32, bits: Bits, value: u64, out: &mut [u8; 512]) -> (u8, usize)
    requires { value < 2 ^ (8 * bytes_of_bits bits) }
    ensures fits { result.1 ≤ 512 }
    ensures frame { (result.0, take result.1 out.new) ∷ [] ≡ puts_of (post way.peer way.source way.destination (scalar channel bits value)) }
{
    let mut content = [0; 8];
    let width = scalar_into(bits, value, &mut content);
    way.put(head(8, width as u8, channel), &content[..width], out)
}

/// Writes the bytes of a scalar, and returns how many they are. The rest of `out` stays.
fn scalar_into(bits: Bits, value: u64, out: &mut [u8; 8]) -> usize
    requires fits { value < 2 ^ (8 * bytes_of_bits bits) }
    ensures written { out.new ≡ little_bytes (bytes_of_bits bits) value ++ drop (bytes_of_bits bits) out.old }
    ensures len { result ≡ bytes_of_bits bits }
{
    let width = bytes_of(bits);
    LittleEndian::write_uint(out, value, width);
    width
}

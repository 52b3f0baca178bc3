//! The frames that are owed to a peer.

ghost use Rattle.std.specs.Prelude.{◌≡◌, ◌≤◌, ◌+◌, ◌++◌, [], IfSome, IsTrue, Some, decimal, length, option_map, slice_get, take};
ghost use Rattle.arrayvec.specs.ArrayVec.{array_vec_len};
ghost use Rattle.mc_base.specs.Announcement.{is_name};
ghost use Rattle.mc_base.specs.Frame.{made};
ghost use Rattle.mc_base.specs.FullName.{full_name, end_name};
ghost use Rattle.mc_base.specs.Letter.{reason_number as number_of, spelled, version_1};
ghost use Rattle.board_model.specs.State.{Peer as Plain, peer_of, owed_to, announcing, replying};
ghost use Rattle.report_replay.specs.Views.{announcement_of, reply_of};

use crate::peer::{Announcement, Peer, Reply};
use crate::state::State;
use arrayvec::ArrayVec;
use byteorder::{ByteOrder, LittleEndian};
use itoa::Buffer;
use mc_base::{BUFFER_SIZE, Local, NAME_SERVICE_ADDRESS, NAME_SIZE, NS_SIZE, Ns, Reason};
use name_service::write_ns;
use rpmsg_frame::encode_into;

impl State {
    /// Writes the first frame that is owed to a peer to the front of `out`, and returns its length.
    pub fn owed_frame(&self, peer: u8, out: &mut [u8; BUFFER_SIZE]) -> Option<usize>
        ensures frame { (p : Plain) → peer_of self.now peer ≡ Some p
            → option_map (λ n. take n out.new) result ≡ slice_get (owed_to self.now.number p) 0 }
        ensures fits { IfSome result (λ n. n ≤ 512) }
    {
        let domain = self.number;
        self.peer_numbered(peer)?.owed_frame(domain, out)
    }
}

impl Peer {
    /// Writes the first frame that a domain owes to it to the front of `out`, and returns its length.
    pub(crate) fn owed_frame(&self, domain: u8, out: &mut [u8; BUFFER_SIZE]) -> Option<usize>
        ensures frame { option_map (λ n. take n out.new) result ≡ slice_get (owed_to domain self.now) 0 }
        ensures fits { IfSome result (λ n. n ≤ 512) }
    {
        if let Some(announcement) = self.announcements.first() {
            return Some(write_announcement(domain, announcement, out));
        }
        let reply = self.replies.first()?;
        Some(write_reply(reply, out))
    }
}

/// Writes the frame of an announcement by a domain, and returns its length.
fn write_announcement(domain: u8, announcement: &Announcement, out: &mut [u8]) -> usize
    requires room { length out.old ≡ 512 }
    ensures frame { take result out.new ≡ announcing domain (announcement_of announcement.now) }
    ensures fits { result ≤ 512 }
{
    let ns = Ns {
        name: full_name(domain, announcement.local),
        addr: announcement.address,
        create: announcement.create,
    };
    let mut payload = [0; NS_SIZE];
    write_ns(&ns, &mut payload);
    encode_into(ns.addr, NAME_SERVICE_ADDRESS, &payload, out)
}

/// The full name of an endpoint of a domain.
fn full_name(domain: u8, local: Local) -> ArrayVec<u8, NAME_SIZE>
    ensures bytes { result.items ≡ full_name (end_name domain local) }
    ensures lawful { IsTrue (is_name result.items) }
{
    let mut name = ArrayVec::new();
    let _room = name.try_extend_from_slice(b"mcapi:");
    push_number(&mut name, domain as u16);
    name.push(b':');
    push_number(&mut name, local.node as u16);
    name.push(b':');
    push_number(&mut name, local.port);
    name
}

/// Appends a number in decimal.
fn push_number(name: &mut ArrayVec<u8, NAME_SIZE>, n: u16)
    requires { array_vec_len name.old + length (decimal n) ≤ 31 }
    ensures bytes { name.new.items ≡ name.old.items ++ decimal n }
    ensures len { array_vec_len name.new ≡ array_vec_len name.old + length (decimal n) }
{
    let mut digits = Buffer::new();
    let _room = name.try_extend_from_slice(digits.format(n).as_bytes());
}

/// Writes the frame of a reply, and returns its length.
fn write_reply(reply: &Reply, out: &mut [u8]) -> usize
    requires room { length out.old ≡ 512 }
    ensures frame { take result out.new ≡ replying (reply_of reply.now) }
    ensures fits { result ≤ 512 }
{
    let payload = match reply.reason {
        None => bare_letter(3, 0, reply.channel),
        Some(reason) => bare_letter(4, reason_number(reason), reply.channel),
    };
    encode_into(reply.source, reply.destination, &payload, out)
}

/// The number that stands for a reason.
fn reason_number(reason: Reason) -> u8
    ensures { result ≡ number_of reason }
{
    match reason {
        Reason::NoEndpoint => 1,
        Reason::Connected => 2,
        Reason::Busy => 3,
    }
}

/// A letter without content.
fn bare_letter(kind: u8, argument: u8, channel: u32) -> [u8; 8]
    ensures { result ≡ spelled (version_1 kind argument channel []) }
{
    let mut payload = [0x4d, 1, kind, argument, 0, 0, 0, 0];
    LittleEndian::write_u32(&mut payload[4..], channel);
    payload
}

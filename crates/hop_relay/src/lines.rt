//! The lines that actors of a relay give.

ghost use Rattle.std.specs.Prelude.{◌≡◌, ◌≤◌, ◌<◌, ◌+◌, ◌++◌, ◌∷◌, [], decimal, length};
ghost use Rattle.std.specs.List.{AllByRecursion};
ghost use Rattle.arrayvec.specs.ArrayVec.{array_vec_len};
ghost use Rattle.board_model.specs.Forms.{label_of};
ghost use Rattle.board_model.specs.MadeLines.{
  once as line_once,
  tried as line_tried,
  labelled as line_labelled,
  labelled_tried as line_labelled_tried,
  waited as line_waited,
  packet_label as label_of_packet,
};
ghost use Rattle.hop_relay.specs.Roles.{
  close_recv_line,
  close_send_line,
  open_recv_line,
  open_send_line,
  receive_line,
  receiver_of,
  release_line,
  send_line,
};

use board_model::{Call, CallLine, Label, Seq};
use itoa::Buffer;
use mc_base::{EndName, Kind};

/// A line with neither label nor tries.
pub fn once(domain: u8, call: Call) -> CallLine
    ensures { result ≡ line_once domain call }
{
    CallLine {
        domain,
        node: 0,
        label: None,
        tries: None,
        call,
    }
}

/// A line that is tried as often as a line may be.
pub fn tried(domain: u8, call: Call) -> CallLine
    ensures { result ≡ line_tried domain call }
{
    CallLine {
        domain,
        node: 0,
        label: None,
        tries: Some(u32::MAX),
        call,
    }
}

/// A line with a label.
pub fn labelled(domain: u8, label: Label, call: Call) -> CallLine
    ensures { result ≡ line_labelled domain label.items call }
{
    CallLine {
        domain,
        node: 0,
        label: Some(label),
        tries: None,
        call,
    }
}

/// A line with a label that is tried as often as a line may be.
pub fn labelled_tried(domain: u8, label: Label, call: Call) -> CallLine
    ensures { result ≡ line_labelled_tried domain label.items call }
{
    CallLine {
        domain,
        node: 0,
        label: Some(label),
        tries: Some(u32::MAX),
        call,
    }
}

/// The line that waits for a request as long as a line may.
pub fn waited(domain: u8, label: Label) -> CallLine
    ensures { result ≡ line_waited domain label.items }
{
    let limit = u32::MAX;
    once(domain, Call::Wait { label, limit })
}

/// The endpoint at which a domain receives.
pub fn receiver(domain: u8) -> EndName
    ensures { result ≡ receiver_of domain }
{
    EndName {
        domain,
        node: 0,
        port: 2,
    }
}

pub fn open_send(domain: u8) -> CallLine
    ensures { result ≡ open_send_line domain }
{
    let kind = Kind::Packet;
    tried(domain, Call::OpenSend { port: 1, kind })
}

pub fn open_recv(domain: u8) -> CallLine
    ensures { result ≡ open_recv_line domain }
{
    let kind = Kind::Packet;
    tried(domain, Call::OpenRecv { port: 2, kind })
}

/// Sends a packet, whose bytes move into the line.
pub fn send(domain: u8, bytes: Vec<u8>) -> CallLine
    ensures line { result ≡ send_line domain bytes.items }
    ensures bytes { AllByRecursion (λ b. b < 256) bytes.items }
{
    let bytes = Seq::new(bytes);
    tried(domain, Call::PktSend { port: 1, bytes })
}

/// The receive of this number, counted from 1.
pub fn receive(domain: u8, packet: u32) -> CallLine
    ensures { result ≡ receive_line domain packet }
{
    labelled_tried(domain, packet_label(packet), Call::PktRecv { port: 2 })
}

/// The release of the packet that the receive of this number brought.
pub fn release(domain: u8, packet: u32) -> CallLine
    ensures { result ≡ release_line domain packet }
{
    let label = packet_label(packet);
    tried(domain, Call::Release { label })
}

pub fn close_send(domain: u8) -> CallLine
    ensures { result ≡ close_send_line domain }
{
    tried(domain, Call::CloseSend { port: 1 })
}

pub fn close_recv(domain: u8) -> CallLine
    ensures { result ≡ close_recv_line domain }
{
    tried(domain, Call::CloseRecv { port: 2 })
}

/// A label of one letter.
pub fn letter(letter: u8) -> Label
    ensures { result.items ≡ letter ∷ [] }
{
    let mut label = Label::new();
    label.push(letter);
    label
}

/// The label of a packet: `p` and its number.
fn packet_label(packet: u32) -> Label
    ensures { result ≡ label_of (label_of_packet packet) }
{
    let mut label = Label::new();
    label.push(b'p');
    push_number(&mut label, packet);
    label
}

/// Appends a number in decimal.
fn push_number(label: &mut Label, n: u32)
    requires { array_vec_len label.old + length (decimal n) ≤ 16 }
    ensures { label.new.items ≡ label.old.items ++ decimal n }
{
    let mut digits = Buffer::new();
    let _room = label.try_extend_from_slice(digits.format(n).as_bytes());
}

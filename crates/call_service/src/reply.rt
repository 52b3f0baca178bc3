//! Replies.

ghost use Rattle.std.specs.Prelude.{◌≡◌, ◌≤◌, ◌++◌, length, drop};
ghost use Rattle.call_service.specs.Bytes.{reply_bytes, reply_head, status_byte};

use byteorder::{ByteOrder, LittleEndian};

/// The first byte of a reply.
const REPLY_MARK: u8 = 0x52;

/// What became of a request.
#[derive(Clone, Copy, Debug)]
pub enum Status {
    /// The call was carried out.
    Done,
    /// The call was carried out, and its sum was over the greatest `u64`.
    Over,
    /// The call was carried out, and a later one of its client too.
    Old,
    /// The call is not its client's next.
    Gap,
}

/// The status of a reply, and the value that it carries.
#[derive(Clone, Copy, Debug)]
pub struct Reply {
    pub status: Status,
    pub value: u64,
}

fn byte_of_status(status: Status) -> u8
    ensures { result ≡ status_byte status }
{
    match status {
        Status::Done => 0,
        Status::Over => 1,
        Status::Old => 2,
        Status::Gap => 3,
    }
}

/// Writes the reply to a call of this number. What is behind its 16 bytes stays.
pub fn write_reply(number: u32, reply: Reply, out: &mut [u8])
    requires { 16 ≤ length out.old }
    ensures { out.new ≡ reply_bytes number reply ++ drop 16 out.old }
{
    write_head(reply.status, number, out);
    LittleEndian::write_u64(&mut out[8..], reply.value);
}

/// Writes the first eight bytes of a reply. What is behind them stays.
fn write_head(status: Status, number: u32, out: &mut [u8])
    requires { 8 ≤ length out.old }
    ensures { out.new ≡ reply_head status number ++ drop 8 out.old }
{
    out[0] = REPLY_MARK;
    out[1] = byte_of_status(status);
    out[2] = 0;
    out[3] = 0;
    LittleEndian::write_u32(&mut out[4..], number);
}

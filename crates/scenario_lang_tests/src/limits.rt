use crate::reading::{is_read, is_refused};
use scenario_lang::LineReason;
use std::alloc::{AllocError, Global};
use std::process::Abort;
use std::test::Fail;

const MESSAGE: &[u8] = b"0.0 msg_send 1 0:0:2 1 ";

const PACKET: &[u8] = b"0.0 pkt_send 1 ";

const RAW: &[u8] = b"0.0 raw 0 ";

/// How the line begins, how many bytes and blanks it has, and the reason for which it is refused, if it is.
type Limit = (&'static [u8], u32, u32, Option<LineReason>);

static LIMITS: [Limit; 13] = [
    (MESSAGE, 9000, 0, None),
    (MESSAGE, 9001, 0, Some(LineReason::Bytes)),
    (MESSAGE, 9000, 1977, None),
    (MESSAGE, 9000, 1978, Some(LineReason::Long)),
    (MESSAGE, 9999, 0, Some(LineReason::Long)),
    (PACKET, 489, 0, None),
    (PACKET, 9000, 1985, None),
    (PACKET, 9001, 0, Some(LineReason::Bytes)),
    (PACKET, 9000, 1986, Some(LineReason::Long)),
    (RAW, 1, 0, None),
    (RAW, 512, 0, None),
    (RAW, 513, 0, Some(LineReason::Bytes)),
    (RAW, 9001, 0, Some(LineReason::Bytes)),
];

/// A domain line, and a call line that begins so, with as many bytes and as many blanks at its end.
fn sending(alloc: Global, front: &[u8], bytes: u32, blanks: u32) -> Result<Vec<u8>, AllocError> {
    let mut text = Vec::from_slice(alloc, b"domain 0 nodes 1 pool 1\n")?;
    text.extend_from_slice(front)?;
    for _ in 0..bytes {
        text.extend_from_slice(b"5a")?;
    }
    for _ in 0..blanks {
        text.push(b' ')?;
    }
    Ok(text)
}

fn is_limit(alloc: Global, (front, bytes, blanks, reason): Limit) -> Result<bool, AllocError> {
    let text = sending(alloc, front, bytes, blanks)?;
    Ok(match reason {
        None => is_read(alloc, &text),
        Some(reason) => is_refused(alloc, &text, 2, reason),
    })
}

/// Whether a remark is read behind the longest line, and refused where it is too long itself.
fn is_remark_limited(alloc: Global) -> Result<bool, AllocError> {
    let mut text = sending(alloc, MESSAGE, 9000, 1977)?;
    text.extend_from_slice(b"\r\n#")?;
    let short = is_read(alloc, &text);
    for _ in 0..20_000 {
        text.push(b'x')?;
    }
    Ok(short && is_refused(alloc, &text, 3, LineReason::Long))
}

#[test]
fn bytes_and_lines_at_their_limits(rt: HostRuntime) -> Result<(), Fail> {
    for (i, row) in LIMITS.iter().enumerate() {
        assert!(rt; is_limit(rt.alloc(), *row)?, "row {i}");
    }
    assert!(rt; is_remark_limited(rt.alloc())?);
    Ok(())
}

//! Requests and their replies as rows of tables.

use call_service::{Service, ServiceFault};

/// Client, cell, number and amount.
pub type Ask = (u8, u8, u32, u64);

/// A request, and the status and value of its reply, or its fault.
pub type Row = (Ask, Result<(u8, u64), ServiceFault>);

pub const DONE: u8 = 0;

pub const OVER: u8 = 1;

pub const OLD: u8 = 2;

pub const GAP: u8 = 3;

/// What stands in a reply before it is written.
pub const UNWRITTEN: [u8; 16] = [9; 16];

/// The sixteen bytes with these four in front, a number and a value.
fn laid_out(front: [u8; 4], number: u32, value: u64) -> [u8; 16] {
    let [a, b, c, d] = front;
    let [e, f, g, h] = number.to_le_bytes();
    let [i, j, k, l, m, n, o, p] = value.to_le_bytes();
    [a, b, c, d, e, f, g, h, i, j, k, l, m, n, o, p]
}

pub fn request((client, cell, number, amount): Ask) -> [u8; 16] {
    laid_out([0x51, client, cell, 0], number, amount)
}

/// Whether a request has its reply, or its fault and no reply.
pub fn holds(service: &mut Service, &(ask, due): &Row) -> bool {
    let mut reply = UNWRITTEN;
    let answer = service.handle(&request(ask), &mut reply);
    match due {
        Ok((status, value)) => {
            answer == Ok(ask.0) && reply == laid_out([0x52, status, 0, 0], ask.2, value)
        }
        Err(fault) => answer == Err(fault) && reply == UNWRITTEN,
    }
}

/// Returns the place of the first row that does not hold.
pub fn first_wrong(service: &mut Service, rows: &[Row]) -> Option<usize> {
    for (i, row) in rows.iter().enumerate() {
        if !holds(service, row) {
            return Some(i);
        }
    }
    None
}

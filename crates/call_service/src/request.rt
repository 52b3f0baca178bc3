//! Requests.

ghost use Rattle.std.specs.Prelude.{◌≡◌};
ghost use Rattle.call_service.specs.Bytes.{request_in};

use byteorder::{ByteOrder, LittleEndian};
use thiserror::Error;

/// How many bytes a request has.
const REQUEST_LEN: usize = 16;

/// The first byte of a request.
const REQUEST_MARK: u8 = 0x51;

/// A client's call: its number, and what it adds to which cell.
#[derive(Clone, Copy, Debug)]
pub struct Request {
    pub client: u8,
    pub cell: u8,
    pub number: u32,
    pub amount: u64,
}

/// Why a request was not handled: the first of these that holds.
#[derive(Clone, Copy, Debug, PartialEq, Eq, Error)]
pub enum ServiceFault {
    #[error("a request has 16 bytes, the first 0x51 and the fourth 0")]
    Form,
    #[error("the client of a request is a domain from 1 to 7")]
    Client,
    #[error("the cell of a request is one from 0 to 15")]
    Cell,
    #[error("the service has carried out as many calls as it was made for")]
    Full,
}

/// Reads a request from its bytes (docs/PROFILE.md, "Numbered calls").
///
/// # Errors
///
/// The first of `Form`, `Client` and `Cell` that holds of the bytes.
pub fn read_request(bytes: &[u8]) -> Result<Request, ServiceFault>
    ensures { result ≡ request_in bytes.now }
{
    if bytes.len() != REQUEST_LEN || bytes[0] != REQUEST_MARK || bytes[3] != 0 {
        return Err(ServiceFault::Form);
    }
    let client = bytes[1];
    if client == 0 || client > 7 {
        return Err(ServiceFault::Client);
    }
    let cell = bytes[2];
    if cell > 15 {
        return Err(ServiceFault::Cell);
    }
    Ok(Request {
        client,
        cell,
        number: LittleEndian::read_u32(&bytes[4..]),
        amount: LittleEndian::read_u64(&bytes[8..]),
    })
}

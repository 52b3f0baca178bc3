//! The statuses that the program ends with: those of `mcrun`.

ghost use Rattle.std.specs.Prelude.{◌≡◌, OnErr, OnOk};
ghost use Rattle.view_cli.specs.Statuses.{status_after};

use outer_io::{Failed, ReadFault};

/// The report was read, and the output is written whole.
pub const DONE: u8 = 0;

/// The same, and a call was refused, or an answer is not as expected.
pub const FOUND: u8 = 1;

/// The words are none of the forms.
pub const USAGE: u8 = 2;

/// The input is no report, or not one that the form can show.
pub const NO_REPORT: u8 = 3;

/// The source failed.
pub const READ_FAILED: u8 = 4;

/// The sink failed.
pub const WRITE_FAILED: u8 = 5;

/// Out of memory.
pub const NO_MEMORY: u8 = 6;

/// More bytes came than the limit.
pub const TOO_LONG: u8 = 7;

/// Returns this status after a write that went through, and that of a failed write after one that failed.
pub fn after_write(written: Result<(), Failed>, status: u8) -> u8
    ensures whole { OnOk written (result ≡ status) }
    ensures failed { OnErr written (result ≡ 5) }
{
    match written {
        Ok(()) => status,
        Err(Failed) => WRITE_FAILED,
    }
}

/// Returns the status after an input that was not read to its end.
pub fn after_read(fault: ReadFault) -> u8
    ensures { result ≡ status_after fault }
{
    match fault {
        ReadFault::Failed => READ_FAILED,
        ReadFault::TooLong => TOO_LONG,
        ReadFault::NoMemory => NO_MEMORY,
    }
}

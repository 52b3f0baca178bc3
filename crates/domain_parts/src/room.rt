//! The room that a call needs in a journal.

/// The number of journal entries for which a call needs room.
pub const CALL_ENTRIES: u32 = 176;

/// The number of bytes in these entries for which a call needs room.
pub const CALL_BYTES: u32 = 90_112;

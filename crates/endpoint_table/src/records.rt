//! The records in use, in rising order of their addresses.

ghost use Rattle.std.specs.Prelude.{◌≡◌, ◌≢◌, ◌==◌, IfErr, IfOk, find, filter, map, not, vec_capacity};
ghost use Rattle.std.specs.List.{AllByRecursion};
ghost use Rattle.std.specs.Ordering.{nat_cmp};
ghost use Rattle.endpoint_table.specs.Table.{ended, has_live_address};
ghost use Rattle.endpoint_table.specs.InTable.{IsPlace, IsRising};

use crate::record::Record;

/// The record of the live endpoint of this address.
pub fn with_address(records: &[Record], address: u32) -> Option<Record>
    requires { IsRising records.now }
    ensures { result ≡ find (has_live_address address) records.now }
{
    match place_of(records, address) {
        Ok(place) if records[place].live => Some(records[place]),
        _ => None,
    }
}

/// Returns the place of the record of this address, by binary search, or else where it would be inserted.
fn place_of(records: &[Record], address: u32) -> Result<usize, usize>
    requires { IsRising records.now }
    ensures found { IfOk result (IsPlace records.now address) }
    ensures absent { IfErr result (λ _. AllByRecursion (λ r. r.address ≢ address) records.now) }
{
    records.binary_search_by(
        |r|
            ensures { result ≡ nat_cmp r.now.address address }
        { r.address.cmp(&address) },
    )
}

/// Notes that the endpoint of this address is live no more.
pub fn end(records: &mut [Record], address: u32)
    ensures { records.new ≡ map (ended address) records.old }
{
    for record in records.iter_mut() {
        record.end(address);
    }
}

/// Takes out the record of this address.
pub fn free(records: &mut Vec<Record>, address: u32)
    ensures items { records.new.items ≡ filter (λ r. not (r.address == address)) records.old.items }
    ensures capacity { vec_capacity records.new ≡ vec_capacity records.old }
{
    records.retain(|r| r.address != address);
}

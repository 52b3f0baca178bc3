use crate::rows::UNWRITTEN;
use ServiceFault::{Cell, Client, Form, Full};
use call_service::{Service, ServiceFault};
use std::error::Error;
use std::fmt::InlineText;
use std::test::Fail;

/// The bytes of a request, and its fault.
type Row = (&'static [u8], ServiceFault);

/// What is wrong with each in front, and what would be wrong next behind it. The service is full.
const FAULTS: [Row; 12] = [
    (&[], Form),
    (&[0x51, 8, 16, 0, 1, 0, 0, 0, 1, 0, 0, 0, 0, 0, 0], Form),
    (
        &[0x51, 8, 16, 0, 1, 0, 0, 0, 1, 0, 0, 0, 0, 0, 0, 0, 0],
        Form,
    ),
    (&[0x52, 8, 16, 0, 1, 0, 0, 0, 1, 0, 0, 0, 0, 0, 0, 0], Form),
    (&[0x53, 1, 0, 0, 0, 0, 0, 0, 0, 0, 0, 0, 0, 0, 0, 0], Form),
    (&[0x51, 8, 16, 1, 1, 0, 0, 0, 1, 0, 0, 0, 0, 0, 0, 0], Form),
    (
        &[0x51, 0, 16, 0, 1, 0, 0, 0, 1, 0, 0, 0, 0, 0, 0, 0],
        Client,
    ),
    (
        &[0x51, 8, 16, 0, 1, 0, 0, 0, 1, 0, 0, 0, 0, 0, 0, 0],
        Client,
    ),
    (
        &[0x51, 255, 0, 0, 1, 0, 0, 0, 1, 0, 0, 0, 0, 0, 0, 0],
        Client,
    ),
    (&[0x51, 1, 16, 0, 1, 0, 0, 0, 1, 0, 0, 0, 0, 0, 0, 0], Cell),
    (&[0x51, 7, 255, 0, 1, 0, 0, 0, 1, 0, 0, 0, 0, 0, 0, 0], Cell),
    (&[0x51, 7, 15, 0, 1, 0, 0, 0, 1, 0, 0, 0, 0, 0, 0, 0], Full),
];

fn is_refused(service: &mut Service, &(bytes, fault): &Row) -> bool {
    let mut reply = UNWRITTEN;
    service.handle(bytes, &mut reply) == Err(fault) && reply == UNWRITTEN
}

/// Whether a fault says something, in at most 160 bytes.
fn has_text<E: Error>(fault: E) -> bool {
    let text: InlineText<160> = InlineText::of(fault);
    !text.as_str().is_empty()
}

#[test]
fn the_first_fault_counts(rt: HostRuntime) -> Result<(), Fail> {
    let mut service = Service::new(rt.alloc(), 0)?;
    for (i, row) in FAULTS.iter().enumerate() {
        assert!(rt; is_refused(&mut service, row), "row {i}");
        assert!(rt; has_text(row.1), "row {i}");
    }
    Ok(())
}

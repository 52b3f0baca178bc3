use mc_base::EndName;
use name_service::{endpoint_named, full_names_read_back};
use std::process::Abort;

/// A text, and the domain, node and port that it names, if it is a full name.
type Row = (&'static [u8], Option<(u8, u8, u16)>);

const NAMES: [Row; 42] = [
    (b"mcapi:0:0:0", Some((0, 0, 0))),
    (b"mcapi:1:0:5", Some((1, 0, 5))),
    (b"mcapi:7:15:65535", Some((7, 15, 65535))),
    (b"mcapi:255:9:10", Some((255, 9, 10))),
    (b"mcapi:3:10:100", Some((3, 10, 100))),
    // A leading zero.
    (b"mcapi:01:0:5", None),
    (b"mcapi:1:00:5", None),
    (b"mcapi:1:0:05", None),
    (b"mcapi:1:0:00", None),
    // A number that is too large, also where it would wrap.
    (b"mcapi:256:0:5", None),
    (b"mcapi:1:16:5", None),
    (b"mcapi:1:256:5", None),
    (b"mcapi:1:0:65536", None),
    (b"mcapi:1:0:100000", None),
    (b"mcapi:1:0:4294967296", None),
    (b"mcapi:1:0:18446744073709551616", None),
    // A colon too few or too many.
    (b"mcapi1:0:5", None),
    (b"mcapi:10:5", None),
    (b"mcapi:1:05", None),
    (b"mcapi:1:0", None),
    (b"mcapi:1:0:5:", None),
    (b"mcapi:1:0:5:6", None),
    (b"mcapi::1:0:5", None),
    (b":mcapi:1:0:5", None),
    // Nothing where a number is due.
    (b"mcapi::0:5", None),
    (b"mcapi:1::5", None),
    (b"mcapi:1:0:", None),
    (b"mcapi:::", None),
    (b"mcapi:", None),
    (b"", None),
    // Other bytes.
    (b"MCAPI:1:0:5", None),
    (b"mcapj:1:0:5", None),
    (b"mcap:1:0:5", None),
    (b" mcapi:1:0:5", None),
    (b"mcapi:1:0:5 ", None),
    (b"mcapi:+1:0:5", None),
    (b"mcapi:1:-0:5", None),
    (b"mcapi:1:0:5\0", None),
    (b"mcapi:1:0:a", None),
    // As long as the name of an announcement is at most.
    (b"mcapi:7:15:65535:65535:65535:65", None),
    (b"mcapi:1:0:000000000000000000005", None),
    (b"mcapi:1:0:500000000000000000000", None),
];

/// The numbers of an endpoint's name.
fn numbers(name: EndName) -> (u8, u8, u16) {
    (name.domain, name.node, name.port)
}

fn assert_named(rt: &impl Abort, rows: &[Row]) {
    for (i, (name, named)) in rows.iter().enumerate() {
        assert!(rt; endpoint_named(name).map(numbers) == *named, "row {i}");
    }
}

#[test]
fn full_names_are_read(rt: HostRuntime) {
    assert_named(&rt, &NAMES);
    full_names_read_back();
}

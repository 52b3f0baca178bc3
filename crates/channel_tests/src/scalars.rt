use mc_base::{Bits, SclSize};
use scalar_channel::{read_scalar, scalars_are_read_back, write_scalar};
use std::test::Fail;

/// Bits, a value that fits them, and its bytes.
type Row = (Bits, u64, &'static [u8]);

const SCALARS: [Row; 10] = [
    (Bits::B8, 0, &[0]),
    (Bits::B8, 255, &[255]),
    (Bits::B16, 4660, &[0x34, 0x12]),
    (Bits::B16, 65_535, &[255, 255]),
    (Bits::B32, 0, &[0, 0, 0, 0]),
    (Bits::B32, 0x0102_0304, &[4, 3, 2, 1]),
    (Bits::B32, 4_294_967_295, &[255, 255, 255, 255]),
    (Bits::B64, 1, &[1, 0, 0, 0, 0, 0, 0, 0]),
    (Bits::B64, 0x0102_0304_0506_0708, &[8, 7, 6, 5, 4, 3, 2, 1]),
    (Bits::B64, u64::MAX, &[255; 8]),
];

/// Whether the value is read from its bytes, and from these alone.
fn is_read(&(bits, value, bytes): &Row) -> bool {
    read_scalar(bits, bytes) == Ok(value)
}

#[test]
fn values_are_read_from_their_bytes(rt: HostRuntime) -> Result<(), Fail> {
    scalars_are_read_back();
    for (i, row) in SCALARS.iter().enumerate() {
        assert!(rt; is_read(row), "row {i}");
    }
    Ok(())
}

/// Whether these bytes are refused as a scalar of any bits but those of this many bytes.
fn is_of_width(bytes: &[u8], width: usize) -> bool {
    let widths = [
        (Bits::B8, 1),
        (Bits::B16, 2),
        (Bits::B32, 4),
        (Bits::B64, 8),
    ];
    for (bits, due) in widths {
        if (read_scalar(bits, bytes) == Err(SclSize)) == (due == width) {
            return false;
        }
    }
    true
}

#[test]
fn another_number_of_bytes_is_refused(rt: HostRuntime) -> Result<(), Fail> {
    let bytes = [7u8; 9];
    for width in 0..10 {
        assert!(rt; is_of_width(&bytes[..width], width), "{width} bytes");
    }
    Ok(())
}

/// Writes the greatest value of these bits, and 4660 where it fits.
fn written() -> [(usize, [u8; 8]); 4] {
    let mut out = [9u8; 8];
    let one = write_scalar(Bits::B8, 255, &mut out);
    let first = out;
    let two = write_scalar(Bits::B16, 4660, &mut out);
    let second = out;
    let four = write_scalar(Bits::B32, 4_294_967_295, &mut out);
    let third = out;
    let eight = write_scalar(Bits::B64, 1, &mut out);
    [(one, first), (two, second), (four, third), (eight, out)]
}

#[test]
fn a_value_is_written_and_the_rest_stays(rt: HostRuntime) -> Result<(), Fail> {
    let due = [
        (1, [255, 9, 9, 9, 9, 9, 9, 9]),
        (2, [0x34, 0x12, 9, 9, 9, 9, 9, 9]),
        (4, [255, 255, 255, 255, 9, 9, 9, 9]),
        (8, [1, 0, 0, 0, 0, 0, 0, 0]),
    ];
    assert!(rt; written() == due);
    Ok(())
}

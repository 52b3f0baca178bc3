//! Images of rings, as their bytes: what they are of, and where they are wrong.

use super::{EMPTY, Given, USAGE, assert_limits, assert_lines, assert_outcomes, comes_out};
use std::alloc::{AllocError, Global};
use std::test::Fail;

const RING: &[&str] = &["ring"];

/// A ring of size 4, queue 1, after one frame of 26 bytes went over and its buffer came back.
const ONE_FRAME: &[u8] = &[
    0, 8, 0, 0, 0, 0, 0, 0, 26, 0, 0, 0, 0, 0, 0, 0, // descriptor 0
    0, 10, 0, 0, 0, 0, 0, 0, 0, 0, 0, 0, 0, 0, 0, 0, // descriptor 1
    0, 12, 0, 0, 0, 0, 0, 0, 0, 0, 0, 0, 0, 0, 0, 0, // descriptor 2
    0, 14, 0, 0, 0, 0, 0, 0, 0, 0, 0, 0, 0, 0, 0, 0, // descriptor 3
    0, 0, 1, 0, 0, 0, 0, 0, 0, 0, 0, 0, 0, 0, // available ring
    0, 0, // gap
    0, 0, 1, 0, // used ring
    0, 0, 0, 0, 0, 0, 0, 0, 0, 0, 0, 0, 0, 0, 0, 0, // elements 0 and 1
    0, 0, 0, 0, 0, 0, 0, 0, 0, 0, 0, 0, 0, 0, 0, 0, // elements 2 and 3
    0, 0, // avail_event
];

/// A new ring of size 2, queue 0, whose buffers the driver has offered.
const OFFERED: &[u8] = &[
    0, 0, 0, 0, 0, 0, 0, 0, 0, 2, 0, 0, 2, 0, 0, 0, // descriptor 0
    0, 2, 0, 0, 0, 0, 0, 0, 0, 2, 0, 0, 2, 0, 0, 0, // descriptor 1
    0, 0, 2, 0, 0, 0, 1, 0, 0, 0, // available ring
    0, 0, // gap
    0, 0, 0, 0, // used ring
    0, 0, 0, 0, 0, 0, 0, 0, 0, 0, 0, 0, 0, 0, 0, 0, // elements 0 and 1
    0, 0, // avail_event
];

/// The form `ring` on some bytes, with streams that fail nowhere.
fn ring(text: &[u8]) -> Given<'_> {
    Given {
        words: RING,
        text,
        ..EMPTY
    }
}

/// An image, the bytes that are changed in it with their places, and the status and the line that come of it.
type Changed<'a> = (&'a [u8], &'a [(usize, u8)], u8, &'a str);

static CHANGED: [Changed<'static>; 15] = [
    (ONE_FRAME, &[], 0, "right 4 1 1 1\n"),
    (OFFERED, &[], 0, "right 2 0 2 0\n"),
    (ONE_FRAME, &[(82, 6), (83, 0)], 1, "wrong 82 idx_ahead\n"),
    (OFFERED, &[(12, 3)], 1, "wrong 12 constant\n"),
    (OFFERED, &[(38, 2), (39, 0)], 1, "wrong 38 id_range\n"),
    (ONE_FRAME, &[(84, 4)], 1, "wrong 84 id_range\n"),
    (ONE_FRAME, &[(8, 1), (9, 2)], 1, "wrong 8 len_range\n"),
    (ONE_FRAME, &[(88, 1)], 1, "wrong 88 len_range\n"),
    // With the flags of the first descriptor the image is one of queue 0, whose buffers lie elsewhere.
    (ONE_FRAME, &[(12, 2)], 1, "wrong 0 constant\n"),
    // The second byte between the rings. It comes before the index, which is wrong too.
    (ONE_FRAME, &[(79, 1), (82, 6)], 1, "wrong 79 constant\n"),
    // The available index has begun anew, and is one ahead.
    (
        ONE_FRAME,
        &[(66, 0), (82, 255), (83, 255)],
        0,
        "right 4 1 0 65535\n",
    ),
    // As far ahead as the ring is large, and one further.
    (ONE_FRAME, &[(66, 5)], 0, "right 4 1 5 1\n"),
    (ONE_FRAME, &[(66, 6)], 1, "wrong 82 idx_ahead\n"),
    // No bytes, and digits in place of bytes.
    (b"", &[], 1, "wrong 0 image_size\n"),
    (b"0008000000000000", &[], 1, "wrong 16 image_size\n"),
];

/// A copy of an image with these bytes changed.
fn changed(alloc: Global, image: &[u8], bytes: &[(usize, u8)]) -> Result<Vec<u8>, AllocError> {
    let mut image = Vec::from_slice(alloc, image)?;
    for (place, value) in bytes {
        if let Some(byte) = image.get_mut(*place) {
            *byte = *value;
        }
    }
    Ok(image)
}

#[test]
fn worked_images(rt: HostRuntime) -> Result<(), Fail> {
    for (i, (image, bytes, status, line)) in CHANGED.iter().enumerate() {
        let image = changed(rt.alloc(), *image, *bytes)?;
        assert!(rt;
            comes_out(&rt, rt.alloc(), ring(&image), *status, line.as_bytes())?,
            "row {i}"
        );
    }
    Ok(())
}

/// An image without its last byte and with one byte more.
#[test]
fn lengths_of_no_ring(rt: HostRuntime) -> Result<(), Fail> {
    let alloc = rt.alloc();
    let mut shorter = Vec::from_slice(alloc, ONE_FRAME)?;
    let _last = shorter.pop();
    assert!(rt; comes_out(&rt, alloc, ring(&shorter), 1, b"wrong 117 image_size\n")?);
    let mut longer = Vec::from_slice(alloc, ONE_FRAME)?;
    longer.push(b'\n')?;
    assert!(rt; comes_out(&rt, alloc, ring(&longer), 1, b"wrong 119 image_size\n")?);
    Ok(())
}

/// A byte and how often it stands, and the status and the line that come of it.
static LIMITS: [((u8, usize), u8, &str); 4] = [
    // As long as an image of the smallest ring and of the largest.
    ((0, 66), 1, "wrong 0 constant\n"),
    ((0, 6670), 1, "wrong 0 constant\n"),
    ((0, 8_388_608), 1, "wrong 8388608 image_size\n"),
    ((0, 8_388_609), 7, ""),
];

#[test]
fn limit_of_the_bytes(rt: HostRuntime) -> Result<(), Fail> {
    assert_limits(&rt, rt.alloc(), RING, &LIMITS)
}

/// Words that are like those of the form.
#[test]
fn words_of_another_form(rt: HostRuntime) -> Result<(), Fail> {
    assert_outcomes(
        &rt,
        rt.alloc(),
        &[
            (&["Ring"], ONE_FRAME, 2, USAGE),
            (&["ring", "ring"], ONE_FRAME, 2, USAGE),
            (&["run", "ring"], ONE_FRAME, 2, USAGE),
            (&["rin"], ONE_FRAME, 2, USAGE),
        ],
    )
}

/// An image that is sound, and bytes that are none.
const RIGHT: Given<'static> = Given {
    words: RING,
    text: ONE_FRAME,
    ..EMPTY
};

const WRONG: Given<'static> = Given {
    words: RING,
    text: b"\0",
    ..EMPTY
};

/// What a stream that fails leaves: the status, and the first bytes of what was due.
static CUTS: [(Given<'static>, u8, &str); 8] = [
    (
        Given {
            failing_read: 0,
            ..RIGHT
        },
        4,
        "",
    ),
    (
        Given {
            failing_read: 1,
            ..WRONG
        },
        4,
        "",
    ),
    (
        Given {
            failing_write: 0,
            ..RIGHT
        },
        5,
        "",
    ),
    (
        Given {
            failing_write: 7,
            step: 1,
            ..WRONG
        },
        5,
        "wrong 1",
    ),
    (Given { room: 14, ..RIGHT }, 0, "right 4 1 1 1\n"),
    (Given { room: 13, ..RIGHT }, 5, "right 4 1 1 1"),
    (Given { room: 19, ..WRONG }, 1, "wrong 1 image_size\n"),
    (Given { room: 18, ..WRONG }, 5, "wrong 1 image_size"),
];

#[test]
fn streams_that_fail(rt: HostRuntime) -> Result<(), Fail> {
    assert_lines(&rt, rt.alloc(), &CUTS)
}

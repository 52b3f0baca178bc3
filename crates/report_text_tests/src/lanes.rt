//! Journals of two domains over a link of 4, and lines of the second that do not fit what the first did.

use report_text::{JournalLines, lanes_of, longest_line, wrong_lanes};
use std::alloc::Global;
use std::process::Abort;
use std::test::Fail;

/// Domain 0 puts two frames to domain 1, and one to itself, which it takes before it puts it.
const FIRST: &[u8] =
    b"turn\nsee 0 1\ntake 0 03 frame_short\ncall 1 ok\nput 1 01\ncall 2 ok\nturn\nput 1 02\nput 0 03\ncall 3 ok\nturn\nback 1 1\n";

/// What domain 1 does: each of its journals, how many buffers it gives back to domain 0, and the first line that does not fit.
const SECONDS: &[(&[u8], u64, Option<u32>)] = &[
    (
        b"turn\nsee 0 2\ntake 0 01 frame_short\ntake 0 02 frame_short\n",
        1,
        None,
    ),
    (
        b"turn\nsee 0 1\ntake 0 01 frame_short\nturn\nsee 0 1\ntake 0 02 frame_short\ncall 1 ok\n",
        2,
        None,
    ),
    (b"turn\nsee 0 2\ntake 0 01 frame_short\n", 0, Some(21)),
    (b"turn\nsee 0 3\ntake 0 01 frame_short\n", 1, Some(32)),
    (b"turn\nsee 0 2\ntake 0 02 frame_short\n", 1, Some(33)),
    (
        b"turn\nsee 0 2\ntake 0 01 frame_short\ntake 0 01 frame_short\n",
        1,
        Some(34),
    ),
    (
        b"turn\nsee 0 2\ntake 0 01 frame_short\nturn\nsee 0 2\n",
        1,
        Some(35),
    ),
    (b"turn\nback 0 1\n", 1, None),
    (b"turn\nback 0 2\n", 1, Some(32)),
    (b"turn\nsee 1 1\n", 1, Some(32)),
    (b"turn\nsee 2 1\n", 1, Some(32)),
    (b"turn\ntake 9 01 frame_short\n", 1, Some(32)),
    (b"turn\nback 9 1\n", 1, Some(32)),
];

/// The first wrong line, where domain 0 gives one buffer back to domain 1 and domain 1 so many to domain 0.
fn is_found(alloc: Global, second: &[u8], back: u64, wrong: Option<u32>) -> bool {
    if second.len() >= 1_000_000 {
        return false;
    }
    let mut given = [[0; 8]; 8];
    given[0][1] = 1;
    given[1][0] = back;
    let journals = [
        JournalLines {
            domain: 0,
            number: 10,
            text: FIRST,
        },
        JournalLines {
            domain: 1,
            number: 31,
            text: second,
        },
    ];
    let longest = longest_line(FIRST).max(longest_line(second));
    let Ok(mut room) = vec![in alloc; 0u8; longest] else {
        return false;
    };
    let Ok(lanes) = lanes_of(alloc, &journals, &mut room) else {
        return false;
    };
    match wrong_lanes(alloc, &lanes, &given, &mut room) {
        Ok(line) => line == wrong,
        Err(_) => false,
    }
}

#[test]
fn lines_that_do_not_fit_the_other_end_are_found(rt: HostRuntime) -> Result<(), Fail> {
    let alloc = rt.alloc();
    for (second, back, wrong) in SECONDS {
        assert!(rt; is_found(alloc, second, *back, *wrong));
    }
    Ok(())
}

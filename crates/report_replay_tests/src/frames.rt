//! Looks at the lanes of a domain that has just been opened, and frames that it takes.

use mc_base::{Fate, NoMemory};
use report_replay::{FrameNames, State};
use std::alloc::Global;
use std::process::Abort;
use std::test::Fail;

/// An announcement by domain 1 of its endpoint 1:0:7, whose address is 1030.
const ANNOUNCED: &[u8] = &[
    6, 4, 0, 0, 53, 0, 0, 0, 0, 0, 0, 0, 40, 0, 0, 0, 109, 99, 97, 112, 105, 58, 49, 58, 48, 58,
    55, 0, 0, 0, 0, 0, 0, 0, 0, 0, 0, 0, 0, 0, 0, 0, 0, 0, 0, 0, 0, 0, 6, 4, 0, 0, 0, 0, 0, 0,
];

/// A message of two bytes from address 1030 to address 1024.
const MESSAGE: &[u8] = &[
    6, 4, 0, 0, 0, 4, 0, 0, 0, 0, 0, 0, 10, 0, 0, 0, 0x4d, 1, 1, 2, 0, 0, 0, 0, 0xab, 0xcd,
];

/// The first two bytes of a message of four bytes from address 1030 to address 1024, and the other two.
const FIRST_PART: &[u8] = &[
    6, 4, 0, 0, 0, 4, 0, 0, 0, 0, 0, 0, 14, 0, 0, 0, 0x4d, 2, 1, 2, 0, 0, 0, 0, 4, 0, 0, 0, 0xab,
    0xcd,
];

const SECOND_PART: &[u8] = &[
    6, 4, 0, 0, 0, 4, 0, 0, 0, 0, 0, 0, 14, 0, 0, 0, 0x4d, 2, 1, 2, 0, 0, 0, 0, 4, 0, 2, 0, 0xef,
    0x01,
];

/// A part of a packet of two bytes that is all of it, on channel 3.
const WHOLE_PART: &[u8] = &[
    6, 4, 0, 0, 0, 4, 0, 0, 0, 0, 0, 0, 14, 0, 0, 0, 0x4d, 2, 7, 0, 3, 0, 0, 0, 2, 0, 0, 0, 0xab,
    0xcd,
];

/// Domain 0 with one node, whose lanes to itself have two buffers, and to domain 1 four.
fn opened(alloc: Global) -> Result<State, NoMemory> {
    State::open(alloc, 0, 1, &[(0, 2), (1, 4)])
}

/// Whether looks show what the lane from domain 1 allows, and no more.
fn are_cut(state: &mut State) -> bool {
    let mut as_due = state.free_to(1) == 4;
    as_due &= state.look_back(1, 9) == 0;
    as_due &= state.look_ahead(1, 3) == 3;
    as_due &= state.look_ahead(1, 2) == 3;
    as_due &= state.look_ahead(1, 9) == 4;
    as_due &= state.look_ahead(7, 9) == 0;
    as_due & (state.held_from(1) == 0)
}

#[test]
fn a_look_is_cut_to_what_the_lane_allows(rt: HostRuntime) -> Result<(), Fail> {
    let mut state = opened(rt.alloc())?;
    assert!(rt; are_cut(&mut state));
    Ok(())
}

/// A domain, a frame that comes from it, and its word.
type Row = (u8, &'static [u8], Fate);

static ROWS: [Row; 4] = [
    (1, &[0], Fate::FrameShort),
    (1, MESSAGE, Fate::NoEndpoint),
    (1, ANNOUNCED, Fate::Acted),
    (0, ANNOUNCED, Fate::ForeignName),
];

fn assert_words(
    rt: &impl Abort,
    alloc: Global,
    state: &mut State,
    rows: &[Row],
) -> Result<(), Fail> {
    let mut names = FrameNames::new(alloc);
    for (i, (peer, frame, word)) in rows.iter().enumerate() {
        assert!(rt;
            state.take(alloc, *peer, None, frame, &mut names)? == *word,
            "row {i}"
        );
    }
    Ok(())
}

#[test]
fn frames_have_the_words_that_the_state_has_for_them(rt: HostRuntime) -> Result<(), Fail> {
    let mut state = opened(rt.alloc())?;
    assert!(rt; state.look_ahead(1, 4) == 4);
    assert_words(&rt, rt.alloc(), &mut state, &ROWS)
}

static PARTS: [Row; 4] = [
    (1, SECOND_PART, Fate::Stray),
    (1, FIRST_PART, Fate::Part),
    (1, SECOND_PART, Fate::NoEndpoint),
    (1, WHOLE_PART, Fate::NoEndpoint),
];

#[test]
fn a_part_begins_with_the_first_bytes_alone(rt: HostRuntime) -> Result<(), Fail> {
    let mut state = opened(rt.alloc())?;
    assert!(rt; state.look_ahead(1, 4) == 4);
    assert_words(&rt, rt.alloc(), &mut state, &PARTS)?;
    assert!(rt; state.held_from(1) == 0);
    Ok(())
}

#[test]
fn nothing_is_owed_at_first(rt: HostRuntime) -> Result<(), Fail> {
    let state = opened(rt.alloc())?;
    let mut frame = [0; 512];
    assert!(rt; state.owed_frame(1, &mut frame).is_none());
    Ok(())
}

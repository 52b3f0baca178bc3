//! Names that linked domains tell each other, and how many frames a turn puts and takes.

use super::*;

const LOOKED_UP: [Row; 15] = [
    (Three(Lookup(4, 1)), Ok(Number(0))),
    (Three(Test(0, 0)), Err(Refusal::Pending)),
    (Four(Plain(Create(0, 1))), Ok(Number(1024))),
    CARRIED,
    // The creation is announced by the next turn.
    (Three(Turn), Ok(Idle(true))),
    (Four(Turn), Ok(Idle(false))),
    (Three(Turn), Ok(Idle(true))),
    CARRIED,
    (Three(Lookup(4, 1)), Ok(Number(1))),
    (Three(Test(0, 0)), Ok(Address(1024))),
    (Three(Test(1, 0)), Ok(Address(1024))),
    (Three(Lookup(4, 2)), Ok(Number(2))),
    (Three(Test(2, 0)), Err(Refusal::Pending)),
    (Three(Cancel(2)), Ok(Number(0))),
    (Four(Turn), Ok(Idle(true))),
];

const DELETED: [Row; 19] = [
    (Three(Plain(Create(0, 1))), Ok(Number(1024))),
    (Three(Plain(SendAbroad(1, 1))), Err(Refusal::PeerInvalid)),
    (Four(Plain(Create(0, 1))), Ok(Number(1024))),
    (Four(Turn), Ok(Idle(false))),
    CARRIED,
    (Three(Plain(SendAbroad(1, 1))), Ok(Number(0))),
    (Four(Delete(0, 1)), Ok(Number(0))),
    // The message goes to an address that nobody has any more.
    CARRIED,
    (Four(Turn), Ok(Idle(false))),
    CARRIED,
    (Three(Plain(SendAbroad(1, 1))), Err(Refusal::PeerInvalid)),
    (Three(Lookup(4, 1)), Ok(Number(0))),
    (Three(Test(0, 0)), Err(Refusal::Pending)),
    (Four(Plain(Create(0, 1))), Ok(Number(1025))),
    (Four(Turn), Ok(Idle(false))),
    CARRIED,
    (Three(Test(0, 0)), Ok(Address(1025))),
    (FourQueues, Ok(Number(0))),
    (FourHolds(3), Ok(Held(0, 0))),
];

static CASES: [Case; 2] = [
    ("lookups before and after the creation", 2, &LOOKED_UP),
    ("a deleted endpoint is no peer any more", 2, &DELETED),
];

#[test]
fn names_over_a_link(rt: HostRuntime) -> Result<(), Fail> {
    assert_cases(&rt, rt.alloc(), &CASES)
}

const CREATED_AND_DELETED: [Row; 24] = [
    (Three(Plain(Create(0, 1))), Ok(Number(1024))),
    (Three(Plain(Create(0, 2))), Ok(Number(1025))),
    (Three(Plain(Create(0, 3))), Ok(Number(1026))),
    (Three(Plain(Create(0, 4))), Ok(Number(1027))),
    (Three(Delete(0, 4)), Ok(Number(0))),
    (Four(Lookup(3, 4)), Ok(Number(0))),
    CARRIED,
    (Four(Turn), Ok(Idle(false))),
    CARRIED,
    (Three(Turn), Ok(Idle(false))),
    (Four(Test(0, 0)), Err(Refusal::Pending)),
    CARRIED,
    (Four(Turn), Ok(Idle(false))),
    CARRIED,
    (Three(Turn), Ok(Idle(false))),
    // It was there for a while, as far as the other domain knows.
    (Four(Lookup(3, 4)), Ok(Number(1))),
    CARRIED,
    (Four(Turn), Ok(Idle(false))),
    (Four(Lookup(3, 4)), Ok(Number(2))),
    (Four(Test(0, 0)), Ok(Address(1027))),
    (Four(Test(1, 0)), Ok(Address(1027))),
    (Four(Test(2, 0)), Err(Refusal::Pending)),
    CARRIED,
    (Three(Turn), Ok(Idle(false))),
];

/// Whether all frames that were taken are announcements that told something.
fn are_all_acted_on(journal: &Journal) -> bool {
    for i in 0..journal.len() {
        if let Some(Entry::Take { fate, .. }) = journal.entry(i) {
            if fate != Fate::Acted {
                return false;
            }
        }
    }
    true
}

#[test]
fn what_is_owed_is_told_in_order(rt: HostRuntime) -> Result<(), Fail> {
    assert_of(Board::open(rt.alloc(), 2), |board| {
        assert_deeds(&rt, board, "what is owed", &CREATED_AND_DELETED)?;
        assert!(rt; are_all_acted_on(&board.fours.journal));
        Ok(())
    })
}

/// The buffers of the link are carried there and back, and each domain makes a turn.
const ROUND: [Row; 4] = [
    CARRIED,
    (Four(Turn), Ok(Idle(false))),
    CARRIED,
    (Three(Turn), Ok(Idle(false))),
];

const ALL_IN_USE: [Row; 2] = [
    (Three(Delete(0, 7)), Ok(Number(0))),
    (Three(Plain(Create(0, 64))), Err(Refusal::EndpLimit)),
];

const FREED: [Row; 6] = [
    (Three(Plain(Create(0, 64))), Err(Refusal::EndpLimit)),
    CARRIED,
    (Four(Turn), Ok(Idle(false))),
    CARRIED,
    // The turn of this call tells the end.
    (Three(Plain(Create(0, 64))), Ok(Number(1088))),
    (Three(Plain(Create(0, 65))), Err(Refusal::EndpLimit)),
];

/// Makes endpoints of domain 3 at the first ports.
fn create_all(rt: &impl Abort, board: &mut Board, count: u16) -> Result<(), Fail> {
    for port in 0..count {
        let due = Ok(Number(1024 + u64::from(port)));
        assert!(rt;
            answers(board, Three(Plain(Create(0, port))), due)?,
            "{port}"
        );
    }
    Ok(())
}

fn assert_in_use(rt: &impl Abort, board: &mut Board) -> Result<(), Fail> {
    create_all(rt, board, 64)?;
    assert_deeds(rt, board, "all in use", &ALL_IN_USE)?;
    // 62 creations are owed, and then the end.
    for _ in 0..31 {
        assert_deeds(rt, board, "a round", &ROUND)?;
    }
    assert_deeds(rt, board, "freed", &FREED)
}

#[test]
fn a_record_is_in_use_until_the_end_is_told(rt: HostRuntime) -> Result<(), Fail> {
    assert_of(Board::open(rt.alloc(), 2), |board| {
        assert_in_use(&rt, board)
    })
}

const NINE: [Row; 7] = [
    CARRIED,
    (Four(Turn), Ok(Idle(false))),
    (Four(Turn), Ok(Idle(false))),
    CARRIED,
    (Three(Turn), Ok(Idle(false))),
    (Three(Turn), Ok(Idle(false))),
    (Three(Turn), Ok(Idle(true))),
];

const LINES_OF_NINE_TAKEN: [Line; 13] = [
    (b't', 0, 0, 0),
    (b's', 3, 9, 0),
    (b'q', 3, 0, 56),
    (b'q', 3, 0, 56),
    (b'q', 3, 0, 56),
    (b'q', 3, 0, 56),
    (b'q', 3, 0, 56),
    (b'q', 3, 0, 56),
    (b'q', 3, 0, 56),
    (b'q', 3, 0, 56),
    (b't', 0, 0, 0),
    (b's', 3, 1, 0),
    (b'q', 3, 0, 56),
];

/// The last lines, after those of 18 creations.
const LINES_OF_NINE_OWED: [Line; 13] = [
    (b't', 0, 0, 0),
    (b'b', 4, 9, 0),
    (b'p', 4, 0, 56),
    (b'p', 4, 0, 56),
    (b'p', 4, 0, 56),
    (b'p', 4, 0, 56),
    (b'p', 4, 0, 56),
    (b'p', 4, 0, 56),
    (b'p', 4, 0, 56),
    (b'p', 4, 0, 56),
    (b't', 0, 0, 0),
    (b'p', 4, 0, 56),
    (b'i', 0, 1, 0),
];

/// Makes 18 endpoints, of which nine are announced at once, and nine are owed.
fn assert_nine(rt: &impl Abort, board: &mut Board) -> Result<(), Fail> {
    create_all(rt, board, 18)?;
    assert_deeds(rt, board, "nine frames", &NINE)?;
    assert_lines(rt, &board.fours.journal, &LINES_OF_NINE_TAKEN);
    assert_last_lines(rt, &board.threes.journal, &LINES_OF_NINE_OWED);
    Ok(())
}

#[test]
fn a_turn_puts_and_takes_eight_frames(rt: HostRuntime) -> Result<(), Fail> {
    assert_of(Board::open(rt.alloc(), 9), |board| assert_nine(&rt, board))
}

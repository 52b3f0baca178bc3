//! Frames that are put as they are, inside one domain.

use super::*;
use RawFrame::{Short, Sound};

/// Each refusal, also where a later one would hold too. A frame that is put keeps its buffer until the next turn takes it.
const REFUSED: [Row; 15] = [
    (PutRaw(4, Short), Err(Refusal::LinkInvalid), NONE_HELD),
    (PutRaw(255, Sound), Err(Refusal::LinkInvalid), NONE_HELD),
    (PutRaw(3, Sound), Err(Refusal::RawSound), NONE_HELD),
    (PutRaw(3, Short), Ok(Number(0)), NONE_HELD),
    (Plain(Create(0, 1)), Ok(Number(1024)), NONE_HELD),
    (Plain(Send(1, 1, 0, 7, 2)), Ok(Number(0)), NONE_HELD),
    (Plain(Send(1, 1, 0, 7, 2)), Ok(Number(0)), ONE_QUEUED),
    (PutRaw(3, Short), Err(Refusal::NoBuffer), TWO_QUEUED),
    (PutRaw(3, Sound), Err(Refusal::RawSound), TWO_QUEUED),
    (PutRaw(4, Short), Err(Refusal::LinkInvalid), TWO_QUEUED),
    (Plain(Receive(1, 488, 7)), Ok(Number(2)), ONE_QUEUED),
    (PutRaw(3, Short), Ok(Number(0)), ONE_QUEUED),
    (Turn, Ok(Idle(false)), ONE_QUEUED),
    (Turn, Ok(Idle(false)), ONE_QUEUED),
    (Turn, Ok(Idle(true)), ONE_QUEUED),
];

static CASES: [Case; 1] = [("sound frames are not put raw", 2, None, &REFUSED, &[])];

#[test]
fn raw_frames(rt: HostRuntime) -> Result<(), Fail> {
    assert_cases(&rt, rt.alloc(), &CASES)
}

//! Rows of calls inside one domain, and named cases of them.

use super::*;

/// A call, its answer, and how many buffers stand in queues and how many are lent from then on.
pub type Row = (Step, Answered, (u32, u32));

pub const NONE_HELD: (u32, u32) = (0, 0);

pub const ONE_QUEUED: (u32, u32) = (1, 0);

pub const TWO_QUEUED: (u32, u32) = (2, 0);

pub const ONE_LENT: (u32, u32) = (0, 1);

fn places((queue, lent): (u32, u32)) -> Option<Places> {
    Some(Places { queue, lent })
}

/// Whether a call answers what it must, and this is held from then on.
pub fn holds(lone: &mut Lone, (step, due, held): Row) -> Result<bool, NoMemory> {
    lone.journal.reserve(176, 90_112)?;
    let answer = stepped(&mut lone.domain, &mut lone.journal, &mut lone.ids, step)?;
    Ok(answer == Some(due) && lone.domain.places(3) == places(held))
}

/// Asserts what each call answers, and what is held from then on. The rows have a name.
pub fn assert_rows(rt: &impl Abort, lone: &mut Lone, name: &str, rows: &[Row]) -> Result<(), Fail> {
    for (i, row) in rows.iter().enumerate() {
        assert!(rt; holds(lone, *row)?, "{name}, row {i}");
    }
    Ok(())
}

/// A name, the buffers of a new domain's pool, the kind of a channel that is opened first, the rows, and what is noted in all, unless that
/// is left open.
pub type Case = (
    &'static str,
    u32,
    Option<Kind>,
    &'static [Row],
    &'static [Line],
);

/// A channel from port 1 to port 2, whose ends are open.
pub fn opened(kind: Kind) -> [Row; 7] {
    [
        (Plain(Create(0, 1)), Ok(Number(1024)), NONE_HELD),
        (Plain(Create(0, 2)), Ok(Number(1025)), NONE_HELD),
        (Connect(1, 3, 2, kind), Ok(Connected(0, 1)), NONE_HELD),
        (Test(0, 0), Err(Refusal::Pending), NONE_HELD),
        (Test(0, 0), Ok(Accepted), NONE_HELD),
        (OpenSend(1, kind), Ok(Number(0)), NONE_HELD),
        (OpenRecv(2, kind), Ok(Number(0)), NONE_HELD),
    ]
}

fn assert_case(rt: &impl Abort, alloc: Global, case: &Case) -> Result<(), Fail> {
    let (name, pool, channel, rows, lines) = *case;
    assert_of(Lone::open(alloc, 1, pool.clamp(1, 256)), |lone| {
        if let Some(kind) = channel {
            assert_rows(rt, lone, name, &opened(kind))?;
        }
        assert_rows(rt, lone, name, rows)?;
        if !lines.is_empty() {
            assert_lines(rt, &lone.journal, lines);
        }
        Ok(())
    })
}

pub fn assert_cases(rt: &impl Abort, alloc: Global, cases: &[Case]) -> Result<(), Fail> {
    for case in cases {
        assert_case(rt, alloc, case)?;
    }
    Ok(())
}

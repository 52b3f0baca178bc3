ghost use Rattle.std.specs.Prelude.{◌≡◌, IfSome, Ok};
ghost use Rattle.board_model.specs.Language.{IsLawfulBoard, told_by};
ghost use Rattle.board_numbers.specs.Told.{IsToldByText};

use board_model::{Scenario, Seq};
use board_runner::{ChannelTotals, LanePlaces, Outcome, Totals, run_serial, write_report};
use domain_core::{Answer, Entry, Journal};
use mc_base::Refusal;
use outer_io::{Failed, MemSink};
use scenario_lang::read_scenario;
use std::alloc::{AllocError, Global};
use std::test::Fail;

mod limits;
mod raw;
mod waits;

/// The domains don't stand in rising number.
const TEXT: &[u8] = b"domain 5 nodes 1 pool 2
domain 2 nodes 1 pool 3
link 5 2 size 4
5.0 create 9
2.0 create 7
2.0 msg_recv 7 488
";

static REPORT: &[u8] = b"mcapi-report 1 serial
domain 5 nodes 1 pool 2
domain 2 nodes 1 pool 3
link 5 2 size 4
5.0 create 9
2.0 create 7
2.0 msg_recv 7 488
journal 2
idle 1
call 1 ok 1024
call 2 empty
journal 5
call 1 ok 1024
channel 5 1 accepted 7 taken 3 dropped 2 queued 1 ring 1
messages accepted 4 taken 2 dropped 1 queued 1 ring 0
lane 2 5 free 1 ring 2 queue 1 lent 0
end
";

/// A line of a journal.
#[derive(Clone, Copy)]
enum Noted {
    Idle,
    Told(u32, u64),
    Refused(u32, Refusal),
}

use Noted::{Idle, Refused, Told};

fn note(journal: &mut Journal, noted: Noted) -> Option<()> {
    journal.reserve(1, 1).ok()?;
    match noted {
        Idle => journal.note(Entry::Idle { turns: 1 }),
        Told(number, n) => journal.note(Entry::Called {
            number,
            answer: Answer::Number(n),
        }),
        Refused(number, word) => journal.note(Entry::Called {
            number,
            answer: Answer::Refused(word),
        }),
    }
    Some(())
}

fn journal(alloc: Global, lines: &[Noted]) -> Option<Journal> {
    let mut journal = Journal::new(alloc).ok()?;
    for line in lines {
        note(&mut journal, *line)?;
    }
    Some(journal)
}

fn journals(alloc: Global) -> Option<Seq<Journal>> {
    let mut journals = Seq::new(Vec::new(alloc));
    let second = journal(alloc, &[Idle, Told(1, 1024), Refused(2, Refusal::Empty)])?;
    journals.push(second).ok()?;
    journals.push(journal(alloc, &[Told(1, 1024)])?).ok()?;
    Some(journals)
}

fn places(alloc: Global) -> Option<Seq<LanePlaces>> {
    let mut places = Seq::new(Vec::new(alloc));
    let lane = LanePlaces {
        from: 2,
        to: 5,
        free: 1,
        ring: 2,
        queue: 1,
        lent: 0,
    };
    places.push(lane).ok()?;
    Some(places)
}

fn channels(alloc: Global) -> Option<Seq<ChannelTotals>> {
    let mut channels = Seq::new(Vec::new(alloc));
    let totals = Totals {
        accepted: 7,
        taken: 3,
        dropped: 2,
        queued: 1,
        ring: 1,
    };
    let channel = ChannelTotals {
        owner: 5,
        number: 1,
        totals,
    };
    channels.push(channel).ok()?;
    Some(channels)
}

/// An outcome of the board of `TEXT`, though of no run.
fn outcome(alloc: Global) -> Option<Outcome> {
    Some(Outcome {
        journals: journals(alloc)?,
        rings: Seq::new(Vec::new(alloc)),
        places: places(alloc)?,
        channels: channels(alloc)?,
        messages: Totals {
            accepted: 4,
            taken: 2,
            dropped: 1,
            queued: 1,
            ring: 0,
        },
    })
}

/// Writes the report of the board of `TEXT`.
pub fn write(
    scenario: &Scenario,
    outcome: &Outcome,
    sink: &mut MemSink,
) -> Option<Result<(), Failed>>
    requires told { IsToldByText scenario.now }
{
    if outcome.journals.as_slice().len() != scenario.domains.as_slice().len() {
        return None;
    }
    Some(write_report(scenario, outcome, false, sink))
}

pub fn read(alloc: Global, text: &[u8]) -> Option<Scenario>
    ensures told { IfSome result (λ s. told_by text.now ≡ Ok s) }
    ensures lawful { IfSome result IsLawfulBoard }
{
    if text.len() >= 8_000_000 {
        return None;
    }
    read_scenario(alloc, text).ok()
}

fn report(alloc: Global, sink: &mut MemSink) -> Option<Result<(), Failed>> {
    let scenario = read(alloc, TEXT)?;
    let outcome = outcome(alloc)?;
    write(&scenario, &outcome, sink)
}

/// Whether the report is written so far as there is room, and its end is this.
fn is_written(alloc: Global, room: usize, end: Result<(), Failed>) -> Option<bool> {
    let mut sink = MemSink::new(alloc, Vec::new(alloc), 7, room).ok()?;
    let written = report(alloc, &mut sink)?;
    Some(written == end && Some(sink.written()) == REPORT.get(..room))
}

#[test]
fn writes_journals_in_rising_number(rt: HostRuntime) -> Result<(), Fail> {
    let whole = REPORT.len();
    assert!(rt; is_written(rt.alloc(), whole, Ok(())).ok_or("memory")?);
    assert!(rt; is_written(rt.alloc(), whole - 1, Err(Failed)).ok_or("memory")?);
    Ok(())
}

/// A run that leaves messages and buffers at every place.
static NUMBERS: &[u8] = b"domain 5 nodes 1 pool 2
domain 2 nodes 1 pool 4
link 5 2 size 8
2.0 create 7
2.0 msg_send 7 2:0:7 1 aa
2.0 msg_send 7 2:0:7 1 bb
2.0 msg_send 7 2:0:7 1 cc
2.0 msg_recv 7 9
2.0 delete 7
2.0 create 8
2.0 turn
5.0 create 9
5.0 msg_send 9 2:0:8 0 dd
5.0 msg_send 9 2:0:8 0 ee
2.0 msg_available 8
2.0 r = msg_recv_i 8 9
5.0 msg_send 9 2:0:8 0 ff
";

/// Of six messages two were taken, one of them by a request that stands, and two were dropped with their endpoint.
const MESSAGES: Totals = Totals {
    accepted: 6,
    taken: 2,
    dropped: 2,
    queued: 1,
    ring: 1,
};

/// A lane: from and to, free, in the ring, queued and lent.
type Lane = (u8, u8, u32, u32, u32, u32);

/// The lanes in the report's order.
static PLACES: [Lane; 4] = [
    (2, 2, 4, 0, 0, 0),
    (2, 5, 8, 0, 0, 0),
    (5, 2, 5, 1, 1, 1),
    (5, 5, 2, 0, 0, 0),
];

pub fn run(alloc: Global, text: &[u8]) -> Option<Outcome> {
    let scenario = read(alloc, text)?;
    run_serial(alloc, &scenario).ok()
}

fn are_lanes(places: &[LanePlaces], due: &[Lane]) -> bool {
    for (lane, due) in places.iter().zip(due) {
        let told = (
            lane.from, lane.to, lane.free, lane.ring, lane.queue, lane.lent,
        );
        if told != *due {
            return false;
        }
    }
    places.len() == due.len()
}

fn has_numbers(outcome: &Outcome) -> bool {
    outcome.messages == MESSAGES
        && outcome.journals.as_slice().len() == 2
        && outcome.rings.as_slice().len() == 0
        && outcome.channels.as_slice().len() == 0
        && are_lanes(outcome.places.as_slice(), &PLACES)
}

#[test]
fn a_run_leaves_its_numbers(rt: HostRuntime) -> Result<(), Fail> {
    let outcome = run(rt.alloc(), NUMBERS).ok_or("memory")?;
    assert!(rt; has_numbers(&outcome));
    Ok(())
}

/// Three connects: one of domain 2, and two of domain 5, of which the second is rejected.
static CONNECTS: &[u8] = b"domain 5 nodes 1 pool 4
domain 2 nodes 1 pool 4
5.0 create 1
5.0 create 2
5.0 create 3
2.0 create 1
2.0 create 2
5.0 a = connect 1 5:0:2 packet
5.0 b = connect 3 5:0:2 scalar
2.0 c = connect 1 2:0:2 scalar
2.0 turn
5.0 turn
";

/// The channels in the report's order: owners and numbers.
static CHANNELS: [(u8, u32); 3] = [(2, 1), (5, 1), (5, 2)];

const NO_ITEMS: Totals = Totals {
    accepted: 0,
    taken: 0,
    dropped: 0,
    queued: 0,
    ring: 0,
};

/// Whether these are the channels, and no item was sent on them.
fn are_channels(channels: &[ChannelTotals], due: &[(u8, u32)]) -> bool {
    for (channel, due) in channels.iter().zip(due) {
        if (channel.owner, channel.number) != *due || channel.totals != NO_ITEMS {
            return false;
        }
    }
    channels.len() == due.len()
}

#[test]
fn a_run_leaves_its_channels(rt: HostRuntime) -> Result<(), Fail> {
    let outcome = run(rt.alloc(), CONNECTS).ok_or("memory")?;
    assert!(rt; are_channels(outcome.channels.as_slice(), &CHANNELS));
    assert!(rt; outcome.messages == NO_ITEMS);
    Ok(())
}

/// The greatest board: eight domains with the greatest pools, and a link of the greatest size between each two.
fn greatest_board(alloc: Global) -> Result<Vec<u8>, AllocError> {
    let mut text = Vec::new(alloc);
    for domain in 0..8 {
        text.extend_from_slice(b"domain ")?;
        text.push(b'0' + domain)?;
        text.extend_from_slice(b" nodes 1 pool 256\n")?;
    }
    for one in 0..8 {
        for two in one + 1..8 {
            text.extend_from_slice(b"link ")?;
            text.push(b'0' + one)?;
            text.push(b' ')?;
            text.push(b'0' + two)?;
            text.extend_from_slice(b" size 256\n")?;
        }
    }
    Ok(text)
}

/// How many buffers of all lanes are free, where none is elsewhere.
fn all_free(places: &[LanePlaces]) -> bool {
    for lane in places {
        if lane.free != 256 || lane.ring != 0 || lane.queue != 0 || lane.lent != 0 {
            return false;
        }
    }
    places.len() == 64
}

#[test]
fn the_greatest_board_runs(rt: HostRuntime) -> Result<(), Fail> {
    let mut text = greatest_board(rt.alloc())?;
    text.extend_from_slice(
        b"7.0 create 1\n0.0 create 2\n0.0 turn\n7.0 turn\n0.0 msg_send 2 7:0:1 0 5a\n7.0 msg_recv 1 9\n",
    )?;
    text.extend_from_slice(b"0.0 turn\n3.0 turn\n0.0 r = msg_recv_i 2 9\n0.0 try 20 test r\n")?;
    let outcome = run(rt.alloc(), &text).ok_or("memory")?;
    let due = Totals {
        accepted: 1,
        taken: 1,
        dropped: 0,
        queued: 0,
        ring: 0,
    };
    assert!(rt; outcome.messages == due);
    assert!(rt; all_free(outcome.places.as_slice()));
    Ok(())
}

/// Three thousand messages each way of a link, each received before the next is sent.
#[test]
fn a_long_script_runs(rt: HostRuntime) -> Result<(), Fail> {
    let mut text = Vec::new(rt.alloc());
    text.extend_from_slice(b"domain 0 nodes 1 pool 2\ndomain 1 nodes 1 pool 2\nlink 0 1 size 2\n")?;
    text.extend_from_slice(b"0.0 create 1\n1.0 create 2\n0.0 turn\n1.0 turn\n0.0 turn\n")?;
    for _message in 0..3_000 {
        text.extend_from_slice(b"0.0 msg_send 1 1:0:2 1 5a5a\n1.0 msg_recv 2 9\n")?;
        text.extend_from_slice(b"1.0 msg_send 2 0:0:1 1 5b\n0.0 msg_recv 1 9\n")?;
    }
    let outcome = run(rt.alloc(), &text).ok_or("memory")?;
    let due = Totals {
        accepted: 6_000,
        taken: 6_000,
        dropped: 0,
        queued: 0,
        ring: 0,
    };
    assert!(rt; outcome.messages == due);
    Ok(())
}

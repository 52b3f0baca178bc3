//! Two cores of a board, as two linked domains: core 0 asks, and core 1, with the sensor, answers.
//!
//! docs/GUIDE.md walks through this program line by line.
#![tactic(auto)]

use anyhow::{Context, bail};
use linked_pair::{LinkedPair, Member, Which, reserve_call};
use mc_base::{Done, EndName, Got, ITEM_SIZE, Local, Priority};
use mc_journal::Journal;
use std::alloc::Global;

/// Core 0 has one endpoint, at port 1 of its node 0.
const ASKING: Local = Local { node: 0, port: 1 };

/// Core 1 has one, at port 7.
const SENSOR: Local = Local { node: 0, port: 7 };

/// The same endpoints, as any domain names them.
const ASKING_NAME: EndName = EndName {
    domain: 0,
    node: 0,
    port: 1,
};

const SENSOR_NAME: EndName = EndName {
    domain: 1,
    node: 0,
    port: 7,
};

/// Each core has one node, and two buffers for messages inside it.
const CORE_0: Member = Member {
    number: 0,
    nodes: 1,
    pool: 2,
};

const CORE_1: Member = Member {
    number: 1,
    nodes: 1,
    pool: 2,
};

/// Both domains, and what each of them notes.
#[derive(Drop)]
struct Board {
    pair: LinkedPair,
    zero: Journal,
    one: Journal,
}

impl Board {
    /// The link has four buffers each way.
    fn open(alloc: Global) -> anyhow::Result<Board> {
        Ok(Board {
            pair: LinkedPair::open(alloc, CORE_0, CORE_1, 4)?,
            zero: Journal::new(alloc)?,
            one: Journal::new(alloc)?,
        })
    }

    /// Carries the link, and lets each core make a turn, in which it sees what came.
    fn exchange(&mut self) -> anyhow::Result<()> {
        self.pair.carry();
        reserve_call(&mut self.zero)?;
        self.pair.turn(Which::One, &mut self.zero);
        reserve_call(&mut self.one)?;
        self.pair.turn(Which::Two, &mut self.one);
        Ok(())
    }
}

/// Each core makes its endpoint, and core 0 looks up that of core 1.
fn meet(rt: &impl Print, board: &mut Board) -> anyhow::Result<()> {
    reserve_call(&mut board.zero)?;
    let asking = board.pair.create(Which::One, &mut board.zero, ASKING)?;
    println!(rt; "core 0: endpoint 0:0:1 has address {asking}")?;
    reserve_call(&mut board.one)?;
    let sensor = board.pair.create(Which::Two, &mut board.one, SENSOR)?;
    println!(rt; "core 1: endpoint 1:0:7 has address {sensor}")?;
    reserve_call(&mut board.zero)?;
    let lookup = board.pair.lookup(Which::One, &mut board.zero, SENSOR_NAME)?;
    // The turns put the announcements, and those after the link was carried take them.
    board.exchange()?;
    board.exchange()?;
    let mut out = [0; ITEM_SIZE];
    reserve_call(&mut board.zero)?;
    match board
        .pair
        .test(Which::One, &mut board.zero, lookup, &mut out)?
    {
        Done::Address(address) => println!(rt; "core 0: found 1:0:7 at address {address}")?,
        _ => bail!("a lookup ends with an address"),
    }
    Ok(())
}

/// Core 0 sends a question, for which core 1 waits with a request.
fn ask(rt: &impl Print, board: &mut Board) -> anyhow::Result<()> {
    let urgent = Priority::new(0).context("a priority is 0 to 3")?;
    reserve_call(&mut board.one)?;
    let receive = board
        .pair
        .msg_recv_i(Which::Two, &mut board.one, SENSOR, 488)?;
    reserve_call(&mut board.zero)?;
    let sent = board.pair.msg_send(
        Which::One,
        &mut board.zero,
        ASKING,
        SENSOR_NAME,
        urgent,
        b"how warm?",
    );
    sent?;
    board.exchange()?;
    let mut out = [0; ITEM_SIZE];
    reserve_call(&mut board.one)?;
    match board
        .pair
        .test(Which::Two, &mut board.one, receive, &mut out)?
    {
        Done::Message(got) => print_got(rt, "core 1", got, &out)?,
        _ => bail!("a receive ends with a message"),
    }
    Ok(())
}

/// Core 1 answers, and core 0 receives. A second receive is refused, since the queue is empty then.
fn answer(rt: &impl Print, board: &mut Board) -> anyhow::Result<()> {
    let normal = Priority::new(1).context("a priority is 0 to 3")?;
    reserve_call(&mut board.one)?;
    let sent = board.pair.msg_send(
        Which::Two,
        &mut board.one,
        SENSOR,
        ASKING_NAME,
        normal,
        b"21 degrees",
    );
    sent?;
    board.exchange()?;
    let mut out = [0; ITEM_SIZE];
    reserve_call(&mut board.zero)?;
    let got = board
        .pair
        .msg_recv(Which::One, &mut board.zero, ASKING, &mut out)?;
    print_got(rt, "core 0", got, &out)?;
    reserve_call(&mut board.zero)?;
    match board
        .pair
        .msg_recv(Which::One, &mut board.zero, ASKING, &mut out)
    {
        Ok(_) => bail!("one message came twice"),
        Err(refusal) => println!(rt; "core 0: refused: {refusal}")?,
    }
    Ok(())
}

/// Prints a message: its size and its bytes.
fn print_got(rt: &impl Print, who: &str, got: Got, out: &[u8]) -> anyhow::Result<()> {
    let text = str::from_utf8(out.get(..got.given as usize).unwrap_or(out))?;
    println!(rt; "{who}: received {} bytes: {text}", got.size)?;
    Ok(())
}

fn main(rt: HostRuntime) -> anyhow::Result<()> {
    let mut board = Board::open(rt.alloc())?;
    meet(&rt, &mut board)?;
    ask(&rt, &mut board)?;
    answer(&rt, &mut board)?;
    println!(rt;
        "journals: {} and {} entries",
        board.zero.len(),
        board.one.len()
    )?;
    board.zero.clear();
    board.one.clear();
    Ok(())
}

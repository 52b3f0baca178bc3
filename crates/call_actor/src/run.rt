//! The run of a board of numbered calls.

ghost use Rattle.std.specs.Prelude.{◌≡◌, ◌≤◌, ◌<◌, ◌+◌, IfOk, length, true};
ghost use Rattle.board_model.specs.LineReasons.{is_link_size};
ghost use Rattle.call_logs.specs.CallsBoard.{IsCallBoard, calls_of_client};
ghost use Rattle.call_service.specs.Served.{rising};
ghost use Rattle.call_actor.specs.CallLimits.{call_limit};
ghost use Rattle.call_actor.specs.CallsBoards.{AreNew, board_of};
ghost use Rattle.call_actor.specs.CallsRun.{IsCallsOutcome};

use crate::board::calls_board;
use crate::call_actor::CallActor;
use board_model::Scenario;
use board_numbers::append;
use board_runner::{Outcome, run_actors};
use call_logs::NumberedCall;
use mc_base::NoMemory;
use std::alloc::Global;
use std::thread::Threads;

/// Runs a board of numbered calls, each domain on a thread of its own: so many clients, 1 to 7, which send each request `repeat` times, 1 to
/// 4. The rings have `size` buffers, a power of two from 2 to 256. There are at most 100,000 calls; each is one of a client from 1 to
/// `clients`, with a cell from 0 to 15, and a client makes its own in their order.
///
/// Returns the scenario that the domains made, the outcome of its run, and the actors in rising number: the server with its service, and
/// the clients with what they got. Each domain followed its role to its end (docs/PROFILE.md, "Numbered calls on a board"); not all calls
/// need be carried out.
///
/// # Errors
///
/// `NoMemory` where an allocation fails, in any of the domains. All threads are joined then.
pub fn run_calls<T: Threads + Sync>(
    rt: &T,
    alloc: Global,
    clients: u8,
    size: u32,
    repeat: u8,
    calls: &[NumberedCall],
) -> Result<(Scenario, Outcome, Vec<CallActor>), NoMemory>
    requires some { 1 ≤ clients }
    requires often { 1 ≤ repeat }
    requires repeat { repeat ≤ 4 }
    requires size { is_link_size size ≡ true }
    requires board { IsCallBoard (board_of clients repeat calls.now) }
    requires few { length calls.now ≤ call_limit }
    ensures { IfOk result (λ r. IsCallsOutcome (board_of clients repeat calls.now) size r.0 r.1 r.2.items) }
{
    let board = calls_board(alloc, clients, size)?;
    let actors = call_actors(alloc, clients, repeat, calls)?;
    run_actors(rt, alloc, &board, actors)
}

/// An actor for each domain of a board of numbered calls, in rising number.
fn call_actors(
    alloc: Global,
    clients: u8,
    repeat: u8,
    calls: &[NumberedCall],
) -> Result<Vec<CallActor>, NoMemory>
    requires some { 1 ≤ clients }
    requires often { 1 ≤ repeat }
    requires repeat { repeat ≤ 4 }
    requires board { IsCallBoard (board_of clients repeat calls.now) }
    requires few { length calls.now ≤ call_limit }
    ensures { IfOk result (λ v. AreNew (board_of clients repeat calls.now) (rising 0 (clients + 1)) v.items) }
{
    let mut actors = Vec::new(alloc);
    let server = CallActor::server(alloc, clients, repeat, calls.len() as u32)?;
    append(&mut actors, server)?;
    for client in 1..clients + 1 {
        let lines = lines_of(alloc, client, calls)?;
        append(
            &mut actors,
            CallActor::client(alloc, client, repeat, lines)?,
        )?;
    }
    Ok(actors)
}

/// The cell and the amount of each call of a client, in their order.
fn lines_of(alloc: Global, client: u8, calls: &[NumberedCall]) -> Result<Vec<(u8, u64)>, NoMemory>
    ensures { IfOk result (λ v. v.items ≡ calls_of_client (board_of 0 0 calls.now) client) }
{
    let mut lines = Vec::new(alloc);
    for call in calls {
        if call.client == client {
            append(&mut lines, (call.cell, call.amount))?;
        }
    }
    Ok(lines)
}

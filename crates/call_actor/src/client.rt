//! A client of numbered calls.

ghost use Rattle.std.specs.Prelude.{◌≡◌, ◌≤◌, ◌<◌, ◌^◌, ◌++◌, [], None, OnOk, length, option_map, option_to_list, slice_get};
ghost use Rattle.std.specs.List.{AllByRecursion};
ghost use Rattle.std.proofs.Props.{props};
ghost use Rattle.call_actor.specs.CallLimits.{call_limit};
ghost use Rattle.call_actor.specs.ClientSteps.{tuple_of};
ghost use Rattle.call_actor.specs.LinesLeft.{left_of_client};
ghost use Rattle.call_actor.specs.ClientStands.{ClientFits, IsWithin};

use crate::place::{ClientPlace, Going};
use crate::role::CallRole;
use crate::task::Task;
use board_model::CallLine;
use board_runner::Actor;
use call_logs::Got;
use mc_base::NoMemory;
use mc_journal::Answer;
use std::alloc::Global;
use std::snapshot::Snapshot;

/// A client, which makes its calls one after the other.
#[derive(Drop)]
pub struct Client {
    task: Task,
    place: ClientPlace,
    /// The first reply to its call.
    first: [u8; 16],
    gots: Vec<Got>,
    /// The line that was asked for last, which only contracts see.
    asked: Snapshot<Option<CallLine>>,
    ghost low: { task.domain ≤ 7 },
    ghost some: { 1 ≤ task.repeat },
    ghost repeats: { task.repeat ≤ 4 },
    ghost cells: { AllByRecursion (λ k. k.0 < 16) task.calls } by { Prim.hlevel props },
    ghost within: { IsWithin task place },
}

impl Client {
    /// Makes a client that has these calls to make, the cell and the amount of each, and sends each request so often.
    pub fn new(alloc: Global, domain: u8, repeat: u8, calls: Vec<(u8, u64)>) -> Client
        requires domain { domain ≤ 7 }
        requires some { 1 ≤ repeat }
        requires repeat { repeat ≤ 4 }
        requires cells { AllByRecursion (λ k. k.0 < 16) calls.items }
        requires few { length calls.items ≤ call_limit }
        ensures task { result.task ≡ record { domain = domain; repeat = repeat; calls = calls.items } }
        ensures asked { result.asked.value ≡ None }
        ensures fits { ClientFits result.task result.place result.first result.gots.items result.asked.value [] }
        ensures few { left_of_client (length calls.items) result.place < 2 ^ 29 }
    {
        Client {
            task: Task::new(alloc, domain, repeat, calls),
            place: ClientPlace::New,
            first: [0; 16],
            gots: Vec::new(alloc),
            asked: Snapshot::of(&None),
        }
    }

    /// Returns the number, the status and the value of what it got of its call at this place, counted from 0, or `None` past the last.
    pub fn got(&self, at: usize) -> Option<(u32, u8, u64)>
        ensures { result ≡ option_map tuple_of (slice_get self.now.gots.items at) }
    {
        let got = self.gots.get(at)?;
        Some((got.number, got.status, got.value))
    }

    /// Returns what it got of its calls, in order.
    pub fn gots(&self) -> &[Got]
        ensures { result.now ≡ self.now.gots.items }
    {
        &self.gots
    }
}

/// Appends what was got, if anything was.
fn note(gots: &mut Vec<Got>, got: Option<Got>) -> Result<(), NoMemory>
    ensures { OnOk result (gots.new.items ≡ gots.old.items ++ option_to_list got) }
{
    let Some(got) = got else {
        return Ok(());
    };
    if gots.push(got).is_err() {
        return Err(NoMemory);
    }
    Ok(())
}

impl Actor for Client {
    ghost use Rattle.std.specs.Prelude.{length};
    ghost use Rattle.call_actor.specs.CallRoles.{client_role};
    ghost use Rattle.call_actor.specs.ClientStands.{ClientFits, role_of};
    ghost use Rattle.call_actor.specs.LinesLeft.{left_of_client};
    ghost use Rattle.call_logs.specs.Roles.{HasEnded};

    type Role = CallRole;

    ghost role = { λ c. client_role c.task };

    ghost domain = { λ c. c.task.domain };

    ghost todo = { λ c. left_of_client (length c.task.calls) c.place };

    ghost asked = { λ c. c.asked.value };

    ghost Fits = { λ c log. ClientFits c.task c.place c.first c.gots.items c.asked.value log };

    ghost Ends = { λ c log. HasEnded (role_of c.task) log };

    fn next(&mut self, told: Option<&Answer<'_>>) -> Result<Option<CallLine>, NoMemory> {
        let going = self.task.follow(self.place, self.first, told)?;
        let Going {
            place,
            first,
            got,
            line,
        } = going;
        note(&mut self.gots, got)?;
        self.place = place;
        self.first = first;
        self.asked = Snapshot::of(&line);
        Ok(line)
    }
}

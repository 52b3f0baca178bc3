//! The server of numbered calls.

ghost use Rattle.std.specs.Prelude.{◌≡◌, ◌≤◌, ◌<◌, ◌^◌, [], IfOk, None};
ghost use Rattle.call_actor.specs.CallLimits.{call_limit};
ghost use Rattle.call_actor.specs.LinesLeft.{left_of_server};
ghost use Rattle.call_actor.specs.ServerStands.{IsWithin, ServerFits};

use crate::desk::Desk;
use crate::following::follow;
use crate::place::{ServerPlace, ServerStep};
use crate::role::CallRole;
use crate::rules::ServerRole;
use board_model::CallLine;
use board_runner::Actor;
use call_service::Service;
use mc_base::NoMemory;
use mc_journal::Answer;
use std::alloc::Global;
use std::snapshot::Snapshot;

/// The server, which replies to each request that comes.
#[derive(Drop)]
pub struct Server {
    alloc: Global,
    role: ServerRole,
    place: ServerPlace,
    desk: Desk,
    /// The line that was asked for last, which only contracts see.
    asked: Snapshot<Option<CallLine>>,
    ghost few: { role.clients < 8 },
    ghost repeats: { role.repeat ≤ 4 },
    ghost calls: { role.calls ≤ call_limit },
    ghost within: { IsWithin role place desk },
}

impl Server {
    /// Makes the server of so many clients, which send each request so often and have so many calls together.
    ///
    /// # Errors
    ///
    /// `NoMemory` where an allocation fails.
    pub fn new(alloc: Global, clients: u8, repeat: u8, calls: u32) -> Result<Server, NoMemory>
        requires few { clients < 8 }
        requires repeat { repeat ≤ 4 }
        requires calls { calls ≤ call_limit }
        ensures role { IfOk result (λ s. s.role ≡ record { clients = clients; repeat = repeat; calls = calls }) }
        ensures asked { IfOk result (λ s. s.asked.value ≡ None) }
        ensures fits { IfOk result (λ s. ServerFits s.role s.place s.desk s.asked.value []) }
        ensures few { IfOk result (λ s. left_of_server s.role s.place s.desk.received < 2 ^ 29) }
    {
        Ok(Server {
            alloc,
            role: ServerRole {
                clients,
                repeat,
                calls,
            },
            place: ServerPlace::New,
            desk: Desk::new(alloc, calls)?,
            asked: Snapshot::of(&None),
        })
    }

    pub fn service(&self) -> &Service
        ensures { result.now ≡ self.now.desk.service }
    {
        self.desk.service()
    }
}

impl Actor for Server {
    ghost use Rattle.call_actor.specs.CallRoles.{server_role};
    ghost use Rattle.call_actor.specs.LinesLeft.{left_of_server};
    ghost use Rattle.call_actor.specs.ServerStands.{ServerFits, role_of};
    ghost use Rattle.call_logs.specs.Roles.{HasEnded};

    type Role = CallRole;

    ghost role = { λ s. server_role s.role };

    ghost domain = { λ s. 0 };

    ghost todo = { λ s. left_of_server s.role s.place s.desk.received };

    ghost asked = { λ s. s.asked.value };

    ghost Fits = { λ s log. ServerFits s.role s.place s.desk s.asked.value log };

    ghost Ends = { λ s log. HasEnded (role_of s.role) log };

    fn next(&mut self, told: Option<&Answer<'_>>) -> Result<Option<CallLine>, NoMemory> {
        let place = self.place;
        self.place = ServerPlace::Ended;
        let step = follow(self.alloc, self.role, place, &mut self.desk, told)?;
        let ServerStep { place, line } = step;
        self.place = place;
        self.asked = Snapshot::of(&line);
        Ok(line)
    }
}

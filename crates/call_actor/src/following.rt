//! Where the server goes from a place.

ghost use Rattle.std.specs.Prelude.{◌≡◌, ◌≤◌, ◌<◌, ◌+◌, IfOk, None, Some, option_map};
ghost use Rattle.mc_journal.specs.Entry.{plain_answer};
ghost use Rattle.call_logs.specs.Roles.{receive_line, reply_line as line_of_reply};
ghost use Rattle.call_actor.specs.CallLimits.{call_limit};
ghost use Rattle.call_actor.specs.ServerLimits.{limit as limit_of};
ghost use Rattle.call_actor.specs.ServerSteps.{
  create_line,
  bye_goes,
  going,
  going_on,
  going_told,
  looks_up as going_looks_up,
  lookup_line,
  takes_message as going_takes_message,
  wait_line,
};
ghost use Rattle.call_actor.specs.ServerStands.{IsWithin};
ghost use Rattle.call_actor.specs.declared.place.ServerPlace.TheVariants.{Ended};

use crate::bytes::{bye_in, reply};
use crate::desk::Desk;
use crate::lines::{client_label, endpoint, lookup, once, priority, tried, wait};
use crate::place::{ServerPlace, ServerStep};
use crate::rules::{ServerRole, limit};
use crate::told::{bytes_in, is_refused};
use board_model::{Call, CallLine};
use mc_base::NoMemory;
use mc_journal::Answer;
use std::alloc::Global;

/// Returns where the server goes from a place, when it is told an answer, or nothing at first.
pub fn follow(
    alloc: Global,
    role: ServerRole,
    place: ServerPlace,
    desk: &mut Desk,
    told: Option<&Answer<'_>>,
) -> Result<ServerStep, NoMemory>
    requires few { role.clients < 8 }
    requires repeat { role.repeat ≤ 4 }
    requires calls { role.calls ≤ call_limit }
    requires within { IsWithin role place desk.old }
    ensures step { IfOk result (λ s. record { place = s.place; held = desk.new; line = s.line } ≡ going role place desk.old (option_map (λ a. plain_answer a.now) told.entry)) }
    ensures received { desk.new.received ≤ limit_of role + 1 }
{
    match told {
        Some(answer) => follow_told(alloc, role, place, desk, answer),
        None => Ok(begin(place)),
    }
}

/// The first line, where there was none yet.
fn begin(place: ServerPlace) -> ServerStep
    ensures { (role held : _) → record { place = result.place; held = held; line = result.line } ≡ going role place held None }
{
    match place {
        ServerPlace::New => goes(ServerPlace::Created, once(0, Call::Create { port: 1 })),
        ServerPlace::Created | ServerPlace::LookedUp(_) | ServerPlace::Waited(_) => ends(),
        ServerPlace::Receiving | ServerPlace::Replying | ServerPlace::Ended => ends(),
    }
}

fn follow_told(
    alloc: Global,
    role: ServerRole,
    place: ServerPlace,
    desk: &mut Desk,
    answer: &Answer<'_>,
) -> Result<ServerStep, NoMemory>
    requires few { role.clients < 8 }
    requires repeat { role.repeat ≤ 4 }
    requires calls { role.calls ≤ call_limit }
    requires within { IsWithin role place desk.old }
    ensures step { IfOk result (λ s. record { place = s.place; held = desk.new; line = s.line } ≡ going_told role place desk.old (plain_answer answer.now)) }
    ensures received { desk.new.received ≤ limit_of role + 1 }
{
    if is_refused(answer) {
        return Ok(ends());
    }
    go_on(alloc, role, place, desk, answer)
}

/// After an answer that is no refusal.
fn go_on(
    alloc: Global,
    role: ServerRole,
    place: ServerPlace,
    desk: &mut Desk,
    answer: &Answer<'_>,
) -> Result<ServerStep, NoMemory>
    requires few { role.clients < 8 }
    requires repeat { role.repeat ≤ 4 }
    requires calls { role.calls ≤ call_limit }
    requires within { IsWithin role place desk.old }
    ensures step { IfOk result (λ s. record { place = s.place; held = desk.new; line = s.line } ≡ going_on role place desk.old (plain_answer answer.now)) }
    ensures received { desk.new.received ≤ limit_of role + 1 }
{
    match place {
        ServerPlace::New | ServerPlace::Ended => Ok(ends()),
        ServerPlace::Created => Ok(look_up(role, 1)),
        ServerPlace::LookedUp(client) => {
            let line = wait(0, client_label(client));
            Ok(goes(ServerPlace::Waited(client), line))
        }
        ServerPlace::Waited(client) => Ok(look_up(role, client + 1)),
        ServerPlace::Receiving => take_message(alloc, role, desk, bytes_in(answer)),
        ServerPlace::Replying => Ok(goes(ServerPlace::Receiving, receive())),
    }
}

/// The lookup of a client, or the first receive where there is no further client.
fn look_up(role: ServerRole, client: u8) -> ServerStep
    requires few { role.clients < 8 }
    requires some { 1 ≤ client }
    ensures { (held : _) → record { place = result.place; held = held; line = result.line } ≡ going_looks_up role client held }
{
    if client <= role.clients {
        let line = lookup(0, client_label(client), client);
        goes(ServerPlace::LookedUp(client), line)
    } else {
        goes(ServerPlace::Receiving, receive())
    }
}

/// Takes a message.
fn take_message(
    alloc: Global,
    role: ServerRole,
    desk: &mut Desk,
    message: &[u8],
) -> Result<ServerStep, NoMemory>
    requires few { role.clients < 8 }
    requires repeat { role.repeat ≤ 4 }
    requires calls { role.calls ≤ call_limit }
    requires received { desk.old.received ≤ limit_of role }
    ensures step { IfOk result (λ s. record { place = s.place; held = desk.new; line = s.line } ≡ going_takes_message role desk.old message.now) }
    ensures received { desk.new.received ≤ limit_of role + 1 }
{
    let most = limit(role);
    let answer = desk.take(message);
    if desk.received() > most {
        return Ok(ends());
    }
    if bye_in(message).is_some() {
        return Ok(after_bye(role, desk));
    }
    match answer {
        Ok(to) => Ok(goes(ServerPlace::Replying, reply_line(alloc, to, desk.reply())?)),
        Err(_) => Ok(ends()),
    }
}

fn after_bye(role: ServerRole, desk: &Desk) -> ServerStep
    requires { role.clients < 8 }
    ensures { record { place = result.place; held = desk.now; line = result.line } ≡ bye_goes role desk.now }
{
    if desk.have_left(role.clients) {
        ends()
    } else {
        goes(ServerPlace::Receiving, receive())
    }
}

fn receive() -> CallLine
    ensures { result ≡ receive_line 0 }
{
    tried(0, Call::MsgRecv { port: 1, max: 488 })
}

fn reply_line(alloc: Global, to: u8, bytes: &[u8; 16]) -> Result<CallLine, NoMemory>
    ensures { IfOk result (λ line. line ≡ line_of_reply to bytes.now) }
{
    let bytes = reply(alloc, bytes)?;
    let call = Call::MsgSend {
        port: 1,
        to: endpoint(to),
        priority: priority(0),
        bytes,
    };
    Ok(tried(0, call))
}

fn goes(place: ServerPlace, line: CallLine) -> ServerStep
    ensures { result ≡ record { place = place; line = Some line } }
{
    ServerStep {
        place,
        line: Some(line),
    }
}

fn ends() -> ServerStep
    ensures { result ≡ record { place = Ended; line = None } }
{
    ServerStep {
        place: ServerPlace::Ended,
        line: None,
    }
}

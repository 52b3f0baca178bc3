//! What the server was made from.

ghost use Rattle.std.specs.Prelude.{◌≡◌, ◌≤◌};
ghost use Rattle.call_actor.specs.CallLimits.{call_limit};
ghost use Rattle.call_actor.specs.ServerLimits.{limit as limit_of};

/// How many clients there are, how often they send each request, and how many calls they have together.
#[derive(Clone, Copy, Debug)]
pub struct ServerRole {
    pub clients: u8,
    pub repeat: u8,
    pub calls: u32,
}

/// Returns how many messages may come.
pub fn limit(role: ServerRole) -> u32
    requires repeat { role.repeat ≤ 4 }
    requires calls { role.calls ≤ call_limit }
    ensures { result ≡ limit_of role }
{
    u32::from(role.repeat) * role.calls + u32::from(role.clients)
}

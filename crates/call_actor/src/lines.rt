//! The lines that actors give.

ghost use Rattle.std.specs.Prelude.{◌≡◌, ◌≤◌, ◌<◌};
ghost use Rattle.board_model.specs.MadeLines.{once as line_once, tried as line_tried, labelled as line_labelled, waited as line_waited};
ghost use Rattle.board_model.specs.declared.scenario.Call.TheVariants.{Lookup};
ghost use Rattle.call_logs.specs.Roles.{endpoint_of};
ghost use Rattle.call_actor.specs.ServerLabels.{label_for};

use board_model::{Call, CallLine, Label};
use mc_base::{EndName, Priority};

/// A line that is called once.
pub fn once(domain: u8, call: Call) -> CallLine
    ensures { result ≡ line_once domain call }
{
    CallLine {
        domain,
        node: 0,
        label: None,
        tries: None,
        call,
    }
}

/// A line that is tried as often as a line may be.
pub fn tried(domain: u8, call: Call) -> CallLine
    ensures { result ≡ line_tried domain call }
{
    CallLine {
        domain,
        node: 0,
        label: None,
        tries: Some(u32::MAX),
        call,
    }
}

/// The lookup of the one endpoint of a domain.
pub fn lookup(domain: u8, label: Label, other: u8) -> CallLine
    ensures { result ≡ line_labelled domain label.items (Lookup (endpoint_of other)) }
{
    CallLine {
        domain,
        node: 0,
        label: Some(label),
        tries: None,
        call: Call::Lookup {
            name: endpoint(other),
        },
    }
}

/// The wait for it, without end.
pub fn wait(domain: u8, label: Label) -> CallLine
    ensures { result ≡ line_waited domain label.items }
{
    once(
        domain,
        Call::Wait {
            label,
            limit: u32::MAX,
        },
    )
}

/// The one endpoint of a domain.
pub fn endpoint(domain: u8) -> EndName
    ensures { result ≡ endpoint_of domain }
{
    EndName {
        domain,
        node: 0,
        port: 1,
    }
}

/// The priority of this number.
pub fn priority(number: u8) -> Priority
    requires { number ≤ 3 }
    ensures { result ≡ number }
{
    Priority::new(number).unwrap()
}

/// The label under which the server looks up a client: `a` and the number of its domain.
pub fn client_label(client: u8) -> Label
    requires some { 1 ≤ client }
    requires few { client < 8 }
    ensures { result.items ≡ label_for client }
{
    let mut label = Label::new();
    label.push(b'a');
    label.push(b'0' + client);
    label
}

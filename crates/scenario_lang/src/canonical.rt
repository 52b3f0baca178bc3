//! The canonical text of a scenario, put piece by piece.

ghost use Rattle.std.specs.Prelude.{◌≡◌, ◌++◌, ◌∷◌, [], map, drop, codes, decimal};
ghost use Rattle.std.specs.List.{flat_map};
ghost use Rattle.outer_io.specs.Puts.{Puts};
ghost use Rattle.board_model.specs.Scenario.{label_in};
ghost use Rattle.board_model.specs.Forms.{form};
ghost use Rattle.scenario_lang.specs.CallFronts.{label_front, tries_front, words_in, blank_then, comma_then};
ghost use Rattle.board_model.specs.Grammar.{canonical, domain_text, link_text, call_text, call_words, caller_text, name_text, with_commas, spaced, line_of};

use self::Argument::{ChannelKind, Content, Label, Labels, Name, Number};
use crate::kinds::{bits_count, kind_word};
use crate::table::row_of;
use board_model::{Call, CallLine, Callee, DomainLine, LinkLine, Scenario};
use mc_base::{EndName, Kind};
use outer_io::{Sink, Writer};

/// Puts the canonical text of a scenario. It takes no memory.
pub fn put_scenario<K: Sink>(out: &mut Writer<'_, K>, scenario: &Scenario)
    ensures { Puts K.Sink out.old out.new (canonical scenario.now) }
{
    put_domains(out, scenario.domains.as_slice());
    put_links(out, scenario.links.as_slice());
    put_calls(out, scenario.calls.as_slice());
}

fn put_domains<K: Sink>(out: &mut Writer<'_, K>, domains: &[DomainLine])
    ensures { Puts K.Sink out.old out.new (flat_map domain_text domains.now) }
{
    for domain in domains {
        put_domain(out, *domain);
    }
}

fn put_links<K: Sink>(out: &mut Writer<'_, K>, links: &[LinkLine])
    ensures { Puts K.Sink out.old out.new (flat_map link_text links.now) }
{
    for link in links {
        put_link(out, *link);
    }
}

fn put_calls<K: Sink>(out: &mut Writer<'_, K>, calls: &[CallLine])
    ensures { Puts K.Sink out.old out.new (flat_map call_text calls.now) }
{
    for line in calls {
        put_call_line(out, line);
    }
}

fn put_domain<K: Sink>(out: &mut Writer<'_, K>, domain: DomainLine)
    ensures { Puts K.Sink out.old out.new (domain_text domain) }
{
    out.put(b"domain ");
    out.put_number(domain.domain as u64);
    out.put(b" nodes ");
    out.put_number(domain.nodes as u64);
    out.put(b" pool ");
    out.put_number(domain.pool as u64);
    out.put(b"\n");
}

fn put_link<K: Sink>(out: &mut Writer<'_, K>, link: LinkLine)
    ensures { Puts K.Sink out.old out.new (link_text link) }
{
    out.put(b"link ");
    out.put_number(link.driver as u64);
    out.put(b" ");
    out.put_number(link.device as u64);
    out.put(b" size ");
    out.put_number(link.size as u64);
    out.put(b"\n");
}

fn put_call_line<K: Sink>(out: &mut Writer<'_, K>, line: &CallLine)
    ensures { Puts K.Sink out.old out.new (call_text line.now) }
{
    put_caller(out, line.domain, line.node);
    out.put(b" ");
    put_label(out, line);
    put_tries(out, line.tries);
    put_call(out, &line.call);
    out.put(b"\n");
}

fn put_caller<K: Sink>(out: &mut Writer<'_, K>, domain: u8, node: u8)
    ensures { Puts K.Sink out.old out.new (decimal domain ++ (46 ∷ decimal node)) }
{
    out.put_number(domain as u64);
    out.put(b".");
    out.put_number(node as u64);
}

/// Puts the label of a line, where it has one, and the sign after it.
fn put_label<K: Sink>(out: &mut Writer<'_, K>, line: &CallLine)
    ensures { Puts K.Sink out.old out.new (label_front (label_in line.now)) }
{
    if let Some(label) = &line.label {
        out.put(label.as_slice());
        out.put(b" = ");
    }
}

/// Puts how often the call of a line is made at most, where the line says it.
fn put_tries<K: Sink>(out: &mut Writer<'_, K>, tries: Option<u32>)
    ensures { Puts K.Sink out.old out.new (tries_front tries) }
{
    if let Some(tries) = tries {
        out.put(b"try ");
        out.put_number(tries as u64);
        out.put(b" ");
    }
}

/// An argument of a call, to be put as its word.
#[derive(Clone, Copy)]
enum Argument<'a> {
    Number(u64),
    Name(EndName),
    Content(&'a [u8]),
    ChannelKind(Kind),
    Label(&'a [u8]),
    Labels(&'a [board_model::Label]),
}

fn put_call<K: Sink>(out: &mut Writer<'_, K>, call: &Call)
    ensures { Puts K.Sink out.old out.new (spaced (call_words call.now)) }
{
    put_form(out, call.callee(), &arguments_of(call));
}

/// Returns the arguments of a call in their order. The places behind the last are empty.
fn arguments_of(call: &Call) -> [Option<Argument<'_>>; 4]
    ensures { words_in result ≡ drop 1 (call_words call.now) }
{
    match call {
        Call::Create { port }
        | Call::Delete { port }
        | Call::MsgAvailable { port }
        | Call::PktRecv { port }
        | Call::PktRecvI { port }
        | Call::CloseSend { port }
        | Call::CloseRecv { port } => [Some(Number(*port as u64)), None, None, None],
        Call::Lookup { name } => [Some(Name(*name)), None, None, None],
        Call::MsgSend {
            port,
            to,
            priority,
            bytes,
        } => [
            Some(Number(*port as u64)),
            Some(Name(*to)),
            Some(Number(priority.number() as u64)),
            Some(Content(bytes.as_slice())),
        ],
        Call::MsgRecv { port, max } | Call::MsgRecvI { port, max } => [
            Some(Number(*port as u64)),
            Some(Number(*max as u64)),
            None,
            None,
        ],
        Call::Connect { port, to, kind } => [
            Some(Number(*port as u64)),
            Some(Name(*to)),
            Some(ChannelKind(*kind)),
            None,
        ],
        Call::OpenSend { port, kind } | Call::OpenRecv { port, kind } => [
            Some(Number(*port as u64)),
            Some(ChannelKind(*kind)),
            None,
            None,
        ],
        Call::PktSend { port, bytes } => [
            Some(Number(*port as u64)),
            Some(Content(bytes.as_slice())),
            None,
            None,
        ],
        Call::Release { label } | Call::Test { label } | Call::Cancel { label } => {
            [Some(Label(label.as_slice())), None, None, None]
        }
        Call::SclSend { port, bits, value } => [
            Some(Number(*port as u64)),
            Some(Number(bits_count(*bits) as u64)),
            Some(Number(*value)),
            None,
        ],
        Call::SclRecv { port, bits } => [
            Some(Number(*port as u64)),
            Some(Number(bits_count(*bits) as u64)),
            None,
            None,
        ],
        Call::Wait { label, limit } => [
            Some(Label(label.as_slice())),
            Some(Number(*limit as u64)),
            None,
            None,
        ],
        Call::WaitAny { labels, limit } => [
            Some(Labels(labels.as_slice())),
            Some(Number(*limit as u64)),
            None,
            None,
        ],
        Call::Raw { domain, bytes } => [
            Some(Number(*domain as u64)),
            Some(Content(bytes.as_slice())),
            None,
            None,
        ],
        Call::Turn => [None, None, None, None],
    }
}

/// Puts the word of a call and its arguments.
fn put_form<K: Sink>(out: &mut Writer<'_, K>, callee: Callee, arguments: &[Option<Argument<'_>>])
    ensures { Puts K.Sink out.old out.new (spaced ((form callee).word ∷ words_in arguments.now)) }
{
    out.put(row_of(callee).word);
    put_arguments(out, arguments);
}

fn put_arguments<K: Sink>(out: &mut Writer<'_, K>, arguments: &[Option<Argument<'_>>])
    ensures { Puts K.Sink out.old out.new (flat_map blank_then arguments.now) }
{
    for argument in arguments {
        put_argument(out, *argument);
    }
}

/// Puts a blank and an argument, where there is one.
fn put_argument<K: Sink>(out: &mut Writer<'_, K>, argument: Option<Argument<'_>>)
    ensures { Puts K.Sink out.old out.new (blank_then argument.entry) }
{
    let Some(argument) = argument else {
        return;
    };
    out.put(b" ");
    match argument {
        Number(number) => out.put_number(number),
        Name(name) => put_name(out, name),
        Content(bytes) => out.put_hex(bytes),
        ChannelKind(kind) => out.put(kind_word(kind)),
        Label(label) => out.put(label),
        Labels(labels) => put_labels(out, labels),
    }
}

/// Puts labels with commas between them.
fn put_labels<K: Sink>(out: &mut Writer<'_, K>, labels: &[board_model::Label])
    ensures { Puts K.Sink out.old out.new (with_commas (map (λ l. l.items) labels.now)) }
{
    let [first, rest @ ..] = labels else {
        return;
    };
    out.put(first.as_slice());
    put_more_labels(out, rest);
}

fn put_more_labels<K: Sink>(out: &mut Writer<'_, K>, labels: &[board_model::Label])
    ensures { Puts K.Sink out.old out.new (flat_map comma_then labels.now) }
{
    for label in labels {
        put_comma_and(out, label);
    }
}

fn put_comma_and<K: Sink>(out: &mut Writer<'_, K>, label: &board_model::Label)
    ensures { Puts K.Sink out.old out.new (comma_then label.now) }
{
    out.put(b",");
    out.put(label.as_slice());
}

/// Puts D:N:P.
fn put_name<K: Sink>(out: &mut Writer<'_, K>, name: EndName)
    ensures { Puts K.Sink out.old out.new (name_text name) }
{
    out.put_number(name.domain as u64);
    out.put(b":");
    out.put_number(name.node as u64);
    out.put(b":");
    out.put_number(name.port as u64);
}

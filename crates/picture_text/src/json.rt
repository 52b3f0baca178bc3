//! The objects of a trace in JSON.

ghost use Rattle.std.specs.Prelude.{◌≡◌, ℕ, option_to_list};
ghost use Rattle.std.specs.List.{flat_map};
ghost use Rattle.outer_io.specs.Puts.{Puts};
ghost use Rattle.picture_text.specs.Objects.{PutsObjects, args_text, bytes_text, member_text, members_text, more_member, name_text, object, object_text, phase_text, trace_end, trace_head, value_text, words_text};

use crate::escape::put_json;
use outer_io::{Sink, Writer};

/// What an event of a trace is.
#[derive(Clone, Copy)]
pub enum Phase {
    /// Something with a beginning and a duration.
    Complete,
    /// An arrow begins.
    FlowStart,
    /// An arrow ends.
    FlowFinish,
    /// The values of a counter.
    Counter,
    /// Something of one moment.
    Instant,
    /// The name of a track.
    Metadata,
}

/// The name of a member.
#[derive(Clone, Copy)]
pub enum Name {
    Name,
    Category,
    Time,
    Duration,
    Process,
    Track,
    Id,
    Binding,
    Scope,
    Answer,
    Frame,
    Fate,
    Free,
    OnWay,
    Held,
    Returned,
    Times,
}

/// The value of a member: a number, words, or bytes in hexadecimal.
#[derive(Clone, Copy)]
pub enum Value<'a> {
    Number(u64),
    Words(&'a [u8]),
    Bytes(&'a [u8]),
}

/// A member of an object.
#[derive(Clone, Copy)]
pub struct Member<'a> {
    pub name: Name,
    pub value: Value<'a>,
}

fn phase_word(phase: Phase) -> &'static [u8]
    ensures { result.now ≡ phase_text phase }
{
    match phase {
        Phase::Complete => b"X",
        Phase::FlowStart => b"s",
        Phase::FlowFinish => b"f",
        Phase::Counter => b"C",
        Phase::Instant => b"i",
        Phase::Metadata => b"M",
    }
}

fn name_word(name: Name) -> &'static [u8]
    ensures { result.now ≡ name_text name }
{
    match name {
        Name::Name => b"name",
        Name::Category => b"cat",
        Name::Time => b"ts",
        Name::Duration => b"dur",
        Name::Process => b"pid",
        Name::Track => b"tid",
        Name::Id => b"id",
        Name::Binding => b"bp",
        Name::Scope => b"s",
        Name::Answer => b"answer",
        Name::Frame => b"frame",
        Name::Fate => b"fate",
        Name::Free => b"free",
        Name::OnWay => b"on the way",
        Name::Held => b"held",
        Name::Returned => b"given back",
        Name::Times => b"times",
    }
}

/// Begins a trace, with the name of its one process.
pub fn put_trace_head<K: Sink>(out: &mut Writer<'_, K>)
    ensures { Puts K.Sink out.old out.new trace_head }
{
    out.put(
        b"{\"displayTimeUnit\":\"ns\",\"traceEvents\":[\n{\"ph\":\"M\",\"name\":\"process_name\",\"pid\":1,\"args\":{\"name\":\"board\"}}",
    );
}

/// Ends a trace.
pub fn put_trace_end<K: Sink>(out: &mut Writer<'_, K>)
    ensures { Puts K.Sink out.old out.new trace_end }
{
    out.put(b"\n]}\n");
}

fn put_words<K: Sink>(out: &mut Writer<'_, K>, words: &[u8])
    ensures { Puts K.Sink out.old out.new (words_text words.now) }
{
    out.put(b"\"");
    put_json(out, words);
    out.put(b"\"");
}

fn put_bytes<K: Sink>(out: &mut Writer<'_, K>, bytes: &[u8])
    ensures { Puts K.Sink out.old out.new (bytes_text bytes.now) }
{
    out.put(b"\"");
    out.put_hex(bytes);
    out.put(b"\"");
}

fn put_value<K: Sink>(out: &mut Writer<'_, K>, value: Value<'_>)
    ensures { Puts K.Sink out.old out.new (value_text value.entry) }
{
    match value {
        Value::Number(n) => out.put_number(n),
        Value::Words(words) => put_words(out, words),
        Value::Bytes(bytes) => put_bytes(out, bytes),
    }
}

fn put_member<K: Sink>(out: &mut Writer<'_, K>, member: Member<'_>)
    ensures { Puts K.Sink out.old out.new (member_text member.entry) }
{
    out.put(b"\"");
    out.put(name_word(member.name));
    out.put(b"\":");
    put_value(out, member.value);
}

fn put_more<K: Sink>(out: &mut Writer<'_, K>, member: &Member<'_>)
    ensures { Puts K.Sink out.old out.new (more_member member.now) }
{
    out.put(b",");
    put_member(out, *member);
}

fn put_all_more<K: Sink>(out: &mut Writer<'_, K>, members: &[Member<'_>])
    ensures { Puts K.Sink out.old out.new (flat_map more_member members.now) }
{
    for member in members {
        put_more(out, member);
    }
}

fn put_members<K: Sink>(out: &mut Writer<'_, K>, members: &[Member<'_>])
    ensures { Puts K.Sink out.old out.new (members_text members.now) }
{
    if let [first, others @ ..] = members {
        put_member(out, *first);
        put_all_more(out, others);
    }
}

fn put_args<K: Sink>(out: &mut Writer<'_, K>, line: Option<u32>, args: &[Member<'_>])
    ensures { Puts K.Sink out.old out.new (args_text line args.now) }
{
    match line {
        Some(line) => {
            out.put(b"\"line\":");
            out.put_number(line as u64);
            put_all_more(out, args);
        }
        None => put_members(out, args),
    }
}

/// Puts an object of a trace whole, behind a comma: its members, and its arguments, of which the first is the line of a report that it shows, where
/// it shows one.
pub fn put_object<K: Sink>(
    out: &mut Writer<'_, K>,
    phase: Phase,
    line: Option<u32>,
    members: &[Member<'_>],
    args: &[Member<'_>],
)
    ensures exact { Puts K.Sink out.old out.new (object_text (object phase line members.now args.now)) }
    ensures object { PutsObjects K.Sink out.old out.new (option_to_list line) }
{
    out.put(b",\n{\"ph\":\"");
    out.put(phase_word(phase));
    out.put(b"\"");
    put_all_more(out, members);
    out.put(b",\"args\":{");
    put_args(out, line, args);
    out.put(b"}}");
}

//! A report as a trace: a track for each domain, an arrow for each frame, and a counter for each lane.
#![tactic(auto, using(picture_text::proofs::PieceSteps::piece_steps))]

ghost use Rattle.std.specs.Prelude.{◌≡◌, ◌≤◌, ◌∷◌, [], length, map};
ghost use Rattle.report_text.specs.Texts.{longest_line};
ghost use Rattle.picture_text.specs.Objects.{PutsObjects};
ghost use Rattle.report_pictures.specs.Traces.{PutsTrace};

use crate::buffers::{Buffers, LaneBuffers};
use crate::caption::{Caption, frame_caption};
use crate::kind::{kind_of, kind_word};
use crate::subject::{Subject, frame_in, number_in};
use event_order::{Event, Lane, What};
use outer_io::{Sink, Writer};
use picture_text::{Member, Name, Phase, Value, put_object, put_trace_end, put_trace_head};
use report_view::{answer_in, last_word};

/// The microseconds from one event to the next, those that an event lasts, and those to its middle, where arrows end.
const STEP: u64 = 10;

const LENGTH: u64 = 8;

const MIDDLE: u64 = 4;

/// An event with its time, in microseconds.
#[derive(Clone, Copy)]
struct Moment {
    event: Event,
    time: u64,
}

/// What is known of the events up to some point: where the buffers of lanes are, how many frames were put and taken on each lane, and when the
/// wait of each domain began.
#[derive(Drop)]
struct Past {
    lanes: LaneBuffers,
    puts: [[u32; 8]; 8],
    takes: [[u32; 8]; 8],
    begun: [Option<u64>; 8],
}

fn words<'w>(name: Name, text: &'w [u8]) -> Member<'w> {
    Member {
        name,
        value: Value::Words(text),
    }
}

fn number(name: Name, value: u64) -> Member<'static> {
    Member {
        name,
        value: Value::Number(value),
    }
}

/// Puts something that lasts on the track of its domain, up to the end of a moment.
fn put_lasting<K: Sink>(
    out: &mut Writer<'_, K>,
    at: Moment,
    begin: u64,
    title: &[u8],
    category: &[u8],
    args: &[Member<'_>],
)
    ensures { PutsObjects K.Sink out.old out.new (at.event.line ∷ []) }
{
    let end = at.time.saturating_add(LENGTH);
    let members = [
        words(Name::Name, title),
        words(Name::Category, category),
        number(Name::Process, 1),
        number(Name::Track, u64::from(at.event.domain)),
        number(Name::Time, begin),
        number(Name::Duration, end.saturating_sub(begin)),
    ];
    put_object(out, Phase::Complete, Some(at.event.line), &members, args);
}

/// Puts something of one moment on the track of its domain.
fn put_moment<K: Sink>(out: &mut Writer<'_, K>, at: Moment, title: &[u8], args: &[Member<'_>])
    ensures { PutsObjects K.Sink out.old out.new (at.event.line ∷ []) }
{
    let members = [
        words(Name::Name, title),
        number(Name::Process, 1),
        number(Name::Track, u64::from(at.event.domain)),
        number(Name::Time, at.time),
        words(Name::Scope, b"t"),
    ];
    put_object(out, Phase::Instant, Some(at.event.line), &members, args);
}

/// Puts an end of the arrow of a frame, which is the one of this number on its lane.
fn put_arrow<K: Sink>(out: &mut Writer<'_, K>, phase: Phase, at: Moment, lane: Lane, count: u32)
    ensures { PutsObjects K.Sink out.old out.new [] }
{
    let ends = u64::from(lane.sender) * 256 + u64::from(lane.receiver);
    let members = [
        words(Name::Name, b"frame"),
        words(Name::Category, b"frame"),
        number(Name::Id, ends * 4_294_967_296 + u64::from(count)),
        number(Name::Process, 1),
        number(Name::Track, u64::from(at.event.domain)),
        number(Name::Time, at.time.saturating_add(MIDDLE)),
        words(Name::Binding, b"e"),
    ];
    // Only an end has a binding point: it ends on what encloses it.
    match phase {
        Phase::FlowFinish => put_object(out, phase, None, &members, &[]),
        _ => put_object(out, phase, None, &members[..6], &[]),
    }
}

/// Puts where the buffers of a lane are.
fn put_counter<K: Sink>(out: &mut Writer<'_, K>, lane: Lane, time: u64, buffers: &Buffers)
    ensures { PutsObjects K.Sink out.old out.new [] }
{
    let mut title = Caption::new();
    title.add(b"lane ");
    title.add_number(u64::from(lane.sender));
    title.add(b" ");
    title.add_number(u64::from(lane.receiver));
    let members = [
        words(Name::Name, title.as_slice()),
        number(Name::Process, 1),
        number(Name::Time, time),
    ];
    let args = [
        number(Name::Free, u64::from(buffers.free)),
        number(Name::OnWay, u64::from(buffers.on_way)),
        number(Name::Held, u64::from(buffers.held)),
        number(Name::Returned, u64::from(buffers.returned)),
    ];
    put_object(out, Phase::Counter, None, &members, &args);
}

/// Puts the name of the track of a domain.
fn put_track<K: Sink>(out: &mut Writer<'_, K>, domain: u8)
    ensures { PutsObjects K.Sink out.old out.new [] }
{
    let mut title = Caption::new();
    title.add(b"domain ");
    title.add_number(u64::from(domain));
    let members = [
        words(Name::Name, b"thread_name"),
        number(Name::Process, 1),
        number(Name::Track, u64::from(domain)),
    ];
    let args = [words(Name::Name, title.as_slice())];
    put_object(out, Phase::Metadata, None, &members, &args);
}

fn put_put<K: Sink>(out: &mut Writer<'_, K>, at: Moment, frame: &[u8])
    ensures { PutsObjects K.Sink out.old out.new (at.event.line ∷ []) }
{
    let title = frame_caption(b"put ", frame);
    let args = [Member {
        name: Name::Frame,
        value: Value::Bytes(frame),
    }];
    let category = kind_word(kind_of(frame));
    put_lasting(out, at, at.time, title.as_slice(), category, &args);
}

fn put_take<K: Sink>(out: &mut Writer<'_, K>, at: Moment, frame: &[u8], fate: &[u8])
    ensures { PutsObjects K.Sink out.old out.new (at.event.line ∷ []) }
{
    let title = frame_caption(b"take ", frame);
    let args = [words(Name::Fate, fate)];
    let category = kind_word(kind_of(frame));
    put_lasting(out, at, at.time, title.as_slice(), category, &args);
}

/// Puts that buffers were given back to a peer, or came back from it.
fn put_return<K: Sink>(out: &mut Writer<'_, K>, at: Moment, count: u32, way: &[u8], peer: u8)
    ensures { PutsObjects K.Sink out.old out.new (at.event.line ∷ []) }
{
    let mut title = Caption::new();
    title.add_number(u64::from(count));
    title.add(way);
    title.add_number(u64::from(peer));
    put_moment(out, at, title.as_slice(), &[]);
}

/// Puts that a call is made again, which was refused with a word.
fn put_again<K: Sink>(out: &mut Writer<'_, K>, at: Moment, word: &[u8])
    ensures { PutsObjects K.Sink out.old out.new (at.event.line ∷ []) }
{
    let mut title = Caption::new();
    title.add(b"again: ");
    title.add(word);
    put_moment(out, at, title.as_slice(), &[]);
}

/// Puts a call with its answer. It lasts from the beginning of its wait, where it had one.
fn put_call<K: Sink>(
    out: &mut Writer<'_, K>,
    at: Moment,
    begin: u64,
    call: &[u8],
    refused: bool,
    answer: &[u8],
)
    ensures { PutsObjects K.Sink out.old out.new (at.event.line ∷ []) }
{
    let category: &[u8] = if refused { b"refused" } else { b"call" };
    put_lasting(
        out,
        at,
        begin,
        call,
        category,
        &[words(Name::Answer, answer)],
    );
}

/// Puts an event.
fn put_event<K: Sink>(
    out: &mut Writer<'_, K>,
    subject: Subject<'_>,
    at: Moment,
    begun: Option<u64>,
    room: &mut [u8],
)
    requires { longest_line subject.report.now ≤ length room.old }
    ensures { PutsObjects K.Sink out.old out.new (at.event.line ∷ []) }
{
    let text = subject.text_of(&at.event);
    match at.event.what {
        What::Put { .. } => put_put(out, at, frame_in(text, room)),
        What::Take { .. } => put_take(out, at, frame_in(text, room), last_word(text)),
        What::Give { peer, count } => put_return(out, at, count, b" given back to ", peer),
        What::Back { peer, count } => put_return(out, at, count, b" back from ", peer),
        What::Wait { .. } => put_moment(out, at, b"wait", &[]),
        What::Again => put_again(out, at, last_word(text)),
        What::Answer { refused, .. } => {
            let line = subject.script_line(at.event.domain, number_in(text, room));
            let begin = begun.unwrap_or(at.time);
            put_call(out, at, begin, line.text, refused, answer_in(text));
        }
    }
}

impl Past {
    /// Nothing has happened yet.
    fn new(subject: Subject<'_>) -> Past {
        Past {
            lanes: *subject.lanes,
            puts: [[0; 8]; 8],
            takes: [[0; 8]; 8],
            begun: [None; 8],
        }
    }

    /// When the wait of a domain began, if it waits.
    fn begun_by(&self, domain: u8) -> Option<u64> {
        self.begun[usize::from(domain % 8)]
    }

    /// How many frames of a lane were put, and how many were taken.
    fn count_frames(&mut self, lane: Lane, what: What) -> Option<(Phase, u32)> {
        let (sender, receiver) = (usize::from(lane.sender % 8), usize::from(lane.receiver % 8));
        match what {
            What::Put { .. } => {
                let count = self.puts[sender][receiver].saturating_add(1);
                self.puts[sender][receiver] = count;
                Some((Phase::FlowStart, count))
            }
            What::Take { .. } => {
                let count = self.takes[sender][receiver].saturating_add(1);
                self.takes[sender][receiver] = count;
                Some((Phase::FlowFinish, count))
            }
            _ => None,
        }
    }

    /// Notes when the wait of a domain begins, and that it ends.
    fn note_wait(&mut self, at: Moment) {
        let domain = usize::from(at.event.domain % 8);
        match at.event.what {
            What::Wait { .. } => self.begun[domain] = Some(at.time),
            What::Answer { .. } => self.begun[domain] = None,
            _ => (),
        }
    }
}

/// Puts what an event does on its lane: an end of an arrow, where it puts or takes a frame, and the counter.
fn put_lane<K: Sink>(out: &mut Writer<'_, K>, past: &mut Past, at: Moment)
    ensures { PutsObjects K.Sink out.old out.new [] }
{
    if let Some((lane, buffers)) = past.lanes.pass(&at.event) {
        if let Some((phase, count)) = past.count_frames(lane, at.event.what) {
            put_arrow(out, phase, at, lane, count);
        }
        put_counter(out, lane, at.time, &buffers);
    }
}

/// Puts an event with what it does on its lane.
fn put_step<K: Sink>(
    out: &mut Writer<'_, K>,
    subject: Subject<'_>,
    past: &mut Past,
    at: Moment,
    room: &mut [u8],
)
    requires { longest_line subject.report.now ≤ length room.old }
    ensures { PutsObjects K.Sink out.old out.new (at.event.line ∷ []) }
{
    put_event(out, subject, at, past.begun_by(at.event.domain), room);
    put_lane(out, past, at);
    past.note_wait(at);
}

/// Puts these events, one after the other.
fn put_steps<K: Sink>(out: &mut Writer<'_, K>, subject: Subject<'_>, room: &mut [u8])
    requires { longest_line subject.report.now ≤ length room.old }
    ensures { PutsObjects K.Sink out.old out.new (map (λ e. e.line) subject.entry.events.now) }
{
    let mut past = Past::new(subject);
    let mut time: u64 = 0;
    for event in subject.events {
        let at = Moment {
            event: *event,
            time,
        };
        put_step(out, subject, &mut past, at, room);
        time = time.saturating_add(STEP);
    }
}

/// Puts the names of the tracks.
fn put_tracks<K: Sink>(out: &mut Writer<'_, K>, subject: Subject<'_>)
    ensures { PutsObjects K.Sink out.old out.new [] }
{
    for domain in &subject.view.domains {
        put_track(out, domain.journal.domain);
    }
}

/// Puts a report as a trace in the format of Chrome's trace viewer, which Perfetto reads: a track for each domain, with its calls, its waits and the
/// frames that it puts and takes; an arrow for each frame; and a counter for each lane, of its buffers that are free, on the way, held and given
/// back. A step of the order of events lasts 10 microseconds. Each event names the line of the report that says it. `room` is as long as the
/// longest line of the report.
pub fn put_trace<K: Sink>(out: &mut Writer<'_, K>, subject: Subject<'_>, room: &mut [u8])
    requires { longest_line subject.report.now ≤ length room.old }
    ensures { PutsTrace K.Sink out.old out.new (map (λ e. e.line) subject.entry.events.now) }
{
    put_trace_head(out);
    put_tracks(out, subject);
    put_steps(out, subject, room);
    put_trace_end(out);
}

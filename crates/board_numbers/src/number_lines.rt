//! Writes the lines of numbers of a report, piece by piece.

ghost use Rattle.std.specs.Prelude.{◌≡◌, ◌≤◌, ◌++◌, ◌∷◌, [], ℕ, length, codes, decimal, IsOk};
ghost use Rattle.std.specs.List.{flat_map};
ghost use Rattle.outer_io.specs.Faults.{HasCause};
ghost use Rattle.outer_io.specs.Writes.{Writes};
ghost use Rattle.outer_io.specs.Puts.{Puts};
ghost use Rattle.board_model.specs.Grammar.{line_of};
ghost use Rattle.board_model.specs.Report.{totals_words, channel_text, messages_text, summary_text, places_text};
ghost use Rattle.board_numbers.specs.NumberLines.{numbers_text};

use board_model::{ChannelTotals, LanePlaces, Totals};
use outer_io::{Failed, Sink, Writer};

/// Writes the lines of a report that say what became of the items of each channel, of the messages, and of the buffers of each lane.
///
/// # Errors
///
/// `Failed` where a write fails. A proper prefix of the lines is written then.
pub fn write_numbers<K: Sink>(
    channels: &[ChannelTotals],
    messages: &Totals,
    places: &[LanePlaces],
    sink: &mut K,
) -> Result<(), Failed>
    ensures bytes { Writes (K.written sink.old) (K.written sink.new) result (numbers_text channels.now messages.now places.now) }
    ensures cause { HasCause (K.faults sink.old) (K.faults sink.new) result }
    ensures room { (n : ℕ) → K.takes sink.old n → length (numbers_text channels.now messages.now places.now) ≤ n → IsOk result }
{
    let mut out = Writer::new(sink);
    put_numbers(&mut out, channels, messages, places);
    out.finish()
}

/// Puts the same lines.
pub fn put_numbers<K: Sink>(
    out: &mut Writer<'_, K>,
    channels: &[ChannelTotals],
    messages: &Totals,
    places: &[LanePlaces],
)
    ensures { Puts K.Sink out.old out.new (numbers_text channels.now messages.now places.now) }
{
    put_summary(out, channels, messages);
    put_lanes(out, places);
}

/// Puts the lines that say what became of the items of each channel and of the messages.
pub fn put_summary<K: Sink>(out: &mut Writer<'_, K>, channels: &[ChannelTotals], messages: &Totals)
    ensures { Puts K.Sink out.old out.new (summary_text channels.now messages.now) }
{
    put_channels(out, channels);
    put_messages(out, messages);
}

fn put_channels<K: Sink>(out: &mut Writer<'_, K>, channels: &[ChannelTotals])
    ensures { Puts K.Sink out.old out.new (flat_map channel_text channels.now) }
{
    for channel in channels {
        put_channel(out, channel);
    }
}

fn put_channel<K: Sink>(out: &mut Writer<'_, K>, channel: &ChannelTotals)
    ensures { Puts K.Sink out.old out.new (channel_text channel.now) }
{
    out.put(b"channel ");
    out.put_number(channel.owner as u64);
    out.put(b" ");
    out.put_number(channel.number as u64);
    out.put(b" ");
    put_totals(out, &channel.totals);
}

fn put_messages<K: Sink>(out: &mut Writer<'_, K>, totals: &Totals)
    ensures { Puts K.Sink out.old out.new (messages_text totals.now) }
{
    out.put(b"messages ");
    put_totals(out, totals);
}

/// Puts what became of items or messages, and a newline.
fn put_totals<K: Sink>(out: &mut Writer<'_, K>, totals: &Totals)
    ensures { Puts K.Sink out.old out.new (line_of (totals_words totals.now)) }
{
    out.put(b"accepted ");
    out.put_number(totals.accepted);
    out.put(b" taken ");
    out.put_number(totals.taken);
    out.put(b" dropped ");
    out.put_number(totals.dropped);
    out.put(b" queued ");
    out.put_number(totals.queued);
    out.put(b" ring ");
    out.put_number(totals.ring);
    out.put(b"\n");
}

fn put_lanes<K: Sink>(out: &mut Writer<'_, K>, lanes: &[LanePlaces])
    ensures { Puts K.Sink out.old out.new (flat_map places_text lanes.now) }
{
    for lane in lanes {
        put_lane(out, lane);
    }
}

fn put_lane<K: Sink>(out: &mut Writer<'_, K>, lane: &LanePlaces)
    ensures { Puts K.Sink out.old out.new (places_text lane.now) }
{
    out.put(b"lane ");
    out.put_number(lane.from as u64);
    out.put(b" ");
    out.put_number(lane.to as u64);
    out.put(b" free ");
    out.put_number(lane.free as u64);
    out.put(b" ring ");
    out.put_number(lane.ring as u64);
    out.put(b" queue ");
    out.put_number(lane.queue as u64);
    out.put(b" lent ");
    out.put_number(lane.lent as u64);
    out.put(b"\n");
}

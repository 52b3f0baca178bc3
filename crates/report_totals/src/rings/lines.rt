//! The lines that show the images of rings.

ghost use Rattle.std.specs.Prelude.{◌≡◌, ◌<◌, ◌++◌, ◌∷◌, [], List, length, IfOk, OnOk};
ghost use Rattle.std.specs.List.{flat_map};
ghost use Rattle.outer_io.specs.Puts.{Puts};
ghost use Rattle.outer_io.specs.Writes.{Writes};
ghost use Rattle.board_model.specs.declared.scenario.Scenario.{Scenario};
ghost use Rattle.ring_numbers.specs.RingTexts.{ring_text};
ghost use Rattle.report_text.specs.JournalRead.{JournalText};
ghost use Rattle.report_totals.specs.ReadJournals.{Reads, ReadsLinks, image_told};

use crate::rings::images::{ReadJournals, image_of_queue};
use crate::text_sink::TextSink;
use board_model::LinkLine;
use mc_base::NoMemory;
use outer_io::{Failed, Sink, Writer};
use std::alloc::Global;

/// The image of a ring, behind its link and its queue.
fn put_ring<K: Sink>(out: &mut Writer<'_, K>, link: &LinkLine, queue: u8, image: &[u8])
    requires { 0 < length image.now }
    ensures { Puts K.Sink out.old out.new (ring_text link.now queue image.now) }
{
    out.put(b"ring ");
    out.put_number(link.driver as u64);
    out.put(b" ");
    out.put_number(link.device as u64);
    out.put(b" ");
    out.put_number(queue as u64);
    out.put(b" ");
    out.put_hex(image);
    out.put(b"\n");
}

fn write_ring<K: Sink>(sink: &mut K, link: &LinkLine, queue: u8, image: &[u8]) -> Result<(), Failed>
    requires { 0 < length image.now }
    ensures { Writes (K.written sink.old) (K.written sink.new) result (ring_text link.now queue image.now) }
{
    let mut out = Writer::new(sink);
    put_ring(&mut out, link, queue, image);
    out.finish()
}

/// Adds the line of a ring.
fn add_ring(
    alloc: Global,
    sink: &mut TextSink,
    read: ReadJournals<'_>,
    link: &LinkLine,
    queue: u8,
) -> Result<(), NoMemory>
    requires { ReadsLinks (link.now ∷ []) read }
    ensures { OnOk result ((s : Scenario) (js : List JournalText) → Reads s js read.entry → sink.new.text.items ≡ sink.old.text.items ++ ring_text link.now queue (image_told s js link.now queue)) }
{
    let image = image_of_queue(alloc, read, link, queue)?;
    if write_ring(sink, link, queue, &image).is_err() {
        return Err(NoMemory);
    }
    Ok(())
}

/// The lines of the rings of these links: of each queue 0 and then queue 1.
///
/// # Errors
///
/// `NoMemory` where an allocation fails.
pub fn text_of_rings(
    alloc: Global,
    read: ReadJournals<'_>,
    links: &[LinkLine],
) -> Result<Vec<u8>, NoMemory>
    requires { ReadsLinks links.now read }
    ensures { IfOk result (λ text. (s : Scenario) (js : List JournalText) → Reads s js read.entry → text.items ≡ flat_map (λ l. ring_text l 0 (image_told s js l 0) ++ ring_text l 1 (image_told s js l 1)) links.now) }
{
    let mut sink = TextSink {
        text: Vec::new(alloc),
        faults: 0,
    };
    for link in links {
        add_ring(alloc, &mut sink, read, link, 0)?;
        add_ring(alloc, &mut sink, read, link, 1)?;
    }
    Ok(sink.text)
}

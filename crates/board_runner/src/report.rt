//! Writes the text of a report, piece by piece.

ghost use Rattle.std.specs.Prelude.{◌≡◌, ◌≤◌, ◌++◌, ◌∷◌, [], ℕ, length, codes, decimal, IsOk, OnErr};
ghost use Rattle.std.specs.List.{flat_map};
ghost use Rattle.outer_io.specs.Faults.{HasCause};
ghost use Rattle.outer_io.specs.Writes.{Writes, WritesStop};
ghost use Rattle.outer_io.specs.Puts.{Puts};
ghost use Rattle.board_model.specs.Scenario.{rising};
ghost use Rattle.board_model.specs.Grammar.{line_of};
ghost use Rattle.board_model.specs.Report.{heading, journals_text, lines_text, summary_text};
ghost use Rattle.board_numbers.specs.Told.{IsToldByText};
ghost use Rattle.board_runner.specs.Mode.{mode_of};
ghost use Rattle.board_runner.specs.Outcome.{lines_in};
ghost use Rattle.board_runner.specs.RingLines.{AreOfLinks, HasRingsFor, image_of_ring, outcome_report, ring_lines, ring_lines_in};
ghost use Rattle.ring_numbers.specs.RingTexts.{ring_text};

use crate::Outcome;
use board_model::{LinkLine, Scenario};
use board_numbers::{put_numbers, rising_numbers};
use mc_journal::{Journal, put_entries};
use outer_io::{Failed, Sink, Writer};
use ring_trace::put_image;
use scenario_lang::put_scenario;
use split_ring::Closed;

/// Writes the report of a run (docs/FORMATS.md, "Report"): a heading that says whether the domains ran on threads, the scenario,
/// the journal of each domain, what became of the items of channels, of messages and of buffers, and, of a run on threads, the
/// images of the rings. It goes to the sink piece by piece and takes no memory. The outcome has one journal for each domain of the
/// scenario, in rising number, and the scenario is one that some text spells. That of a run on threads has two rings for each
/// link in order, queue 0 and then queue 1. The report of a serial run has no images, whichever rings are there.
///
/// # Errors
///
/// `Failed` where a write fails. A proper prefix of the report is written then.
pub fn write_report<K: Sink>(
    scenario: &Scenario,
    outcome: &Outcome,
    threads: bool,
    sink: &mut K,
) -> Result<(), Failed>
    requires told { IsToldByText scenario.now }
    requires one_each { length outcome.now.journals ≡ length scenario.now.domains }
    requires rings { HasRingsFor (mode_of threads) scenario.now.links outcome.now.rings }
    ensures bytes { Writes (K.written sink.old) (K.written sink.new) result (outcome_report (mode_of threads) scenario.now outcome.now) }
    ensures cause { HasCause (K.faults sink.old) (K.faults sink.new) result }
    ensures room { (n : ℕ) → K.takes sink.old n → length (outcome_report (mode_of threads) scenario.now outcome.now) ≤ n → IsOk result }
    ensures few_writes_at_err { OnErr result (WritesStop (K.written sink.old) (K.written sink.new) (K.calls sink.old) (K.calls sink.new) (outcome_report (mode_of threads) scenario.now outcome.now)) }
{
    let mut out = Writer::new(sink);
    put_report(&mut out, scenario, outcome, threads);
    out.finish()
}

/// Puts the report of what a run of a scenario left, as [`write_report`] writes it, for a caller that puts more behind it. Where `threads`, it is one
/// of a run on threads.
pub fn put_report<K: Sink>(
    out: &mut Writer<'_, K>,
    scenario: &Scenario,
    outcome: &Outcome,
    threads: bool,
)
    requires told { IsToldByText scenario.now }
    requires one_each { length outcome.now.journals ≡ length scenario.now.domains }
    requires rings { HasRingsFor (mode_of threads) scenario.now.links outcome.now.rings }
    ensures { Puts K.Sink out.old out.new (outcome_report (mode_of threads) scenario.now outcome.now) }
{
    out.put(heading_of(threads));
    put_scenario(out, scenario);
    put_journals(out, scenario, outcome.journals.as_slice());
    put_numbers(
        out,
        outcome.channels.as_slice(),
        &outcome.messages,
        outcome.places.as_slice(),
    );
    put_images(out, scenario, outcome, threads);
    out.put(b"end\n");
}

/// Returns the first line.
fn heading_of(threads: bool) -> &'static [u8]
    ensures { result.now ≡ heading (mode_of threads) }
{
    if threads {
        b"mcapi-report 1 threads\n"
    } else {
        b"mcapi-report 1 serial\n"
    }
}

/// The journals of the domains in rising number.
fn put_journals<K: Sink>(out: &mut Writer<'_, K>, scenario: &Scenario, journals: &[Journal])
    requires told { IsToldByText scenario.now }
    requires one_each { length journals.now ≡ length scenario.now.domains }
    ensures { Puts K.Sink out.old out.new (journals_text (rising scenario.now) (lines_in journals.now)) }
{
    let numbers = rising_numbers(scenario);
    for at in 0..numbers.len() {
        put_journal(out, numbers[at], &journals[at]);
    }
}

/// The journal of a domain.
fn put_journal<K: Sink>(out: &mut Writer<'_, K>, domain: u8, journal: &Journal)
    ensures { Puts K.Sink out.old out.new (line_of (codes "journal" ∷ decimal domain ∷ []) ++ lines_text journal.now.lines) }
{
    out.put(b"journal ");
    out.put_number(domain as u64);
    out.put(b"\n");
    put_entries(out, journal);
}

/// Writes the lines of a report that say what became of the items of each channel and of the messages.
pub fn put_summary<K: Sink>(out: &mut Writer<'_, K>, outcome: &Outcome)
    ensures { Puts K.Sink out.old out.new (summary_text outcome.now.channels outcome.now.messages) }
{
    board_numbers::put_summary(out, outcome.channels.as_slice(), &outcome.messages);
}

/// The images of the rings, where the domains ran on threads.
fn put_images<K: Sink>(
    out: &mut Writer<'_, K>,
    scenario: &Scenario,
    outcome: &Outcome,
    threads: bool,
)
    requires { HasRingsFor (mode_of threads) scenario.now.links outcome.now.rings }
    ensures { Puts K.Sink out.old out.new (flat_map (λ line. line) (ring_lines_in (mode_of threads) scenario.now.links outcome.now.rings)) }
{
    if threads {
        put_rings(out, scenario.links.as_slice(), outcome.rings.as_slice())
    }
}

/// The images of the rings of each link, queue 0 and then queue 1.
fn put_rings<K: Sink>(out: &mut Writer<'_, K>, links: &[LinkLine], rings: &[Closed])
    requires { AreOfLinks links.now rings.now }
    ensures { Puts K.Sink out.old out.new (flat_map (λ line. line) (ring_lines links.now rings.now)) }
{
    for at in 0..rings.len() / 2 {
        put_ring(out, &links[at], 0, &rings[2 * at]);
        put_ring(out, &links[at], 1, &rings[2 * at + 1]);
    }
}

/// The image of a ring, behind its link and its queue.
fn put_ring<K: Sink>(out: &mut Writer<'_, K>, link: &LinkLine, queue: u8, ring: &Closed)
    ensures { Puts K.Sink out.old out.new (ring_text link.now queue (image_of_ring ring.now)) }
{
    out.put(b"ring ");
    out.put_number(link.driver as u64);
    out.put(b" ");
    out.put_number(link.device as u64);
    out.put(b" ");
    out.put_number(queue as u64);
    out.put(b" ");
    put_image(out, ring);
    out.put(b"\n");
}

ghost use Rattle.std.specs.Prelude.{◌≡◌, ◌≤◌, ◌∷◌, [], ℕ, length};
ghost use Rattle.board_model.specs.Report.{Mode};
ghost use Rattle.scenario_cli.specs.declared.form.Form.TheVariants.{Run, SerialRun, Check, Frame, Ring, Relay, Calls};
ghost use Rattle.scenario_cli.specs.Words.{words_of, IsForm, IsBellRun, run_in, IsNoForm, IsOneOfForms, usage_text, IsOneOf, limit_of};
ghost use Rattle.scenario_cli.specs.LoadText.{IsLoad, load_report};
ghost use Rattle.scenario_cli.specs.Due.{Reports};
ghost use Rattle.scenario_cli.specs.Answers.{Tells, Answers, Ends, Writes, WritesAtOnce, IfReportOfRun};

use crate::calls::calls_text;
use crate::form::{Form, form_of, is_bell_run};
use crate::frame::tell_frame;
use crate::image::tell_image;
use crate::load::without_input;
use crate::relay::relay_text;
use crate::report::tell_report;
use crate::run::{run_text, run_text_with_bells};
use crate::status::after_read;
use outer_io::{Sink, Source, read_all};
use std::alloc::Global;
use std::sync::Wait;
use std::thread::Threads;

/// Does what the words say, writes the output, and returns the status to end with.
///
/// The form `run` reads a scenario, runs its domains on threads and writes the report of that run. The form `run --bells` does the same
/// with domains that sleep where they wait without end, and `run --serial` with the serial run, on one thread. The form `check` reads
/// a report and writes whether it is that of a whole run of its board, or its first wrong line and why it is wrong. The form `frame`
/// reads the hexadecimal text of a frame and writes what the frame says, or its first fault and the place of it. The form `ring` reads
/// the image of a ring, as its bytes, and writes its size, its queue and its two indices, or its first fault and the place of it. The
/// form `load N` reads nothing: it runs the load board of N packets, from 1 to 100,000, serially, and writes what became of its packets.
/// The form `relay` reads a number of hops, the size of the rings and packets, has actors send the packets from the first domain of a row
/// to the last, on threads, and writes the report of that run. Not all packets need arrive; those that do come first, in their order.
/// The form `calls` reads numbered calls of one to seven clients, has actors make them on threads, each request sent as often as the input
/// says, and writes the report of that run, and behind it the calls that the server carried out, what each client got, and the cells. Not all
/// calls need be carried out; of each client they are the first, in their order, each once.
///
/// The statuses are 0 where the report was written, the report read is right, or the frame or image is sound, 1 where the input is not
/// a right report, a sound frame or a sound image, 2 where the words are none of the forms and the usage was written, 3 where the input
/// is not a scenario, or for `relay` not a relay and for `calls` no numbered calls, and the refusal was written, 4 where a read failed, 5 where a
/// write failed, 6 where an allocation failed, and 7 where the input has more than 8,388,608 bytes, or for `check` more than 268,435,456. Words
/// come first, then reading, the grammar, the report, the frame or the image, running, and writing.
///
/// The forms `run`, `run --bells`, `relay` and `calls` join threads, and `run --bells` waits, so nothing is promised of whether they return.
pub fn mcrun<T: Threads + Wait + Sync, S: Source, K: Sink>(
    rt: &T,
    alloc: Global,
    words: &[String],
    input: &mut S,
    output: &mut K,
) -> u8
    // Of any words: the statuses that there are; 4 and 5 exactly where a read or a write failed in this call; nothing is written at 4, 6 and 7.
    ensures ends { Ends S.Source K.Sink result input.old input.new output.old output.new }

    // A run that ends with 0 (the mode `threads` is that of `run` and of `run --bells`): the report of journals that are a whole run of the
    // board that was read, and of which the headline holds.
    ensures headline { (mode : Mode) → IsForm (run_in mode) (words_of words.now) → result ≡ 0 → Reports mode (S.rest input.old) (K.written output.old) (K.written output.new) }

    // A form with an input: which status comes for which input, what is written then, and how it ends where a read or a write fails.
    ensures form { (form : Form) → IsForm form (words_of words.now) → Answers S.Source K.Sink form result input.old input.new output.old output.new }
    // A report of a run is right, where nothing fails and there is enough memory.
    ensures report_of_run { IsForm Check (words_of words.now) → IfReportOfRun (S.rest input.old) (IsOneOf (0 ∷ 4 ∷ 5 ∷ 6 ∷ []) result) }

    // A load, which reads nothing: what became of the packets of its board.
    ensures load { (packets : ℕ) → IsLoad packets (words_of words.now) → Writes K.Sink (load_report packets) 0 result output.old output.new }
    ensures load_reads_nothing { (packets : ℕ) → IsLoad packets (words_of words.now) → input.new ≡ input.old }

    // Words of no form, for which nothing is read: the usage, and never 6.
    ensures usage { IsNoForm (words_of words.now) → WritesAtOnce K.Sink usage_text 2 result output.old output.new }
    ensures usage_reads_nothing { IsNoForm (words_of words.now) → input.new ≡ input.old }

    // 1, 2 and 3 come with these words alone.
    ensures wrong_words { result ≡ 1 → IsOneOfForms (Check ∷ Frame ∷ Ring ∷ []) (words_of words.now) }
    ensures usage_words { result ≡ 2 → IsNoForm (words_of words.now) }
    ensures refused_words { result ≡ 3 → IsOneOfForms (Run ∷ SerialRun ∷ Relay ∷ Calls ∷ []) (words_of words.now) }
{
    if is_bell_run(words) {
        with_bells(rt, alloc, input, output)
    } else {
        without_bells(rt, alloc, words, input, output)
    }
}

/// Does what the words of any form but `run --bells` say. Its bound has no `Wait`: it returns where the threads of `run`, `relay` and `calls`
/// do.
fn without_bells<T: Threads + Sync, S: Source, K: Sink>(
    rt: &T,
    alloc: Global,
    words: &[String],
    input: &mut S,
    output: &mut K,
) -> u8
    requires { IsBellRun (words_of words.now) → ⊥ }
    ensures ends { Ends S.Source K.Sink result input.old input.new output.old output.new }
    ensures headline { (mode : Mode) → IsForm (run_in mode) (words_of words.now) → result ≡ 0 → Reports mode (S.rest input.old) (K.written output.old) (K.written output.new) }
    ensures form { (form : Form) → IsForm form (words_of words.now) → Answers S.Source K.Sink form result input.old input.new output.old output.new }
    ensures report_of_run { IsForm Check (words_of words.now) → IfReportOfRun (S.rest input.old) (IsOneOf (0 ∷ 4 ∷ 5 ∷ 6 ∷ []) result) }
    ensures load { (packets : ℕ) → IsLoad packets (words_of words.now) → Writes K.Sink (load_report packets) 0 result output.old output.new }
    ensures load_reads_nothing { (packets : ℕ) → IsLoad packets (words_of words.now) → input.new ≡ input.old }
    ensures usage { IsNoForm (words_of words.now) → WritesAtOnce K.Sink usage_text 2 result output.old output.new }
    ensures usage_reads_nothing { IsNoForm (words_of words.now) → input.new ≡ input.old }
    ensures wrong_words { result ≡ 1 → IsOneOfForms (Check ∷ Frame ∷ Ring ∷ []) (words_of words.now) }
    ensures usage_words { result ≡ 2 → IsNoForm (words_of words.now) }
    ensures refused_words { result ≡ 3 → IsOneOfForms (Run ∷ SerialRun ∷ Relay ∷ Calls ∷ []) (words_of words.now) }
{
    match form_of(words) {
        Some(form) => with_input(rt, alloc, form, input, output),
        None => without_input(alloc, words, output),
    }
}

/// Reads the input of a form, and does what the form does with it. Returns the status.
fn with_input<T: Threads + Sync, S: Source, K: Sink>(
    rt: &T,
    alloc: Global,
    form: Form,
    input: &mut S,
    output: &mut K,
) -> u8
    ensures answers { Answers S.Source K.Sink form result input.old input.new output.old output.new }
    ensures ends { Ends S.Source K.Sink result input.old input.new output.old output.new }
{
    match read_all(alloc, input, form.limit()) {
        Ok(text) => with_text(rt, alloc, form, &text, output),
        Err(fault) => after_read(fault),
    }
}

/// Reads a scenario and runs it on threads that sleep where they wait without end. Returns the status.
fn with_bells<T: Threads + Wait + Sync, S: Source, K: Sink>(
    rt: &T,
    alloc: Global,
    input: &mut S,
    output: &mut K,
) -> u8
    ensures answers { Answers S.Source K.Sink Run result input.old input.new output.old output.new }
    ensures ends { Ends S.Source K.Sink result input.old input.new output.old output.new }
{
    match read_all(alloc, input, Form::Run.limit()) {
        Ok(text) => run_text_with_bells(rt, alloc, &text, output),
        Err(ended) => after_read(ended),
    }
}

/// Does what a form does with the bytes of its input. Returns the status.
fn with_text<T: Threads + Sync, K: Sink>(
    rt: &T,
    alloc: Global,
    form: Form,
    text: &[u8],
    output: &mut K,
) -> u8
    requires { length text.now ≤ limit_of form }
    ensures { Tells K.Sink form text.now result output.old output.new }
{
    match form {
        Form::Run => run_text(rt, alloc, true, text, output),
        Form::SerialRun => run_text(rt, alloc, false, text, output),
        Form::Check => tell_report(alloc, text, output),
        Form::Frame => tell_frame(alloc, text, output),
        Form::Ring => tell_image(text, output),
        Form::Relay => relay_text(rt, alloc, text, output),
        Form::Calls => calls_text(rt, alloc, text, output),
    }
}

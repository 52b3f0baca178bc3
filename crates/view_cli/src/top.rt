ghost use Rattle.std.specs.Prelude.{◌≡◌, ◌≢◌, ◌<◌, ◌≤◌, ℕ, IfSome, List, None, Some, length, true};
ghost use Rattle.std.specs.Io.KnownBytes.{Appends};
ghost use Rattle.report_text.specs.Verdicts.{verdict_on};
ghost use Rattle.report_text.specs.declared.verdict.Verdict.TheVariants.{Right};
ghost use Rattle.view_cli.specs.Asked.{asked_by, asks_for_check, form_asked};
ghost use Rattle.view_cli.specs.Drawn.{Draws, ShowsPicture, charted, sequenced, traced};
ghost use Rattle.view_cli.specs.ExpectedAnswers.{ShowsAnswers, ShowsExpected};
ghost use Rattle.view_cli.specs.RefusedCalls.{ListsRefused, ShowsRefused};
ghost use Rattle.view_cli.specs.Statuses.{Ends, EndsOn, Shows, WritesThis};
ghost use Rattle.view_cli.specs.Words.{usage_text, words_of};
ghost use Rattle.view_cli.specs.declared.form.Form.TheVariants.{Expect, Lanes, Refused, Sequence, Trace};

use crate::asked::{Asked, read_asked};
use crate::expect::tell_expected;
use crate::form::Form;
use crate::pictures::{tell_lanes, tell_sequence, tell_trace};
use crate::refused::tell_refused;
use crate::status::{self, after_read, after_write};
use crate::text::tell_text;
use crate::wrong::{reason_word, write_wrong};
use mc_base::NoMemory;
use outer_io::{Sink, Source, read_all, write_all};
use report_check::{Verdict, check};
use report_text::TextFault;
use report_view::{View, read_view};
use std::alloc::Global;

/// The most bytes of a report.
const REPORT_LIMIT: usize = 268_435_456;

/// The most bytes of a scenario file.
const FILE_LIMIT: usize = 8_388_608;

/// What is written where the words are those of no form.
const USAGE: &[u8] =
    b"usage: mcview refused | text [--domain D] [--channel D N] [--line K] [--refused] [--together] | expect FILE | sequence [--from K] [--to K] | lanes | trace, each [--check]\n";

/// Does what the words say with the report of a board, writes the output, and returns the status to end with. `file` is the scenario file
/// that [`file_asked`](crate::file_asked) names; it is read where it names one.
///
/// The form `refused` writes the calls that were refused, one a line: the number of the call's line in the report, its domain, its number
/// in the domain's script, the line, and behind a colon the word of the refusal. The form `text` writes what each domain did for each line
/// of its script, in words. Its options keep the calls of a domain, those with a frame of a channel, that of a line, or those that were
/// refused, and show all domains in one order. The form `expect` writes of each answer that a scenario file expects, in the order of its
/// lines, whether it is that of the report, in the form of TAP. The forms `sequence`, `lanes` and `trace` write pictures of the report: a
/// sequence diagram of its events from one number in their order to another and a chart of its lanes, both in SVG, and a trace in JSON.
/// With `--check` each shows only a report that `mcrun check` finds right.
///
/// The statuses are 0 where the output was written, 1 where `refused` wrote a line or an answer is not as expected, 2 where the words are
/// those of no form and the usage was written, 3 where the input is no report, has no such order, is of another scenario or was to be
/// checked and is not right, or the file is no scenario, and its first wrong line was written, 4 where a read failed, 5 where a write
/// failed, 6 where an allocation failed, and 7 where the input has more than 268,435,456 bytes, or the file more than 8,388,608.
pub fn mcview<S: Source, F: Source, K: Sink>(
    alloc: Global,
    words: &[String],
    input: &mut S,
    file: &mut F,
    output: &mut K,
) -> u8
    // Of any words: the statuses that there are; 4 and 5 exactly where a read or a write failed; nothing is written at 4, 6 and 7.
    ensures ends { Ends S.Source F.Source K.Sink result input.old input.new file.old file.new output.old output.new }

    // The words of `refused`: the calls of the report that were refused, each once and in order.
    ensures refused { form_asked (words_of words.now) ≡ Some Refused → result ≤ 1 → IfSome (S.rest input.old) (λ report. ShowsRefused report result (K.written output.old) (K.written output.new)) }

    // The words of `expect`: of each answer that the file expects, whether it is that of the report. No other words have the file read.
    ensures expected { form_asked (words_of words.now) ≡ Some Expect → result ≤ 1 → IfSome (F.rest file.old) (λ text. IfSome (S.rest input.old) (λ report. ShowsExpected text report result (K.written output.old) (K.written output.new))) }
    // `--check`: a report of which something was shown is right.
    ensures checked { asks_for_check (words_of words.now) ≡ true → result ≤ 1 → IfSome (S.rest input.old) (λ report. verdict_on report ≡ Right) }
    ensures file_unread { (form_asked (words_of words.now) ≡ Some Expect → ⊥) → file.new ≡ file.old }

    // The words of a picture: it was drawn of what the journals say, each line once, in an order in which causes come first.
    ensures sequence { form_asked (words_of words.now) ≡ Some Sequence → result ≡ 0 → IfSome (asked_by (words_of words.now)) (λ asked. IfSome (S.rest input.old) (λ report. ShowsPicture (sequenced asked) report (K.written output.old) (K.written output.new))) }
    ensures lanes { form_asked (words_of words.now) ≡ Some Lanes → result ≡ 0 → IfSome (S.rest input.old) (λ report. ShowsPicture charted report (K.written output.old) (K.written output.new)) }
    ensures trace { form_asked (words_of words.now) ≡ Some Trace → result ≡ 0 → IfSome (S.rest input.old) (λ report. ShowsPicture traced report (K.written output.old) (K.written output.new)) }

    // Words of no form, for which nothing is read: the usage. 2 comes with them alone.
    ensures usage { asked_by (words_of words.now) ≡ None → WritesThis K.Sink usage_text 2 result output.old output.new }
    ensures usage_reads_nothing { asked_by (words_of words.now) ≡ None → input.new ≡ input.old }
    ensures usage_words { result ≡ 2 → asked_by (words_of words.now) ≡ None }
{
    match read_asked(words) {
        Some(asked) => with_file(alloc, asked, input, file, output),
        None => after_write(write_all(output, USAGE), status::USAGE),
    }
}

/// Reads the scenario file, if the form has one, then the report, and shows the report. Returns the status.
fn with_file<S: Source, F: Source, K: Sink>(
    alloc: Global,
    asked: Asked,
    input: &mut S,
    file: &mut F,
    output: &mut K,
) -> u8
    ensures ends { Ends S.Source F.Source K.Sink result input.old input.new file.old file.new output.old output.new }
    ensures form { result ≢ 2 }
    ensures refused { asked.form ≡ Refused → result ≤ 1 → IfSome (S.rest input.old) (λ report. ShowsRefused report result (K.written output.old) (K.written output.new)) }
    ensures sequence { asked.form ≡ Sequence → result ≡ 0 → IfSome (S.rest input.old) (λ report. ShowsPicture (sequenced asked) report (K.written output.old) (K.written output.new)) }
    ensures lanes { asked.form ≡ Lanes → result ≡ 0 → IfSome (S.rest input.old) (λ report. ShowsPicture charted report (K.written output.old) (K.written output.new)) }
    ensures trace { asked.form ≡ Trace → result ≡ 0 → IfSome (S.rest input.old) (λ report. ShowsPicture traced report (K.written output.old) (K.written output.new)) }
    ensures expected { asked.form ≡ Expect → result ≤ 1 → IfSome (F.rest file.old) (λ text. IfSome (S.rest input.old) (λ report. ShowsExpected text report result (K.written output.old) (K.written output.new))) }
    ensures checked { asked.check ≡ true → result ≤ 1 → IfSome (S.rest input.old) (λ report. verdict_on report ≡ Right) }
    ensures file_unread { (asked.form ≡ Expect → ⊥) → file.new ≡ file.old }
{
    match asked.form {
        Form::Expect => match read_all(alloc, file, FILE_LIMIT) {
            Ok(text) => with_input(alloc, asked, &text, input, output),
            Err(fault) => after_read(fault),
        },
        Form::Refused | Form::Text | Form::Sequence | Form::Lanes | Form::Trace => {
            with_input(alloc, asked, &[], input, output)
        }
    }
}

/// Reads a report, and shows it, beside what a scenario file has. Returns the status.
fn with_input<S: Source, K: Sink>(
    alloc: Global,
    asked: Asked,
    file: &[u8],
    input: &mut S,
    output: &mut K,
) -> u8
    requires { length file.now ≤ 8388608 }
    ensures ends { EndsOn S.Source K.Sink result input.old input.new output.old output.new }
    ensures form { result ≢ 2 }
    ensures refused { asked.form ≡ Refused → result ≤ 1 → IfSome (S.rest input.old) (λ report. ShowsRefused report result (K.written output.old) (K.written output.new)) }
    ensures sequence { asked.form ≡ Sequence → result ≡ 0 → IfSome (S.rest input.old) (λ report. ShowsPicture (sequenced asked) report (K.written output.old) (K.written output.new)) }
    ensures lanes { asked.form ≡ Lanes → result ≡ 0 → IfSome (S.rest input.old) (λ report. ShowsPicture charted report (K.written output.old) (K.written output.new)) }
    ensures trace { asked.form ≡ Trace → result ≡ 0 → IfSome (S.rest input.old) (λ report. ShowsPicture traced report (K.written output.old) (K.written output.new)) }
    ensures expected { asked.form ≡ Expect → result ≤ 1 → IfSome (S.rest input.old) (λ report. ShowsExpected file.now report result (K.written output.old) (K.written output.new)) }
    ensures checked { asked.check ≡ true → result ≤ 1 → IfSome (S.rest input.old) (λ report. verdict_on report ≡ Right) }
{
    match read_all(alloc, input, REPORT_LIMIT) {
        Ok(report) => with_report(alloc, asked, file, &report, output),
        Err(fault) => after_read(fault),
    }
}

/// Shows a report, or writes its first wrong line: where it is to be checked, the first that `mcrun check` finds. Returns the status.
fn with_report<K: Sink>(
    alloc: Global,
    asked: Asked,
    file: &[u8],
    report: &[u8],
    output: &mut K,
) -> u8
    requires report { length report.now < 4_294_967_295 }
    requires file { length file.now ≤ 8388608 }
    ensures shows { Shows K.Sink result output.old output.new }
    ensures refused { asked.form ≡ Refused → result ≤ 1 → ShowsRefused report.now result (K.written output.old) (K.written output.new) }
    ensures sequence { asked.form ≡ Sequence → result ≡ 0 → ShowsPicture (sequenced asked) report.now (K.written output.old) (K.written output.new) }
    ensures lanes { asked.form ≡ Lanes → result ≡ 0 → ShowsPicture charted report.now (K.written output.old) (K.written output.new) }
    ensures trace { asked.form ≡ Trace → result ≡ 0 → ShowsPicture traced report.now (K.written output.old) (K.written output.new) }
    ensures expected { asked.form ≡ Expect → result ≤ 1 → ShowsExpected file.now report.now result (K.written output.old) (K.written output.new) }
    ensures checked { asked.check ≡ true → result ≤ 1 → verdict_on report.now ≡ Right }
{
    if !asked.check {
        return show_report(alloc, asked, file, report, output);
    }
    match check(alloc, report) {
        Ok(Verdict::Right) => show_report(alloc, asked, file, report, output),
        Ok(Verdict::Wrong { line, reason }) => {
            after_write(
                write_wrong(line, reason_word(reason), output),
                status::NO_REPORT,
            )
        }
        Err(NoMemory) => status::NO_MEMORY,
    }
}

/// Shows a report, or writes the first line of it that is wrong by its text. Returns the status.
fn show_report<K: Sink>(
    alloc: Global,
    asked: Asked,
    file: &[u8],
    report: &[u8],
    output: &mut K,
) -> u8
    requires report { length report.now < 4_294_967_295 }
    requires file { length file.now ≤ 8388608 }
    ensures shows { Shows K.Sink result output.old output.new }
    ensures refused { asked.form ≡ Refused → result ≤ 1 → ShowsRefused report.now result (K.written output.old) (K.written output.new) }
    ensures sequence { asked.form ≡ Sequence → result ≡ 0 → ShowsPicture (sequenced asked) report.now (K.written output.old) (K.written output.new) }
    ensures lanes { asked.form ≡ Lanes → result ≡ 0 → ShowsPicture charted report.now (K.written output.old) (K.written output.new) }
    ensures trace { asked.form ≡ Trace → result ≡ 0 → ShowsPicture traced report.now (K.written output.old) (K.written output.new) }
    ensures expected { asked.form ≡ Expect → result ≤ 1 → ShowsExpected file.now report.now result (K.written output.old) (K.written output.new) }
{
    match read_view(alloc, report) {
        Ok(view) => show(alloc, asked, file, report, &view, output),
        Err(TextFault::Wrong { line }) => {
            after_write(write_wrong(line, b"text", output), status::NO_REPORT)
        }
        Err(TextFault::NoMemory) => status::NO_MEMORY,
    }
}

/// Shows what a report says. Returns the status.
fn show<K: Sink>(
    alloc: Global,
    asked: Asked,
    file: &[u8],
    report: &[u8],
    view: &View<'_>,
    output: &mut K,
) -> u8
    requires { length file.now ≤ 8388608 }
    ensures shows { Shows K.Sink result output.old output.new }
    ensures refused { asked.form ≡ Refused → result ≤ 3 → (text : List ℕ) × ListsRefused view.now.domains.items result text × Appends (K.written output.old) (K.written output.new) text }
    ensures sequence { asked.form ≡ Sequence → result ≡ 0 → Draws (sequenced asked) view.now.domains.items (K.written output.old) (K.written output.new) }
    ensures lanes { asked.form ≡ Lanes → result ≡ 0 → Draws charted view.now.domains.items (K.written output.old) (K.written output.new) }
    ensures trace { asked.form ≡ Trace → result ≡ 0 → Draws traced view.now.domains.items (K.written output.old) (K.written output.new) }
    ensures expected { asked.form ≡ Expect → result ≤ 1 → ShowsAnswers file.now view.now result (K.written output.old) (K.written output.new) }
{
    match asked.form {
        Form::Refused => tell_refused(alloc, view, output),
        Form::Text => tell_text(alloc, report, view, asked, output),
        Form::Expect => tell_expected(alloc, file, view, output),
        Form::Sequence => tell_sequence(alloc, report, view, asked, output),
        Form::Lanes => tell_lanes(alloc, report, view, output),
        Form::Trace => tell_trace(alloc, report, view, output),
    }
}

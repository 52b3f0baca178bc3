//! Laws and examples over the definitions, as contracts of public functions.

ghost use Rattle.report_text.specs.JournalExamples.{Joins, Puts, Turns};
ghost use Rattle.report_text.specs.RightRuns.{DueIsAllowed, IdleTurnsKeep, RightNumbersAreDue, RightReportsTellRuns, RightStepsTellRuns};
ghost use Rattle.report_text.specs.VerdictExamples.{RingVerdicts, Verdicts, WaitVerdicts};

/// Shows where journals are out of place, by examples. The function has no code: its contract is what it shows.
pub fn journal_examples_hold()
    ensures joins { Joins }
    ensures puts { Puts }
    ensures turns { Turns }
{}

/// Shows what the verdict is on reports, and on some that differ from them in a line. The function has no code: its contract is what it
/// shows.
pub fn verdict_examples_hold()
    ensures messages { Verdicts }
    ensures waits { WaitVerdicts }
    ensures rings { RingVerdicts }
{}

/// Shows that the visit that is due is allowed. The function has no code: its contract is what it shows.
#[tactic(none)]
pub fn due_visits_are_allowed()
    ensures { DueIsAllowed }
{}

/// Shows that an idle turn changes nothing. The function has no code: its contract is what it shows.
#[tactic(none)]
pub fn idle_turns_keep()
    ensures { IdleTurnsKeep }
{}

/// Shows that a journal with right steps tells a run of its domain. The function has no code: its contract is what it shows.
#[tactic(none)]
pub fn right_steps_tell_runs()
    ensures { RightStepsTellRuns }
{}

/// Shows that the journals of a report in which the first three passes find nothing wrong are a whole run of its board. The function has
/// no code: its contract is what it shows.
#[tactic(none)]
pub fn right_reports_tell_runs()
    ensures { RightReportsTellRuns }
{}

/// Shows that the numbers of a right report are those of its run. The function has no code: its contract is what it shows.
#[tactic(none)]
pub fn right_numbers_are_due()
    ensures { RightNumbersAreDue }
{}

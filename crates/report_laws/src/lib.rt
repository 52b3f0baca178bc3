//! A report has no wrong line exactly where it is that of a whole run of its board: laws of the verdict, as contracts of functions that have no
//! code.
#![tactic(auto)]

ghost use Rattle.report_laws.specs.Reasons.{ReasonsAreOfRuns};
ghost use Rattle.report_laws.specs.RunReports.{ReportsAreOfOneRun, RightReportsAreOfRuns, RunReportsAreRight, RunsAreReadBack, RunsHaveEntryLines};

/// Shows that the report of a whole run is right. The function has no code: its contract is what it shows.
#[tactic(none)]
pub fn run_reports_are_right()
    ensures { RunReportsAreRight }
{}

/// Shows that a right report is that of a whole run. The function has no code: its contract is what it shows.
#[tactic(none)]
pub fn right_reports_are_of_runs()
    ensures { RightReportsAreOfRuns }
{}

/// Shows what the reason for which a report is wrong says of its journals: that one is of no run, or of none that is whole, or that together they
/// are of no run of the board. The function has no code: its contract is what it shows.
#[tactic(none)]
pub fn reasons_are_of_runs()
    ensures { ReasonsAreOfRuns }
{}

/// Shows that a report is that of one run alone. The function has no code: its contract is what it shows.
#[tactic(none)]
pub fn reports_are_of_one_run()
    ensures { ReportsAreOfOneRun }
{}

/// Shows that the joined journal of each domain's run is read back as its plain one. The function has no code: its contract is what it shows.
#[tactic(none)]
pub fn journals_are_read_back()
    ensures { RunsAreReadBack }
{}

/// Shows that the lines of a run are those of entries. The function has no code: its contract is what it shows.
#[tactic(none)]
pub fn runs_have_entry_lines()
    ensures { RunsHaveEntryLines }
{}

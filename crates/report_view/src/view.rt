//! What a report says, to be shown.

ghost use Rattle.std.specs.Prelude.{◌≡◌, ◌<◌, ◌++◌, ◌∷◌, [], Err, IfOk, Ok, OnOk, length, map};
ghost use Rattle.report_text.specs.TextPass.{told_by_text};
ghost use Rattle.report_text.specs.TextRead.{IfWrong, told_of};
ghost use Rattle.report_view.specs.Journals.{in_report, in_view, journal_of, journals_told};

use crate::journals::journals_of;
use crate::script::{ScriptLine, script_of};
use board_model::Scenario;
use mc_base::NoMemory;
use report_text::{JournalLines, ReportText, TextFault, read_text, rising_domains};
use std::alloc::Global;

/// What a report says of a domain: the lines of its script, and those of its journal.
#[derive(Drop)]
pub struct DomainView<'a> {
    pub script: Vec<ScriptLine<'a>>,
    pub journal: JournalLines<'a>,
}

impl<'a> DomainView<'a> {
    /// Returns a line of the script by its number, counted from 1. Where the script has no such line, it is an empty one of the number 0, which
    /// makes no call of the scenario.
    pub fn line_numbered(&self, number: u32) -> ScriptLine<'a> {
        let none = ScriptLine {
            number: 0,
            text: b"",
            call: usize::MAX,
        };
        if number == 0 {
            return none;
        }
        self.script
            .get(number as usize - 1)
            .copied()
            .unwrap_or(none)
    }
}

/// What a report says: its mode and its scenario, and its domains in rising number.
#[derive(Drop)]
pub struct View<'a> {
    pub told: ReportText<'a>,
    pub domains: Vec<DomainView<'a>>,
}

/// Reads a report. The memory that it takes is that of its scenario, 40 bytes for each of its calls, and the longest line. Whether the
/// journals are those of a run is not asked.
///
/// # Errors
///
/// `Wrong` with the first line that the format does not allow at its place, where the report is none; `NoMemory` where an allocation fails.
pub fn read_view(alloc: Global, report: &[u8]) -> Result<View<'_>, TextFault>
    requires { length report.now < 4_294_967_295 }
    ensures told { IfOk result (λ v. told_by_text report.now ≡ Ok (told_of v.told)) }
    ensures journals { IfOk result (λ v. map in_view (map journal_of v.domains.items) ≡ map in_report (journals_told (told_of v.told))) }
    ensures wrong { IfWrong result (λ line. told_by_text report.now ≡ Err line) }
{
    let told = read_text(alloc, report)?;
    let domains = domain_views(alloc, report, &told)?;
    Ok(View { told, domains })
}

/// Returns what a report says of its domains.
fn domain_views<'a>(
    alloc: Global,
    report: &'a [u8],
    told: &ReportText<'a>,
) -> Result<Vec<DomainView<'a>>, NoMemory>
    ensures { IfOk result (λ domains. map in_view (map journal_of domains.items) ≡ map in_report (journals_told (told_of told.now))) }
{
    let lines = rising_domains(alloc, told.scenario.domains.as_slice())?;
    let journals = journals_of(alloc, &lines, told.line, told.behind)?;
    let mut domains = Vec::new(alloc);
    add_domains(alloc, &mut domains, report, &told.scenario, &journals)?;
    Ok(domains)
}

/// Adds the domain of a journal.
fn add_domain<'a>(
    domains: &mut Vec<DomainView<'a>>,
    script: Vec<ScriptLine<'a>>,
    journal: JournalLines<'a>,
) -> Result<(), NoMemory>
    ensures { OnOk result (map journal_of domains.new.items ≡ map journal_of domains.old.items ++ journal.entry ∷ []) }
{
    if domains.push(DomainView { script, journal }).is_err() {
        return Err(NoMemory);
    }
    Ok(())
}

/// Adds the domains of these journals.
fn add_domains<'a>(
    alloc: Global,
    domains: &mut Vec<DomainView<'a>>,
    report: &'a [u8],
    scenario: &Scenario,
    journals: &[JournalLines<'a>],
) -> Result<(), NoMemory>
    ensures { OnOk result (map journal_of domains.new.items ≡ map journal_of domains.old.items ++ journals.now) }
{
    let [journal, others @ ..] = journals else {
        return Ok(());
    };
    let script = script_of(alloc, report, scenario, journal.domain)?;
    add_domain(domains, script, *journal)?;
    add_domains(alloc, domains, report, scenario, others)
}

//! The tallies of the domains of a report.

ghost use Rattle.std.specs.Prelude.{◌≡◌, IfOk, OnOk, map};
ghost use Rattle.std.specs.List.{AllByRecursion};
ghost use Rattle.board_numbers.specs.ItemCounts.{AreCounted, CountsLines, EachWith};
ghost use Rattle.report_totals.specs.EndedJournals.{CountsAsTold, ended_by};
ghost use Rattle.report_totals.specs.JournalTallies.{TellsTally};

use crate::counting::count_entries;
use crate::deletes::script_deletes;
use crate::ended_journal::EndedJournal;
use crate::held::held_by;
use board_numbers::{ItemCounts, Tally, append, no_items};
use mc_base::NoMemory;
use report_text::longest_line;
use std::alloc::Global;

/// What the journals of all domains come to, and what became of the items of the channels of each.
#[derive(Drop)]
pub struct BoardCounts {
    pub tallies: Vec<Tally>,
    pub items: Vec<ItemCounts>,
}

/// The tally of a domain. What became of the items of channels is added for all domains.
fn tally_of(
    alloc: Global,
    domain: &EndedJournal<'_, '_>,
    items: &mut [ItemCounts],
) -> Result<Tally, NoMemory>
    requires { CountsAsTold domain.now }
    ensures tally { IfOk result (TellsTally domain.now) }
    ensures items { OnOk result (EachWith (CountsLines (ended_by domain.now).number (ended_by domain.now).lines) items.old items.new) }
{
    let journal = domain.journal;
    let deletes = script_deletes(alloc, domain.scenario, journal.domain)?;
    let Ok(mut room) = vec![in alloc; 0u8; longest_line(journal.text)] else {
        return Err(NoMemory);
    };
    let counted = count_entries(items, journal.domain, &deletes, journal.text, &mut room);
    Ok(Tally {
        counts: counted.counts,
        deleted: counted.deleted,
        held: held_by(domain.state),
    })
}

/// Counts the journals of all domains, each once.
///
/// # Errors
///
/// `NoMemory` where an allocation fails.
pub fn count_journals(
    alloc: Global,
    domains: &[EndedJournal<'_, '_>],
) -> Result<BoardCounts, NoMemory>
    requires { AllByRecursion CountsAsTold domains.now }
    ensures items { IfOk result (λ b. AreCounted (map ended_by domains.now) b.items.items) }
    ensures tallies { IfOk result (λ b. EachWith TellsTally domains.now b.tallies.items) }
{
    let mut items = no_items(alloc, domains)?;
    let mut tallies = Vec::new(alloc);
    for domain in domains {
        let tally = tally_of(alloc, domain, &mut items)?;
        append(&mut tallies, tally)?;
    }
    Ok(BoardCounts { tallies, items })
}

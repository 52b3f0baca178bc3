//! Room for the longest line of some journals.

ghost use Rattle.std.specs.Prelude.{◌≡◌, ◌≤◌, IfOk, vec_len};
ghost use Rattle.std.specs.List.{AllByRecursion};
ghost use Rattle.report_view.specs.Rooms.{FitsIn};

use crate::view::DomainView;
use mc_base::NoMemory;
use report_text::longest_line;
use std::alloc::Global;

/// Counts the bytes of the longest line in the journals of these domains, or more.
fn longest_of(domains: &[DomainView<'_>]) -> usize
    ensures { AllByRecursion (FitsIn result) domains.now }
{
    match domains {
        [] => 0,
        [first, others @ ..] => longest_line(first.journal.text).max(longest_of(others)),
    }
}

/// Makes room for each line in the journals of these domains.
///
/// # Errors
///
/// `NoMemory` where an allocation fails.
pub fn room_for(alloc: Global, domains: &[DomainView<'_>]) -> Result<Vec<u8>, NoMemory>
    ensures { IfOk result (λ room. AllByRecursion (FitsIn (vec_len room)) domains.now) }
{
    let Ok(room) = vec![in alloc; 0u8; longest_of(domains)] else {
        return Err(NoMemory);
    };
    Ok(room)
}

//! Lists from which an item is taken out, and numbers in rising order.

ghost use Rattle.std.specs.Prelude.{◌≡◌, OnOk, nat_lt, option_and_then, position, slice_get};
ghost use Rattle.board_model.specs.Lists.{with_rising, without};

use mc_base::NoMemory;

/// Takes the item at a place out of a list, if there is one.
pub(crate) fn take_out<T>(list: &mut Vec<T>, place: Option<usize>) -> Option<T>
    ensures rest { list.new.items ≡ without place list.old.items }
    ensures item { result ≡ option_and_then (λ i. slice_get list.old.items i) place }
{
    let place = place?;
    if place < list.len() {
        Some(list.remove(place))
    } else {
        None
    }
}

/// Inserts a number into a list in rising order.
pub(crate) fn insert_rising(list: &mut Vec<u32>, number: u32) -> Result<(), NoMemory>
    ensures { OnOk result (list.new.items ≡ with_rising number list.old.items) }
{
    let place = first_greater(list, number).unwrap_or(list.len());
    let Ok(()) = list.insert(place, number) else {
        return Err(NoMemory);
    };
    Ok(())
}

/// The place of the first number in a list that is greater.
fn first_greater(list: &[u32], number: u32) -> Option<usize>
    ensures { result ≡ position (nat_lt number) list.now }
{
    list.iter().position(|other| number < *other)
}

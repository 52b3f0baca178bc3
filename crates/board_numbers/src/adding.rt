//! Lists that grow.

ghost use Rattle.std.specs.Prelude.{◌≡◌, ◌++◌, ◌∷◌, [], OnOk};

use board_model::Seq;
use mc_base::NoMemory;

/// Appends an item to a list.
pub fn add<T: Drop>(items: &mut Seq<T>, item: T) -> Result<(), NoMemory>
    ensures { OnOk result (items.new ≡ items.old ++ item ∷ []) }
{
    if items.push(item).is_err() {
        return Err(NoMemory);
    }
    Ok(())
}

/// Appends an item to a vector.
pub fn append<T: Drop>(items: &mut Vec<T>, item: T) -> Result<(), NoMemory>
    ensures { OnOk result (items.new.items ≡ items.old.items ++ item ∷ []) }
{
    if items.push(item).is_err() {
        return Err(NoMemory);
    }
    Ok(())
}

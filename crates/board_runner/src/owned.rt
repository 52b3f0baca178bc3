//! Things that domains of a board own, in one list, until each domain takes its own.

ghost use Rattle.std.specs.Prelude.{◌<◌, IfSome, length};

/// An item with the number of the domain that owns it.
#[derive(Drop)]
pub struct Owned<T> {
    pub owner: u8,
    pub item: T,
}

/// Takes out the first item that a domain owns, or returns `None` where it owns none.
pub fn take_owned<T: Drop>(items: &mut Vec<Owned<T>>, owner: u8) -> Option<T> {
    match place_of_owned(items, owner) {
        Some(place) => Some(items.remove(place).item),
        None => None,
    }
}

/// The place of the first item that a domain owns.
fn place_of_owned<T>(items: &[Owned<T>], owner: u8) -> Option<usize>
    ensures { IfSome result (λ i. i < length items.now) }
{
    items.iter().position(|o| o.owner == owner)
}

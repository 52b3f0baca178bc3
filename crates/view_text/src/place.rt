//! Places in the text of a journal.

ghost use Rattle.std.specs.Prelude.{◌≤◌};
ghost use Rattle.report_text.specs.Texts.{longest_line};

/// Returns where the last bytes of a text begin, by how many they are and the text has.
pub fn place_in(size: usize, left: usize) -> u32 {
    u32::try_from(size.saturating_sub(left)).unwrap_or(u32::MAX)
}

/// Returns what a text has from a place on.
pub fn text_at(text: &[u8], place: u32) -> &[u8]
    ensures { longest_line result.now ≤ longest_line text.now }
{
    let (_, rest) = text.split_at(text.len().min(place as usize));
    rest
}

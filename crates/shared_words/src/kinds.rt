//! The kinds of step, by what each shows the half that makes it.
use crate::view::View;
use atomic_table::{Join, Play, Split};
use mc_base::Buffer;

pub(crate) struct Begin;

impl Play<Option<Buffer>, View> for Begin {
    ghost use Rattle.shared_words.specs.Kinds.{begun};

    ghost then = { begun };
}

pub(crate) struct StoreDescLen;

impl Play<Option<Buffer>, View> for StoreDescLen {
    ghost use Rattle.shared_words.specs.Kinds.{desc_len_stored};

    ghost then = { desc_len_stored };
}

pub(crate) struct StoreAvailEntry;

impl Play<Option<Buffer>, View> for StoreAvailEntry {
    ghost use Rattle.shared_words.specs.Kinds.{avail_entry_stored};

    ghost then = { avail_entry_stored };
}

/// Publish available index by the driver, and used index by the device.
pub(crate) struct PublishIdx;

impl Play<Option<Buffer>, View> for PublishIdx {
    ghost use Rattle.shared_words.specs.Kinds.{by_either, index_published};

    ghost then = { by_either index_published };
}

/// Load available index by the device, and used index by the driver.
pub(crate) struct LoadIdx;

impl Play<Option<Buffer>, View> for LoadIdx {
    ghost use Rattle.shared_words.specs.Kinds.{by_either, index_loaded};

    ghost then = { by_either index_loaded };
}

/// Load available entry by the device, and used id by the driver.
pub(crate) struct LoadNumber;

impl Play<Option<Buffer>, View> for LoadNumber {
    ghost use Rattle.shared_words.specs.Kinds.{by_either, number_loaded};

    ghost then = { by_either number_loaded };
}

/// Load descriptor length by the device, and used length by the driver.
pub(crate) struct LoadLen;

impl Play<Option<Buffer>, View> for LoadLen {
    ghost use Rattle.shared_words.specs.Kinds.{by_either, len_loaded};

    ghost then = { by_either len_loaded };
}

/// The halves part.
pub(crate) struct Part;

impl Split<View> for Part {
    ghost use Rattle.shared_words.specs.Parting.{driver_part, device_part};

    ghost left = { driver_part };

    ghost right = { device_part };
}

pub(crate) struct StoreUsedId;

impl Play<Option<Buffer>, View> for StoreUsedId {
    ghost use Rattle.shared_words.specs.Kinds.{used_id_stored};

    ghost then = { used_id_stored };
}

pub(crate) struct StoreUsedLen;

impl Play<Option<Buffer>, View> for StoreUsedLen {
    ghost use Rattle.shared_words.specs.Kinds.{used_len_stored};

    ghost then = { used_len_stored };
}

/// The device's view passes to a seat without slots, and the old seat is spent.
pub(crate) struct Pass;

impl Split<View> for Pass {
    ghost use Rattle.shared_words.specs.Parting.{left_behind, passed};

    ghost left = { left_behind };

    ghost right = { passed };
}

/// The halves are one.
pub(crate) struct Unite;

impl Join<View> for Unite {
    ghost use Rattle.shared_words.specs.Parting.{united};
    ghost use Rattle.shared_words.specs.declared.view.View.TheVariants.{Spent};

    ghost both = { united };

    ghost spent = { Spent };
}

/// A note, a copy of a half's view, parts from it.
pub(crate) struct PartNote;

impl Split<View> for PartNote {
    ghost use Rattle.shared_words.specs.Notes.{kept_view, note_of};

    ghost left = { kept_view };

    ghost right = { note_of };
}

/// The other half takes the note in.
pub(crate) struct TakeNote;

impl Join<View> for TakeNote {
    ghost use Rattle.shared_words.specs.Notes.{with_note};
    ghost use Rattle.shared_words.specs.declared.view.View.TheVariants.{Spent};

    ghost both = { with_note };

    ghost spent = { Spent };
}

/// A load that shows the half what the note that it took in says.
pub(crate) struct ReadNote;

impl Play<Option<Buffer>, View> for ReadNote {
    ghost use Rattle.shared_words.specs.Notes.{note_read};

    ghost then = { note_read };
}

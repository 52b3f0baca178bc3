//! The kinds of step, by what each shows the seat that makes it.
use crate::view::BellView;
use atomic_table::{Play, Split};

pub(crate) struct Begin;

impl Play<(), BellView> for Begin {
    ghost use Rattle.door_bell.specs.Kinds.{begun};

    ghost then = { begun };
}

/// A ringer parts from the sleeper.
pub(crate) struct PartRinger;

impl Split<BellView> for PartRinger {
    ghost use Rattle.door_bell.specs.Kinds.{sleeper_part, ringer_part};

    ghost left = { sleeper_part };

    ghost right = { ringer_part };
}

pub(crate) struct PostNews;

impl Play<(), BellView> for PostNews {
    ghost use Rattle.door_bell.specs.Kinds.{news_posted};

    ghost then = { news_posted };
}

pub(crate) struct RingOnce;

impl Play<(), BellView> for RingOnce {
    ghost use Rattle.door_bell.specs.Kinds.{ring_tried};

    ghost then = { ring_tried };
}

pub(crate) struct ClearNews;

impl Play<(), BellView> for ClearNews {
    ghost use Rattle.door_bell.specs.Kinds.{news_cleared};

    ghost then = { news_cleared };
}

pub(crate) struct StoreWants;

impl Play<(), BellView> for StoreWants {
    ghost use Rattle.door_bell.specs.Kinds.{wants_stored};

    ghost then = { wants_stored };
}

pub(crate) struct LoadNews;

impl Play<(), BellView> for LoadNews {
    ghost use Rattle.door_bell.specs.Kinds.{news_loaded};

    ghost then = { news_loaded };
}

pub(crate) struct LoadState;

impl Play<(), BellView> for LoadState {
    ghost use Rattle.door_bell.specs.Kinds.{state_loaded};

    ghost then = { state_loaded };
}

pub(crate) struct StoreAwake;

impl Play<(), BellView> for StoreAwake {
    ghost use Rattle.door_bell.specs.Kinds.{awake_stored};

    ghost then = { awake_stored };
}

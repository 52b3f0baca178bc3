//! What the sleeper and the ringers of a bell know. No value of these types is made: contracts and proofs alone speak of them.
use std::collections::LinkedList;

/// How far the sleeper is on its way to sleep and back.
pub enum Stage {
    Awake,
    /// It stored that it wants to be woken, and looks at the news of its ringers.
    Arming,
    Asleep,
    /// It found news while it armed.
    GivingUp,
    /// It was asleep and found that the bell was rung.
    Rung,
}

/// The view of the sleeper.
pub struct SleeperView {
    pub stage: Stage,
    /// How many ringers parted from it.
    pub ringers: u64,
    /// How many ringers it found without news since it began to arm. They are those with the lowest numbers.
    pub found: u64,
    /// The ringers whose news it cleared, oldest first.
    pub cleared: LinkedList<u64>,
    /// How often it found news while it armed.
    pub gave_up: u64,
    /// How often a load of its own found that the bell was rung.
    pub woken: u64,
}

/// The view of one ringer.
pub struct RingerView {
    /// How often it posted news.
    pub rings: u64,
    /// Its news are posted, and it has not tried to ring since.
    pub posting: bool,
}

/// The view of a seat of the bell's table.
pub enum BellView {
    /// Before the bell begins.
    Opening,
    Sleeping(SleeperView),
    /// The ringer with this number.
    Ringing(u64, RingerView),
}

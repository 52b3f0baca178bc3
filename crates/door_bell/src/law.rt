//! What the rule of a bell comes to.
ghost use Rattle.door_bell.specs.BellRule.{AsleepIsRung};

/// Shows the bell law: while the sleeper is asleep and a ringer's news are posted and not cleared, the bell is rung, or that
/// ringer is inside its call, about to ring.
pub fn asleep_is_rung()
    ensures { AsleepIsRung }
{}

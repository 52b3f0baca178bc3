//! The words of a bell.
ghost use Rattle.std.specs.Prelude.{◌≡◌};
ghost use Rattle.door_bell.specs.Layout.{news_word};

/// The word of the state.
pub(crate) const STATE: usize = 0;

/// The state while the sleeper is awake.
pub(crate) const AWAKE: u64 = 0;

/// The state of a bell that nobody has rung since its sleeper began to arm it.
pub(crate) const WANTS: u64 = 1;

/// The state of a bell that was rung since its sleeper began to arm it.
pub(crate) const RUNG: u64 = 2;

/// The word of a ringer's news.
pub(crate) fn word_of_news(ringer: u32) -> usize
    ensures { result ≡ news_word ringer }
{
    ringer as usize + 1
}

//! Laws of the lines of journals: functions without code, whose contracts are the laws.

ghost use Rattle.board_model.specs.JournalLaws.{JoinedIsReadBack, JournalsHaveParts, LinesKeepAnswers, PartsAreJoined};

/// The joined lines of a domain's plain journal are read back as that journal.
pub fn joined_is_read_back()
    ensures { JoinedIsReadBack }
{}

/// Parts of which none can be joined to the lines before it are the joined lines of their entries.
pub fn parts_are_joined()
    ensures { PartsAreJoined }
{}

/// Every plain journal consists of such parts.
pub fn journals_have_parts()
    ensures { JournalsHaveParts }
{}

/// The joined lines of a plain journal have its answers.
pub fn lines_keep_answers()
    ensures { LinesKeepAnswers }
{}

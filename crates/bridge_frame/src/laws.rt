ghost use Rattle.bridge_frame.specs.Laws.{LettersReadBack, NoPayloadHasTwoLetters};

/// The spelling of each letter, and of each part of one, is read as it.
pub fn letters_read_back()
    ensures { LettersReadBack }
{}

/// A payload never says two.
pub fn no_payload_has_two_letters()
    ensures { NoPayloadHasTwoLetters }
{}

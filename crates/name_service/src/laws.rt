ghost use Rattle.name_service.specs.Laws.{AnnouncementsReadBack, NoPayloadHasTwoAnnouncements};
ghost use Rattle.name_service.specs.ReadingLaws.{LettersAreRead, AnnouncementsAreRead, MadeLettersAreRead, MadeAnnouncementsAreRead};
ghost use Rattle.name_service.specs.NameLaws.{RankTellsNames, AddressOfTheVeryName, LearnedHasItsAddress, LearnedLeavesOthers, ForgottenHasNone, ForgottenLeavesOthers, LearnedCounts, ForgottenCounts, OrderStays, OneListForEachMap};
ghost use Rattle.name_service.specs.FullNameLaws.{FullNamesReadBack, OnlyFullNamesAreRead, NoNameNamesTwo};

/// The spelling of each announcement that `write_ns` takes is read as this announcement.
pub fn announcements_read_back()
    ensures { AnnouncementsReadBack }
{}

/// A payload never has two announcements.
pub fn no_payload_has_two_announcements()
    ensures { NoPayloadHasTwoAnnouncements }
{}

/// A frame says the letter or the announcement that it carries, and what is made of either is read as it was meant.
pub fn frames_say_what_they_carry()
    ensures letters { LettersAreRead }
    ensures announcements { AnnouncementsAreRead }
    ensures made_letters { MadeLettersAreRead }
    ensures made_announcements { MadeAnnouncementsAreRead }
{}

/// The names that are known are a finite map: what is learned or forgotten of a name changes that name alone.
pub fn known_names_are_a_map()
    ensures apart { RankTellsNames }
    ensures very_name { AddressOfTheVeryName }
    ensures learned { LearnedHasItsAddress }
    ensures learned_alone { LearnedLeavesOthers }
    ensures learned_counts { LearnedCounts }
    ensures forgotten { ForgottenHasNone }
    ensures forgotten_alone { ForgottenLeavesOthers }
    ensures forgotten_counts { ForgottenCounts }
    ensures order { OrderStays }
    ensures one_list { OneListForEachMap }
{}

/// Each full name is read back as its endpoint, nothing else is read, and no name names two endpoints.
pub fn full_names_read_back()
    ensures read_back { FullNamesReadBack }
    ensures only { OnlyFullNamesAreRead }
    ensures one { NoNameNamesTwo }
{}

//! What is proved of the definitions themselves. Each function has no code: its contract is the law.
ghost use Rattle.board_model.specs.Laws.{PlaceLaw, HeadlineLaw};
ghost use Rattle.board_model.specs.MessageLaws.{
  ReceivesTakeTheBest,
  TestsTellWhatWasTaken,
  TestsTellWhatWasSaid,
  LookupsTellWhatWasHad,
  AvailableTellsWhatIsQueued,
  DeletesTellWhatWasDropped,
  NoMessageIsLost,
  CancelledRequestsTookNothing,
};
ghost use Rattle.board_model.specs.ChannelLaws.{EveryChannelIsKept, ChannelsEndWhereNamed};
ghost use Rattle.board_model.specs.Fragments.{NoPartIsLost};
ghost use Rattle.board_model.specs.Honesty.{KnownAddressesAreReal};
ghost use Rattle.board_model.specs.ReadBack.{LettersAreReadBack};
ghost use Rattle.board_model.specs.RunLaws.{JournalsTellDeeds};
ghost use Rattle.board_model.specs.RenamedLaws.{CallsHangOnNoName};
ghost use Rattle.board_model.specs.SerialLaws.{LinkedSerialIsBoardRun};
ghost use Rattle.board_model.specs.LanguageLaws.{LawfulIsLinked, LawfulSerialIsBoardRun, LawfulSerialHeadline};

/// At the end of every run of a board, the buffers of each lane that are free, in the ring, queued and lent are as many as it has.
pub fn every_buffer_in_its_place()
    ensures { PlaceLaw }
{}

/// Each letter that a domain may put is read back as what was meant.
pub fn letters_are_read_back()
    ensures { LettersAreReadBack }
{}

/// At each moment, every address that a domain knows for a name of a peer is one that the peer gave to an endpoint of its own, and one that the
/// name's domain gave to an endpoint which it made under that name.
pub fn known_addresses_are_real()
    ensures { KnownAddressesAreReal }
{}

/// Each message receive takes the oldest message of the best priority queued.
pub fn receives_take_the_best()
    ensures { ReceivesTakeTheBest }
{}

/// A test reports what its request took: one message, or none.
pub fn tests_tell_what_was_taken()
    ensures { TestsTellWhatWasTaken }
{}

/// A test returns what was said of its request: of a lookup, an address of the name; of a request to connect, the reply.
pub fn tests_tell_what_was_said()
    ensures { TestsTellWhatWasSaid }
{}

/// A lookup finds an address that the domain of the name gave an endpoint which it made under the name.
pub fn lookups_tell_what_was_had()
    ensures { LookupsTellWhatWasHad }
{}

/// The number of available messages is that of those which are queued.
pub fn available_tells_what_is_queued()
    ensures { AvailableTellsWhatIsQueued }
{}

/// A delete answers how many messages it dropped.
pub fn deletes_tell_what_was_dropped()
    ensures { DeletesTellWhatWasDropped }
{}

/// Each message that was accepted was taken or dropped, or is queued or in the ring.
pub fn no_message_is_lost()
    ensures { NoMessageIsLost }
{}

/// The items that the sender of a channel had accepted are, in this order, those that its receiver took, and those that were dropped,
/// are queued or are in the ring. Where any were dropped, none are queued.
pub fn every_channel_is_kept()
    ensures { EveryChannelIsKept }
{}

/// The items of a channel are taken at one domain, which the connect with its number named.
pub fn channels_end_where_named()
    ensures { ChannelsEndWhereNamed }
{}

/// No frame is stray, and an open part ends only by becoming whole.
pub fn no_part_is_lost()
    ensures { NoPartIsLost }
{}

/// A request that was cancelled took nothing.
pub fn cancelled_requests_took_nothing()
    ensures { CancelledRequestsTookNothing }
{}

/// The headline holds of every run of a board.
pub fn headline()
    ensures { HeadlineLaw }
{}

/// The serial run of a board of linked domains is a run of the board, and runs every script whole.
pub fn linked_serial_run_is_a_board_run()
    ensures { LinkedSerialIsBoardRun }
{}

/// The board of every scenario of the language is one of linked domains.
pub fn lawful_board_is_linked()
    ensures { LawfulIsLinked }
{}

/// The serial run of every scenario of the language is a run of its board, and runs every script whole.
pub fn lawful_serial_run_is_a_board_run()
    ensures { LawfulSerialIsBoardRun }
{}

/// The headline holds of the serial run of every scenario of the language.
pub fn lawful_serial_run_keeps_the_headline()
    ensures { LawfulSerialHeadline }
{}

/// The deeds of a run's journal are allowed, and leave the run's state, but for the names of frames.
pub fn journals_tell_deeds()
    ensures { JournalsTellDeeds }
{}

/// What a call does depends on no name of a frame.
pub fn calls_hang_on_no_name()
    ensures { CallsHangOnNoName }
{}

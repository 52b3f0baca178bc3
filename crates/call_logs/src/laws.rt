//! Laws of the messages in logs, and of numbered calls. The functions have no code; their contracts are the laws.

ghost use Rattle.call_logs.specs.MessageDeeds.{LogsHaveMessages, ReceivedWasSent};
ghost use Rattle.call_logs.specs.CallsLaw.{CallsAreCarriedInOrder, ClientsGetWhatWasCarried, NoCallLacksRoom};

/// Shows that the messages which a domain's log sent and received are those that its run sent and received.
pub fn logs_have_the_messages_of_runs()
    ensures { LogsHaveMessages }
{}

/// Shows that each message which a domain's log received is one that some domain's log sent to it.
pub fn received_messages_were_sent()
    ensures { ReceivedWasSent }
{}

/// Shows that the calls of each client that were carried out are the first of its calls, in order, each once.
pub fn calls_are_carried_in_order()
    ensures { CallsAreCarriedInOrder }
{}

/// Shows that the server's service has room for each call: it holds what the requests that the server received come to.
pub fn no_call_lacks_room()
    ensures { NoCallLacksRoom }
{}

/// Shows that what a client got of its calls, from the first on, is the status and the value of the call with its client and number that was
/// carried out.
pub fn clients_get_what_was_carried()
    ensures { ClientsGetWhatWasCarried }
{}

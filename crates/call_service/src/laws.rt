//! The once law: what holds of every list of requests, with any repeats, losses and order. The functions have no code; their contracts
//! are the law.

ghost use Rattle.call_service.specs.OnceLaw.{AreCarriedOutInOrder, AreCarriedOutOnce, GetTheFirstReply, MayBeLeftOut, MayAllBeLeftOut};

/// Shows that the calls of each client are carried out in the order of their numbers, from 1 on, and each at most once.
pub fn calls_are_carried_out_once()
    ensures order { AreCarriedOutInOrder }
    ensures once { AreCarriedOutOnce }
{}

/// Shows that each repeat of a call gets the reply that the call got, until the client's next call is carried out.
pub fn repeats_get_the_first_reply()
    ensures { GetTheFirstReply }
{}

/// Shows that repeats of calls that were carried out leave no trace: the history is the same without one of them, and without all.
pub fn repeats_change_nothing()
    ensures one { MayBeLeftOut }
    ensures all { MayAllBeLeftOut }
{}

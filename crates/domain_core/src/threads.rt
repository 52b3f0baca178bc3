//! What may move between threads, and what they may share.

use crate::domain::Domain;
use lane_end::{AnyRecv, AnySend, PlainRecv, PlainSend, RecvEnd, SendEnd};
use mc_journal::Journal;

fn is_shared<T: Send + Sync>() {}

fn moves<T: Send>() {}

/// Shows that journals and domains over plain ends may move to another thread and be shared by threads, and that a domain over ends
/// that are chosen at run time may move.
pub fn may_cross_threads<'a>() {
    domain_may_cross_threads::<PlainSend, PlainRecv>();
    domain_may_move::<AnySend<'a>, AnyRecv<'a>>();
    is_shared::<Journal>();
}

/// Shows that a domain may move to another thread and be shared by threads where its ends may.
pub fn domain_may_cross_threads<S: SendEnd + Send + Sync, R: RecvEnd + Send + Sync>() {
    is_shared::<Domain<S, R>>();
}

/// Shows that a domain may move to another thread where its ends may.
pub fn domain_may_move<S: SendEnd + Send, R: RecvEnd + Send>() {
    moves::<Domain<S, R>>();
}

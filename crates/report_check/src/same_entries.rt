//! Entries compared field by field, which takes less than to write their lines. The one is as it was read, with the digits of its bytes.

ghost use Rattle.std.specs.Prelude.{◌≡◌, true};
ghost use Rattle.mc_journal.specs.Entry.{line_of_entry, plain_answer, result_of_told};
ghost use Rattle.mc_journal.specs.Spelled.{spelled_answer, spelled_line, spelled_result};

use mc_journal::{Answer, Entry, Told, spells};

/// Whether two entries have the same line.
pub(crate) fn is_same(one: Entry<'_>, other: Entry<'_>) -> bool
    ensures { result ≡ true → spelled_line (line_of_entry one.entry) ≡ line_of_entry other.entry }
{
    match (one, other) {
        (Entry::Turn, Entry::Turn) => true,
        (Entry::Back { peer, count }, Entry::Back { peer: p, count: c }) => peer == p && count == c,
        (Entry::Put { peer, frame }, Entry::Put { peer: p, frame: f }) => peer == p
            && spells(frame, f),
        (Entry::See { peer, count }, Entry::See { peer: p, count: c }) => peer == p && count == c,
        (
            Entry::Take { peer, frame, fate },
            Entry::Take {
                peer: p,
                frame: f,
                fate: w,
            },
        ) => { peer == p && fate == w && spells(frame, f) }
        (Entry::Idle { turns }, Entry::Idle { turns: t }) => turns == t,
        (Entry::Again { word }, Entry::Again { word: w }) => word == w,
        (Entry::Spin { times, word }, Entry::Spin { times: t, word: w }) => times == t && word == w,
        (Entry::WaitStart { number }, Entry::WaitStart { number: n }) => number == n,
        (
            Entry::Called { number, answer },
            Entry::Called {
                number: n,
                answer: a,
            },
        ) => { number == n && is_same_answer(answer, a) }
        _ => false,
    }
}

/// Whether two answers are the same.
fn is_same_answer(one: Answer<'_>, other: Answer<'_>) -> bool
    ensures { result ≡ true → spelled_answer (plain_answer one.entry) ≡ plain_answer other.entry }
{
    match (one, other) {
        (Answer::Refused(word), Answer::Refused(w)) => word == w,
        (Answer::Ok, Answer::Ok) => true,
        (Answer::Number(number), Answer::Number(n)) => number == n,
        (
            Answer::Channel { request, channel },
            Answer::Channel {
                request: r,
                channel: c,
            },
        ) => { request == r && channel == c }
        (Answer::Bytes { size, bytes }, Answer::Bytes { size: s, bytes: b }) => size == s
            && spells(bytes, b),
        (
            Answer::Done { place, result },
            Answer::Done {
                place: p,
                result: r,
            },
        ) => { place == p && is_same_result(result, r) }
        _ => false,
    }
}

/// Whether two requests ended in the same way.
fn is_same_result(one: Told<'_>, other: Told<'_>) -> bool
    ensures { result ≡ true → spelled_result (result_of_told one.entry) ≡ result_of_told other.entry }
{
    match (one, other) {
        (Told::Address(address), Told::Address(a)) => address == a,
        (Told::Accepted, Told::Accepted) => true,
        (Told::Rejected(reason), Told::Rejected(r)) => reason == r,
        (Told::Bytes { size, bytes }, Told::Bytes { size: s, bytes: b }) => size == s
            && spells(bytes, b),
        (Told::Ended(word), Told::Ended(w)) => word == w,
        _ => false,
    }
}

//! The limits of a domain that only long scripts reach.

use crate::serial::run;
use board_runner::Outcome;
use domain_core::{Answer, Entry};
use mc_base::Refusal;
use std::test::Fail;

/// Whether the last call of the first domain was refused with this word.
fn ends_refused(outcome: &Outcome, word: Refusal) -> bool {
    let Some(journal) = outcome.journals.as_slice().first() else {
        return false;
    };
    let many = journal.len();
    if many == 0 {
        return false;
    }
    match journal.entry(many - 1) {
        Some(
            Entry::Called {
                answer: Answer::Refused(refused),
                ..
            },
        ) => refused == word,
        _ => false,
    }
}

/// Sixty thousand endpoints, one after the other, use up the addresses.
#[test]
fn addresses_are_spent(rt: HostRuntime) -> Result<(), Fail> {
    let mut text = Vec::new(rt.alloc());
    text.extend_from_slice(b"domain 0 nodes 1 pool 2\n")?;
    for _endpoint in 0..60_000 {
        text.extend_from_slice(b"0.0 create 1\n0.0 delete 1\n")?;
    }
    text.extend_from_slice(b"0.0 create 1\n")?;
    let outcome = run(rt.alloc(), &text).ok_or("memory")?;
    assert!(rt; ends_refused(&outcome, Refusal::AddressSpent));
    Ok(())
}

/// Connects of an endpoint to itself, each rejected and waited for, use up the numbers of channels.
#[test]
fn channel_numbers_are_spent(rt: HostRuntime) -> Result<(), Fail> {
    let mut text = Vec::new(rt.alloc());
    text.extend_from_slice(b"domain 0 nodes 1 pool 2\n0.0 create 1\n")?;
    for number in 0..65_535 {
        let lines = format!(in rt.alloc();
            "0.0 c{number} = connect 1 0:0:1 packet\n0.0 wait c{number} 9\n"
        )?;
        text.extend_from_slice(lines.as_bytes())?;
    }
    text.extend_from_slice(b"0.0 c = connect 1 0:0:1 packet\n")?;
    let outcome = run(rt.alloc(), &text).ok_or("memory")?;
    assert!(rt; ends_refused(&outcome, Refusal::ChanLimit));
    Ok(())
}

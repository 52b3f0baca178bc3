//! A board as large as the language allows, with a long script.

use scenario_lang::{Scenario, read_scenario, write_scenario};
use std::alloc::{AllocError, Global};
use std::test::Fail;

/// Eight domains, each with 16 nodes and a pool of 256 buffers, and a link of 256 buffers between each two.
fn push_board(text: &mut Vec<u8>) -> Result<(), AllocError> {
    for domain in b'0'..b'8' {
        text.extend_from_slice(b"domain ")?;
        text.push(domain)?;
        text.extend_from_slice(b" nodes 16 pool 256\n")?;
    }
    for driver in b'0'..b'8' {
        for device in b'0'..b'8' {
            if driver < device {
                text.extend_from_slice(b"link ")?;
                text.extend_from_slice(&[driver, b' ', device])?;
                text.extend_from_slice(b" size 256\n")?;
            }
        }
    }
    Ok(())
}

/// A line that sends so many bytes to the greatest name.
fn push_send(text: &mut Vec<u8>, bytes: u32) -> Result<(), AllocError> {
    text.extend_from_slice(b"7.15 try 4294967295 msg_send 65535 7:15:65535 3 ")?;
    for _ in 0..bytes {
        text.extend_from_slice(b"a5")?;
    }
    text.push(b'\n')?;
    Ok(())
}

/// The board with 8,000 turns, 200 messages of 489 bytes and one of 9,000.
fn largest(alloc: Global) -> Result<Vec<u8>, AllocError> {
    let mut text = Vec::new(alloc);
    push_board(&mut text)?;
    for _ in 0..1000 {
        for domain in b'0'..b'8' {
            text.push(domain)?;
            text.extend_from_slice(b".0 turn\n")?;
        }
    }
    for _ in 0..200 {
        push_send(&mut text, 489)?;
    }
    push_send(&mut text, 9000)?;
    Ok(text)
}

fn is_largest(scenario: &Scenario) -> bool {
    scenario.domains.as_slice().len() == 8
        && scenario.links.as_slice().len() == 28
        && scenario.calls.as_slice().len() == 8201
}

fn reads_largest(alloc: Global, text: &[u8]) -> bool {
    if text.len() >= 1_000_000 {
        return false;
    }
    let Ok(scenario) = read_scenario(alloc, text) else {
        return false;
    };
    match write_scenario(alloc, &scenario) {
        Ok(written) => is_largest(&scenario) && written.as_slice() == text,
        Err(_) => false,
    }
}

#[test]
fn the_largest_board_is_read_and_written(rt: HostRuntime) -> Result<(), Fail> {
    let text = largest(rt.alloc())?;
    assert!(rt; reads_largest(rt.alloc(), &text));
    Ok(())
}

use report_check::{Head, SpelledText, next_part, spelled_lines};
use std::process::Abort;
use std::test::Fail;

const TURN: &[u8] = b"turn\nback 1 2\nput 1 00\nput 1 01\ncall 1 ok\nidle 3\n";

#[test]
fn a_turn_leaves_a_call_its_put(rt: HostRuntime) -> Result<(), Fail> {
    let read = spelled_lines(rt.alloc(), TURN)?;
    let text = SpelledText {
        text: TURN,
        lines: read.as_slice(),
    };
    let Some(part) = next_part(text, &[1]) else {
        panic!(rt; "a part is found");
    };
    assert!(rt; matches!(part.head, Head::Turn));
    assert!(rt; part.lines == 3);
    assert!(rt; part.behind.text == b"put 1 01\ncall 1 ok\nidle 3\n".as_slice());
    Ok(())
}

#[test]
fn a_call_has_the_put_before_it(rt: HostRuntime) -> Result<(), Fail> {
    let journal = b"put 1 01\ncall 1 ok\nidle 3\n";
    let read = spelled_lines(rt.alloc(), journal)?;
    let text = SpelledText {
        text: journal,
        lines: read.as_slice(),
    };
    let Some(part) = next_part(text, &[1]) else {
        panic!(rt; "a part is found");
    };
    assert!(rt; matches!(part.head, Head::Call));
    assert!(rt; part.lines == 2);
    assert!(rt; part.behind.text == b"idle 3\n".as_slice());
    Ok(())
}

#[test]
fn an_empty_text_has_no_part(rt: HostRuntime) -> Result<(), Fail> {
    let read = spelled_lines(rt.alloc(), b"")?;
    let text = SpelledText {
        text: b"",
        lines: read.as_slice(),
    };
    assert!(rt; next_part(text, &[1]).is_none());
    Ok(())
}

use mc_base::Fate;
use mc_journal::{Answer, Entry};
use report_check::{DueLines, SpelledText, spelled_lines};
use std::process::Abort;
use std::test::Fail;

const TEXT: &[u8] = b"turn\nback 1 2\nsee 1 1\ntake 1 00 frame_short\nidle 3\n";

#[test]
fn lines_are_met_one_by_one(rt: HostRuntime) -> Result<(), Fail> {
    let read = spelled_lines(rt.alloc(), TEXT)?;
    let text = SpelledText {
        text: TEXT,
        lines: read.as_slice(),
    };
    let mut lines = DueLines::new(rt.alloc(), text, 4);
    assert!(rt; lines.meets(Entry::Turn)?);
    assert!(rt; lines.meets(Entry::Back { peer: 1, count: 2 })?);
    assert!(rt; lines.end() == Some(2));
    assert!(rt; lines.meets(Entry::See { peer: 1, count: 1 })?);
    assert!(rt;
        lines.meets(Entry::Take {
            peer: 1,
            frame: &[0],
            fate: Fate::FrameShort
        })?
    );
    assert!(rt; lines.end().is_none());
    Ok(())
}

#[test]
fn another_line_is_not_met(rt: HostRuntime) -> Result<(), Fail> {
    let read = spelled_lines(rt.alloc(), TEXT)?;
    let text = SpelledText {
        text: TEXT,
        lines: read.as_slice(),
    };
    let mut lines = DueLines::new(rt.alloc(), text, 4);
    assert!(rt; lines.meets(Entry::Turn)?);
    assert!(rt; !lines.meets(Entry::Back { peer: 1, count: 3 })?);
    assert!(rt; lines.place() == 1);
    Ok(())
}

#[test]
fn no_line_is_met_behind_the_last(rt: HostRuntime) -> Result<(), Fail> {
    let read = spelled_lines(rt.alloc(), TEXT)?;
    let text = SpelledText {
        text: TEXT,
        lines: read.as_slice(),
    };
    let mut lines = DueLines::new(rt.alloc(), text, 1);
    assert!(rt; lines.meets(Entry::Turn)?);
    assert!(rt; !lines.meets(Entry::Back { peer: 1, count: 2 })?);
    assert!(rt; lines.place() == 1);
    Ok(())
}

#[test]
fn a_line_is_met_by_each_entry_with_its_text(rt: HostRuntime) -> Result<(), Fail> {
    let text = b"call 1 ok 1 22\n";
    let read = spelled_lines(rt.alloc(), text)?;
    let text = SpelledText {
        text,
        lines: read.as_slice(),
    };
    let mut bytes = DueLines::new(rt.alloc(), text, 1);
    assert!(rt;
        bytes.meets(Entry::Called {
            number: 1,
            answer: Answer::Bytes {
                size: 1,
                bytes: &[0x22]
            }
        })?
    );
    let mut channel = DueLines::new(rt.alloc(), text, 1);
    assert!(rt;
        channel.meets(Entry::Called {
            number: 1,
            answer: Answer::Channel {
                request: 1,
                channel: 22
            }
        })?
    );
    Ok(())
}

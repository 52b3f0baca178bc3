mod programs;
mod reports;

use event_order::{Event, What, order_events};
use outer_io::{MemSink, Writer};
use picture_text::{put_json, put_xml};
use std::alloc::{AllocError, Global};
use std::test::Fail;

/// Events domain by domain, whether calls go by the lines of the scenario, and the places of the events in their order. No places: there is no order.
struct Case {
    events: &'static [(u8, What)],
    by_lines: bool,
    order: &'static [u32],
}

const PUT: What = What::Put { peer: 1 };

const TAKE: What = What::Take { peer: 0 };

const GIVE: What = What::Give { peer: 0, count: 2 };

const BACK: What = What::Back { peer: 1, count: 2 };

const FIRST: What = What::Answer {
    call: 0,
    refused: false,
};

const SECOND: What = What::Answer {
    call: 1,
    refused: true,
};

const CASES: [Case; 10] = [
    Case {
        events: &[],
        by_lines: false,
        order: &[],
    },
    // A take waits for its put, whichever domain comes first.
    Case {
        events: &[(0, PUT), (1, TAKE)],
        by_lines: false,
        order: &[0, 1],
    },
    Case {
        events: &[(0, What::Take { peer: 1 }), (1, What::Put { peer: 0 })],
        by_lines: false,
        order: &[1, 0],
    },
    // The second take waits for the second put.
    Case {
        events: &[(0, PUT), (0, What::Again), (0, PUT), (1, TAKE), (1, TAKE)],
        by_lines: false,
        order: &[0, 3, 1, 2, 4],
    },
    // Buffers come back after all of them were given back.
    Case {
        events: &[(0, BACK), (1, GIVE)],
        by_lines: false,
        order: &[1, 0],
    },
    // A frame that nobody puts, one that another domain gets, and more buffers than were given back.
    Case {
        events: &[(1, TAKE)],
        by_lines: false,
        order: &[],
    },
    Case {
        events: &[(0, What::Put { peer: 2 }), (1, TAKE)],
        by_lines: false,
        order: &[],
    },
    Case {
        events: &[(0, What::Back { peer: 1, count: 3 }), (1, GIVE)],
        by_lines: false,
        order: &[],
    },
    // The lines of the scenario, and a call behind its put.
    Case {
        events: &[(0, SECOND), (1, FIRST)],
        by_lines: true,
        order: &[1, 0],
    },
    Case {
        events: &[(0, PUT), (0, FIRST), (1, TAKE), (1, SECOND)],
        by_lines: false,
        order: &[0, 1, 2, 3],
    },
];

/// Events with their places.
fn numbered(alloc: Global, told: &[(u8, What)]) -> Result<Vec<Event>, AllocError> {
    let mut events = Vec::new(alloc);
    let mut number: u32 = 0;
    for (domain, what) in told {
        let event = Event {
            domain: *domain,
            what: *what,
            number,
            line: number.saturating_add(1),
            place: 0,
        };
        events.push(event)?;
        number = number.saturating_add(1);
    }
    Ok(events)
}

/// Whether events have these places.
fn have_numbers(events: &[Event], numbers: &[u32]) -> bool {
    events.len() == numbers.len()
        && events
            .iter()
            .zip(numbers)
            .all(|(event, number)| event.number == *number)
}

/// Whether events are ordered as a case says.
fn is_ordered(alloc: Global, case: &Case) -> Result<bool, AllocError> {
    let mut events = numbered(alloc, case.events)?;
    match order_events(alloc, &mut events, case.by_lines) {
        Ok(()) => Ok(have_numbers(&events, case.order)),
        Err(_) => Ok(case.order.is_empty()),
    }
}

#[test]
fn causes_come_first(rt: HostRuntime) -> Result<(), Fail> {
    for case in &CASES {
        assert!(rt; is_ordered(rt.alloc(), case)?);
    }
    Ok(())
}

/// A text, and how it stands in SVG and in JSON.
const TEXTS: [(&str, &str, &str); 5] = [
    ("", "", ""),
    ("create 1", "create 1", "create 1"),
    (
        "a <b> & \"c\"",
        "a &lt;b&gt; &amp; &quot;c&quot;",
        "a <b> & \\\"c\\\"",
    ),
    ("back\\slash", "back\\slash", "back\\\\slash"),
    ("tab\tend\n", "tab?end?", "tab?end?"),
];

/// Whether a text is escaped so.
fn is_escaped(alloc: Global, text: &str, escaped: &str, json: bool) -> Result<bool, AllocError> {
    let Ok(mut sink) = MemSink::new(alloc, Vec::new(alloc), 100, 1000) else {
        return Err(AllocError);
    };
    let mut out = Writer::new(&mut sink);
    if json {
        put_json(&mut out, text.as_bytes());
    } else {
        put_xml(&mut out, text.as_bytes());
    }
    let written = out.finish().is_ok();
    Ok(written && sink.written() == escaped.as_bytes())
}

#[test]
fn texts_are_escaped(rt: HostRuntime) -> Result<(), Fail> {
    for (text, xml, json) in TEXTS {
        assert!(rt; is_escaped(rt.alloc(), text, xml, false)?, "{text}");
        assert!(rt; is_escaped(rt.alloc(), text, json, true)?, "{text}");
    }
    Ok(())
}

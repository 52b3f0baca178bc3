//! Which calls of a report are shown.

ghost use Rattle.std.specs.Prelude.{◌≤◌, length};
ghost use Rattle.report_text.specs.Texts.{longest_line};

use mc_journal::Entry;
use report_text::next_entry;
use report_view::{Channel, DomainView, Group, channel_of};

/// What a call must have to be shown. Where nothing is asked, all are shown.
#[derive(Clone, Copy, Debug)]
pub struct Filter {
    pub domain: Option<u8>,
    pub channel: Option<Channel>,
    /// The number of its line in the report.
    pub line: Option<u32>,
    /// It was refused.
    pub refused: bool,
}

impl Filter {
    /// Whether a domain is shown.
    pub fn shows_domain(&self, domain: u8) -> bool {
        match self.domain {
            Some(asked) => asked == domain,
            None => true,
        }
    }

    /// Whether the call of a group is shown, as far as its line and its answer say.
    fn shows_call(&self, domain: &DomainView<'_>, group: Group<'_>) -> bool {
        if self.refused && !group.refused {
            return false;
        }
        let Some(asked) = self.line else {
            return true;
        };
        match group.call {
            Some(number) => domain.line_numbered(number).number == asked,
            None => false,
        }
    }
}

/// Whether the call of a group of lines, at the front of a text, is shown.
pub fn is_shown(
    filter: Filter,
    domain: &DomainView<'_>,
    group: Group<'_>,
    text: &[u8],
    room: &mut [u8],
) -> bool
    requires { longest_line text.now ≤ length room.old }
{
    let number = domain.journal.domain;
    if !filter.shows_domain(number) || !filter.shows_call(domain, group) {
        return false;
    }
    match filter.channel {
        Some(channel) => has_channel(channel, number, group.lines, text, room),
        None => true,
    }
}

/// Whether an entry of a domain puts or takes a frame of a channel.
fn is_on_channel(channel: Channel, domain: u8, entry: Entry<'_>) -> bool {
    let found = match entry {
        Entry::Put { peer, frame } => channel_of(frame, domain, peer),
        Entry::Take { peer, frame, .. } => channel_of(frame, peer, domain),
        _ => None,
    };
    found == Some(channel)
}

/// Whether so many lines, at the front of a text, have a frame of a channel.
fn has_channel(channel: Channel, domain: u8, lines: u32, text: &[u8], room: &mut [u8]) -> bool
    requires { longest_line text.now ≤ length room.old }
{
    let mut rest = text;
    for _done in 0..lines {
        let Some((entry, after)) = next_entry(rest, room) else {
            return false;
        };
        if is_on_channel(channel, domain, entry) {
            return true;
        }
        rest = after;
    }
    false
}

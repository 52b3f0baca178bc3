//! What the journals' entries of the items of channels come to in numbers.

ghost use Rattle.std.specs.Prelude.{◌≡◌, ◌+◌, ◌<◌, ◌^◌, ◌==◌, ◌∷◌, ◌++◌, ℕ, List, [], IfOk, Some, None, length, map, slice_index, if◌then◌else◌};
ghost use Rattle.mc_base.specs.Reading.{reading};
ghost use Rattle.mc_journal.specs.Entry.{line_of_entry};
ghost use Rattle.board_model.specs.Channels.{is_lost as is_lost_fate};
ghost use Rattle.board_model.specs.Journal.{Line};
ghost use Rattle.board_numbers.specs.Items.{item_said, close_said, item_carried, close_carried};
ghost use Rattle.board_numbers.specs.ItemCounts.{AddsTold, ClosesBy, ClosesLast, CountsLines, CountsOneMore, EachWith, HasNoItems, TellsItems};

use crate::adding::append;
use crate::ended_domain::EndedDomain;
use crate::parts::is_last;
use mc_base::{Fate, Letter, NoMemory};
use mc_journal::{Answer, Entry, Journal};
use name_service::{Said, read_frame};
use std::alloc::Global;

/// How many items of the channels of one domain were sent, were brought to their receivers, and were dropped there, by the
/// channels' numbers.
#[derive(Drop)]
pub struct ItemCounts {
    pub owner: u8,
    pub sent: Vec<u64>,
    pub brought: Vec<u64>,
    pub dropped: Vec<u64>,
}

/// A channel: the domain that numbered it, and its number.
#[derive(Clone, Copy)]
pub struct ChannelKey {
    pub owner: u8,
    pub number: u32,
}

/// How many more items of a channel were sent, were brought and were dropped, as one entry tells.
#[derive(Clone, Copy)]
pub struct ItemsTold {
    pub channel: ChannelKey,
    pub sent: u64,
    pub brought: u64,
    pub dropped: u64,
}

/// The channel whose item a frame carries, and the one whose receiver's end it closes.
#[derive(Clone, Copy)]
pub struct Carried {
    pub item: Option<u32>,
    pub close: Option<u32>,
}

/// The counts of each domain's channels before the first journal is read.
///
/// # Errors
///
/// `NoMemory` where an allocation fails.
pub fn no_items<D: EndedDomain>(alloc: Global, domains: &[D]) -> Result<Vec<ItemCounts>, NoMemory>
    ensures { IfOk result (λ all. EachWith HasNoItems (map D.ended domains.now) all.items) }
{
    let mut all = Vec::new(alloc);
    for at in 0..domains.len() {
        let counts = no_items_of(alloc, &domains[at])?;
        append(&mut all, counts)?;
    }
    Ok(all)
}

/// The counts of one domain's channels before the first journal is read.
fn no_items_of<D: EndedDomain>(alloc: Global, domain: &D) -> Result<ItemCounts, NoMemory>
    ensures { IfOk result (HasNoItems (D.ended domain.now)) }
{
    let many = domain.channels_given() as usize + 1;
    Ok(ItemCounts {
        owner: domain.number(),
        sent: zeros(alloc, many)?,
        brought: zeros(alloc, many)?,
        dropped: zeros(alloc, many)?,
    })
}

/// So many zeros.
fn zeros(alloc: Global, many: usize) -> Result<Vec<u64>, NoMemory>
    ensures many { IfOk result (λ zeros. length zeros.items ≡ many) }
    ensures zeros { IfOk result (λ zeros. (n : ℕ) → n < many → slice_index zeros.items n ≡ 0) }
{
    match Vec::from_elem(alloc, 0, many) {
        Ok(zeros) => Ok(zeros),
        Err(_) => Err(NoMemory),
    }
}

/// Counts the entries of the journal of the domain of this number, each once, for all domains. The counts stop at the largest number,
/// which no board's run comes to.
pub fn count_journal(all: &mut [ItemCounts], own: u8, journal: &Journal)
    ensures { EachWith (CountsLines own journal.now.lines) all.old all.new }
{
    let mut closing = None;
    for at in 0..journal.len() {
        closing = count_items(all, own, closing, journal.entry(at).unwrap());
    }
}

/// Counts one entry more of the journal of the domain of this number, for all domains. It takes the channel whose receiver's end the
/// entry before closes, and returns the one that this entry closes.
pub fn count_items(
    all: &mut [ItemCounts],
    own: u8,
    closing: Option<ChannelKey>,
    entry: Entry<'_>,
) -> Option<ChannelKey>
    ensures counted { CountsOneMore own closing (line_of_entry entry.entry) all.old all.new }
    ensures closes { (lines : List Line) → ClosesLast (lines ++ line_of_entry entry.entry ∷ []) result }
{
    let carried = carried_in(entry);
    let told = told_by(own, closing, carried, entry);
    count_told(all, told);
    closing_by(carried, entry)
}

/// Counts what an entry tells, for the domain that numbered the channel.
fn count_told(all: &mut [ItemCounts], told: Option<ItemsTold>)
    ensures { EachWith (AddsTold told) all.old all.new }
{
    let Some(told) = told else {
        return;
    };
    for counts in all.iter_mut() {
        add_told(counts, told);
    }
}

/// Adds what is told of a channel, where this domain numbered it.
fn add_told(counts: &mut ItemCounts, told: ItemsTold)
    ensures { AddsTold (Some told) counts.old counts.new }
{
    let number = told.channel.number;
    if told.channel.owner == counts.owner {
        add_at(&mut counts.sent, number, told.sent);
        add_at(&mut counts.brought, number, told.brought);
        add_at(&mut counts.dropped, number, told.dropped);
    }
}

/// Adds to the number of a channel.
fn add_at(numbers: &mut Vec<u64>, channel: u32, count: u64)
    ensures added { (n : ℕ) → n < length numbers.old.items → slice_index numbers.old.items n + (if channel == n then count else 0) < 2 ^ 64 → slice_index numbers.new.items n ≡ slice_index numbers.old.items n + (if channel == n then count else 0) }
    ensures places { length numbers.new.items ≡ length numbers.old.items }
{
    let place = channel as usize;
    if place < numbers.len() {
        numbers[place] = numbers[place].saturating_add(count);
    }
}

/// What an entry of a domain's journal tells of the items of a channel. It follows one that closes a channel, or none.
fn told_by(
    own: u8,
    closing: Option<ChannelKey>,
    carried: Carried,
    entry: Entry<'_>,
) -> Option<ItemsTold>
    requires { carried.item ≡ item_carried (line_of_entry entry) }
    ensures { TellsItems own closing (line_of_entry entry.entry) result }
{
    match (entry, carried.item, closing) {
        (Entry::Put { .. }, Some(number), _) => Some(ItemsTold {
            channel: ChannelKey { owner: own, number },
            sent: 1,
            brought: 0,
            dropped: 0,
        }),
        (Entry::Take { peer, fate, .. }, Some(number), _) => Some(ItemsTold {
            channel: ChannelKey {
                owner: peer,
                number,
            },
            sent: 0,
            brought: 1,
            dropped: u64::from(is_lost(fate)),
        }),
        (
            Entry::Called {
                answer: Answer::Number(count),
                ..
            },
            _,
            Some(channel),
        ) => Some(ItemsTold {
            channel,
            sent: 0,
            brought: 0,
            dropped: count,
        }),
        _ => None,
    }
}

/// The channel whose receiver's end an entry closes.
fn closing_by(carried: Carried, entry: Entry<'_>) -> Option<ChannelKey>
    requires { carried.close ≡ close_carried (line_of_entry entry) }
    ensures { ClosesBy (line_of_entry entry.entry) result }
{
    match (entry, carried.close) {
        (Entry::Put { peer, .. }, Some(number)) => Some(ChannelKey {
            owner: peer,
            number,
        }),
        _ => None,
    }
}

/// What the frame of an entry carries, where it has one.
fn carried_in(entry: Entry<'_>) -> Carried
    ensures item { result.item ≡ item_carried (line_of_entry entry.entry) }
    ensures close { result.close ≡ close_carried (line_of_entry entry.entry) }
{
    match entry {
        Entry::Put { frame, .. } | Entry::Take { frame, .. } => carried_by(frame),
        _ => Carried {
            item: None,
            close: None,
        },
    }
}

/// What a frame carries. An item that comes in parts is carried by the last one.
fn carried_by(frame: &[u8]) -> Carried
    ensures item { result.item ≡ item_said (reading frame.now) }
    ensures close { result.close ≡ close_said (reading frame.now) }
{
    match read_frame(frame) {
        Said::Sends {
            letter: Letter::Packet { channel, .. } | Letter::Scalar { channel, .. },
            ..
        } => Carried {
            item: Some(channel),
            close: None,
        },
        Said::Sends {
            letter: Letter::PacketPart {
                channel,
                total,
                offset,
                bytes,
            },
            ..
        } => Carried {
            item: ended_on(channel, is_last(total, offset, bytes)),
            close: None,
        },
        Said::Sends {
            letter: Letter::RecvClose { channel },
            ..
        } => Carried {
            item: None,
            close: Some(channel),
        },
        _ => Carried {
            item: None,
            close: None,
        },
    }
}

/// The channel whose item a part ends, where it is the last.
fn ended_on(channel: u32, last: bool) -> Option<u32>
    ensures { result ≡ (if last then Some channel else None) }
{
    if last { Some(channel) } else { None }
}

/// Whether an item that meets this fate is lost.
fn is_lost(fate: Fate) -> bool
    ensures { result ≡ is_lost_fate fate }
{
    matches!(fate, Fate::Closed)
}

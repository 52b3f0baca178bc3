//! What became of the items of channels.

ghost use Rattle.std.specs.Prelude.{◌≡◌, ◌<◌, ◌^◌, IfOk, OnOk, length, map, sum_by};
ghost use Rattle.board_model.specs.Language.{IsLawfulBoard};
ghost use Rattle.board_numbers.specs.ItemCounts.{AreCounted, AreItemCounts, HaveMoreThan, IsCountedAt, IsOneOf, ItemsFit, queued_at};
ghost use Rattle.board_numbers.specs.ToldChannels.{AddChannels, TellChannels, TellTotalsOf};

use crate::adding::add;
use crate::ended_domain::EndedDomain;
use crate::items::ItemCounts;
use board_model::{ChannelTotals, Scenario, Seq, Totals};
use mc_base::NoMemory;
use std::alloc::Global;

/// What became of the items of each channel, by the domain that numbered it and by its number, where the journals of all domains are
/// counted. Whether these are a run of the board need not be known yet: no count or difference leaves its range where they are.
///
/// # Errors
///
/// `NoMemory` where an allocation fails.
pub fn channels_of<D: EndedDomain>(
    alloc: Global,
    _scenario: &Scenario,
    domains: &[D],
    counts: &[ItemCounts],
) -> Result<Seq<ChannelTotals>, NoMemory>
    requires lawful { IsLawfulBoard _scenario.now }
    requires counted { AreCounted (map D.ended domains.now) counts.now }
    ensures { IfOk result (TellChannels _scenario.now (map D.ended domains.now)) }
{
    let mut channels = Seq::new(Vec::new(alloc));
    for at in 0..domains.len() {
        add_channels(_scenario, domains, at, &counts[at], &mut channels)?;
    }
    Ok(channels)
}

/// Adds the channels that the domain at a place numbered, from 1 on, by the counts of their items.
fn add_channels<D: EndedDomain>(
    _scenario: &Scenario,
    domains: &[D],
    at: usize,
    counts: &ItemCounts,
    channels: &mut Seq<ChannelTotals>,
) -> Result<(), NoMemory>
    requires lawful { IsLawfulBoard _scenario.now }
    requires at { at < length domains.now }
    requires counts { IsCountedAt (map D.ended domains.now) at counts.now }
    ensures { OnOk result (AddChannels _scenario.now (map D.ended domains.now) at channels.old channels.new) }
{
    let domain = &domains[at];
    let owner = domain.number();
    let given = domain.channels_given();
    for before in 0..given {
        let number = before + 1;
        let totals = totals_of(_scenario, domains, owner, number, counts);
        let channel = ChannelTotals {
            owner,
            number,
            totals,
        };
        add(channels, channel)?;
    }
    Ok(())
}

/// What became of the items of one channel of a domain. None is lost, so those that were taken are the rest.
fn totals_of<D: EndedDomain>(
    _scenario: &Scenario,
    domains: &[D],
    owner: u8,
    number: u32,
    counts: &ItemCounts,
) -> Totals
    requires lawful { IsLawfulBoard _scenario.now }
    requires owner { IsOneOf owner (map D.ended domains.now) }
    requires counts { ItemsFit owner (map D.ended domains.now) → AreItemCounts owner (map D.ended domains.now) counts.now }
    requires places { HaveMoreThan number counts.now }
    ensures { TellTotalsOf _scenario.now (map D.ended domains.now) owner number result }
{
    let place = number as usize;
    let sent = counts.sent[place];
    let dropped = counts.dropped[place];
    let brought = counts.brought[place];
    let ring = sent.saturating_sub(brought);
    let queued = queued_on(domains, owner, number);
    Totals {
        accepted: sent,
        taken: sent
            .saturating_sub(dropped)
            .saturating_sub(queued)
            .saturating_sub(ring),
        dropped,
        queued,
        ring,
    }
}

/// How many items of a channel are queued at all domains.
fn queued_on<D: EndedDomain>(domains: &[D], owner: u8, number: u32) -> u64
    ensures { sum_by (queued_at owner number) (map D.ended domains.now) < 2 ^ 64 → result ≡ sum_by (queued_at owner number) (map D.ended domains.now) }
{
    let mut queued: u64 = 0;
    for domain in domains {
        queued = queued.saturating_add(domain.queued(owner, number));
    }
    queued
}

//! Two domains that are linked.

ghost use Rattle.std.specs.Prelude.{◌≡◌, ◌≤◌, ◌∷◌, [], IfOk};
ghost use Rattle.domain_core.specs.Opening.{AreLinksOf, ends_opened};
ghost use Rattle.lane_end.specs.Loop.{new_loop};
ghost use Rattle.domain_core.specs.Going.{PlainGoes};
ghost use Rattle.linked_pair.specs.Links.{IsOpen};

use super::steps::Said::{Accepted, Address, Connected, Held, Idle, Message, Number, Rejected};
use super::steps::Step::{
    Available, Begin, Cancel, CloseRecv, CloseSend, Connect, Delete, Lookup, OpenRecv, OpenSend,
    Plain, SendPacket, Test, Turn, Wait,
};
use super::steps::{self, Step, stepped};
use super::*;
use domain_core::{carry, domains_stay_linked};
use linked_pair::{PlainDomain, PlainLink, plain_link};
use mc_base::{Kind, Reason, RequestId};
use std::marker::Model;

mod announcements;
mod channels;
mod messages;
mod waits;

/// What one of the domains does, that their link is carried, or what is asked of them.
#[derive(Clone, Copy)]
enum Deed {
    Three(Step),
    Four(Step),
    Carry,
    /// What domain 3 holds from a domain.
    ThreeHolds(u8),
    /// What domain 4 holds from a domain.
    FourHolds(u8),
    /// How many messages are queued in domain 4.
    FourQueues,
}

use Deed::{Carry, Four, FourHolds, FourQueues, Three, ThreeHolds};

/// A deed, and what it answers: the number 0 for a link that is carried.
type Row = (Deed, steps::Answered);

/// What a domain noted, and the ids of its requests.
#[derive(Drop)]
struct Notes {
    journal: Journal,
    ids: Vec<RequestId>,
}

/// Domains 3 and 4, which are linked. Each has one node and a pool of two buffers.
#[derive(Drop)]
struct Pair {
    three: PlainDomain,
    four: PlainDomain,
}

impl Model for Pair {
    ghost use Rattle.domain_core.specs.Going.{AreLinkedDomains};

    ghost Value = { Unit {0} };

    ghost view = { λ p. tt };

    ghost invariant = { λ p. AreLinkedDomains p.three p.four };
}

impl Pair {
    /// Whose link has so many buffers each way.
    fn open(alloc: Global, size: u32) -> Result<Pair, Fail> {
        let (there, back) = plain_link(alloc, 3, 4, size)?;
        Ok(Pair {
            three: linked(alloc, 3, there)?,
            four: linked(alloc, 4, back)?,
        })
    }

    fn steps_three(&mut self, notes: &mut Notes, step: Step) -> Outcome
        requires entry_room { 176 ≤ notes.old.journal.entry_room }
        requires byte_room { 90112 ≤ notes.old.journal.byte_room }
    {
        domains_stay_linked();
        step_of(&mut self.three, notes, step)
    }

    fn steps_four(&mut self, notes: &mut Notes, step: Step) -> Outcome
        requires entry_room { 176 ≤ notes.old.journal.entry_room }
        requires byte_room { 90112 ≤ notes.old.journal.byte_room }
    {
        domains_stay_linked();
        step_of(&mut self.four, notes, step)
    }

    fn carries(&mut self) {
        carry(&mut self.three, &mut self.four);
    }
}

/// What a call came to.
type Outcome = Result<Option<steps::Answered>, NoMemory>;

/// The two domains, and what they noted.
#[derive(Drop)]
struct Board {
    threes: Notes,
    fours: Notes,
    pair: Pair,
}

impl Board {
    fn open(alloc: Global, size: u32) -> Result<Board, Fail> {
        Ok(Board {
            threes: no_notes(alloc)?,
            fours: no_notes(alloc)?,
            pair: Pair::open(alloc, size)?,
        })
    }

    fn does(&mut self, deed: Deed) -> Outcome
        requires entries_of_three { 176 ≤ self.old.threes.journal.entry_room }
        requires bytes_of_three { 90112 ≤ self.old.threes.journal.byte_room }
        requires entries_of_four { 176 ≤ self.old.fours.journal.entry_room }
        requires bytes_of_four { 90112 ≤ self.old.fours.journal.byte_room }
    {
        match deed {
            Three(step) => self.pair.steps_three(&mut self.threes, step),
            Four(step) => self.pair.steps_four(&mut self.fours, step),
            Carry => {
                self.pair.carries();
                Ok(Some(Ok(Number(0))))
            }
            ThreeHolds(peer) => Ok(held_from(&self.pair.three, peer)),
            FourHolds(peer) => Ok(held_from(&self.pair.four, peer)),
            FourQueues => Ok(Some(Ok(Number(self.pair.four.messages_queued().into())))),
        }
    }
}

/// What a domain holds from another, or `None` where there is no lane from it.
fn held_from(domain: &PlainDomain, peer: u8) -> Option<steps::Answered> {
    let Places { queue, lent } = domain.places(peer)?;
    Some(Ok(Held(queue, lent)))
}

fn no_notes(alloc: Global) -> Result<Notes, NoMemory> {
    Ok(Notes {
        journal: Journal::new(alloc)?,
        ids: Vec::new(alloc),
    })
}

/// A domain of one node and a pool of two buffers, with this link.
fn linked(alloc: Global, number: u8, link: PlainLink) -> Result<PlainDomain, Fail>
    requires number { number ≤ 7 }
    requires peers { AreLinksOf number (link ∷ []) }
    requires open { IsOpen link }
    ensures number { IfOk result (λ d. d.state.number ≡ number) }
    ensures ends { IfOk result (λ d. d.ends ≡ ends_opened number (new_loop 2) (link ∷ [])) }
{
    let mut links = Vec::new(alloc);
    links.push(link)?;
    let domain = Domain::open(alloc, number, 1, 2, links)?;
    Ok(domain)
}

/// Makes a call.
fn step_of(domain: &mut PlainDomain, notes: &mut Notes, step: Step) -> Outcome
    requires entry_room { 176 ≤ notes.old.journal.entry_room }
    requires byte_room { 90112 ≤ notes.old.journal.byte_room }
    ensures { PlainGoes domain.old domain.new }
{
    stepped(domain, &mut notes.journal, &mut notes.ids, step)
}

/// Whether a deed answers this.
fn answers(board: &mut Board, deed: Deed, due: steps::Answered) -> Result<bool, NoMemory> {
    board.threes.journal.reserve(176, 90_112)?;
    board.fours.journal.reserve(176, 90_112)?;
    Ok(board.does(deed)? == Some(due))
}

/// Asserts what each deed answers. The rows have a name.
fn assert_deeds(rt: &impl Abort, board: &mut Board, name: &str, rows: &[Row]) -> Result<(), Fail> {
    for (i, (deed, due)) in rows.iter().enumerate() {
        assert!(rt; answers(board, *deed, *due)?, "{name}, row {i}");
    }
    Ok(())
}

/// A name, the buffers that the link of a new board has each way, and the rows.
type Case = (&'static str, u32, &'static [Row]);

fn assert_case(rt: &impl Abort, alloc: Global, case: &Case) -> Result<(), Fail> {
    let (name, size, rows) = *case;
    assert_of(Board::open(alloc, size), |board| {
        assert_deeds(rt, board, name, rows)
    })
}

fn assert_cases(rt: &impl Abort, alloc: Global, cases: &[Case]) -> Result<(), Fail> {
    for case in cases {
        assert_case(rt, alloc, case)?;
    }
    Ok(())
}

const CARRIED: Row = (Carry, Ok(Number(0)));

//! A domain that is followed through its journal, to know when it gives buffers back.

ghost use Rattle.std.specs.Prelude.{IfOk, OnOk};
ghost use Rattle.board_model.proofs.StateEnds.{Ends};

use board_model::{CallLine, DomainLine, Scenario};
use mc_base::NoMemory;
use mc_journal::{Answer, Entry};
use report_replay::{FrameNames, Labels, State};
use report_text::{Numbered, neighbours_of_domain, script_puts};
use std::alloc::Global;

/// A domain on its way through its journal.
#[derive(Drop)]
pub struct Replay<'s> {
    pub state: State,
    labels: Labels<'s>,
    given: FrameNames,
    /// How many frames each line of its script puts where the call succeeds.
    puts: Vec<u64>,
    /// The peers of the puts that were read last, which are those of a call where its line follows.
    open: Vec<u8>,
}

/// The lanes to neighbours, each by the number at its other end and by its buffers.
fn lanes_to(alloc: Global, found: &[Numbered]) -> Result<Vec<(u8, u32)>, NoMemory> {
    let mut lanes = Vec::new(alloc);
    for neighbour in found {
        if lanes.push((neighbour.number, neighbour.size)).is_err() {
            return Err(NoMemory);
        }
    }
    Ok(lanes)
}

impl<'s> Replay<'s> {
    /// Opens a domain.
    ///
    /// # Errors
    ///
    /// `NoMemory` where an allocation fails.
    pub fn open(
        alloc: Global,
        scenario: &Scenario,
        line: DomainLine,
    ) -> Result<Replay<'s>, NoMemory>
        ensures { IfOk result (λ r. Ends r.state) }
    {
        let found = neighbours_of_domain(alloc, scenario, line)?;
        let lanes = lanes_to(alloc, &found)?;
        let puts = script_puts(alloc, scenario, line.domain)?;
        let state = State::open(alloc, line.domain, line.nodes, &lanes)?;
        Ok(Replay {
            state,
            labels: Labels::new(alloc),
            given: FrameNames::new(alloc),
            puts,
            open: Vec::new(alloc),
        })
    }

    /// How many buffers the domain has given back to a peer.
    pub fn given_to(&self, peer: u8) -> usize {
        self.given.from_peer(peer).len()
    }

    /// Follows an entry of the journal, whose call, if it is one, is that of this line of the scenario.
    ///
    /// # Errors
    ///
    /// `NoMemory` where an allocation fails. Nothing is said of the domain after that.
    pub fn follow(
        &mut self,
        alloc: Global,
        entry: &Entry<'_>,
        line: Option<&'s CallLine>,
    ) -> Result<(), NoMemory>
        requires { Ends self.old.state }
        ensures { OnOk result (Ends self.new.state) }
    {
        if let Entry::Put { peer, .. } = *entry {
            return self.note_put(peer);
        }
        self.put_owed(self.puts_of(entry));
        match *entry {
            Entry::Back { peer, count } => self.look_back(peer, count),
            Entry::See { peer, count } => self.look_ahead(peer, count),
            Entry::Take { peer, frame, .. } => self.take(alloc, peer, frame)?,
            Entry::Called { answer, .. } => {
                if !matches!(answer, Answer::Refused(_)) {
                    if let Some(line) = line {
                        self.call(alloc, line)?;
                    }
                }
            }
            _ => (),
        }
        Ok(())
    }

    /// How many of the puts before an entry are its own: those of a call that was not refused.
    fn puts_of(&self, entry: &Entry<'_>) -> usize {
        let Entry::Called { number, answer } = *entry else {
            return 0;
        };
        if matches!(answer, Answer::Refused(_)) || number == 0 {
            return 0;
        }
        match self.puts.get(number as usize - 1) {
            Some(count) => *count as usize,
            None => 0,
        }
    }

    fn note_put(&mut self, peer: u8) -> Result<(), NoMemory>
        requires { Ends self.old.state }
        ensures { OnOk result (Ends self.new.state) }
    {
        if self.open.push(peer).is_err() {
            return Err(NoMemory);
        }
        Ok(())
    }

    /// Puts the frames that are owed: those of the last puts, but for these last.
    fn put_owed(&mut self, own: usize)
        requires { Ends self.old.state }
        ensures { Ends self.new.state }
    {
        let owed = self.open.len().saturating_sub(own);
        put_all_owed(&mut self.state, self.open.as_slice(), owed);
        self.open.clear();
    }

    fn look_back(&mut self, peer: u8, count: u32)
        requires { Ends self.old.state }
        ensures { Ends self.new.state }
    {
        let _back = self.state.look_back(peer, u64::from(count));
    }

    fn look_ahead(&mut self, peer: u8, count: u32)
        requires { Ends self.old.state }
        ensures { Ends self.new.state }
    {
        let _shown = self.state.look_ahead(peer, u64::from(count));
    }

    fn take(&mut self, alloc: Global, peer: u8, frame: &[u8]) -> Result<(), NoMemory>
        requires { Ends self.old.state }
        ensures { OnOk result (Ends self.new.state) }
    {
        let _fate = self.state.take(alloc, peer, None, frame, &mut self.given)?;
        Ok(())
    }

    /// Does what the call of a line does. Where it is refused in this state, it does nothing.
    fn call(&mut self, alloc: Global, line: &'s CallLine) -> Result<(), NoMemory>
        requires { Ends self.old.state }
        ensures { OnOk result (Ends self.new.state) }
    {
        let call = self.labels.call_of(&self.state, &line.call);
        if self.state.refusal(line.node, &call).is_some() {
            return Ok(());
        }
        self.labels.note(&self.state, line, &call)?;
        self.state.note_returned(line.node, &call, &mut self.given)?;
        self.state.succeed(alloc, line.node, &call)?;
        Ok(())
    }
}

/// Puts the first frames that are owed to the first of these peers.
fn put_all_owed(state: &mut State, peers: &[u8], count: usize)
    requires { Ends state.old }
    ensures { Ends state.new }
{
    for peer in peers.iter().take(count) {
        state.put_owed(*peer);
    }
}

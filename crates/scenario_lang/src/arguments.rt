//! The arguments of a call, read one after the other from the words behind its name.

ghost use Rattle.std.specs.Prelude.{◌≡◌, ◌*◌};
ghost use Rattle.mc_base.specs.Letter.{bytes_of_bits};
ghost use Rattle.board_model.specs.declared.form.ArgumentKind.TheVariants as kind;
ghost use Rattle.scenario_lang.specs.Reading.{Answers, Reads, seen, next_word, name_at, value_in, argument_in, call_in, call_at_port};

use crate::fault::LineFault;
use crate::groups::label_group;
use crate::kinds::{bits_from, greatest, kind_of};
use crate::lines::name_parts;
use crate::numerals::{bytes, label, number};
use board_model::{Call, Callee, Label, LabelGroup, LineReason, Seq, number_to};
use mc_base::{Bits, EndName, Kind, LONGEST_FRAME, MAX_ASKED, NoMemory, Priority};
use std::alloc::Global;

/// Words of arguments that are not read yet. Each method reads the next one.
#[derive(Drop)]
pub(crate) struct Arguments<'w, 'a> {
    rest: &'w [&'a [u8]],
}

impl<'w, 'a> Arguments<'w, 'a> {
    pub fn new(words: &'w [&'a [u8]]) -> Arguments<'w, 'a>
        ensures { result.rest.now ≡ words.now }
    {
        Arguments { rest: words }
    }

    /// Takes the next word.
    fn word(&mut self) -> Result<&'a [u8], LineReason>
        ensures { Reads (λ x. (x.now, seen self.new.rest.now)) result (next_word (seen self.old.rest.now)) }
    {
        match self.rest {
            [word, rest @ ..] => {
                self.rest = rest;
                Ok(*word)
            }
            [] => Err(LineReason::Form),
        }
    }

    /// Reads PORT.
    #[tactic(auto, unfolding(crate::specs::Reading::argument_in))]
    pub fn port(&mut self) -> Result<u16, LineReason>
        ensures { Reads (λ x. (x, seen self.new.rest.now)) result (argument_in kind.Port 0 (seen self.old.rest.now)) }
    {
        let word = self.word()?;
        let port = number(0, 65_535, word)?;
        Ok(port as u16)
    }

    /// Reads D:N:P.
    #[tactic(auto, unfolding(crate::specs::Reading::argument_in), using(crate::proofs::CallLemmas::name_value))]
    pub fn name(&mut self) -> Result<EndName, LineReason>
        ensures { Reads (λ x. (x, seen self.new.rest.now)) result (argument_in kind.Name 0 (seen self.old.rest.now)) }
    {
        let word = self.word()?;
        name(word)
    }

    /// Reads PRIO.
    #[tactic(auto, unfolding(crate::specs::Reading::argument_in))]
    pub fn priority(&mut self) -> Result<Priority, LineReason>
        ensures { Reads (λ x. (x, seen self.new.rest.now)) result (argument_in kind.Priority 0 (seen self.old.rest.now)) }
    {
        let word = self.word()?;
        let priority = number(0, 3, word)?;
        Ok(Priority::new(priority as u8).unwrap())
    }

    /// Reads BYTES.
    #[tactic(auto, unfolding(crate::specs::Reading::argument_in), using(crate::proofs::CallLemmas::bytes_value))]
    pub fn content(&mut self, alloc: Global) -> Result<Vec<u8>, LineFault>
        ensures { Answers (λ x. (x.items, seen self.new.rest.now)) result (argument_in kind.Content 0 (seen self.old.rest.now)) }
    {
        let word = self.word()?;
        bytes(alloc, 0, MAX_ASKED, word)
    }

    /// Reads MAX.
    #[tactic(auto, unfolding(crate::specs::Reading::argument_in))]
    pub fn maximum(&mut self) -> Result<u32, LineReason>
        ensures { Reads (λ x. (x, seen self.new.rest.now)) result (argument_in kind.Maximum 0 (seen self.old.rest.now)) }
    {
        let word = self.word()?;
        let max = number(0, MAX_ASKED as u64, word)?;
        Ok(max as u32)
    }

    /// Reads KIND.
    #[tactic(auto, unfolding(crate::specs::Reading::argument_in))]
    pub fn channel_kind(&mut self) -> Result<Kind, LineReason>
        ensures { Reads (λ x. (x, seen self.new.rest.now)) result (argument_in kind.ChannelKind 0 (seen self.old.rest.now)) }
    {
        let word = self.word()?;
        channel_kind(word)
    }

    /// Reads BITS.
    #[tactic(auto, unfolding(crate::specs::Reading::argument_in))]
    pub fn bits(&mut self) -> Result<Bits, LineReason>
        ensures { Reads (λ x. (x, seen self.new.rest.now)) result (argument_in kind.ScalarBits 0 (seen self.old.rest.now)) }
    {
        let word = self.word()?;
        bits(word)
    }

    /// Reads VALUE, a number of so many bits.
    #[tactic(auto, unfolding(crate::specs::Reading::argument_in))]
    pub fn value(&mut self, bits: Bits) -> Result<u64, LineReason>
        ensures { Reads (λ x. (x, seen self.new.rest.now)) result (argument_in kind.ScalarValue (8 * bytes_of_bits bits) (seen self.old.rest.now)) }
    {
        let word = self.word()?;
        number(0, greatest(bits), word)
    }

    /// Reads the LABEL of a request.
    #[tactic(auto, unfolding(crate::specs::Reading::argument_in))]
    pub fn request_label(&mut self) -> Result<Label, LineReason>
        ensures { Reads (λ x. (x, seen self.new.rest.now)) result (argument_in kind.RequestLabel 0 (seen self.old.rest.now)) }
    {
        let word = self.word()?;
        label(word)
    }

    /// Reads LABEL,LABEL: those of requests.
    #[tactic(auto, unfolding(crate::specs::Reading::argument_in))]
    pub fn request_labels(&mut self, alloc: Global) -> Result<LabelGroup, LineFault>
        ensures { Answers (λ x. (x, seen self.new.rest.now)) result (argument_in kind.RequestLabels 0 (seen self.old.rest.now)) }
    {
        let word = self.word()?;
        labels(alloc, word)
    }

    /// Reads the LABEL of a packet.
    #[tactic(auto, unfolding(crate::specs::Reading::argument_in))]
    pub fn packet_label(&mut self) -> Result<Label, LineReason>
        ensures { Reads (λ x. (x, seen self.new.rest.now)) result (argument_in kind.PacketLabel 0 (seen self.old.rest.now)) }
    {
        let word = self.word()?;
        label(word)
    }

    /// Reads LIMIT.
    #[tactic(auto, unfolding(crate::specs::Reading::argument_in))]
    pub fn limit(&mut self) -> Result<u32, LineReason>
        ensures { Reads (λ x. (x, seen self.new.rest.now)) result (argument_in kind.Limit 0 (seen self.old.rest.now)) }
    {
        let word = self.word()?;
        let limit = number(0, 4_294_967_295, word)?;
        Ok(limit as u32)
    }

    /// Reads the D of a raw frame.
    #[tactic(auto, unfolding(crate::specs::Reading::argument_in))]
    pub fn peer_domain(&mut self) -> Result<u8, LineReason>
        ensures { Reads (λ x. (x, seen self.new.rest.now)) result (argument_in kind.PeerDomain 0 (seen self.old.rest.now)) }
    {
        let word = self.word()?;
        let domain = number(0, 7, word)?;
        Ok(domain as u8)
    }

    /// Reads the BYTES of a raw frame.
    #[tactic(auto, unfolding(crate::specs::Reading::argument_in), using(crate::proofs::CallLemmas::frame_value))]
    pub fn raw_frame(&mut self, alloc: Global) -> Result<Vec<u8>, LineFault>
        ensures { Answers (λ x. (x.items, seen self.new.rest.now)) result (argument_in kind.RawFrame 0 (seen self.old.rest.now)) }
    {
        let word = self.word()?;
        bytes(alloc, 1, LONGEST_FRAME, word)
    }
}

/// Reads D:N:P.
#[tactic(auto, unfolding(crate::specs::Reading::name_at))]
fn name(word: &[u8]) -> Result<EndName, LineReason>
    ensures { Reads (λ name. name) result (name_at word.now) }
{
    let Some((domain, node, port)) = name_parts(word) else {
        return Err(LineReason::Form);
    };
    let domain = number(0, 7, domain)?;
    let node = number(0, 15, node)?;
    let port = number(0, 65_535, port)?;
    Ok(EndName {
        domain: domain as u8,
        node: node as u8,
        port: port as u16,
    })
}

/// Reads KIND.
fn channel_kind(word: &[u8]) -> Result<Kind, LineReason>
    ensures { Reads (λ kind. kind) result (value_in kind.ChannelKind 0 word.now) }
{
    match kind_of(word) {
        Some(kind) => Ok(kind),
        None => Err(LineReason::Form),
    }
}

/// Reads BITS.
fn bits(word: &[u8]) -> Result<Bits, LineReason>
    ensures { Reads (λ bits. bits) result (value_in kind.ScalarBits 0 word.now) }
{
    let Some(count) = number_to(64, word) else {
        return Err(LineReason::Number);
    };
    match bits_from(count) {
        Some(bits) => Ok(bits),
        None => Err(LineReason::Number),
    }
}

/// Reads LABEL,LABEL.
fn labels(alloc: Global, word: &[u8]) -> Result<LabelGroup, LineFault>
    ensures { Answers (λ labels. labels) result (value_in kind.RequestLabels 0 word.now) }
{
    let Some(labels) = label_group(word) else {
        return Err(LineFault::Refused(LineReason::Form));
    };
    match LabelGroup::new(alloc, labels) {
        Ok(group) => Ok(group),
        Err(NoMemory) => Err(LineFault::NoMemory),
    }
}

/// Reads a call with its arguments.
pub fn call(alloc: Global, callee: Callee, words: &[&[u8]]) -> Result<Call, LineFault>
    ensures { Answers (λ call. call) result (call_in callee (seen words.now)) }
{
    let mut arguments = Arguments::new(words);
    match callee {
        Callee::Lookup => Ok(Call::Lookup {
            name: arguments.name()?,
        }),
        Callee::Release => Ok(Call::Release {
            label: arguments.packet_label()?,
        }),
        Callee::Test => Ok(Call::Test {
            label: arguments.request_label()?,
        }),
        Callee::Wait => Ok(Call::Wait {
            label: arguments.request_label()?,
            limit: arguments.limit()?,
        }),
        Callee::WaitAny => Ok(Call::WaitAny {
            labels: arguments.request_labels(alloc)?,
            limit: arguments.limit()?,
        }),
        Callee::Cancel => Ok(Call::Cancel {
            label: arguments.request_label()?,
        }),
        Callee::Raw => Ok(Call::Raw {
            domain: arguments.peer_domain()?,
            bytes: Seq::new(arguments.raw_frame(alloc)?),
        }),
        Callee::Turn => Ok(Call::Turn),
        Callee::Create
        | Callee::Delete
        | Callee::MsgSend
        | Callee::MsgRecv
        | Callee::MsgRecvI
        | Callee::MsgAvailable
        | Callee::Connect
        | Callee::OpenSend
        | Callee::OpenRecv
        | Callee::PktSend
        | Callee::PktRecv
        | Callee::PktRecvI
        | Callee::SclSend
        | Callee::SclRecv
        | Callee::CloseSend
        | Callee::CloseRecv => {
            let port = arguments.port()?;
            call_at(alloc, port, callee, &mut arguments)
        }
    }
}

/// Reads the other arguments of a call that is made at a port.
fn call_at(
    alloc: Global,
    port: u16,
    callee: Callee,
    arguments: &mut Arguments<'_, '_>,
) -> Result<Call, LineFault>
    ensures { Answers (λ call. call) result (call_at_port callee port (seen arguments.old.rest.now)) }
{
    match callee {
        Callee::Create => Ok(Call::Create { port }),
        Callee::Delete => Ok(Call::Delete { port }),
        Callee::MsgSend => Ok(Call::MsgSend {
            port,
            to: arguments.name()?,
            priority: arguments.priority()?,
            bytes: Seq::new(arguments.content(alloc)?),
        }),
        Callee::MsgRecv => Ok(Call::MsgRecv {
            port,
            max: arguments.maximum()?,
        }),
        Callee::MsgRecvI => Ok(Call::MsgRecvI {
            port,
            max: arguments.maximum()?,
        }),
        Callee::MsgAvailable => Ok(Call::MsgAvailable { port }),
        Callee::Connect => Ok(Call::Connect {
            port,
            to: arguments.name()?,
            kind: arguments.channel_kind()?,
        }),
        Callee::OpenSend => Ok(Call::OpenSend {
            port,
            kind: arguments.channel_kind()?,
        }),
        Callee::OpenRecv => Ok(Call::OpenRecv {
            port,
            kind: arguments.channel_kind()?,
        }),
        Callee::PktSend => Ok(Call::PktSend {
            port,
            bytes: Seq::new(arguments.content(alloc)?),
        }),
        Callee::PktRecv => Ok(Call::PktRecv { port }),
        Callee::PktRecvI => Ok(Call::PktRecvI { port }),
        Callee::SclSend => {
            let bits = arguments.bits()?;
            let value = arguments.value(bits)?;
            Ok(Call::SclSend { port, bits, value })
        }
        Callee::SclRecv => Ok(Call::SclRecv {
            port,
            bits: arguments.bits()?,
        }),
        Callee::CloseSend => Ok(Call::CloseSend { port }),
        Callee::CloseRecv => Ok(Call::CloseRecv { port }),
        _ => Err(LineFault::Refused(LineReason::Form)),
    }
}

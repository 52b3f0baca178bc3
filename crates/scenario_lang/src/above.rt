//! What the lines of a file have declared so far, and what one more line adds.

ghost use Rattle.std.specs.Prelude.{◌≡◌, ◌||◌, true, OnOk, IfErr, IfSome, option_map};
ghost use Rattle.std.specs.List.{list_any, list_all};
ghost use Rattle.board_model.specs.LineReasons.{tells_wrong_label, names_wrong_label, is_same_pair, with_statement};
ghost use Rattle.board_model.specs.LineReasons.{puts_sound as puts_a_sound_frame};
ghost use Rattle.board_model.specs.LineReasons.{is_domain as tells_domain, is_text_byte as is_of_text, is_link_size as is_size};
ghost use Rattle.board_model.specs.Forms.{argument_labels, arguments_labels, gives_request, gives_packet, says_call};
ghost use Rattle.board_model.specs.declared.form.ArgumentKind.TheVariants as kind;
ghost use Rattle.board_model.specs.FileLines.{begins_with};
ghost use Rattle.board_model.specs.Language.{nothing_told};
ghost use Rattle.board_model.specs.Scenario.{label_in};
ghost use Rattle.scenario_lang.specs.declared.fault.LineFault.TheVariants.{NoMemory as no_memory};
ghost use Rattle.scenario_lang.specs.Reading.{Answers, seen};
ghost use Rattle.scenario_lang.specs.Telling.{Keeps, domain_told, link_told, call_told, words_told, line_told};

use crate::calls::{call_line, call_parts};
use crate::fault::LineFault;
use crate::forms::{domain_line, link_line};
use crate::labels::Labels;
use crate::lines::{cut, find_words};
use crate::table::row_of;
use board_model::{ArgumentKind, Call, CallLine, LineReason, LinkLine, Scenario, Seq};
use name_service::fault_of;
use std::alloc::Global;

/// The most bytes of a line.
const LONGEST_LINE: usize = 20_000;

/// What the lines so far have declared.
#[derive(Drop)]
pub(crate) struct Above<'a> {
    pub told: Scenario,
    pub labels: Labels<'a>,
}

fn is_text_byte(byte: u8) -> bool
    ensures { result ≡ is_of_text byte }
{
    matches!(byte, b' '..=b'~' | b'\t')
}

fn is_text(line: &[u8]) -> bool
    ensures { result ≡ list_all is_of_text line.now }
{
    let mut all = true;
    for byte in line {
        all &= is_text_byte(*byte);
    }
    all
}

fn is_domain(told: &Scenario, domain: u8) -> bool
    ensures { result ≡ tells_domain told.now domain }
{
    told.domains
        .as_slice()
        .iter()
        .any(|line| line.domain == domain)
}

/// Whether two domains are linked, whichever is the driver.
fn is_linked(told: &Scenario, driver: u8, device: u8) -> bool
    ensures { result ≡ list_any (is_same_pair (record { driver = driver; device = device; size = 0 })) told.now.links }
{
    told.links.as_slice().iter().any(|other| {
        (driver == other.driver && device == other.device)
            || (driver == other.device && device == other.driver)
    })
}

fn is_link_size(size: u64) -> bool
    ensures { result ≡ is_size size }
{
    matches!(size, 2 | 4 | 8 | 16 | 32 | 64 | 128 | 256)
}

/// Whether a call puts a raw frame that has no fault.
fn puts_sound(call: &Call) -> bool
    ensures { result ≡ puts_a_sound_frame call.now }
{
    match call {
        Call::Raw { bytes, .. } => fault_of(bytes.as_slice()).is_none(),
        _ => false,
    }
}

fn is_comment(word: &[u8]) -> bool
    ensures { result ≡ begins_with 35 word.now }
{
    match word {
        [first, ..] => *first == b'#',
        [] => false,
    }
}

impl<'a> Above<'a> {
    pub fn new(alloc: Global) -> Above<'a>
        ensures told { result.told ≡ nothing_told }
        ensures keeps { Keeps result.labels result.told }
    {
        Above {
            told: Scenario {
                domains: Seq::new(Vec::new(alloc)),
                links: Seq::new(Vec::new(alloc)),
                calls: Seq::new(Vec::new(alloc)),
            },
            labels: Labels::new(alloc),
        }
    }

    /// Whether a label is set before a call that has none, or was set before in its domain.
    fn is_told_wrong(&self, labelled: bool, domain: u8, told: Option<&'a [u8]>) -> bool
        requires { Keeps self.now.labels self.now.told }
        ensures { result ≡ tells_wrong_label self.now.told labelled domain (option_map (λ w. w.now) told.entry) }
    {
        match told {
            Some(label) => !labelled || self.labels.has(domain, label),
            None => false,
        }
    }

    /// Whether one of the labels of a wait is not that of a request of its domain.
    fn is_group_named_wrong(&self, domain: u8, word: &'a [u8]) -> bool
        requires { Keeps self.now.labels self.now.told }
        ensures { result ≡ names_wrong_label self.now.told domain (argument_labels kind.RequestLabels word.now) }
    {
        let mut rest = word;
        while let Some((label, after)) = cut(b',', rest) {
            if !self.labels.requests.has(domain, label) {
                return true;
            }
            rest = after;
        }
        !self.labels.requests.has(domain, rest)
    }

    /// Whether an argument names a label that its domain has not set, or of the wrong call.
    fn is_named_wrong(&self, domain: u8, kind: ArgumentKind, word: &'a [u8]) -> bool
        requires { Keeps self.now.labels self.now.told }
        ensures { result ≡ names_wrong_label self.now.told domain (argument_labels kind word.now) }
    {
        match kind {
            ArgumentKind::RequestLabel => !self.labels.requests.has(domain, word),
            ArgumentKind::RequestLabels => self.is_group_named_wrong(domain, word),
            ArgumentKind::PacketLabel => !self.labels.packets.has(domain, word),
            _ => false,
        }
    }

    /// Whether any of the arguments names such a label.
    fn are_named_wrong(&self, domain: u8, kinds: &[ArgumentKind], words: &[&'a [u8]]) -> bool
        requires { Keeps self.now.labels self.now.told }
        ensures { result ≡ names_wrong_label self.now.told domain (arguments_labels kinds.now (seen words.now)) }
    {
        let [kind, kinds @ ..] = kinds else {
            return false;
        };
        let [word, words @ ..] = words else {
            return false;
        };
        self.is_named_wrong(domain, *kind, word) || self.are_named_wrong(domain, kinds, words)
    }

    /// Adds the line of a domain, by its words after the first.
    #[tactic(auto, unfolding(crate::specs::Telling::domain_told))]
    fn tell_domain(&mut self, words: &[&[u8]]) -> Result<(), LineFault>
        ensures told { Answers (λ _. self.new.told) result (domain_told self.old.told (seen words.now)) }
        ensures labels { self.new.labels ≡ self.old.labels }
        ensures calls { OnOk result (self.new.told.calls ≡ self.old.told.calls) }
    {
        let line = domain_line(words)?;
        if !self.told.links.as_slice().is_empty() || !self.told.calls.as_slice().is_empty() {
            return Err(LineFault::Refused(LineReason::Order));
        }
        if is_domain(&self.told, line.domain) {
            return Err(LineFault::Refused(LineReason::Domain));
        }
        if self.told.domains.push(line).is_err() {
            return Err(LineFault::NoMemory);
        }
        Ok(())
    }

    /// Adds the line of a link, by its words after the first.
    #[tactic(auto, unfolding(crate::specs::Telling::link_told))]
    fn tell_link(&mut self, words: &[&[u8]]) -> Result<(), LineFault>
        ensures told { Answers (λ _. self.new.told) result (link_told self.old.told (seen words.now)) }
        ensures labels { self.new.labels ≡ self.old.labels }
        ensures calls { OnOk result (self.new.told.calls ≡ self.old.told.calls) }
    {
        let (driver, device, size) = link_line(words)?;
        if !self.told.calls.as_slice().is_empty() {
            return Err(LineFault::Refused(LineReason::Order));
        }
        if !is_domain(&self.told, driver) || !is_domain(&self.told, device) {
            return Err(LineFault::Refused(LineReason::Domain));
        }
        if driver == device || is_linked(&self.told, driver, device) || !is_link_size(size) {
            return Err(LineFault::Refused(LineReason::Link));
        }
        let link = LinkLine {
            driver,
            device,
            size: size as u32,
        };
        if self.told.links.push(link).is_err() {
            return Err(LineFault::NoMemory);
        }
        Ok(())
    }

    /// Adds the line of a call, by its first word and the others.
    #[tactic(auto, unfolding(crate::specs::Telling::call_told))]
    fn tell_call(
        &mut self,
        alloc: Global,
        first: &'a [u8],
        words: &[&'a [u8]],
    ) -> Result<(), LineFault>
        requires { Keeps self.old.labels self.old.told }
        ensures told { Answers (λ _. self.new.told) result (call_told self.old.told first.now (seen words.now)) }
        ensures keeps { OnOk result (Keeps self.new.labels self.new.told) }
    {
        let parts = call_parts(first, words)?;
        let line = call_line(alloc, &parts)?;
        if !is_domain(&self.told, line.domain) {
            return Err(LineFault::Refused(LineReason::Domain));
        }
        let row = row_of(parts.callee);
        if self.is_told_wrong(row.labelled, line.domain, parts.told)
            || self.are_named_wrong(line.domain, row.arguments, parts.arguments)
        {
            return Err(LineFault::Refused(LineReason::Label));
        }
        if puts_sound(&line.call) {
            return Err(LineFault::Refused(LineReason::Sound));
        }
        self.add(parts.told, line)
    }

    /// Adds a line of a call and its label.
    fn add(&mut self, told: Option<&'a [u8]>, line: CallLine) -> Result<(), LineFault>
        requires keeps { Keeps self.old.labels self.old.told }
        requires label { label_in line ≡ option_map (λ w. w.now) told }
        requires gives { IfSome (label_in line) (λ label. (gives_request line.call || gives_packet line.call) ≡ true) }
        ensures told { OnOk result (self.new.told ≡ with_statement self.old.told (says_call line)) }
        ensures keeps { OnOk result (Keeps self.new.labels self.new.told) }
        ensures memory { IfErr result (λ e. e ≡ no_memory) }
    {
        if let Some(label) = told {
            self.labels.tell(line.domain, label, &line.call)?;
            return self.push(line);
        }
        self.push(line)
    }

    fn push(&mut self, line: CallLine) -> Result<(), LineFault>
        ensures told { OnOk result (self.new.told ≡ with_statement self.old.told (says_call line)) }
        ensures labels { self.new.labels ≡ self.old.labels }
        ensures memory { IfErr result (λ e. e ≡ no_memory) }
    {
        match self.told.calls.push(line) {
            Ok(()) => Ok(()),
            Err(_) => Err(LineFault::NoMemory),
        }
    }

    /// Adds a line by its words.
    fn tell_words(&mut self, alloc: Global, words: &[&'a [u8]]) -> Result<(), LineFault>
        requires { Keeps self.old.labels self.old.told }
        ensures told { Answers (λ _. self.new.told) result (words_told self.old.told (seen words.now)) }
        ensures keeps { OnOk result (Keeps self.new.labels self.new.told) }
    {
        let [first, rest @ ..] = words else {
            return Ok(());
        };
        if is_comment(first) {
            return Ok(());
        }
        if *first == b"domain".as_slice() {
            return self.tell_domain(rest);
        }
        if *first == b"link".as_slice() {
            return self.tell_link(rest);
        }
        self.tell_call(alloc, first, rest)
    }

    /// Adds a line. `words` is room for its words, whatever it holds.
    pub fn tell_line(
        &mut self,
        alloc: Global,
        words: &mut Vec<&'a [u8]>,
        line: &'a [u8],
    ) -> Result<(), LineFault>
        requires { Keeps self.old.labels self.old.told }
        ensures told { Answers (λ _. self.new.told) result (line_told self.old.told line.now) }
        ensures keeps { OnOk result (Keeps self.new.labels self.new.told) }
    {
        if !is_text(line) {
            return Err(LineFault::Refused(LineReason::Byte));
        }
        if line.len() > LONGEST_LINE {
            return Err(LineFault::Refused(LineReason::Long));
        }
        find_words(words, line)?;
        self.tell_words(alloc, words)
    }

    /// Returns the scenario of all lines.
    pub fn into_scenario(self) -> Scenario
        ensures { result ≡ self.entry.told }
    {
        let Above { told, labels } = self;
        drop(labels);
        told
    }
}

//! The forms of the program.

ghost use Rattle.std.specs.Prelude.{◌≡◌, ◌≤◌, ◌∷◌, [], ℕ, IfSome, IsNone, MatchBool, decimal, string_bytes};
ghost use Rattle.scenario_cli.specs.Words.{words_of, IsForm, IsBellRun, IsNoInputForm, IsNoLoad, limit_of};
ghost use Rattle.board_model.specs.LoadBoard.{load_limit};
ghost use Rattle.scenario_cli.specs.LoadText.{IsLoad};

use board_model::number_to;

/// The most bytes of a scenario, of the text of a frame, of an image, and of the texts of a relay and of numbered calls.
const INPUT_LIMIT: usize = 8_388_608;

/// The most bytes of a report.
const REPORT_LIMIT: usize = 268_435_456;

/// The most packets of a load board.
const MOST_PACKETS: u64 = 100_000;

/// What the program is to do with the input, as its words say.
#[derive(Clone, Copy)]
pub enum Form {
    /// `run` or `run --bells`: a scenario in, the report of its run on threads out.
    Run,
    /// `run --serial`: a scenario in, the report of its serial run out.
    SerialRun,
    /// `check`: the report of a run in, whether it is right or its first wrong line out.
    Check,
    /// `frame`: the hexadecimal text of a frame in, what it says or its first fault out.
    Frame,
    /// `ring`: the bytes of the image of a ring in, what it is of or its first fault out.
    Ring,
    /// `relay`: hops and packets in, the report of their relay on threads out.
    Relay,
    /// `calls`: numbered calls in, the report of their run on threads and what became of them out.
    Calls,
}

impl Form {
    /// The most bytes of an input of this form.
    pub fn limit(self) -> usize
        ensures { result ≡ limit_of self }
    {
        match self {
            Form::Check => REPORT_LIMIT,
            Form::Run | Form::SerialRun | Form::Frame | Form::Ring | Form::Relay | Form::Calls =>
                INPUT_LIMIT,
        }
    }
}

/// The number of packets that the words `load N` tell, or `None` where they are not of this form.
pub fn load_of(words: &[String]) -> Option<u32>
    ensures load { IfSome result (λ packets. IsLoad packets (words_of words.now)) }
    ensures none { IsNone result → IsNoLoad (words_of words.now) }
{
    match words {
        [first, second] => load_form(first, second),
        _ => None,
    }
}

/// The number of packets that two words tell.
fn load_form(first: &String, second: &String) -> Option<u32>
    ensures load { IfSome result (λ packets. IsLoad packets (string_bytes first.now ∷ string_bytes second.now ∷ [])) }
    ensures none { IsNone result → IsNoLoad (string_bytes first.now ∷ string_bytes second.now ∷ []) }
{
    if first.as_str() == "load" {
        packets_of(second.as_bytes())
    } else {
        None
    }
}

/// The number of packets that a word tells, from 1 to the most.
fn packets_of(word: &[u8]) -> Option<u32>
    ensures number { IfSome result (λ packets. word.now ≡ decimal packets) }
    ensures some { IfSome result (λ packets. 1 ≤ packets) }
    ensures few { IfSome result (λ packets. packets ≤ load_limit) }
    ensures none { IsNone result → (packets : ℕ) → 1 ≤ packets → packets ≤ load_limit → word.now ≡ decimal packets → ⊥ }
{
    let Some(packets) = number_to(MOST_PACKETS, word) else {
        return None;
    };
    if packets == 0 {
        return None;
    }
    Some(packets as u32)
}

/// Returns whether the words are `run --bells`.
pub fn is_bell_run(words: &[String]) -> bool
    ensures { MatchBool result (IsBellRun (words_of words.now)) (IsBellRun (words_of words.now) → ⊥) }
{
    match words {
        [first, second] => are_bell_run(first, second),
        _ => false,
    }
}

/// Returns whether two words are `run --bells`.
fn are_bell_run(first: &String, second: &String) -> bool
    ensures { MatchBool result (IsBellRun (string_bytes first.now ∷ string_bytes second.now ∷ []))
        (IsBellRun (string_bytes first.now ∷ string_bytes second.now ∷ []) → ⊥) }
{
    if first.as_str() != "run" {
        return false;
    }
    second.as_str() == "--bells"
}

/// The form with an input that words other than `run --bells` are, or `None` where they are none.
pub fn form_of(words: &[String]) -> Option<Form>
    requires { IsBellRun (words_of words.now) → ⊥ }
    ensures form { IfSome result (λ form. IsForm form (words_of words.now)) }
    ensures none { IsNone result → IsNoInputForm (words_of words.now) }
{
    match words {
        [word] => word_form(word),
        [first, second] => run_form(first, second),
        _ => None,
    }
}

/// The form of one word.
fn word_form(word: &String) -> Option<Form>
    ensures form { IfSome result (λ form. IsForm form (string_bytes word.now ∷ [])) }
    ensures none { IsNone result → IsNoInputForm (string_bytes word.now ∷ []) }
{
    if word.as_str() == "run" {
        Some(Form::Run)
    } else if word.as_str() == "check" {
        Some(Form::Check)
    } else if word.as_str() == "frame" {
        Some(Form::Frame)
    } else if word.as_str() == "ring" {
        Some(Form::Ring)
    } else if word.as_str() == "relay" {
        Some(Form::Relay)
    } else if word.as_str() == "calls" {
        Some(Form::Calls)
    } else {
        None
    }
}

/// The form of two words other than `run --bells`.
fn run_form(first: &String, second: &String) -> Option<Form>
    requires { IsBellRun (string_bytes first.now ∷ string_bytes second.now ∷ []) → ⊥ }
    ensures form { IfSome result (λ form. IsForm form (string_bytes first.now ∷ string_bytes second.now ∷ [])) }
    ensures none { IsNone result → IsNoInputForm (string_bytes first.now ∷ string_bytes second.now ∷ []) }
{
    if first.as_str() == "run" && second.as_str() == "--serial" {
        Some(Form::SerialRun)
    } else {
        None
    }
}

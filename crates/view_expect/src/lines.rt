//! The lines of a scenario file with expected answers.

ghost use Rattle.std.specs.Prelude.{◌≡◌, ◌≤◌, ◌<◌, ◌+◌, ◌∷◌, IfSome, length, option_map};
ghost use Rattle.report_text.specs.TextLines.{lines_in};
ghost use Rattle.report_text.specs.Texts.{longest_line};
ghost use Rattle.view_expect.specs.Expected.{arrow_in, caller_in, domain_at, is_space as is_a_space, trimmed, trimmed_to, unspaced, undashed};

use report_text::cut;

/// Returns the first line of a text, with its newline where it has one, and what follows it.
pub fn first_line(text: &[u8]) -> (&[u8], &[u8])
    requires { 1 ≤ length text.now }
    ensures lines { lines_in text.now ≡ result.0.now ∷ lines_in result.1.now }
    ensures sizes { length result.0.now + length result.1.now ≡ length text.now }
    ensures shorter { length result.1.now < length text.now }
    ensures fits { longest_line result.1.now ≤ longest_line text.now }
{
    match cut(b'\n', text) {
        Some((front, after)) => {
            let (line, _) = text.split_at(front.len() + 1);
            (line, after)
        }
        None => (text, &[]),
    }
}

/// Whether a byte is a blank or ends a line.
fn is_space(byte: u8) -> bool
    ensures { result ≡ is_a_space byte }
{
    byte == b' ' || byte == b'\t' || byte == b'\r' || byte == b'\n'
}

/// Leaves out the spaces at the front of a text.
fn without_front(text: &[u8]) -> &[u8]
    ensures { result.now ≡ unspaced text.now }
{
    let mut rest = text;
    while let [byte, after @ ..] = rest {
        if !is_space(*byte) {
            return rest;
        }
        rest = after;
    }
    rest
}

/// Leaves out the spaces at the end of a text.
fn without_end(text: &[u8]) -> &[u8]
    ensures { result.now ≡ trimmed_to (length text.now) text.now }
{
    let mut size = text.len();
    while size > 0 {
        if !is_space(text[size - 1]) {
            let (front, _) = text.split_at(size);
            return front;
        }
        size -= 1;
    }
    &[]
}

/// Leaves out the spaces at both ends of a text.
pub fn trim(text: &[u8]) -> &[u8]
    ensures { result.now ≡ trimmed text.now }
{
    without_end(without_front(text))
}

/// Returns the number of a domain that a text begins with.
fn domain_digit(text: &[u8]) -> Option<u8>
    ensures value { result ≡ domain_at text.now }
    ensures small { IfSome result (λ domain. domain < 8) }
{
    match text {
        [] => None,
        [first, ..] => if *first >= b'0' && *first <= b'7' {
            Some(*first - b'0')
        } else {
            None
        },
    }
}

/// Returns the domain of a line that makes a call, by the digit with which the line begins, or `None` where the line makes none.
pub fn caller(line: &[u8]) -> Option<u8>
    ensures value { result ≡ caller_in line.now }
    ensures small { IfSome result (λ domain. domain < 8) }
{
    domain_digit(without_front(line))
}

/// Leaves out the dash at the end of a text, if there is one.
fn without_dash(text: &[u8]) -> Option<&[u8]>
    ensures value { option_map (λ front. front.now) result ≡ undashed text.now }
    ensures shorter { IfSome result (λ front. length front.now < length text.now) }
{
    if text.is_empty() {
        return None;
    }
    let place = text.len() - 1;
    if text[place] != b'-' {
        return None;
    }
    let (front, _) = text.split_at(place);
    Some(front)
}

/// Returns what stands before the arrow of a line, and behind it, if the line has one.
pub fn arrow(line: &[u8]) -> Option<(&[u8], &[u8])>
    ensures value { option_map (λ x. (x.0.now, x.1.now)) result ≡ arrow_in line.now }
    ensures shorter { IfSome result (λ x. length x.0.now + 2 ≤ length line.now) }
{
    match cut(b'>', line) {
        Some((front, behind)) => match without_dash(front) {
            Some(bare) => Some((bare, behind)),
            None => None,
        },
        None => None,
    }
}

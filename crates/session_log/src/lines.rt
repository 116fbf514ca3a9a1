//! The lines of a trace, and what a line of a step says.

ghost use Rattle.session_histories.specs.TraceLine as plain;
ghost use Rattle.session_histories.specs.TraceLine.{
  around_arrow,
  behind_digits,
  first_digits,
  has_return,
  lines_of,
};
ghost use Rattle.session_histories.specs.TraceText.{arrow};
ghost use Rattle.session_log.specs.Lines.{
  around_at,
  borrowed_bytes,
  digit_count,
  heading_said,
  IsLongHeading,
  line_length,
  said_by,
};
ghost use Rattle.std.specs.List.{list_all, starts_with};
ghost use Rattle.std.specs.Char.{is_ascii_digit};
ghost use Rattle.std.specs.Prelude.{
  ◌≡◌,
  ◌+◌,
  ◌<◌,
  ◌≤◌,
  ◌∷◌,
  IfSome,
  Some,
  drop,
  length,
  nat_eq,
  option_map,
  true,
};

use line_server::numbers::number_in;

/// What a line of a step says: the number of the entry, and the texts of its terms and its label.
#[derive(Clone, Copy, Debug)]
pub struct StepLine<'a> {
    /// The number.
    pub number: u64,
    /// The terms as they are written.
    pub terms: &'a [u8],
    /// The label as it is written.
    pub label: &'a [u8],
}

/// What the first line of a trace says.
#[derive(Clone, Copy, Debug)]
pub enum Heading<'a> {
    /// It is no heading.
    NoHeading,
    /// Lines of steps alone follow.
    OfSteps,
    /// Lines of steps and of states follow, of a specification with this name.
    OfStates(&'a [u8]),
}

/// The first line of a text, without its line feed, and what stands behind it.
pub fn first_line(text: &[u8]) -> (&[u8], &[u8])
    ensures line { 0 < length text.now → lines_of text.now ≡ result.0.now ∷ lines_of result.1.now }
    ensures shorter { 0 < length text.now → length result.1.now < length text.now }
    ensures within { length result.0.now + length result.1.now ≤ length text.now }
{
    let length = bytes_before_feed(text);
    (&text[..length], without_first(&text[length..]))
}

// The bytes without the first one.
fn without_first(bytes: &[u8]) -> &[u8]
    ensures { result.now ≡ drop 1 bytes.now }
{
    match bytes {
        [] => bytes,
        [_, rest @ ..] => rest,
    }
}

// How many bytes stand before the first line feed.
fn bytes_before_feed(text: &[u8]) -> usize
    ensures counted { result ≡ line_length text.now }
    ensures within { result ≤ length text.now }
{
    let mut count = 0;
    let mut rest = text;
    while let [first, more @ ..] = rest
        && *first != b'\n'
    {
        count += 1;
        rest = more;
    }
    count
}

/// What the line says, if it has the form of a step: `N t, t => LABEL`, or `N => LABEL`, with one
/// to ten digits without a leading zero, or `0`, for N. A line with a carriage return has it not.
pub fn step_line(line: &[u8]) -> Option<StepLine<'_>>
    ensures says { option_map said_by result ≡ plain.step_line line.now }
    ensures within { IfSome result (λ said. length said.terms.now ≤ length line.now) }
{
    if holds_return(line) {
        return None;
    }
    match arrow_position(line) {
        None => None,
        Some(position) => with_number(&line[..position], &line[position + 4..]),
    }
}

/// What the line says as the first one of a trace: `lotos-trace 1`, or `lotos-trace 2 NAME` with at
/// least one byte for NAME. A line with a carriage return is no heading.
pub fn read_heading(line: &[u8]) -> Heading<'_>
    ensures says { heading_said result ≡ plain.trace_heading_of line.now }
    ensures long { IsLongHeading result line.now }
{
    if line == b"lotos-trace 1".as_slice() {
        return Heading::OfSteps;
    }
    match behind_mark(b"lotos-trace 2 ", line) {
        None => Heading::NoHeading,
        Some(name) => with_name(line, name),
    }
}

// The heading of the line with this name, which has a byte or is none.
fn with_name<'a>(line: &[u8], name: &'a [u8]) -> Heading<'a>
    requires { 14 ≤ length line.now }
    ensures says { heading_said result ≡ plain.heading_with_name (Some name.now) }
    ensures long { IsLongHeading result line.now }
{
    match name {
        [] => Heading::NoHeading,
        [_, ..] => Heading::OfStates(name),
    }
}

/// The text of the state that the line keeps, if it has the form `at STATE`. A line with a carriage
/// return has it not.
pub fn kept_state(line: &[u8]) -> Option<&[u8]>
    ensures { option_map borrowed_bytes result ≡ plain.kept_state line.now }
{
    behind_mark(b"at ", line)
}

// What stands behind the mark, if the line begins with it and has no carriage return.
fn behind_mark<'a>(mark: &[u8], line: &'a [u8]) -> Option<&'a [u8]>
    ensures behind { option_map borrowed_bytes result ≡ plain.behind_mark mark.now line.now }
    ensures within { IfSome result (λ _. length mark.now ≤ length line.now) }
{
    if holds_return(line) {
        return None;
    }
    if begins_with(mark, line) {
        return Some(&line[mark.len()..]);
    }
    None
}

// Whether the line begins with the mark.
fn begins_with(mark: &[u8], line: &[u8]) -> bool
    ensures tested { result ≡ starts_with nat_eq line.now mark.now }
    ensures within { result ≡ true → length mark.now ≤ length line.now }
{
    line.starts_with(mark)
}

// Whether there is a carriage return in the line.
fn holds_return(line: &[u8]) -> bool
    ensures { result ≡ has_return line.now }
{
    for byte in line {
        if *byte == b'\r' {
            return true;
        }
    }
    false
}

// The position of the first ` => `.
#[tactic(auto, using(crate::proofs::LineLemmas::arrow_here, crate::proofs::LineLemmas::arrow_behind, crate::proofs::LineLemmas::no_arrow))]
fn arrow_position(line: &[u8]) -> Option<usize>
    ensures found { option_map (around_at line.now) result ≡ around_arrow line.now }
    ensures within { IfSome result (λ position. position + 4 ≤ length line.now) }
{
    let mut position = 0;
    let mut rest = line;
    while let [_, more @ ..] = rest {
        if begins_with_arrow(rest) {
            return Some(position);
        }
        position += 1;
        rest = more;
    }
    None
}

// Whether the bytes begin with ` => `.
fn begins_with_arrow(bytes: &[u8]) -> bool
    ensures { result ≡ starts_with nat_eq bytes.now arrow }
{
    bytes.starts_with(b" => ")
}

// What the two sides of the arrow say.
fn with_number<'a>(before: &'a [u8], label: &'a [u8]) -> Option<StepLine<'a>>
    ensures says { option_map said_by result
        ≡ plain.step_with_number (first_digits before.now) (behind_digits before.now) label.now }
    ensures within { IfSome result (λ said. length said.terms.now ≤ length before.now) }
{
    let count = leading_digits(before);
    with_digits(&before[..count], &before[count..], label)
}

// The line with the number that the digits write, if they have the form, and what stands behind it.
#[tactic(auto, using(crate::proofs::LineLemmas::no_number, crate::proofs::LineLemmas::number_there))]
fn with_digits<'a>(digits: &'a [u8], rest: &'a [u8], label: &'a [u8]) -> Option<StepLine<'a>>
    requires { list_all is_ascii_digit digits.now ≡ true }
    ensures says { option_map said_by result
        ≡ plain.step_with_number digits.now rest.now label.now }
    ensures within { IfSome result (λ said. length said.terms.now ≤ length rest.now) }
{
    match number_in(digits) {
        None => None,
        Some(number) => with_terms(number, rest, label),
    }
}

// How many digits the bytes begin with.
fn leading_digits(bytes: &[u8]) -> usize
    ensures counted { result ≡ digit_count bytes.now }
    ensures within { result ≤ length bytes.now }
{
    let mut count = 0;
    let mut rest = bytes;
    while let [first, more @ ..] = rest
        && first.is_ascii_digit()
    {
        count += 1;
        rest = more;
    }
    count
}

// The line with what stands behind the number: nothing, or a space and the terms.
fn with_terms<'a>(number: u64, rest: &'a [u8], label: &'a [u8]) -> Option<StepLine<'a>>
    ensures says { option_map said_by result ≡ plain.with_terms number rest.now label.now }
    ensures within { IfSome result (λ said. length said.terms.now ≤ length rest.now) }
{
    match rest {
        [] => Some(StepLine {
            number,
            terms: rest,
            label,
        }),
        [b' ', terms @ ..] => Some(StepLine {
            number,
            terms,
            label,
        }),
        _ => None,
    }
}

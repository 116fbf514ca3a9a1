//! The text of a certificate.

ghost use Rattle.bisim_check.specs.LineTexts.{
  ArePairLines,
  IsFirstBadLine,
  IsNoLine,
  IsWritten,
  OneLineMore,
};
ghost use Rattle.bisim_check.specs.LineView.{BadLineIs, line_of};
ghost use Rattle.session_histories.specs.TraceLine.{lines_of};
ghost use Rattle.std.specs.Prelude.{◌≡◌, ◌<◌, ◌≤◌, ◌∷◌, IfOk, MatchOption, MatchResult, OnOk, ◌++◌, [], length, map};

use crate::lines::{PairLine, PairTextFault};
use crate::numbers::{position_of, read_two};
use lotos_base::NoMemory;
use std::alloc::Global;

/// The lines of a certificate, or the first line that has none of the forms. Each line ends with a
/// line feed, which the last one may lack.
pub fn read_pairs(alloc: Global, text: &[u8]) -> Result<Vec<PairLine>, PairTextFault>
    requires { length text.now < 4294967295 }
    ensures read { MatchResult result (λ lines. ArePairLines text.now (map line_of lines.items))
        (BadLineIs (IsFirstBadLine text.now)) }
    ensures few { IfOk result (λ lines. length lines.items ≤ length text.now) }
{
    let mut lines = Vec::new(alloc);
    let mut number = 0u32;
    let mut rest = text;
    while let [_, ..] = rest {
        let cut = first_line(rest);
        number += 1;
        add_line(&mut lines, cut.0, number)?;
        rest = cut.1;
    }
    Ok(lines)
}

// The first line of a text, without its line feed, and what stands behind it.
#[tactic(auto, using(crate::proofs::CutLines::one_line, crate::proofs::CutLines::first_of_more))]
fn first_line(text: &[u8]) -> (&[u8], &[u8])
    ensures line { 0 < length text.now → lines_of text.now ≡ result.0.now ∷ lines_of result.1.now }
    ensures shorter { 0 < length text.now → length result.1.now < length text.now }
{
    match position_of(text, b'\n') {
        None => (text, &text[text.len()..]),
        Some(end) => (&text[..end], &text[end + 1..]),
    }
}

// Puts what the line with this number says behind the lines before it.
fn add_line(lines: &mut Vec<PairLine>, line: &[u8], number: u32) -> Result<(), PairTextFault>
    ensures { MatchResult result
        (λ _. OneLineMore line.now (map line_of lines.old.items) (map line_of lines.new.items))
        (BadLineIs (λ place. (place ≡ number) × IsNoLine line.now)) }
{
    match read_line(line) {
        None => Err(PairTextFault::BadLine { line: number }),
        Some(read) => Ok(push_line(lines, read)?),
    }
}

// The lines with one more.
fn push_line(lines: &mut Vec<PairLine>, line: PairLine) -> Result<(), NoMemory>
    ensures { OnOk result (lines.new.items ≡ lines.old.items ++ line ∷ []) }
{
    Ok(lines.push(line)?)
}

// What the line says, or `None` exactly where it has none of the forms.
#[tactic(auto, using(crate::proofs::LineReadings::shorter, crate::proofs::LineReadings::no_blank))]
fn read_line(line: &[u8]) -> Option<PairLine>
    ensures { MatchOption result (IsNoLine line.now) (λ read. IsWritten line.now (line_of read)) }
{
    if line.len() < 2 {
        return None;
    }
    if line[1] != b' ' {
        return None;
    }
    line_of_kind(line[0], &line[2..])
}

// The line of this kind with these numbers.
#[tactic(auto, using(crate::proofs::LineReadings::no_two, crate::proofs::LineReadings::other_kind, crate::proofs::LineReadings::left_written, crate::proofs::LineReadings::right_written, crate::proofs::LineReadings::pair_written))]
fn line_of_kind(kind: u8, numbers: &[u8]) -> Option<PairLine>
    ensures { MatchOption result (IsNoLine (kind ∷ 32 ∷ numbers.now))
        (λ read. IsWritten (kind ∷ 32 ∷ numbers.now) (line_of read)) }
{
    let two = read_two(numbers)?;
    match kind {
        b'l' => Some(PairLine::Left {
            from: two.0,
            entry: two.1,
        }),
        b'r' => Some(PairLine::Right {
            from: two.0,
            entry: two.1,
        }),
        b'p' => Some(PairLine::Pair {
            left: two.0,
            right: two.1,
        }),
        _ => None,
    }
}

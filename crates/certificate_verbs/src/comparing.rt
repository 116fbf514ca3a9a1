//! The words that check a certificate of bisimulation.

ghost use Rattle.bisim_check.specs.LineView.{line_of as line_said};
ghost use Rattle.certificate_theory.specs.SameData.{AreSameData};
ghost use Rattle.certificate_verbs.specs.Certificates.{at_entry, refusal_at_line, bisimilar_text};
ghost use Rattle.certificate_verbs.specs.Comparing.{
  AcceptsThen,
  ChecksCertificate,
  ComparesThen,
  GetsThen,
  JudgesThen,
  ReadsThen,
};
ghost use Rattle.certificate_verbs.specs.Printed.{
  IsPairsFaultPrinted,
  IsPrinted,
  PartCame,
  print_in,
};
ghost use Rattle.certificate_verbs.specs.declared.ended.Ended.TheVariants.{
  CertificateRefused as certificate_refused,
  Done as done,
};
ghost use Rattle.command_words.specs.HandedOn.{
  Acceptance,
  BeginsOver,
  HoldsWithText,
  ShelfState,
};
ghost use Rattle.command_words.specs.Words.{compared_files as names_compared};
ghost use Rattle.sort_terms.specs.EquationView.{data_of};
ghost use Rattle.std.specs.Prelude.{
  ◌≡◌,
  ◌<◌,
  ◌++◌,
  ◌^◌,
  Bool,
  ℕ,
  IfOk,
  MatchResult,
  codes,
  if◌then◌else◌,
  length,
  map,
};

use crate::ended::Ended;
use crate::printing::{Alone, failed_alone};
use bisim_check::{PairLine, PairTextFault, PairsFault, check_pairs, read_pairs, same_data};
use command_words::{Begun, WithText, file, over_data, read_with_text};
use demo_walks::{push_number, push_text};
use lotos_base::{NoMemory, Shelf, TEXT_LIMIT};
use std::alloc::Global;

/// What `bisim` prints.
pub fn bisim<F: Shelf>(
    alloc: Global,
    spec: &str,
    other: &str,
    pairs: &str,
    shelf: &mut F,
) -> Result<Alone, NoMemory>
    ensures { MatchResult result
        (IsPrinted (ChecksCertificate (names_compared spec.now other.now pairs.now))
        (F.state shelf.old) (F.state shelf.new))
        (λ _. PartCame (ChecksCertificate (names_compared spec.now other.now pairs.now))
        (F.state shelf.old) (F.state shelf.new)) }
{
    match read_with_text(alloc, spec, shelf) {
        Ok(one) => {
            let mut one = one;
            against(alloc, &mut one, other, pairs, shelf)
        }
        Err(fault) => failed_alone(alloc, spec, None, &fault),
    }
}

// What is printed where the one specification is accepted.
fn against<F: Shelf>(
    alloc: Global,
    one: &mut WithText,
    other: &str,
    pairs: &str,
    shelf: &mut F,
) -> Result<Alone, NoMemory>
    requires held { (first : Acceptance) × HoldsWithText first one.old }
    ensures { (first : Acceptance) → HoldsWithText first one.old → MatchResult result
        (IsPrinted (AcceptsThen first other.now pairs.now)
        (F.state shelf.old) (F.state shelf.new))
        (λ _. PartCame (AcceptsThen first other.now pairs.now)
        (F.state shelf.old) (F.state shelf.new)) }
{
    match read_with_text(alloc, other, shelf) {
        Ok(second) => both(alloc, one, &second, pairs, shelf),
        Err(fault) => failed_alone(alloc, other, None, &fault),
    }
}

// What is printed where both are accepted.
fn both<F: Shelf>(
    alloc: Global,
    one: &mut WithText,
    second: &WithText,
    pairs: &str,
    shelf: &mut F,
) -> Result<Alone, NoMemory>
    requires held { (first : Acceptance) × HoldsWithText first one.old }
    requires second_held { (other : Acceptance) × HoldsWithText other second.now }
    ensures { (first other : Acceptance) → HoldsWithText first one.old
        → HoldsWithText other second.now → MatchResult result
        (IsPrinted (ComparesThen first other pairs.now)
        (F.state shelf.old) (F.state shelf.new))
        (λ _. PartCame (ComparesThen first other pairs.now)
        (F.state shelf.old) (F.state shelf.new)) }
{
    if !same_data(one.accepted.book.flat(), second.accepted.book.flat()) {
        return plainly_refused(alloc, b"refused 901 OtherData\n");
    }
    certified(alloc, one, second, pairs, shelf)
}

// The same, whose data are the same.
fn certified<F: Shelf>(
    alloc: Global,
    one: &mut WithText,
    second: &WithText,
    pairs: &str,
    shelf: &mut F,
) -> Result<Alone, NoMemory>
    requires held { (first : Acceptance) × HoldsWithText first one.old }
    requires second_held { (other : Acceptance) × HoldsWithText other second.now }
    requires same { AreSameData (data_of one.old.accepted.book.flat)
        (data_of second.now.accepted.book.flat) }
    ensures { (first other : Acceptance) → HoldsWithText first one.old
        → HoldsWithText other second.now → MatchResult result
        (IsPrinted (GetsThen first other pairs.now)
        (F.state shelf.old) (F.state shelf.new))
        (λ _. PartCame (GetsThen first other pairs.now)
        (F.state shelf.old) (F.state shelf.new)) }
{
    match file(alloc, pairs, shelf) {
        Ok(text) => with_certificate(alloc, one, second, text.as_slice()),
        Err(fault) => failed_alone(alloc, pairs, None, &fault),
    }
}

// The same with the text of the certificate. No file is got any more.
fn with_certificate(
    alloc: Global,
    one: &mut WithText,
    second: &WithText,
    text: &[u8],
) -> Result<Alone, NoMemory>
    requires held { (first : Acceptance) × HoldsWithText first one.old }
    requires second_held { (other : Acceptance) × HoldsWithText other second.now }
    requires same { AreSameData (data_of one.old.accepted.book.flat)
        (data_of second.now.accepted.book.flat) }
    ensures { (first other : Acceptance) (now : ShelfState) → HoldsWithText first one.old
        → HoldsWithText other second.now → MatchResult result
        (IsPrinted (ReadsThen first other text.now) now now)
        (λ _. PartCame (ReadsThen first other text.now) now now) }
{
    if text.len() > TEXT_LIMIT {
        return plainly_refused(alloc, b"refused 900 TooLong\n");
    }
    match read_pairs(alloc, text) {
        Ok(lines) => judged(alloc, one, second, lines.as_slice()),
        Err(PairTextFault::BadLine { line }) => {
            line_refused(alloc, b"refused 902 BadLine", line)
        }
        Err(PairTextFault::NoMemory) => Err(NoMemory),
    }
}

// The same with the lines of the certificate: the other specification is put over the data of the
// one, and the lines are checked.
fn judged(
    alloc: Global,
    one: &mut WithText,
    second: &WithText,
    lines: &[PairLine],
) -> Result<Alone, NoMemory>
    requires held { (first : Acceptance) × HoldsWithText first one.old }
    requires second_held { (other : Acceptance) × HoldsWithText other second.now }
    requires same { AreSameData (data_of one.old.accepted.book.flat)
        (data_of second.now.accepted.book.flat) }
    requires few { length lines.now < 2 ^ 32 }
    ensures { (first other : Acceptance) (now : ShelfState) → HoldsWithText first one.old
        → HoldsWithText other second.now → MatchResult result
        (IsPrinted (JudgesThen first other (map line_said lines.now)) now now)
        (λ _. PartCame (JudgesThen first other (map line_said lines.now)) now now) }
{
    let begun = over_data(alloc, second.text.as_slice(), one.accepted.book.flat())?;
    verdict(alloc, one, second, &begun, lines)
}

// The same, the other specification with its state being there over the data of the one.
fn verdict(
    alloc: Global,
    one: &mut WithText,
    second: &WithText,
    begun: &Begun,
    lines: &[PairLine],
) -> Result<Alone, NoMemory>
    requires held { (first : Acceptance) × HoldsWithText first one.old }
    requires second_held { (other : Acceptance) × HoldsWithText other second.now
        × BeginsOver (data_of one.old.accepted.book.flat).signature other begun.now }
    requires few { length lines.now < 2 ^ 32 }
    ensures { (first other : Acceptance) (now : ShelfState) → HoldsWithText first one.old
        → HoldsWithText other second.now
        → BeginsOver (data_of one.old.accepted.book.flat).signature other begun.now
        → MatchResult result
        (IsPrinted (JudgesThen first other (map line_said lines.now)) now now)
        (λ _. PartCame (JudgesThen first other (map line_said lines.now)) now now) }
{
    match check_pairs(
        alloc,
        &one.accepted.spec,
        &one.accepted.ranks,
        &one.accepted.start,
        &begun.spec,
        &second.accepted.ranks,
        &begun.start,
        lines,
        &mut one.accepted.book,
    ) {
        Ok(number) => bisimilar_alone(alloc, number),
        Err(fault) => fault_alone(alloc, &fault),
    }
}

// The line that the certificate is accepted with so many pairs.
fn bisimilar_alone(alloc: Global, number: u32) -> Result<Alone, NoMemory>
    ensures { IfOk result (λ alone. (alone.text.items ≡ bisimilar_text number)
        × (alone.ended ≡ done)) }
{
    let mut text = Vec::new(alloc);
    push_text(&mut text, b"bisimilar ")?;
    push_number(&mut text, number as u128)?;
    push_text(&mut text, b" pairs\n")?;
    Ok(Alone {
        text,
        ended: Ended::Done,
    })
}

// The line of a fault of the certificate.
fn fault_alone(alloc: Global, fault: &PairsFault) -> Result<Alone, NoMemory>
    ensures { IfOk result (λ alone. IsPairsFaultPrinted fault.now (print_in alone)) }
{
    match fault {
        PairsFault::NoState { line } => line_refused(alloc, b"refused 903 NoState", *line),
        PairsFault::NoEntry { line } => line_refused(alloc, b"refused 904 NoEntry", *line),
        PairsFault::OpenMenu { line } => line_refused(alloc, b"refused 905 OpenMenu", *line),
        PairsFault::NoStartPair => plainly_refused(alloc, b"refused 906 NoStartPair\n"),
        PairsFault::Unmatched { line, right, entry } => {
            entry_refused(alloc, *line, side_text(*right), *entry)
        }
        PairsFault::NoMemory => Err(NoMemory),
    }
}

// The side of an entry that is not matched.
fn side_text(right: bool) -> &'static [u8]
    ensures { result.now ≡ (if right then codes " right " else codes " left ") }
{
    if right {
        return b" right ";
    }
    b" left "
}

// The line of a refusal that stands at an entry of a pair.
fn entry_refused(alloc: Global, line: u32, side: &[u8], entry: u64) -> Result<Alone, NoMemory>
    ensures { IfOk result (λ alone. (alone.text.items ≡ at_entry line side.now entry)
        × (alone.ended ≡ certificate_refused)) }
{
    let mut text = Vec::new(alloc);
    push_text(&mut text, b"refused 907 Unmatched line ")?;
    push_number(&mut text, line as u128)?;
    push_text(&mut text, side)?;
    push_number(&mut text, entry as u128)?;
    push_text(&mut text, b"\n")?;
    Ok(Alone {
        text,
        ended: Ended::CertificateRefused,
    })
}

// The line of a refusal that stands at a line of the certificate.
fn line_refused(alloc: Global, refusal: &[u8], line: u32) -> Result<Alone, NoMemory>
    ensures { IfOk result (λ alone. (alone.text.items ≡ refusal_at_line refusal.now line)
        × (alone.ended ≡ certificate_refused)) }
{
    let mut text = Vec::new(alloc);
    push_text(&mut text, refusal)?;
    push_text(&mut text, b" line ")?;
    push_number(&mut text, line as u128)?;
    push_text(&mut text, b"\n")?;
    Ok(Alone {
        text,
        ended: Ended::CertificateRefused,
    })
}

/// The line of a refusal of a certificate without a place.
pub fn plainly_refused(alloc: Global, line: &[u8]) -> Result<Alone, NoMemory>
    ensures { IfOk result (λ alone. (alone.text.items ≡ line.now)
        × (alone.ended ≡ certificate_refused)) }
{
    Ok(Alone {
        text: Vec::from_slice(alloc, line)?,
        ended: Ended::CertificateRefused,
    })
}

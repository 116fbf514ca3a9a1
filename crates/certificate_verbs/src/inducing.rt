//! The words that check a certificate of induction.

ghost use Rattle.certificate_verbs.specs.Inducing.{
  AreLines,
  ChecksInduction,
  HasAnswer,
  ProvesThen,
  ReportsThen,
  answer_text,
  certified_counts_text,
  requirement_line,
};
ghost use Rattle.certificate_verbs.specs.Printed.{IsPrinted, IsReportAlone, PartCame};
ghost use Rattle.certificate_verbs.specs.declared.ended.Ended.TheVariants.{
  CertificateRefused as certificate_refused,
};
ghost use Rattle.command_words.specs.HandedOn.{
  Acceptance,
  HoldsWithRequirements,
  ShelfState,
  names_of,
};
ghost use Rattle.command_words.specs.Words.{induced as names_induced};
ghost use Rattle.induct_check.specs.FaultTexts.{IsTold};
ghost use Rattle.induct_check.specs.HandedOn.{IsKnownLemma, lemmas_in};
ghost use Rattle.lotos_base.proofs.Each.{Each};
ghost use Rattle.lotos_base.specs.Signature.{Signature as PlainSignature};
ghost use Rattle.sort_terms.specs.EquationView.{equation_of};
ghost use Rattle.sort_terms.specs.SignatureView.{signature_of};
ghost use Rattle.std.specs.Prelude.{
  ◌≡◌,
  ◌++◌,
  ℕ,
  IfOk,
  List,
  MatchResult,
  OnOk,
  Option,
  Some,
  map,
};

use crate::comparing::plainly_refused;
use crate::ended::Ended;
use crate::printing::{Alone, failed_alone};
use command_words::{
    Required, TextNames, WithRequirements, file, push_place, read_with_requirements,
};
use demo_walks::{push_number, push_text};
use induct_check::{AtLine, StatedLemma, check_text, fault_line, met_by};
use lotos_base::{NoMemory, Shelf, TEXT_LIMIT};
use sort_terms::{Equation, Signature};
use std::alloc::Global;

/// What `induct` prints.
pub fn induct<F: Shelf>(
    alloc: Global,
    spec: &str,
    proofs: &str,
    shelf: &mut F,
) -> Result<Alone, NoMemory>
    ensures { MatchResult result
        (IsPrinted (ChecksInduction (names_induced spec.now proofs.now))
        (F.state shelf.old) (F.state shelf.new))
        (λ _. PartCame (ChecksInduction (names_induced spec.now proofs.now))
        (F.state shelf.old) (F.state shelf.new)) }
{
    match read_with_requirements(alloc, spec, shelf) {
        Ok(one) => {
            let mut one = one;
            proved(alloc, &mut one, spec, proofs, shelf)
        }
        Err(fault) => failed_alone(alloc, spec, None, &fault),
    }
}

// What is printed where the specification is accepted.
fn proved<F: Shelf>(
    alloc: Global,
    one: &mut WithRequirements,
    spec: &str,
    proofs: &str,
    shelf: &mut F,
) -> Result<Alone, NoMemory>
    ensures { (first : Acceptance) → HoldsWithRequirements first one.old → MatchResult result
        (IsPrinted (ProvesThen spec.now first proofs.now)
        (F.state shelf.old) (F.state shelf.new))
        (λ _. PartCame (ProvesThen spec.now first proofs.now)
        (F.state shelf.old) (F.state shelf.new)) }
{
    match file(alloc, proofs, shelf) {
        Ok(text) => checked(alloc, one, spec, text.as_slice()),
        Err(fault) => failed_alone(alloc, proofs, None, &fault),
    }
}

// The same with the text of the certificate. No file is got any more.
fn checked(
    alloc: Global,
    one: &mut WithRequirements,
    spec: &str,
    text: &[u8],
) -> Result<Alone, NoMemory>
    ensures { (first : Acceptance) (now : ShelfState) → HoldsWithRequirements first one.old
        → MatchResult result
        (IsPrinted (ReportsThen spec.now first text.now) now now)
        (λ _. PartCame (ReportsThen spec.now first text.now) now now) }
{
    if text.len() > TEXT_LIMIT {
        return plainly_refused(alloc, b"refused 910 TooLong\n");
    }
    match check_text(alloc, &mut one.accepted.book, text) {
        Ok(lemmas) => report_alone(alloc, spec, &one.required, lemmas.as_slice()),
        Err(at) => fault_alone(alloc, &one.accepted.book.flat().signature, &at),
    }
}

// The line of a fault of the certificate.
fn fault_alone(alloc: Global, signature: &Signature, at: &AtLine) -> Result<Alone, NoMemory>
    ensures { IfOk result (λ alone. IsTold (signature_of signature.now) at.now.line at.now.fault
        alone.text.items × (alone.ended ≡ certificate_refused)) }
{
    Ok(Alone {
        text: fault_line(alloc, signature, at)?,
        ended: Ended::CertificateRefused,
    })
}

// The report on a certificate with these lemmas.
fn report_alone(
    alloc: Global,
    spec: &str,
    required: &Required,
    lemmas: &[StatedLemma],
) -> Result<Alone, NoMemory>
    requires known { (signature : PlainSignature) × Each (IsKnownLemma signature) lemmas.now }
    ensures { IfOk result (IsReportAlone spec.now required.now lemmas.now) }
{
    let mut text = Vec::new(alloc);
    push_counts(lemmas.len(), required.equations.len(), &mut text)?;
    let names = TextNames {
        spec,
        order: "",
        libraries: required.libraries.as_slice(),
    };
    push_requirements(
        alloc,
        &names,
        lemmas,
        required.equations.as_slice(),
        &mut text,
    )?;
    Ok(Alone {
        text,
        ended: Ended::Done,
    })
}

// Appends the lines of the two counts.
fn push_counts(lemmas: usize, requirements: usize, into: &mut Vec<u8>) -> Result<(), NoMemory>
    ensures { OnOk result (into.new.items
        ≡ into.old.items ++ certified_counts_text lemmas requirements) }
{
    push_text(into, b"certified ")?;
    push_number(into, lemmas as u128)?;
    push_text(into, b" lemmas\nrequirements ")?;
    push_number(into, requirements as u128)?;
    push_text(into, b"\n")
}

// Appends a line for each requirement.
fn push_requirements(
    alloc: Global,
    names: &TextNames,
    lemmas: &[StatedLemma],
    equations: &[Equation],
    into: &mut Vec<u8>,
) -> Result<(), NoMemory>
    requires known { (signature : PlainSignature) × Each (IsKnownLemma signature) lemmas.now }
    ensures { OnOk result ((lines : List ℕ) × AreLines (names_of names.now) (lemmas_in lemmas.now)
        (map equation_of equations.now) lines × (into.new.items ≡ into.old.items ++ lines)) }
{
    for equation in equations {
        push_requirement(alloc, names, lemmas, equation, into)?;
    }
    Ok(())
}

// Appends the line of a requirement.
fn push_requirement(
    alloc: Global,
    names: &TextNames,
    lemmas: &[StatedLemma],
    equation: &Equation,
    into: &mut Vec<u8>,
) -> Result<(), NoMemory>
    requires known { (signature : PlainSignature) × Each (IsKnownLemma signature) lemmas.now }
    ensures { OnOk result ((answer : Option ℕ)
        × HasAnswer (lemmas_in lemmas.now) (equation_of equation.now) answer
        × (into.new.items ≡ into.old.items
        ++ requirement_line (names_of names.now) (equation_of equation.now) answer)) }
{
    let answer = met_by(alloc, lemmas, equation)?;
    push_place(names, equation.place, into)?;
    push_answer(answer, into)
}

// Appends what meets a requirement.
fn push_answer(answer: Option<usize>, into: &mut Vec<u8>) -> Result<(), NoMemory>
    ensures { OnOk result (into.new.items ≡ into.old.items ++ answer_text answer) }
{
    match answer {
        None => push_text(into, b" open\n"),
        Some(number) => {
            push_text(into, b" met by ")?;
            push_number(into, number as u128 + 1)?;
            push_text(into, b"\n")
        }
    }
}

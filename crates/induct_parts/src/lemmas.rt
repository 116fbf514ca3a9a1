//! Lemmas with their proofs.

ghost use Rattle.induct_parts.specs.CaseView.{IsKnownCase, case_in, cases_in};
ghost use Rattle.induct_parts.specs.CertificateView.{
  lemma_in,
  lemmas_in,
  lines_of_lemmas,
  proof_line_of,
  use_of,
};
ghost use Rattle.induct_parts.specs.FaultView.{FromLine, HoldsAtLine, HoldsOfLineFault};
ghost use Rattle.induct_parts.specs.SettingView.{
  AreKnownBefore,
  IsKnownLemma,
  IsSet,
  proving_in,
  setting_covers,
  setting_signature,
  theory_in,
};
ghost use Rattle.certificate_theory.specs.InductionCertificate.{
  ProofLine as PlainLine,
  use_it,
};
ghost use Rattle.certificate_theory.specs.Certified.{
  IsRightLemma,
  IsWrongLemma,
  lines_of_lemma,
};
ghost use Rattle.certificate_theory.specs.Faults.{bad_line, not_same};
ghost use Rattle.certificate_theory.specs.Lines.{
  AreRightBehind,
  DealsWith,
  FailsToDeal,
  FirstIsWrong,
  LinesReach,
};
ghost use Rattle.certificate_theory.specs.Proofs.{CaseComesTo, IsWrongAtCase};
ghost use Rattle.lotos_base.proofs.Each.{Each};
ghost use Rattle.std.specs.Prelude.{
  ◌≡◌,
  ◌≢◌,
  ◌∷◌,
  ◌+◌,
  ◌≤◌,
  ◌^◌,
  [],
  ℕ,
  IfErr,
  IfOk,
  List,
  OnOk,
  length,
  map,
  reverse,
};

use crate::at_line::AtLine;
use crate::cases::{Case, first};
use crate::certificates::{ProofLine, StatedLemma, Use};
use crate::line_fault::LineFault;
use crate::piles::pile;
use crate::setting::{Proving, Setting};
use crate::splits::split;
use crate::statements::{normal_both, statement_copies};
use crate::uses::used;
use sort_terms::Deciding;

/// That each lemma is right behind those before it: its lines deal with its first case. Otherwise
/// the first fault, with its line, where the first lemma begins at this line.
pub fn check_lemmas<D: Deciding>(
    setting: &Setting,
    lemmas: &[StatedLemma],
    begin: usize,
    data_: &mut D,
) -> Result<(), AtLine>
    requires set { IsSet setting.now (D.known_data data_.old) (D.canon data_.old) }
    requires known { Each (IsKnownLemma (setting_signature setting.now)) lemmas.now }
    requires few { begin + lines_of_lemmas (lemmas_in lemmas.now) ≤ 2 ^ 32 }
    ensures same_data { D.known_data data_.new ≡ D.known_data data_.old }
    ensures same_canon { D.canon data_.new ≡ D.canon data_.old }
    ensures right { IfOk result (λ u. AreRightBehind (IsRightLemma
        (theory_in setting.now (D.known_data data_.old) (D.canon data_.old))
        (setting_covers setting.now)) [] (lemmas_in lemmas.now)) }
    ensures wrong { IfErr result (λ at. HoldsAtLine (FirstIsWrong
        (IsRightLemma (theory_in setting.now (D.known_data data_.old) (D.canon data_.old))
        (setting_covers setting.now))
        (IsWrongLemma (theory_in setting.now (D.known_data data_.old) (D.canon data_.old))
        (setting_covers setting.now)) lines_of_lemma begin [] (lemmas_in lemmas.now)) at) }
{
    let mut line = begin;
    for number in 0..lemmas.len() {
        let lemma = &lemmas[number];
        check_lemma(setting, &lemmas[..number], lemma, line, data_)?;
        line += 3 + lemma.lines.len();
    }
    Ok(())
}

// That the lemma, which begins at this line, is right behind the others.
fn check_lemma<D: Deciding>(
    setting: &Setting,
    earlier: &[StatedLemma],
    lemma: &StatedLemma,
    begin: usize,
    data_: &mut D,
) -> Result<(), AtLine>
    requires set { IsSet setting.now (D.known_data data_.old) (D.canon data_.old) }
    requires before { Each (IsKnownLemma (setting_signature setting.now)) earlier.now }
    requires known { IsKnownLemma (setting_signature setting.now) lemma.now }
    requires few { begin + 3 + length lemma.now.lines.items ≤ 2 ^ 32 }
    ensures same_data { D.known_data data_.new ≡ D.known_data data_.old }
    ensures same_canon { D.canon data_.new ≡ D.canon data_.old }
    ensures right { IfOk result (λ u. IsRightLemma
        (theory_in setting.now (D.known_data data_.old) (D.canon data_.old))
        (setting_covers setting.now) (lemmas_in earlier.now) (lemma_in lemma.now)) }
    ensures wrong { IfErr result (λ at. HoldsAtLine (FromLine begin (IsWrongLemma
        (theory_in setting.now (D.known_data data_.old) (D.canon data_.old))
        (setting_covers setting.now) (lemmas_in earlier.now) (lemma_in lemma.now))) at) }
{
    let proving = Proving {
        earlier,
        free: lemma.variables.len(),
    };
    let point = first(setting, lemma, data_)?;
    let lines = lemma.lines.as_slice();
    deal(setting, &proving, point, lines, begin + 3, data_)
}

// That the lines, the first of which has this number, deal with the case.
fn deal<D: Deciding>(
    setting: &Setting,
    proving: &Proving,
    first: Case,
    lines: &[ProofLine],
    begin: usize,
    data_: &mut D,
) -> Result<(), AtLine>
    requires set { IsSet setting.now (D.known_data data_.old) (D.canon data_.old) }
    requires before { AreKnownBefore (setting_signature setting.now) proving.now }
    requires known { IsKnownCase (setting_signature setting.now) proving.now.free first }
    requires few { begin + length lines.now ≤ 2 ^ 32 }
    ensures same_data { D.known_data data_.new ≡ D.known_data data_.old }
    ensures same_canon { D.canon data_.new ≡ D.canon data_.old }
    ensures right { IfOk result (λ u. DealsWith (CaseComesTo
        (theory_in setting.now (D.known_data data_.old) (D.canon data_.old))
        (setting_covers setting.now) (proving_in proving.now)) (case_in first ∷ [])
        (map proof_line_of lines.now)) }
    ensures wrong { IfErr result (λ at. HoldsAtLine (FromLine begin (FailsToDeal
        (CaseComesTo (theory_in setting.now (D.known_data data_.old) (D.canon data_.old))
        (setting_covers setting.now) (proving_in proving.now))
        (IsWrongAtCase (theory_in setting.now (D.known_data data_.old) (D.canon data_.old))
        (setting_covers setting.now) (proving_in proving.now)) bad_line (case_in first ∷ [])
        (map proof_line_of lines.now))) at) }
{
    let mut left = Vec::new(setting.alloc);
    left.push(first)?;
    for number in 0..lines.len() {
        match next(setting, proving, &mut left, &lines[number], data_) {
            Ok(()) => {}
            Err(fault) => {
                let line = begin + number;
                return Err(AtLine { line, fault });
            }
        }
    }
    if !left.is_empty() {
        let line = begin + lines.len();
        let fault = LineFault::BadLine;
        return Err(AtLine { line, fault });
    }
    Ok(())
}

// What the line leaves of the first case that is left takes its place.
fn next<D: Deciding>(
    setting: &Setting,
    proving: &Proving,
    left: &mut Vec<Case>,
    line: &ProofLine,
    data_: &mut D,
) -> Result<(), LineFault>
    requires set { IsSet setting.now (D.known_data data_.old) (D.canon data_.old) }
    requires before { AreKnownBefore (setting_signature setting.now) proving.now }
    requires known { Each (IsKnownCase (setting_signature setting.now) proving.now.free)
        (reverse left.old.items) }
    ensures same_data { D.known_data data_.new ≡ D.known_data data_.old }
    ensures same_canon { D.canon data_.new ≡ D.canon data_.old }
    ensures comes { OnOk result (LinesReach (CaseComesTo
        (theory_in setting.now (D.known_data data_.old) (D.canon data_.old))
        (setting_covers setting.now) (proving_in proving.now)) (cases_in (reverse left.old.items))
        (proof_line_of line.now ∷ []) (cases_in (reverse left.new.items))) }
    ensures known { OnOk result (Each (IsKnownCase (setting_signature setting.now) proving.now.free)
        (reverse left.new.items)) }
    ensures wrong { IfErr result (λ fault. (rest : List PlainLine) → HoldsOfLineFault (FailsToDeal
        (CaseComesTo (theory_in setting.now (D.known_data data_.old) (D.canon data_.old))
        (setting_covers setting.now) (proving_in proving.now))
        (IsWrongAtCase (theory_in setting.now (D.known_data data_.old) (D.canon data_.old))
        (setting_covers setting.now) (proving_in proving.now)) bad_line
        (cases_in (reverse left.old.items)) (proof_line_of line.now ∷ rest) 0) fault) }
{
    let Some(point) = left.pop() else {
        return Err(LineFault::BadLine);
    };
    let parts = proof_line(setting, proving, &point, line, data_)?;
    Ok(pile(left, parts)?)
}

/// The cases that the line leaves of this one, or what is wrong with the line.
pub fn proof_line<D: Deciding>(
    setting: &Setting,
    proving: &Proving,
    point: &Case,
    line: &ProofLine,
    data_: &mut D,
) -> Result<Vec<Case>, LineFault>
    requires set { IsSet setting.now (D.known_data data_.old) (D.canon data_.old) }
    requires before { AreKnownBefore (setting_signature setting.now) proving.now }
    requires known { IsKnownCase (setting_signature setting.now) proving.now.free point.now }
    ensures same_data { D.known_data data_.new ≡ D.known_data data_.old }
    ensures same_canon { D.canon data_.new ≡ D.canon data_.old }
    ensures comes { IfOk result (λ parts. CaseComesTo
        (theory_in setting.now (D.known_data data_.old) (D.canon data_.old))
        (setting_covers setting.now) (proving_in proving.now) (case_in point.now)
        (proof_line_of line.now) (cases_in parts.items)) }
    ensures known { IfOk result (λ parts. Each
        (IsKnownCase (setting_signature setting.now) proving.now.free) parts.items) }
    ensures wrong { IfErr result (λ fault. HoldsOfLineFault (IsWrongAtCase
        (theory_in setting.now (D.known_data data_.old) (D.canon data_.old))
        (setting_covers setting.now) (proving_in proving.now) (case_in point.now)
        (proof_line_of line.now)) fault) }
{
    match line {
        ProofLine::Split(number) => split(setting, proving, point, *number, data_),
        ProofLine::Use(use_) => use_line(setting, proving, point, use_, data_),
        ProofLine::Same => end(setting, point),
    }
}

// What a use leaves.
fn use_line<D: Deciding>(
    setting: &Setting,
    proving: &Proving,
    point: &Case,
    use_: &Use,
    data_: &mut D,
) -> Result<Vec<Case>, LineFault>
    requires set { IsSet setting.now (D.known_data data_.old) (D.canon data_.old) }
    requires before { AreKnownBefore (setting_signature setting.now) proving.now }
    requires known { IsKnownCase (setting_signature setting.now) proving.now.free point.now }
    ensures same_data { D.known_data data_.new ≡ D.known_data data_.old }
    ensures same_canon { D.canon data_.new ≡ D.canon data_.old }
    ensures comes { IfOk result (λ parts. CaseComesTo
        (theory_in setting.now (D.known_data data_.old) (D.canon data_.old))
        (setting_covers setting.now) (proving_in proving.now) (case_in point.now)
        (use_it (use_of use_.now)) (cases_in parts.items)) }
    ensures known { IfOk result (λ parts. Each
        (IsKnownCase (setting_signature setting.now) proving.now.free) parts.items) }
    ensures wrong { IfErr result (λ fault. HoldsOfLineFault (IsWrongAtCase
        (theory_in setting.now (D.known_data data_.old) (D.canon data_.old))
        (setting_covers setting.now) (proving_in proving.now) (case_in point.now)
        (use_it (use_of use_.now))) fault) }
{
    let Some(made) = used(setting, proving, point, use_)? else {
        return Err(LineFault::BadUse);
    };
    let goal = normal_both(data_, &made)?;
    let sorts = Vec::from_slice(setting.alloc, point.sorts.as_slice())?;
    let gone = Vec::from_slice(setting.alloc, point.gone.as_slice())?;
    let hypotheses = statement_copies(&point.hypotheses)?;
    let part = Case {
        sorts,
        gone,
        hypotheses,
        goal,
    };
    let mut parts = Vec::new(setting.alloc);
    parts.push(part)?;
    Ok(parts)
}

// That the two sides are identical, so that nothing is left.
fn end(setting: &Setting, point: &Case) -> Result<Vec<Case>, LineFault>
    ensures same { IfOk result (λ parts. (parts.items ≡ [])
        × ((case_in point.now).goal.left ≡ (case_in point.now).goal.right)) }
    ensures wrong { IfErr result (λ fault. HoldsOfLineFault
        (λ told. ((case_in point.now).goal.left ≢ (case_in point.now).goal.right)
        × (told ≡ not_same (case_in point.now).goal)) fault) }
{
    if point.goal.left.same(&point.goal.right) {
        return Ok(Vec::new(setting.alloc));
    }
    let goal = point.goal.copy()?;
    Err(LineFault::NotSame(goal))
}

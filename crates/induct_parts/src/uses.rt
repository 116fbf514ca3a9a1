//! Uses of lemmas and hypotheses.

ghost use Rattle.induct_parts.specs.CaseView.{IsKnownCase, case_in};
ghost use Rattle.induct_parts.specs.CertificateView.{use_source_of, use_of};
ghost use Rattle.induct_parts.specs.SettingView.{
  AreKnownBefore,
  proving_in,
  setting_signature,
  theory_in,
};
ghost use Rattle.induct_parts.specs.StatementView.{
  IsStatementOf,
  profiled_sides_of,
  side_in,
  statement_of,
  with_profiled_side,
};
ghost use Rattle.induct_parts.specs.UseView.{
  IsKnownAt,
  IsKnownSource,
  IsMatchOf,
  IsSourceAt,
  IsUsedAt,
  StandsRight,
  closes,
  signature_at,
};
ghost use Rattle.induct_parts.specs.declared.setting.Setting.{Setting as Set};
ghost use Rattle.certificate_theory.proofs.CertificateTests.{
  each_variable,
  each_variable_among,
  stands as variable_stands,
};
ghost use Rattle.certificate_theory.specs.InductionCertificate.{Statement as PlainStatement};
ghost use Rattle.certificate_theory.specs.Uses.{IsOfSource, IsUsed, StandsForItself};
ghost use Rattle.lotos_base.proofs.Each.{Each};
ghost use Rattle.lotos_base.specs.Equation.{Data};
ghost use Rattle.lotos_base.specs.Term.{Term as PlainTerm};
ghost use Rattle.sort_terms.specs.ProfiledTerm.{profiled_variable};
ghost use Rattle.sort_terms.specs.SortedView.{profiled_in};
ghost use Rattle.sort_terms.specs.TermView.{profiled_of, term_of, bare_terms_of};
ghost use Rattle.term_match.specs.ProfiledPath.{profiled_subterm};
ghost use Rattle.std.specs.Prelude.{
  ◌≡◌,
  ◌↔◌,
  ℕ,
  IfNone,
  IfOk,
  IfSome,
  IsTrue,
  MatchOption,
  Some,
};

use crate::cases::Case;
use crate::certificates::{Side, Source, Use};
use crate::setting::{Proving, Setting};
use crate::statements::{Statement, placed, taken};
use lotos_base::NoMemory;
use sort_terms::{Sorted, Term, has_variable};
use term_match::{Subst, apply, matches, put_at, subterm};

/// The goal that the use makes, which is not put in normal form yet, or `None` exactly where it
/// makes none: the lemma or hypothesis is not there, the path leaves the side, the term there is no
/// instance, or a variable of the other side stays open.
pub fn used(
    setting: &Setting,
    proving: &Proving,
    point: &Case,
    use_: &Use,
) -> Result<Option<Statement>, NoMemory>
    requires known { IsKnownCase (setting_signature setting.now) proving.now.free point.now }
    requires before { AreKnownBefore (setting_signature setting.now) proving.now }
    ensures some { IfOk result (λ o. IfSome o
        (λ made. (data_ : Data) (canon : PlainTerm → PlainTerm)
        → IsUsed (theory_in setting.now data_ canon) (proving_in proving.now) (case_in point.now)
        (use_of use_.now) (statement_of made))) }
    ensures over { IfOk result
        (λ o. IfSome o (λ made. IsStatementOf (setting_signature setting.now) made)) }
    ensures none { IfOk result (λ o. IfNone o ((data_ : Data) (canon : PlainTerm → PlainTerm)
        (made : PlainStatement) → ¬ IsUsed (theory_in setting.now data_ canon)
        (proving_in proving.now) (case_in point.now) (use_of use_.now) made)) }
{
    match statement_at(proving, point, use_.source) {
        None => Ok(None),
        Some(statement) => used_of(&Site {
            setting,
            proving,
            point,
            use_,
            statement,
        }),
    }
}

// The lemma or hypothesis with the number, if it is there.
fn statement_at<'a>(proving: &'a Proving, point: &'a Case, source: Source) -> Option<&'a Statement>
    ensures { MatchOption result
        ((statement : PlainStatement) → ¬ IsOfSource (proving_in proving.now) (case_in point.now)
        (use_source_of source) statement)
        (λ statement. (setting : Set)
        → IsKnownCase (setting_signature setting) proving.now.free point.now
        → AreKnownBefore (setting_signature setting) proving.now
        → IsKnownSource setting proving.now point.now source statement.now) }
{
    match source {
        Source::Lemma(number) => match proving.earlier.get(number) {
            Some(lemma) => Some(&lemma.statement),
            None => None,
        },
        Source::Hypothesis(number) => match point.hypotheses.get(number) {
            Some(hypothesis) => Some(hypothesis),
            None => None,
        },
    }
}

// Where a statement is used: the case and the use of it, with what stays the same in the proof.
#[derive(Clone, Copy)]
struct Site<'a> {
    setting: &'a Setting<'a>,
    proving: &'a Proving<'a>,
    point: &'a Case,
    use_: &'a Use,
    statement: &'a Statement,
}

// The goal that the use of this statement makes.
fn used_of(site: &Site<'_>) -> Result<Option<Statement>, NoMemory>
    requires known { IsKnownAt site.now }
    requires source { IsSourceAt site.now }
    ensures some { IfOk result (λ o. IfSome o (λ made. (data_ : Data)
        (canon : PlainTerm → PlainTerm) → IsUsedAt site.now data_ canon (statement_of made))) }
    ensures over { IfOk result (λ o. IfSome o (IsStatementOf (signature_at site.now))) }
    ensures none { IfOk result (λ o. IfNone o ((data_ : Data) (canon : PlainTerm → PlainTerm)
        (made : PlainStatement) → ¬ IsUsedAt site.now data_ canon made)) }
{
    let goal = &site.point.goal;
    let Some(part) = subterm(goal.side(site.use_.side), site.use_.path.as_slice())? else {
        return Ok(None);
    };
    used_at(site, &part)
}

// The goal that the use makes of the part at the path.
fn used_at(site: &Site<'_>, part: &Sorted) -> Result<Option<Statement>, NoMemory>
    requires known { IsKnownAt site.now }
    requires source { IsSourceAt site.now }
    requires part { profiled_subterm site.now.use_.now.path.items (profiled_in (side_in
        site.now.use_.now.side site.now.point.now.goal)) ≡ Some (profiled_in part.now) }
    ensures some { IfOk result (λ o. IfSome o (λ made. (data_ : Data)
        (canon : PlainTerm → PlainTerm) → IsUsedAt site.now data_ canon (statement_of made))) }
    ensures over { IfOk result (λ o. IfSome o (IsStatementOf (signature_at site.now))) }
    ensures none { IfOk result (λ o. IfNone o ((data_ : Data) (canon : PlainTerm → PlainTerm)
        (made : PlainStatement) → ¬ IsUsedAt site.now data_ canon made)) }
{
    let source = site.use_.source;
    let old = taken(site.use_.direction, site.statement);
    let new = placed(site.use_.direction, site.statement);
    let Some(subst) = matches(site.setting.alloc, old, part)? else {
        return Ok(None);
    };
    if !stand_right(site.proving, source, subst.pairs()) {
        return Ok(None);
    }
    if !is_closed(site.proving, source, new.term(), old.term()) {
        return Ok(None);
    }
    let made = replaced(site, &subst)?;
    Ok(Some(made))
}

// The goal with the instance of the other side in its place.
fn replaced(site: &Site<'_>, subst: &Subst) -> Result<Statement, NoMemory>
    requires known { IsKnownAt site.now }
    requires source { IsSourceAt site.now }
    requires matched { IsMatchOf site.now.setting.now site.now.proving.now site.now.point.now
        site.now.use_.now site.now.statement.now subst.now }
    ensures used { IfOk result (λ made. (data_ : Data) (canon : PlainTerm → PlainTerm)
        → IsUsedAt site.now data_ canon (statement_of made)) }
    ensures over { IfOk result (IsStatementOf (signature_at site.now)) }
{
    let goal = &site.point.goal;
    let use_ = site.use_;
    let new = apply(subst, placed(use_.direction, site.statement))?;
    let whole = put_at(goal.side(use_.side), use_.path.as_slice(), &new)?;
    match whole {
        Some(after) => with_side(use_.side, after, goal),
        None => unreachable!(),
    }
}

// The statement with another term on this side.
fn with_side(side: Side, term: Sorted, statement: &Statement) -> Result<Statement, NoMemory>
    ensures { IfOk result (λ made. profiled_sides_of made
        ≡ with_profiled_side side (profiled_in term) (profiled_sides_of statement.now)) }
{
    match side {
        Side::Left => {
            let right = statement.right.copy()?;
            Ok(Statement { left: term, right })
        }
        Side::Right => {
            let left = statement.left.copy()?;
            Ok(Statement { left, right: term })
        }
    }
}

// Whether each variable of the pairs that stands for itself has itself.
fn stand_right(proving: &Proving, source: Source, pairs: &[(u64, Sorted)]) -> bool
    ensures { IsTrue result ↔ Each (StandsRight proving.now source) pairs.now }
{
    for pair in pairs {
        if !stands_right(proving, source, pair.0, pair.1.term()) {
            return false;
        }
    }
    true
}

// Whether the term is the variable with this number, if the variable stands for itself.
fn stands_right(proving: &Proving, source: Source, number: u64, term: &Term) -> bool
    ensures { IsTrue result
        ↔ (StandsForItself (proving_in proving.now) (use_source_of source) number
        → (s : ℕ) × (profiled_of term.now ≡ profiled_variable number s)) }
{
    if !stands(proving, source, number) {
        return true;
    }
    match term {
        Term::Var { number: other, .. } => *other == number,
        Term::Node { .. } => false,
    }
}

// Whether the variable stands for itself: it is a fixed one of a hypothesis.
fn stands(proving: &Proving, source: Source, number: u64) -> bool
    ensures { result ≡ variable_stands (proving_in proving.now) (use_source_of source) number }
{
    match source {
        Source::Lemma(_) => false,
        Source::Hypothesis(_) => proving.free as u64 <= number,
    }
}

// Whether each variable of the first term stands for itself or occurs in the second one.
#[cycle(closed)]
fn is_closed(proving: &Proving, source: Source, term: &Term, taken: &Term) -> bool
    ensures { result ≡ each_variable
        (closes (proving_in proving.now) (use_source_of source) (term_of taken.now))
        (term_of term.now) }
{
    match term {
        Term::Var { number, sort } => {
            if stands(proving, source, *number) {
                return true;
            }
            has_variable(taken, *number, *sort)
        }
        Term::Node { arguments, .. } => are_closed(proving, source, arguments.items(), taken),
    }
}

// The same of each term of a list.
#[cycle(closed)]
fn are_closed(proving: &Proving, source: Source, terms: &Vec<Term>, taken: &Term) -> bool
    ensures { result ≡ each_variable_among
        (closes (proving_in proving.now) (use_source_of source) (term_of taken.now))
        (bare_terms_of terms.now.items) }
{
    for term in terms {
        if !is_closed(proving, source, term, taken) {
            return false;
        }
    }
    true
}

//! Cases of a proof by induction.

ghost use Rattle.induct_parts.specs.CaseView.{IsKnownCase, case_in};
ghost use Rattle.induct_parts.specs.CertificateView.{lemma_in};
ghost use Rattle.induct_parts.specs.SettingView.{
  IsKnownLemma,
  IsSet,
  setting_signature,
  theory_in,
};
ghost use Rattle.induct_parts.specs.StatementView.{statement_of};
ghost use Rattle.certificate_theory.specs.Splits.{IsInScope, absent_from, first_case};
ghost use Rattle.lotos_base.specs.Substitution.{is_listed};
ghost use Rattle.lotos_base.specs.Tests.{occurs};
ghost use Rattle.std.specs.Prelude.{
  ◌≡◌,
  ◌∷◌,
  ◌++◌,
  ◌||◌,
  [],
  ℕ,
  IfOk,
  MatchOption,
  OnOk,
  if◌then◌else◌,
  length,
};

use crate::certificates::StatedLemma;
use crate::setting::Setting;
use crate::statements::{Statement, normal_both};
use lotos_base::NoMemory;
use sort_terms::{Deciding, has_variable};
use std::alloc::Global;

/// A case of a proof.
#[derive(Debug, Drop)]
pub struct Case {
    /// The sort of each variable, at its number. The variables of the lemma come first.
    pub sorts: Vec<u32>,
    /// The numbers of the variables that are out of scope.
    pub gone: Vec<usize>,
    /// The hypotheses, in the order in which they came.
    pub hypotheses: Vec<Statement>,
    /// What is to be shown, in normal form.
    pub goal: Statement,
}

/// The case that the proof of the lemma begins with.
pub fn first<D: Deciding>(
    setting: &Setting,
    lemma: &StatedLemma,
    data_: &mut D,
) -> Result<Case, NoMemory>
    requires set { IsSet setting.now (D.known_data data_.old) (D.canon data_.old) }
    requires known { IsKnownLemma (setting_signature setting.now) lemma.now }
    ensures same_data { D.known_data data_.new ≡ D.known_data data_.old }
    ensures same_canon { D.canon data_.new ≡ D.canon data_.old }
    ensures first { IfOk result (λ point. case_in point ≡ first_case
        (theory_in setting.now (D.known_data data_.old) (D.canon data_.old))
        (lemma_in lemma.now)) }
    ensures known { IfOk result (λ point. IsKnownCase (setting_signature setting.now)
        (length lemma.now.variables.items) point) }
{
    let goal = normal_both(data_, &lemma.statement)?;
    let sorts = Vec::from_slice(setting.alloc, lemma.variables.as_slice())?;
    let gone = absent(setting.alloc, &lemma.statement, lemma.variables.as_slice())?;
    Ok(Case {
        sorts,
        gone,
        hypotheses: Vec::new(setting.alloc),
        goal,
    })
}

// The numbers of the variables with these sorts that occur in neither side.
fn absent(alloc: Global, statement: &Statement, sorts: &[u32]) -> Result<Vec<usize>, NoMemory>
    ensures { IfOk result
        (λ gone. gone.items ≡ absent_from (statement_of statement.now) 0 sorts.now) }
{
    let mut gone = Vec::new(alloc);
    for number in 0..sorts.len() {
        add_if_absent(statement, number, sorts[number], &mut gone)?;
    }
    Ok(gone)
}

// The number behind the others, if the variable occurs in neither side.
fn add_if_absent(
    statement: &Statement,
    number: usize,
    sort: u32,
    gone: &mut Vec<usize>,
) -> Result<(), NoMemory>
    ensures { OnOk result (gone.new.items ≡ gone.old.items
        ++ (if occurs number sort (statement_of statement.now).left
        || occurs number sort (statement_of statement.now).right
        then [] else number ∷ [])) }
{
    if occurs_in(statement, number as u64, sort) {
        return Ok(());
    }
    gone.push(number)?;
    Ok(())
}

// Whether the variable occurs in a side.
fn occurs_in(statement: &Statement, number: u64, sort: u32) -> bool
    ensures { result ≡ (occurs number sort (statement_of statement.now).left
        || occurs number sort (statement_of statement.now).right) }
{
    if has_variable(statement.left.term(), number, sort) {
        return true;
    }
    has_variable(statement.right.term(), number, sort)
}

impl Case {
    /// The sort of the variable with this number, if it is in scope.
    pub fn sort_in_scope(&self, number: usize) -> Option<u32>
        ensures { MatchOption result ((s : ℕ) → ¬ IsInScope (case_in self.now) number s)
            (λ s. IsInScope (case_in self.now) number s) }
    {
        if is_gone(self.gone.as_slice(), number) {
            return None;
        }
        match self.sorts.as_slice().get(number) {
            Some(sort) => Some(*sort),
            None => None,
        }
    }
}

// Whether the number is one of those.
fn is_gone(gone: &[usize], number: usize) -> bool
    ensures { result ≡ is_listed gone.now number }
{
    for known in gone {
        if *known == number {
            return true;
        }
    }
    false
}

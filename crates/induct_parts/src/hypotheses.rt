//! The hypotheses behind a split.

ghost use Rattle.induct_parts.specs.CaseView.{IsKnownCase, case_in};
ghost use Rattle.induct_parts.specs.PutView.{IsPut, numbered_in};
ghost use Rattle.induct_parts.specs.SettingView.{proving_in, setting_signature};
ghost use Rattle.induct_parts.specs.StatementView.{IsStatementOf, statement_of};
ghost use Rattle.certificate_theory.specs.Patterns.{put_for as put_for_variable};
ghost use Rattle.certificate_theory.specs.Requirements.{OccursInSide};
ghost use Rattle.certificate_theory.specs.Splits.{hypotheses_behind, hypotheses_for, in_both};
ghost use Rattle.lotos_base.proofs.Each.{Each};
ghost use Rattle.lotos_base.specs.Signature.{IsSort, Signature};
ghost use Rattle.lotos_base.specs.Substitution.{substituted};
ghost use Rattle.lotos_base.specs.Term.{variable};
ghost use Rattle.sort_terms.specs.SortedView.{term_in};
ghost use Rattle.std.specs.Prelude.{
  ◌≡◌,
  ◌∷◌,
  ◌++◌,
  ◌+◌,
  ◌<◌,
  ◌^◌,
  [],
  ℕ,
  IfOk,
  OnOk,
  if◌then◌else◌,
  length,
  map,
  nat_eq,
};

use crate::cases::Case;
use crate::setting::{Proving, Setting};
use crate::statements::{Statement, put_for, statement_copies};
use lotos_base::NoMemory;
use sort_terms::{Op, Sorted, Term};
use std::alloc::Global;

/// An operation on new variables that is put for a variable.
#[derive(Clone, Copy)]
pub struct Put<'a> {
    /// The number of the variable.
    pub variable: usize,
    /// The number of the operation.
    pub operation: u32,
    /// The operation.
    pub op: &'a Op,
    /// The operation on new variables.
    pub term: &'a Sorted,
}

/// The hypotheses behind a split, in the case of the operation that is put in. A split of a free
/// variable leaves those that were there and adds one for each argument of the variable's sort; a
/// split of a fixed one puts the operation into those that were there.
pub fn behind(
    setting: &Setting,
    proving: &Proving,
    point: &Case,
    put: &Put,
) -> Result<Vec<Statement>, NoMemory>
    requires known { IsKnownCase (setting_signature setting.now) proving.now.free point.now }
    requires put { IsPut setting.now point.now put.now }
    requires room { length point.now.sorts.items + length put.now.op.now.arguments.items
        < 2 ^ 64 }
    ensures behind { IfOk result (λ made. map statement_of made.items
        ≡ hypotheses_behind (proving_in proving.now) (case_in point.now) put.now.variable
        put.now.op.now.result (numbered_in put.now)) }
    ensures over { IfOk result
        (λ made. Each (IsStatementOf (setting_signature setting.now)) made.items) }
{
    if put.variable < proving.free {
        added(setting, point, put)
    } else {
        changed(setting, point, put)
    }
}

// The hypotheses, and one more for each argument of the variable's sort.
fn added(setting: &Setting, point: &Case, put: &Put) -> Result<Vec<Statement>, NoMemory>
    requires known { (free : ℕ) × IsKnownCase (setting_signature setting.now) free point.now }
    requires put { IsPut setting.now point.now put.now }
    requires room { length point.now.sorts.items + length put.now.op.now.arguments.items
        < 2 ^ 64 }
    ensures added { IfOk result (λ made. map statement_of made.items
        ≡ map statement_of point.now.hypotheses.items
        ++ hypotheses_for (statement_of point.now.goal) put.now.variable put.now.op.now.result
        (length point.now.sorts.items) put.now.op.now.arguments.items) }
    ensures over { IfOk result
        (λ made. Each (IsStatementOf (setting_signature setting.now)) made.items) }
{
    let mut made = statement_copies(&point.hypotheses)?;
    let arguments = put.op.arguments.as_slice();
    for i in 0..arguments.len() {
        add_if_sorted(setting, point, put, i, arguments[i], &mut made)?;
    }
    Ok(made)
}

// The hypothesis for the argument at this position and of this sort behind the others, if that is
// the variable's sort.
fn add_if_sorted(
    setting: &Setting,
    point: &Case,
    put: &Put,
    i: usize,
    sort: u32,
    made: &mut Vec<Statement>,
) -> Result<(), NoMemory>
    requires known { (free : ℕ) × IsKnownCase (setting_signature setting.now) free point.now }
    requires put { IsPut setting.now point.now put.now }
    requires room { length point.now.sorts.items + length put.now.op.now.arguments.items
        < 2 ^ 64 }
    requires within { i < length put.now.op.now.arguments.items }
    ensures added { OnOk result (map statement_of made.new.items
        ≡ map statement_of made.old.items ++ (if nat_eq put.now.op.now.result sort
        then in_both (substituted (put_for_variable put.now.variable put.now.op.now.result
        (variable (length point.now.sorts.items + i) put.now.op.now.result)))
        (statement_of point.now.goal) ∷ []
        else [])) }
    ensures over { OnOk result
        (Each (IsStatementOf (setting_signature setting.now)) made.old.items
        → Each (IsStatementOf (setting_signature setting.now)) made.new.items) }
{
    if sort != put.op.result {
        return Ok(());
    }
    let argument = point.sorts.len() + i;
    let hypothesis = with_argument(setting, &point.goal, put, argument as u64)?;
    made.push(hypothesis)?;
    Ok(())
}

// The goal with the argument put for the variable.
fn with_argument(
    setting: &Setting,
    goal: &Statement,
    put: &Put,
    argument: u64,
) -> Result<Statement, NoMemory>
    requires over { IsStatementOf (setting_signature setting.now) goal.now }
    requires sort { IsSort (setting_signature setting.now) put.now.op.now.result }
    requires one_sort { (s : ℕ) → OccursInSide (statement_of goal.now) put.now.variable s
        → s ≡ put.now.op.now.result }
    ensures made { IfOk result (λ made. statement_of made
        ≡ in_both (substituted (put_for_variable put.now.variable put.now.op.now.result
        (variable argument put.now.op.now.result))) (statement_of goal.now)) }
    ensures over { IfOk result (λ made. IsStatementOf (setting_signature setting.now) made) }
{
    let term = Sorted::of(Term::Var {
        number: argument,
        sort: put.op.result,
    });
    put_for(setting.alloc, goal, put.variable as u64, &term)
}

// The hypotheses with the operation put in.
fn changed(setting: &Setting, point: &Case, put: &Put) -> Result<Vec<Statement>, NoMemory>
    requires known { (free : ℕ) × IsKnownCase (setting_signature setting.now) free point.now }
    requires put { IsPut setting.now point.now put.now }
    ensures changed { IfOk result (λ made. map statement_of made.items
        ≡ map (in_both (substituted (put_for_variable put.now.variable put.now.op.now.result
        (term_in put.now.term.now)))) (map statement_of point.now.hypotheses.items)) }
    ensures over { IfOk result
        (λ made. Each (IsStatementOf (setting_signature setting.now)) made.items) }
{
    let hypotheses = point.hypotheses.as_slice();
    let mut made = Vec::with_capacity(setting.alloc, hypotheses.len())?;
    for number in 0..hypotheses.len() {
        let variable = put.variable as u64;
        let hypothesis = put_for(setting.alloc, &hypotheses[number], variable, put.term)?;
        made.push(hypothesis)?;
    }
    Ok(made)
}

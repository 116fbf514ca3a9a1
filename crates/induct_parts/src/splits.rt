//! Splits of variables.

ghost use Rattle.induct_parts.specs.CaseView.{IsKnownCase, case_in, cases_in};
ghost use Rattle.induct_parts.specs.FaultView.{HoldsOfLineFault};
ghost use Rattle.induct_parts.specs.SettingView.{
  IsSet,
  proving_in,
  setting_covers,
  setting_signature,
  theory_in,
};
ghost use Rattle.certificate_theory.specs.InductionCertificate.{split_variable};
ghost use Rattle.certificate_theory.specs.Covers.{
  HasResult,
  IsListedIn,
  cover_of as first_cover_of,
};
ghost use Rattle.certificate_theory.specs.Faults.{no_cover};
ghost use Rattle.certificate_theory.specs.Proofs.{CaseComesTo, IsWrongAtCase};
ghost use Rattle.certificate_theory.specs.Splits.{IsInScope, case_with, cases_of_split};
ghost use Rattle.lotos_base.proofs.Each.{Each};
ghost use Rattle.lotos_base.specs.Signature.{IsOperation, Operation};
ghost use Rattle.lotos_base.specs.Substitution.{is_listed as is_listed_in};
ghost use Rattle.std.specs.Prelude.{
  ◌≡◌,
  ◌∷◌,
  ◌++◌,
  [],
  ℕ,
  IfErr,
  IfOk,
  List,
  None,
  OnOk,
  Some,
  if◌then◌else◌,
};

use crate::cases::Case;
use crate::covers::{cover_of, is_listed};
use crate::hypotheses::{Put, behind};
use crate::line_fault::LineFault;
use crate::operations::operation_on;
use crate::setting::{Proving, Setting};
use crate::statements::{normal_both, put_for};
use lotos_base::NoMemory;
use sort_terms::Deciding;
use std::alloc::Global;

/// The cases that a split of the variable with this number leaves, or what is wrong with it.
pub fn split<D: Deciding>(
    setting: &Setting,
    proving: &Proving,
    point: &Case,
    number: usize,
    data_: &mut D,
) -> Result<Vec<Case>, LineFault>
    requires set { IsSet setting.now (D.known_data data_.old) (D.canon data_.old) }
    requires known { IsKnownCase (setting_signature setting.now) proving.now.free point.now }
    ensures same_data { D.known_data data_.new ≡ D.known_data data_.old }
    ensures same_canon { D.canon data_.new ≡ D.canon data_.old }
    ensures comes { IfOk result (λ parts. CaseComesTo
        (theory_in setting.now (D.known_data data_.old) (D.canon data_.old))
        (setting_covers setting.now) (proving_in proving.now) (case_in point.now)
        (split_variable number) (cases_in parts.items)) }
    ensures known { IfOk result (λ parts. Each
        (IsKnownCase (setting_signature setting.now) proving.now.free) parts.items) }
    ensures wrong { IfErr result (λ fault. HoldsOfLineFault (IsWrongAtCase
        (theory_in setting.now (D.known_data data_.old) (D.canon data_.old))
        (setting_covers setting.now) (proving_in proving.now) (case_in point.now)
        (split_variable number)) fault) }
{
    match point.sort_in_scope(number) {
        Some(sort) => split_of(setting, proving, point, number, sort, data_),
        None => Err(LineFault::NoVariable),
    }
}

// The cases that a split of this variable in scope leaves.
fn split_of<D: Deciding>(
    setting: &Setting,
    proving: &Proving,
    point: &Case,
    number: usize,
    sort: u32,
    data_: &mut D,
) -> Result<Vec<Case>, LineFault>
    requires set { IsSet setting.now (D.known_data data_.old) (D.canon data_.old) }
    requires known { IsKnownCase (setting_signature setting.now) proving.now.free point.now }
    requires scope { IsInScope (case_in point.now) number sort }
    ensures same_data { D.known_data data_.new ≡ D.known_data data_.old }
    ensures same_canon { D.canon data_.new ≡ D.canon data_.old }
    ensures made { IfOk result (λ parts. (operations : List ℕ)
        × (first_cover_of (setting_covers setting.now) sort ≡ Some operations)
        × (cases_in parts.items ≡ cases_of_split
        (theory_in setting.now (D.known_data data_.old) (D.canon data_.old))
        (proving_in proving.now) (case_in point.now) number sort operations)) }
    ensures known { IfOk result (λ parts. Each
        (IsKnownCase (setting_signature setting.now) proving.now.free) parts.items) }
    ensures wrong { IfErr result (λ fault. HoldsOfLineFault
        (λ told. (first_cover_of (setting_covers setting.now) sort ≡ None) × (told ≡ no_cover))
        fault) }
{
    let Some(operations) = cover_of(setting.covers, sort) else {
        return Err(LineFault::NoCover);
    };
    let left = parts(setting, proving, point, number, sort, operations, data_)?;
    Ok(left)
}

// The cases of the operations, in the order of the signature.
fn parts<D: Deciding>(
    setting: &Setting,
    proving: &Proving,
    point: &Case,
    number: usize,
    sort: u32,
    operations: &[u32],
    data_: &mut D,
) -> Result<Vec<Case>, NoMemory>
    requires set { IsSet setting.now (D.known_data data_.old) (D.canon data_.old) }
    requires known { IsKnownCase (setting_signature setting.now) proving.now.free point.now }
    requires scope { IsInScope (case_in point.now) number sort }
    requires results { (f : ℕ) → IsListedIn operations.now f
        → HasResult (setting_signature setting.now) sort f }
    ensures same_data { D.known_data data_.new ≡ D.known_data data_.old }
    ensures same_canon { D.canon data_.new ≡ D.canon data_.old }
    ensures made { IfOk result (λ parts. cases_in parts.items ≡ cases_of_split
        (theory_in setting.now (D.known_data data_.old) (D.canon data_.old))
        (proving_in proving.now) (case_in point.now) number sort operations.now) }
    ensures known { IfOk result (λ parts. Each
        (IsKnownCase (setting_signature setting.now) proving.now.free) parts.items) }
{
    let mut made = Vec::new(setting.alloc);
    for operation in 0..setting.signature.ops().len() {
        add_if_listed(
            setting,
            proving,
            point,
            number,
            operations,
            operation as u32,
            &mut made,
            data_,
        )?;
    }
    Ok(made)
}

// The case of the operation behind the others, if the operation is listed.
fn add_if_listed<D: Deciding>(
    setting: &Setting,
    proving: &Proving,
    point: &Case,
    number: usize,
    operations: &[u32],
    operation: u32,
    made: &mut Vec<Case>,
    data_: &mut D,
) -> Result<(), NoMemory>
    requires set { IsSet setting.now (D.known_data data_.old) (D.canon data_.old) }
    requires known { IsKnownCase (setting_signature setting.now) proving.now.free point.now }
    requires operation { (o : Operation)
        × IsOperation (setting_signature setting.now) operation o
        × (IsListedIn operations.now operation
        → IsInScope (case_in point.now) number o.result) }
    ensures same_data { D.known_data data_.new ≡ D.known_data data_.old }
    ensures same_canon { D.canon data_.new ≡ D.canon data_.old }
    ensures added { OnOk result ((o : Operation)
        → IsOperation (setting_signature setting.now) operation o
        → cases_in made.new.items ≡ cases_in made.old.items
        ++ (if is_listed_in operations.now operation
        then case_with (theory_in setting.now (D.known_data data_.old) (D.canon data_.old))
        (proving_in proving.now) (case_in point.now) number o.result
        (record { number = operation; operation = o }) ∷ []
        else [])) }
    ensures known { OnOk result
        (Each (IsKnownCase (setting_signature setting.now) proving.now.free) made.old.items
        → Each (IsKnownCase (setting_signature setting.now) proving.now.free) made.new.items) }
{
    if !is_listed(operations, operation) {
        return Ok(());
    }
    let part = part(setting, proving, point, number, operation, data_)?;
    made.push(part)?;
    Ok(())
}

// The case of the operation.
fn part<D: Deciding>(
    setting: &Setting,
    proving: &Proving,
    point: &Case,
    number: usize,
    operation: u32,
    data_: &mut D,
) -> Result<Case, NoMemory>
    requires set { IsSet setting.now (D.known_data data_.old) (D.canon data_.old) }
    requires known { IsKnownCase (setting_signature setting.now) proving.now.free point.now }
    requires scope { (o : Operation) × IsOperation (setting_signature setting.now) operation o
        × IsInScope (case_in point.now) number o.result }
    ensures same_data { D.known_data data_.new ≡ D.known_data data_.old }
    ensures same_canon { D.canon data_.new ≡ D.canon data_.old }
    ensures made { IfOk result (λ part. (o : Operation)
        → IsOperation (setting_signature setting.now) operation o
        → case_in part ≡ case_with
        (theory_in setting.now (D.known_data data_.old) (D.canon data_.old))
        (proving_in proving.now) (case_in point.now) number o.result
        (record { number = operation; operation = o })) }
    ensures known { IfOk result
        (λ part. IsKnownCase (setting_signature setting.now) proving.now.free part) }
{
    let op = &setting.signature.ops()[operation as usize];
    let arguments = op.arguments.as_slice();
    let sorts = joined(setting.alloc, point.sorts.as_slice(), arguments)?;
    let term = operation_on(setting.alloc, op, operation, point.sorts.len() as u64)?;
    let put = Put {
        variable: number,
        operation,
        op,
        term: &term,
    };
    let hypotheses = behind(setting, proving, point, &put)?;
    let with_term = put_for(setting.alloc, &point.goal, number as u64, &term)?;
    let goal = normal_both(data_, &with_term)?;
    let gone = one_before(setting.alloc, number, point.gone.as_slice())?;
    Ok(Case {
        sorts,
        gone,
        hypotheses,
        goal,
    })
}

// The sorts, and these behind them.
fn joined(alloc: Global, sorts: &[u32], more: &[u32]) -> Result<Vec<u32>, NoMemory>
    ensures { IfOk result (λ made. made.items ≡ sorts.now ++ more.now) }
{
    let mut made = Vec::from_slice(alloc, sorts)?;
    made.extend_from_slice(more)?;
    Ok(made)
}

// The number, and these behind it.
fn one_before(alloc: Global, number: usize, more: &[usize]) -> Result<Vec<usize>, NoMemory>
    ensures { IfOk result (λ made. made.items ≡ number ∷ more.now) }
{
    let mut made = Vec::new(alloc);
    made.push(number)?;
    made.extend_from_slice(more)?;
    Ok(made)
}

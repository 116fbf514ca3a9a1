//! Statements: two sides that are said to be equal.

ghost use Rattle.induct_parts.specs.SettingView.{setting_signature};
ghost use Rattle.induct_parts.specs.StatementView.{
  IsStatementOf,
  placed_in,
  profiled_sides_of,
  statement_of,
  taken_in,
};
ghost use Rattle.certificate_theory.specs.Patterns.{put_for as put_for_variable};
ghost use Rattle.certificate_theory.specs.Requirements.{OccursInSide};
ghost use Rattle.certificate_theory.specs.Splits.{in_both};
ghost use Rattle.lotos_base.specs.Signature.{Signature};
ghost use Rattle.lotos_base.specs.Sorting.{Occurs};
ghost use Rattle.lotos_base.specs.Substitution.{substituted};
ghost use Rattle.sort_terms.specs.ProfiledTerm.{IsOf};
ghost use Rattle.sort_terms.specs.SortedView.{profiled_in, term_in};
ghost use Rattle.std.specs.Prelude.{◌≡◌, ◌∷◌, [], ℕ, IfOk, map};
ghost use Rattle.term_match.specs.SubstView.{profiled_pairs};

use crate::certificates::{Direction, Side};
use crate::setting::Setting;
use lotos_base::NoMemory;
use sort_terms::{Deciding, Sorted};
use std::alloc::Global;
use term_match::{Subst, apply};

/// Two terms of one sort that are said to be equal.
#[derive(Debug, Drop)]
pub struct Statement {
    /// The left side.
    pub left: Sorted,
    /// The right side.
    pub right: Sorted,
}

impl Statement {
    ghost use Rattle.induct_parts.specs.StatementView.{
      profiled_sides_of as profiles_of,
      side_in,
    };

    /// The same statement.
    pub fn copy(&self) -> Result<Statement, NoMemory>
        ensures { IfOk result (λ s. profiles_of s ≡ profiles_of self.now) }
    {
        Ok(Statement {
            left: self.left.copy()?,
            right: self.right.copy()?,
        })
    }

    /// One of the sides.
    pub fn side(&self, side: Side) -> &Sorted
        ensures { result.now ≡ side_in side self.now }
    {
        match side {
            Side::Left => &self.left,
            Side::Right => &self.right,
        }
    }
}

/// The side whose instance is taken away.
pub fn taken(direction: Direction, statement: &Statement) -> &Sorted
    ensures { result.now ≡ taken_in direction statement.now }
{
    match direction {
        Direction::Forward => &statement.left,
        Direction::Backward => &statement.right,
    }
}

/// The side whose instance is put there.
pub fn placed(direction: Direction, statement: &Statement) -> &Sorted
    ensures { result.now ≡ placed_in direction statement.now }
{
    match direction {
        Direction::Forward => &statement.right,
        Direction::Backward => &statement.left,
    }
}

/// The same statements.
pub fn statement_copies(statements: &Vec<Statement>) -> Result<Vec<Statement>, NoMemory>
    ensures { IfOk result (λ made. map profiled_sides_of made.items
        ≡ map profiled_sides_of statements.now.items) }
{
    let mut made = Vec::with_capacity(*statements.allocator(), statements.len())?;
    for statement in statements {
        made.push(statement.copy()?)?;
    }
    Ok(made)
}

/// The statement with the term put for the variable with this number, which has the term's sort.
pub fn put_for(
    alloc: Global,
    statement: &Statement,
    number: u64,
    term: &Sorted,
) -> Result<Statement, NoMemory>
    requires { (s : ℕ) → OccursInSide (statement_of statement.now) number s → s ≡ term.now.sort }
    ensures made { IfOk result (λ made. statement_of made
        ≡ in_both (substituted (put_for_variable number term.now.sort (term_in term.now)))
        (statement_of statement.now)) }
    ensures over { IfOk result (λ made. (signature : Signature)
        → IsStatementOf signature statement.now → IsOf signature (profiled_in term.now)
        → IsStatementOf signature made) }
{
    let left = put_in(alloc, &statement.left, number, term)?;
    let right = put_in(alloc, &statement.right, number, term)?;
    Ok(Statement { left, right })
}

/// The term with another one put for the variable with this number, which has the other's sort.
pub fn put_in(alloc: Global, whole: &Sorted, number: u64, term: &Sorted) -> Result<Sorted, NoMemory>
    requires { (s : ℕ) → Occurs number s (term_in whole.now) → s ≡ term.now.sort }
    ensures made { IfOk result (λ made. term_in made
        ≡ substituted (put_for_variable number term.now.sort (term_in term.now))
        (term_in whole.now)) }
    ensures over { IfOk result (λ made. (signature : Signature)
        → IsOf signature (profiled_in whole.now) → IsOf signature (profiled_in term.now)
        → IsOf signature (profiled_in made)) }
{
    let subst = single(alloc, number, term)?;
    apply(&subst, whole)
}

// The substitution of the term for the variable with this number.
fn single(alloc: Global, number: u64, term: &Sorted) -> Result<Subst, NoMemory>
    ensures { IfOk result (λ subst. profiled_pairs subst.pairs.items
        ≡ (number, profiled_in term.now) ∷ []) }
{
    let mut pairs = Vec::new(alloc);
    pairs.push((number, term.copy()?))?;
    Ok(Subst::of(pairs))
}

/// The statement with both sides in normal form.
pub fn normal_both<D: Deciding>(data_: &mut D, statement: &Statement) -> Result<Statement, NoMemory>
    requires { IsStatementOf (D.known_data data_.old).signature statement.now }
    ensures same_data { D.known_data data_.new ≡ D.known_data data_.old }
    ensures same_canon { D.canon data_.new ≡ D.canon data_.old }
    ensures over { IfOk result (λ made. (signature : Signature)
        → signature ≡ (D.known_data data_.old).signature → IsStatementOf signature made) }
    ensures made { IfOk result (λ made. statement_of made
        ≡ in_both (D.canon data_.old) (statement_of statement.now)) }
{
    let left = data_.normal(&statement.left)?;
    let right = data_.normal(&statement.right)?;
    Ok(Statement { left, right })
}

//! The values of a step: the readings of the terms that are given for them.

ghost use Rattle.behaviour_tree.specs.BehaviourView.{terms_of};
ghost use Rattle.lotos_base.specs.WrittenView.{written_term_of};
ghost use Rattle.session_histories.specs.Replay.{AreRead};
ghost use Rattle.session_log.specs.Entries.{AreGiven};
ghost use Rattle.session_log.specs.Values.{
  IsFirstMisread,
  IsTermRefused,
  IsValueReadAt,
  TellsMisread,
};
ghost use Rattle.sort_terms.specs.ReaderView.{signature_read};
ghost use Rattle.sort_terms.specs.ScopeView.{variables_in};
ghost use Rattle.std.specs.Prelude.{◌≡◌, ◌++◌, ◌∷◌, [], MatchResult, OnOk, length, map};

use lotos_base::{NoMemory, Written};
use session_lines::Refusal;
use sort_terms::{Reader, Scope, Sorted};
use std::alloc::Global;

/// The readings of the terms at the sorts, of which there are as many. The first term that has not
/// one reading at its sort is refused.
pub fn values_at(
    alloc: Global,
    reader: &Reader<'_>,
    sorts: &Vec<u32>,
    terms: &[Written],
) -> Result<Vec<Sorted>, Refusal>
    requires { length terms.now ≡ length sorts.now.items }
    ensures { MatchResult result
        (λ values. AreRead (signature_read reader.now) sorts.now.items
        (map written_term_of terms.now) (terms_of values.items)
        × AreGiven (signature_read reader.now) values.items)
        (TellsMisread (IsFirstMisread (signature_read reader.now) sorts.now.items
        (map written_term_of terms.now))) }
{
    let scope = Scope::new(alloc);
    let mut values = Vec::new(alloc);
    for (index, term) in terms.iter().enumerate() {
        let value = value_at(reader, &scope, term, sorts[index])?;
        push_value(&mut values, value)?;
    }
    Ok(values)
}

// Puts the value behind the others.
fn push_value(values: &mut Vec<Sorted>, value: Sorted) -> Result<(), NoMemory>
    ensures { OnOk result (values.new.items ≡ values.old.items ++ value ∷ []) }
{
    Ok(values.push(value)?)
}

// The reading of a term at a sort.
#[tactic(auto, using(crate::proofs::ValueLemmas::read_at, crate::proofs::ValueLemmas::misread_at))]
fn value_at(
    reader: &Reader<'_>,
    scope: &Scope,
    term: &Written,
    sort: u32,
) -> Result<Sorted, Refusal>
    requires { variables_in scope.now ≡ [] }
    ensures { MatchResult result
        (IsValueReadAt (signature_read reader.now) (written_term_of term.now) sort)
        (TellsMisread (IsTermRefused (signature_read reader.now) (written_term_of term.now) sort)) }
{
    Ok(reader.read_in(scope, term, Some(sort))?)
}

//! Terms under environments.

ghost use Rattle.draft_parts.specs.Environments.{IsReadyForPairs, SuitsPairs};
ghost use Rattle.behaviour_semantics.specs.WellFormed.{Every};
ghost use Rattle.behaviour_tree.specs.BehaviourTerms.{profiles_of};
ghost use Rattle.behaviour_tree.specs.StateView.{environment_of, pair_profile};
ghost use Rattle.event_offers.specs.Keeping.{KeepsData};
ghost use Rattle.sort_terms.specs.ProfiledTerm.{IsOf, profiled_variable};
ghost use Rattle.sort_terms.specs.SortedView.{profiled_in, term_in};
ghost use Rattle.std.specs.Prelude.{◌≡◌, ◌++◌, suc, IfOk, map};
ghost use Rattle.lotos_base.specs.Signature.{Signature};
ghost use Rattle.lotos_base.specs.Substitution.{binding, substituted};
ghost use Rattle.term_match.specs.SubstView.{profiled_pairs};

use event_offers::valued::Values;
use lotos_base::NoMemory;
use sort_terms::{Deciding, Sorted, Term};

/// The term with those of the environment put for its variables.
pub fn placed(environment: &Vec<(u64, Sorted)>, term: &Sorted) -> Result<Sorted, NoMemory>
    requires { SuitsPairs (profiled_pairs environment.now.items) (profiled_in term.now) }
    ensures same { IfOk result (λ t. term_in t
        ≡ substituted (binding (environment_of environment.now.items)) (term_in term.now)) }
    ensures over { IfOk result (λ t. (signature : Signature)
        → IsReadyForPairs signature (profiled_pairs environment.now.items) (profiled_in term.now)
        → IsOf signature (profiled_in t)) }
{
    Values::Paired(environment.as_slice()).put_into(term)
}

/// The canon of the term with those of the environment put for its variables. Where there are none,
/// the term is not copied.
pub fn canonical<D: Deciding>(
    environment: &Vec<(u64, Sorted)>,
    term: &Sorted,
    decider: &mut D,
) -> Result<Sorted, NoMemory>
    requires { IsReadyForPairs (D.known_data decider.old).signature
        (profiled_pairs environment.now.items) (profiled_in term.now) }
    ensures same { IfOk result (λ t. term_in t ≡ D.canon decider.old
        (substituted (binding (environment_of environment.now.items)) (term_in term.now))) }
    ensures is_of { IfOk result (λ t. IsOf (D.known_data decider.old).signature (profiled_in t)) }
    ensures same_known { KeepsData D.known_data D.canon decider.old decider.new }
{
    if environment.len() == 0 {
        return decider.normal(term);
    }
    let made = placed(environment, term)?;
    decider.normal(&made)
}

/// A leaf: the variable with this number and sort.
pub fn leaf(number: u64, sort: u32) -> Sorted
    ensures { profiled_in result ≡ profiled_variable number sort }
{
    Sorted::of(Term::Var { number, sort })
}

/// The next number. Past the last value of a `u64` it is answered as want of memory.
pub fn following(number: u64) -> Result<u64, NoMemory>
    ensures { IfOk result (λ n. n ≡ suc number) }
{
    match number.checked_add(1) {
        Some(next) => Ok(next),
        None => Err(NoMemory),
    }
}

/// The terms of the pairs.
pub fn paired_terms(pairs: &Vec<(u64, Sorted)>) -> Result<Vec<Sorted>, NoMemory>
    ensures { IfOk result (λ made. profiles_of made.items ≡ map pair_profile pairs.now.items) }
{
    let mut made = Vec::with_capacity(*pairs.allocator(), pairs.len())?;
    for pair in pairs {
        made.push(pair.1.copy()?)?;
    }
    Ok(made)
}

/// The environment with these pairs before it.
pub fn extended(
    pairs: Vec<(u64, Sorted)>,
    environment: &Vec<(u64, Sorted)>,
) -> Result<Vec<(u64, Sorted)>, NoMemory>
    ensures { IfOk result (λ made. profiled_pairs made.items
        ≡ profiled_pairs pairs.items ++ profiled_pairs environment.now.items) }
{
    let mut made = pairs;
    for pair in environment {
        let term = pair.1.copy()?;
        made.push((pair.0, term))?;
    }
    Ok(made)
}

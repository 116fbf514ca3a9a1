//! Terms put for the variables of terms.

ghost use Rattle.event_offers.specs.Values.{profiled_listed, profiled_values, SuitsTerm, substitution_of_values};
ghost use Rattle.sort_terms.specs.SortedView.{profiled_in, term_in};
ghost use Rattle.sort_terms.specs.TermView.{profiled_of};
ghost use Rattle.std.specs.Prelude.{◌≡◌, ◌∷◌, [], IfOk};
ghost use Rattle.lotos_base.specs.Substitution.{substituted};
ghost use Rattle.term_match.specs.ProfiledInstance.{
  profiled_binding,
  profiled_instance,
};
ghost use Rattle.term_match.specs.SubstView.{profiled_pairs};
ghost use Rattle.behaviour_tree.specs.BehaviourTerms.{profiles_of};

use crate::rebuilding::{Replacing, rebuilt};
use lotos_base::NoMemory;
use sort_terms::{Sorted, Term};

/// Terms for variables. A variable for which there is none stays.
#[derive(Drop)]
pub enum Values<'a> {
    /// One term, for the variable with this number.
    One(u64, &'a Sorted),
    /// Pairs of the number of a variable and a term, of which the first with a number counts.
    Paired(&'a [(u64, Sorted)]),
    /// The term for a variable stands at its number.
    Listed(&'a [Sorted]),
}

impl Values<'_> {
    /// The term with the terms put for its variables.
    pub fn put_into(&self, term: &Sorted) -> Result<Sorted, NoMemory>
        requires { SuitsTerm self.now (profiled_in term.now) }
        ensures same { IfOk result
            (λ t. term_in t ≡ substituted (substitution_of_values self.now) (term_in term.now)) }
        ensures profiles { IfOk result (λ t. profiled_in t
            ≡ profiled_instance (profiled_values self.now) (profiled_in term.now)) }
    {
        Ok(Sorted::of(rebuilt(term.term(), self)?))
    }
}

impl Replacing for Values<'_> {
    ghost put_for = { λ it. profiled_values it };

    fn put(&self, number: u64, sort: u32) -> Result<Term, NoMemory> {
        match self {
            Values::One(known, value) => one(*known, value, number, sort),
            Values::Paired(pairs) => paired(pairs, number, sort),
            Values::Listed(values) => listed(values, number, sort),
        }
    }
}

// The term where it is for this number, or the variable itself.
fn one(known: u64, value: &Sorted, number: u64, sort: u32) -> Result<Term, NoMemory>
    ensures { IfOk result (λ t. profiled_of t
        ≡ profiled_binding ((known, profiled_in value.now) ∷ []) number sort) }
{
    if known == number {
        return value.term().copy();
    }
    Ok(Term::Var { number, sort })
}

// What the first pair with the number has, or the variable itself.
fn paired(pairs: &[(u64, Sorted)], number: u64, sort: u32) -> Result<Term, NoMemory>
    ensures { IfOk result
        (λ t. profiled_of t ≡ profiled_binding (profiled_pairs pairs.now) number sort) }
{
    for (known, value) in pairs {
        if *known == number {
            return value.term().copy();
        }
    }
    Ok(Term::Var { number, sort })
}

// What stands at the number. Past the end it is a variable, counted from there.
#[tactic(auto, using(crate::proofs::ValueLemmas::stands_at))]
fn listed(values: &[Sorted], number: u64, sort: u32) -> Result<Term, NoMemory>
    ensures { IfOk result
        (λ t. profiled_of t ≡ profiled_listed (profiles_of values.now) number sort) }
{
    let place = number as usize;
    if place < values.len() {
        return values[place].term().copy();
    }
    Ok(Term::Var {
        number: number - values.len() as u64,
        sort,
    })
}

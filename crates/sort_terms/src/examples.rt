//! Small callers of the types, which show that their conditions can be met.

ghost use Rattle.sort_terms.specs.NoEquations.{data_without_equations};
ghost use Rattle.sort_terms.specs.Operations.{operation_of};
ghost use Rattle.sort_terms.specs.ProfiledTerm.{
  IsOf,
  no_profiled_terms,
  profiled_node,
  profiled_term_then,
};
ghost use Rattle.sort_terms.specs.SignatureView.{signature_of};
ghost use Rattle.sort_terms.specs.SortedView.{profiled_in, term_in};
ghost use Rattle.std.specs.Prelude.{◌≡◌, ◌∷◌, [], IfOk};
ghost use Rattle.lotos_base.specs.Signature.{IsOperation};

use crate::deciding::Deciding;
use crate::no_equations::NoEquations;
use crate::operations::Op;
use crate::signatures::Signature;
use crate::sorted::Sorted;
use crate::terms::Term;
use lotos_base::NoMemory;
use std::alloc::Global;
use std::rc::Rc;

/// The constant with this number and profile.
pub fn constant(alloc: Global, op: u32, profile: Rc<Op>) -> Result<Sorted, NoMemory>
    requires { profile.value.arguments.items ≡ [] }
    ensures { IfOk result (λ t. profiled_in t
        ≡ profiled_node op (operation_of profile.value) no_profiled_terms) }
{
    Ok(Sorted::of(Term::node(op, profile, Vec::new(alloc))?))
}

/// The operation with this number and profile on one argument.
pub fn applied(
    alloc: Global,
    op: u32,
    profile: Rc<Op>,
    argument: Sorted,
) -> Result<Sorted, NoMemory>
    requires { profile.value.arguments.items ≡ argument.sort ∷ [] }
    ensures { IfOk result (λ t. profiled_in t ≡ profiled_node op (operation_of profile.value)
        (profiled_term_then (profiled_in argument) no_profiled_terms)) }
{
    let mut arguments = Vec::new(alloc);
    arguments.push(argument.into_term())?;
    Ok(Sorted::of(Term::node(op, profile, arguments)?))
}

// The canon of a term of the data of any object.
fn canon_of<D: Deciding>(decider: &mut D, term: &Sorted) -> Result<Sorted, NoMemory>
    requires { IsOf (D.known_data decider.old).signature (profiled_in term.now) }
    ensures { IfOk result (λ t. term_in t ≡ D.canon decider.old (term_in term.now)) }
{
    decider.normal(term)
}

/// Over data without equations a constant is its own canon.
pub fn canon_of_constant(signature: Signature, constant: &Sorted) -> Result<Sorted, NoMemory>
    requires { IsOf (signature_of signature) (profiled_in constant.now) }
    ensures { IfOk result (λ t. term_in t ≡ term_in constant.now) }
{
    canon_of(&mut NoEquations { signature }, constant)
}

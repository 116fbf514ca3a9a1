//! Data without equations, over which each term is its own canon.

ghost use Rattle.sort_terms.specs.NoEquations.{data_without_equations, identity_is_canon};
ghost use Rattle.sort_terms.specs.SignatureView.{signature_of};

use crate::deciding::Deciding;
use crate::signatures::Signature;
use crate::sorted::Sorted;
use lotos_base::NoMemory;

/// Data that have a signature and no equation: terms are equal exactly where they are identical.
#[derive(Debug, Drop)]
pub struct NoEquations {
    /// The sorts and operations.
    pub signature: Signature,
}

impl Deciding for NoEquations {
    ghost known_data = { λ it. data_without_equations (signature_of it.signature) };

    ghost canon = { λ _ t. t };

    ghost is_canon = { λ it. identity_is_canon (signature_of it.signature) };

    fn normal(&mut self, term: &Sorted) -> Result<Sorted, NoMemory> {
        term.copy()
    }
}

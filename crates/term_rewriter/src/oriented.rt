//! Chosen forms over data.

ghost use Rattle.path_order.specs.OrientFaultView.{IsOrientFault};
ghost use Rattle.path_order.specs.PrecedenceView.{precedence_of};
ghost use Rattle.sort_terms.specs.EquationView.{IsSortedFlat, data_of};
ghost use Rattle.sort_terms.specs.ProfiledTerm.{IsOf};
ghost use Rattle.sort_terms.specs.SignatureView.{signature_of};
ghost use Rattle.sort_terms.specs.SortedView.{profiled_in, term_in};
ghost use Rattle.std.specs.Prelude.{IfOk, MatchResult};
ghost use Rattle.term_rewriter.specs.OrientedForm.{IsFormByData};

use crate::normal::normalise;
use path_order::{OrientFault, Precedence, orient};
use sort_terms::{Flat, Sorted};
use std::alloc::Global;

/// The chosen form of a term of the data by the rules of the data. It orients them first, so it is
/// for one term.
pub fn normal_over(
    alloc: Global,
    flat: &Flat,
    precedence: Precedence,
    term: &Sorted,
) -> Result<Sorted, OrientFault>
    requires data { IsSortedFlat flat.now }
    requires term { IsOf (signature_of flat.now.signature) (profiled_in term.now) }
    ensures chosen { IfOk result (λ form. IsFormByData (precedence_of precedence)
        (data_of flat.now) (term_in term.now) (term_in form)) }
    ensures unorientable { MatchResult result (λ form. Unit {0})
        (λ fault. IsOrientFault (precedence_of precedence) (data_of flat.now).equations fault) }
{
    let rules = orient(flat, precedence)?;
    Ok(normalise(alloc, &rules, term)?)
}

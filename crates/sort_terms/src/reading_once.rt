//! Reads a term over a signature that no index was made for.

ghost use Rattle.lotos_base.specs.WrittenView.{written_term_of};
ghost use Rattle.sort_terms.specs.EquationView.{variable_of};
ghost use Rattle.sort_terms.specs.ProfiledTerm.{IsOf};
ghost use Rattle.sort_terms.specs.Reading.{IsScopeOver};
ghost use Rattle.sort_terms.specs.ReadingOutcome.{PairReadingIs, ReadingIs, answered, refused};
ghost use Rattle.sort_terms.specs.RefusalView.{UnlessNoMemory};
ghost use Rattle.sort_terms.specs.SignatureView.{signature_of};
ghost use Rattle.sort_terms.specs.SortedView.{profiled_in, term_in};
ghost use Rattle.std.specs.Prelude.{◌≡◌, IfErr, IfOk, map};

use crate::equations::Variable;
use crate::reader::Reader;
use crate::scope::Scope;
use crate::signatures::Signature;
use crate::sort_faults::SortFault;
use crate::sorted::Sorted;
use lotos_base::Written;
use std::alloc::Global;

/// The one reading of the written term, of the expected sort where one is given. An index of the
/// signature is made for this term alone: who reads many terms makes a `Reader` and reads with it.
///
/// First, in text order, a name that stands for nothing is refused as `UnknownName`, and the name
/// of no sort behind an `of` as `UnknownSort`. Then, at the term's place, `NoReading` and
/// `TwoReadings` come where there is no reading, or more than one.
pub fn read_in(
    alloc: Global,
    signature: &Signature,
    scope: &[Variable],
    written: &Written,
    expected: Option<u32>,
) -> Result<Sorted, SortFault>
    requires { IsScopeOver (signature_of signature.now) (map variable_of scope.now) }
    ensures read { IfOk result (λ t. IsOf (signature_of signature.now) (profiled_in t)
        × ReadingIs (signature_of signature.now) (map variable_of scope.now)
        (written_term_of written.now) expected
        (answered (record { term = term_in t; sort = t.sort }))) }
    ensures refused { IfErr result (λ fault. UnlessNoMemory fault (λ r.
        ReadingIs (signature_of signature.now) (map variable_of scope.now)
        (written_term_of written.now) expected (refused r))) }
{
    let reader = Reader::of(alloc, signature)?;
    let scope = Scope::of(alloc, scope)?;
    reader.read_in(&scope, written, expected)
}

/// The one pair of readings of the two written terms that have one sort. An index of the signature
/// is made for these terms alone.
///
/// Names are refused as in `read_in`, over the left term and then the right one; `NoReading` and
/// `TwoReadings` come at the left term's place.
pub fn read_pair(
    alloc: Global,
    signature: &Signature,
    scope: &[Variable],
    left: &Written,
    right: &Written,
) -> Result<(Sorted, Sorted), SortFault>
    requires { IsScopeOver (signature_of signature.now) (map variable_of scope.now) }
    ensures read { IfOk result (λ pair. IsOf (signature_of signature.now) (profiled_in pair.0)
        × IsOf (signature_of signature.now) (profiled_in pair.1) × (pair.1.sort ≡ pair.0.sort)
        × PairReadingIs (signature_of signature.now) (map variable_of scope.now)
        (written_term_of left.now) (written_term_of right.now)
        (answered (record { left = term_in pair.0; right = term_in pair.1; sort = pair.0.sort }))) }
    ensures refused { IfErr result (λ fault. UnlessNoMemory fault (λ r.
        PairReadingIs (signature_of signature.now) (map variable_of scope.now)
        (written_term_of left.now) (written_term_of right.now) (refused r))) }
{
    let reader = Reader::of(alloc, signature)?;
    let scope = Scope::of(alloc, scope)?;
    reader.read_pair(&scope, left, right)
}

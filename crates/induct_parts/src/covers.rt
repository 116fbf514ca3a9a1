//! Covers: that each is right behind those before it, and what is found in them.

ghost use Rattle.induct_parts.specs.CertificateView.{cover_in, covers_in};
ghost use Rattle.induct_parts.specs.FaultView.{HoldsAtLine};
ghost use Rattle.certificate_theory.specs.Certified.{IsWrongCover, lines_of_cover};
ghost use Rattle.certificate_theory.specs.Covers.{
  HasResult,
  IsRightCover,
  cover_of as first_cover_of,
};
ghost use Rattle.certificate_theory.specs.Lines.{AreRightBehind, FirstIsWrong};
ghost use Rattle.lotos_base.specs.Substitution.{is_listed as is_listed_in};
ghost use Rattle.sort_terms.specs.SignatureView.{signature_of};
ghost use Rattle.std.specs.Option.{option_map};
ghost use Rattle.std.specs.Prelude.{◌≡◌, ◌↔◌, [], ℕ, IfErr, IfOk, IsTrue, Some, slice_get};

use crate::at_line::AtLine;
use crate::certificates::Cover;
use crate::line_fault::LineFault;
use sort_terms::Signature;

/// Whether the number is one of the numbers.
pub fn is_listed(numbers: &[u32], number: u32) -> bool
    ensures { result ≡ is_listed_in numbers.now number }
{
    for known in numbers {
        if *known == number {
            return true;
        }
    }
    false
}

/// The operations of the first cover of the sort, if it has one.
pub fn cover_of(covers: &[Cover], sort: u32) -> Option<&[u32]>
    ensures { option_map (λ operations. operations.now) result
        ≡ first_cover_of (covers_in covers.now) sort }
{
    for cover in covers {
        if cover.sort == sort {
            return Some(cover.operations.as_slice());
        }
    }
    None
}

/// That each cover is right behind those before it: its sort has no other one, and each of its
/// operations, which are different, has the sort as result. `BadLine` at the number of the first
/// one that is not, counted from 1.
pub fn check_covers(signature: &Signature, covers: &[Cover]) -> Result<(), AtLine>
    ensures right { IfOk result (λ u. AreRightBehind (IsRightCover (signature_of signature.now)) []
        (covers_in covers.now)) }
    ensures wrong { IfErr result (λ at. HoldsAtLine
        (FirstIsWrong (IsRightCover (signature_of signature.now))
        (IsWrongCover (signature_of signature.now)) lines_of_cover 1 [] (covers_in covers.now))
        at) }
{
    for number in 0..covers.len() {
        if !is_right(signature, &covers[..number], &covers[number]) {
            let line = number + 1;
            let fault = LineFault::BadLine;
            return Err(AtLine { line, fault });
        }
    }
    Ok(())
}

// Whether the cover is right behind the others.
fn is_right(signature: &Signature, earlier: &[Cover], cover: &Cover) -> bool
    ensures { IsTrue result ↔ IsRightCover (signature_of signature.now) (covers_in earlier.now)
        (cover_in cover.now) }
{
    if let Some(_) = cover_of(earlier, cover.sort) {
        return false;
    }
    if !have_result(signature, cover.operations.as_slice(), cover.sort) {
        return false;
    }
    differ(cover.operations.as_slice())
}

/// Whether each of the operations has the sort as result.
pub fn have_result(signature: &Signature, operations: &[u32], sort: u32) -> bool
    ensures { IsTrue result ↔ ((i f : ℕ) → slice_get operations.now i ≡ Some f
        → HasResult (signature_of signature.now) sort f) }
{
    for operation in operations {
        if !has_result(signature, *operation, sort) {
            return false;
        }
    }
    true
}

/// Whether the operation has the sort as result.
pub fn has_result(signature: &Signature, operation: u32, sort: u32) -> bool
    ensures { IsTrue result ↔ HasResult (signature_of signature.now) sort operation }
{
    match signature.ops().get(operation as usize) {
        Some(op) => op.result == sort,
        None => false,
    }
}

// Whether no two of the numbers are one.
fn differ(numbers: &[u32]) -> bool
    ensures { IsTrue result ↔ ((i j f : ℕ) → slice_get numbers.now i ≡ Some f
        → slice_get numbers.now j ≡ Some f → i ≡ j) }
{
    for i in 0..numbers.len() {
        if is_listed(&numbers[..i], numbers[i]) {
            return false;
        }
    }
    true
}

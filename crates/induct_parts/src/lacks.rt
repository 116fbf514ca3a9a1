//! Operations with the result of a cover that neither stand in it nor have a tree.

ghost use Rattle.induct_parts.specs.CertificateView.{cover_in, covers_in, trees_in};
ghost use Rattle.certificate_theory.specs.Certified.{AreComplete, IsFirstLack, LacksTree};
ghost use Rattle.sort_terms.specs.SignatureView.{signature_of};
ghost use Rattle.std.specs.Prelude.{◌≡◌, ◌↔◌, ◌<◌, ℕ, IsTrue, MatchOption, length};

use crate::certificates::{Cover, PatternTree};
use crate::covers::{has_result, is_listed};
use crate::trees::has_tree;
use sort_terms::Signature;

/// The number of the first cover that lacks a tree, with the number of the first such operation of
/// the signature, if one does.
pub fn first_lack(
    signature: &Signature,
    covers: &[Cover],
    trees: &[PatternTree],
) -> Option<(usize, u32)>
    ensures { MatchOption result
        (AreComplete (signature_of signature.now) (covers_in covers.now) (trees_in trees.now))
        (λ found. IsFirstLack (signature_of signature.now) (covers_in covers.now)
        (trees_in trees.now) found.0 found.1 × (found.0 < length covers.now)) }
{
    for number in 0..covers.len() {
        match first_lacking(signature, &covers[number], trees) {
            Some(operation) => return Some((number, operation)),
            None => {}
        }
    }
    None
}

// The first operation of the signature that lacks a tree for the cover, if one does.
fn first_lacking(signature: &Signature, cover: &Cover, trees: &[PatternTree]) -> Option<u32>
    ensures { MatchOption result
        ((f : ℕ) → ¬ LacksTree (signature_of signature.now) (trees_in trees.now)
        (cover_in cover.now) f)
        (λ found. LacksTree (signature_of signature.now) (trees_in trees.now)
        (cover_in cover.now) found
        × ((g : ℕ) → g < found → ¬ LacksTree (signature_of signature.now) (trees_in trees.now)
        (cover_in cover.now) g)) }
{
    for operation in 0..signature.ops().len() {
        if lacks(signature, cover, trees, operation as u32) {
            return Some(operation as u32);
        }
    }
    None
}

// Whether the operation lacks a tree for the cover.
fn lacks(signature: &Signature, cover: &Cover, trees: &[PatternTree], operation: u32) -> bool
    ensures { IsTrue result ↔ LacksTree (signature_of signature.now) (trees_in trees.now)
        (cover_in cover.now) operation }
{
    if !has_result(signature, operation, cover.sort) {
        return false;
    }
    if is_listed(cover.operations.as_slice(), operation) {
        return false;
    }
    !has_tree(trees, operation)
}

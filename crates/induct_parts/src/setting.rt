//! What stays the same while a certificate is looked at.

use crate::certificates::{Cover, StatedLemma};
use path_order::Rules;
use sort_terms::Signature;
use std::alloc::Global;

/// What stays the same while the trees and the lemmas of a certificate are looked at.
#[derive(Clone, Copy)]
pub struct Setting<'a> {
    /// The allocator.
    pub alloc: Global,
    /// The signature of the data.
    pub signature: &'a Signature,
    /// The rules of the data.
    pub rules: &'a Rules,
    /// The covers of the certificate.
    pub covers: &'a [Cover],
}

/// What stays the same in the proof of a lemma.
#[derive(Clone, Copy)]
pub struct Proving<'a> {
    /// The lemmas before it.
    pub earlier: &'a [StatedLemma],
    /// How many variables it has. Those are free; each later number is that of an argument made by
    /// a split, which is fixed.
    pub free: usize,
}

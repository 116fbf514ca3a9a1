//! What lines of a certificate are read over.

use path_order::Rules;
use sort_terms::name_index::NameIndex;
use sort_terms::{Reader, Signature};
use std::alloc::Global;

/// What lines of a certificate are read over: a signature, the rules of the data, a reader of terms
/// over the signature, and its operations by their names.
#[derive(Clone, Copy)]
pub struct Known<'a> {
    /// The allocator.
    pub alloc: Global,
    /// The signature.
    pub signature: &'a Signature,
    /// The rules.
    pub rules: &'a Rules,
    /// The reader.
    pub reader: &'a Reader<'a>,
    /// The numbers of the operations by their names.
    pub operations: &'a NameIndex,
}

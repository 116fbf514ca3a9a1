//! A refusal with what its line needs.

use crate::spec_fault::SpecFault;
use behaviour_tree::Spec;
use lotos_base::Name;
use sort_terms::Flat;

/// The refusal of a specification: the first fault, and what was there by then.
#[derive(Drop)]
pub struct Refused {
    /// The first fault.
    pub fault: SpecFault,
    /// The libraries whose texts were read, in the order of their numbers from 2 on, each as it was
    /// spelled where it was mentioned first.
    pub libraries: Vec<Name>,
    /// The data, once the types are flattened.
    pub flat: Option<Flat>,
    /// The specification, once its scopes are resolved.
    pub spec: Option<Spec>,
}

//! What the names in a behaviour are looked up in.

use behaviour_tree::Process;
use lotos_base::Name;
use sort_terms::Signature;

/// The names of processes, by their numbers.
#[derive(Drop)]
pub enum ProcessNames<'a> {
    /// The names that they have.
    Own(&'a Vec<Process>),
    /// Other names that they are given.
    Given(&'a Vec<Name>),
}

/// The signature, the names of gates and of processes, and the constant `true` where it is left
/// out.
#[derive(Drop)]
pub struct Naming<'a> {
    /// The signature.
    pub signature: &'a Signature,
    /// The names of all gates, by their numbers.
    pub gates: &'a Vec<Name>,
    /// The names of the processes.
    pub processes: ProcessNames<'a>,
    /// The number of the constant `true` that is left out as the right side of a premiss; `None`
    /// where both sides of each premiss are written.
    pub truth: Option<u32>,
}

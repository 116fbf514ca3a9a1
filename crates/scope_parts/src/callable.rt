//! One process as its callers see it.

use lotos_base::Name;

/// A process as its callers see it.
#[derive(Drop)]
pub struct Callable {
    /// The name.
    pub name: Name,
    /// The number.
    pub number: u32,
    /// How many gates it has.
    pub gates: u32,
    /// The sorts of its parameters, None for one that the data lack.
    pub sorts: Vec<Option<u32>>,
}

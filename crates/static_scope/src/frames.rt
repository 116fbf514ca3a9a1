//! What is left of a `where`.

use scope_parts::bindings::Bindings;
use syntax_trees::InnerText;

/// A `where` that the walk has come to.
#[derive(Drop)]
pub struct Frame<'t> {
    /// The declarations that are left.
    pub rest: &'t [InnerText],
    /// The names of its processes before them.
    pub before: Bindings,
    /// How many processes are visible outside of it.
    pub outside: usize,
}

//! Values with their sizes.

ghost use Rattle.sort_terms.specs.TermView.{term_of};
ghost use Rattle.std.specs.Prelude.{◌≡◌};
ghost use Rattle.value_lists.specs.TermOrder.{term_size};

use sort_terms::Term;

/// A term with its size.
#[derive(Drop)]
pub struct Value {
    /// The term.
    pub term: Term,
    /// The number of its operations.
    pub size: u32,
    pub ghost sized: { term_size (term_of term) ≡ size },
}

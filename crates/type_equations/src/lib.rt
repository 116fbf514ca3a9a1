//! The equations that a type declares itself: read over a signature, numbered by their variables,
//! put into a presentation (ISO 8807:1989, data part).
#![tactic(auto)]

pub mod collecting;
pub mod declaring;
pub mod equation_laws;
pub mod equation_scope;
pub mod formal;
pub mod made;
pub mod making;
pub mod numbering;
pub mod own;
pub mod premisses;
pub mod section_sides;
pub mod sides;
pub mod signatures;
pub mod sorts;
pub mod truth;
pub mod twins;

pub use declaring::declare_equations;
pub use equation_laws::sides_make_an_equation;
pub use equation_scope::EquationScope;
pub use formal::check_section;
pub use made::equation_made;
pub use own::add_section;
pub use premisses::check_premisses;
pub use sides::read_sides;
pub use signatures::{signature_copy, signature_with_twins};
pub use truth::sort_with_truth;

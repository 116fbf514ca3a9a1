//! Substitutions, matching, unification and numbering of variables, and parts of terms (Baader and
//! Nipkow, "Term Rewriting and All That", 3.1, 4.5 and 4.7).
#![tactic(auto)]

pub mod bindings;
pub mod differences;
pub mod instances;
pub mod laws;
pub mod matching;
pub mod noting;
pub mod numbers;
pub mod occurrence;
pub mod paths;
pub mod renumbering;
pub mod solving;
pub mod substitutions;
pub mod unification;

pub use instances::apply;
pub use matching::matches;
pub use numbers::{apart, by_appearance};
pub use paths::{put_at, subterm};
pub use renumbering::renumbered;
pub use substitutions::Subst;
pub use unification::unify;

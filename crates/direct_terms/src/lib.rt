//! What only a direct call shows of terms: matching, unification, their parts and their order, with
//! arguments that no run gives. It holds tests, and what the tests of `direct_data` need as well:
//! the data of types, and the text of a term. Every answer was worked out by hand.
#![tactic(auto)]

#[cfg(test)]
mod one_sort;
#[cfg(test)]
mod plain_terms;
pub mod showing;
#[cfg(test)]
mod terms;
pub mod type_data;
#[cfg(test)]
mod unifiers;

pub use lotos_grammar::{read_order, read_terms, read_types};
pub use showing::{push_shown, shown};
pub use type_data::data;
pub use type_flatten::{flatten, requirements};

//! Predictive parsing by a table, exact to the first token that no sentence can have, and what is
//! built from a derivation by what each row says.
#![tactic(auto)]

mod actions;
mod check;
mod choice;
mod fault;
mod fold;
pub mod fold_laws;
mod grammar;
pub mod laws;
mod lookup;
mod marks;
mod parser;
mod prediction;
mod range;
mod relation;
mod symbol;
mod table;
mod written;

pub use actions::Actions;
pub use fault::{ParseFault, TableFault};
pub use fold::fold_derivation;
pub use grammar::{Grammar, Tree};
pub use parser::parse;
pub use range::is_well_formed;
pub use symbol::{Row, Symbol};
pub use written::{WrittenRow, WrittenTable};

//! What the parts of a text are built into, and what the rows of names and terms build; the
//! derivation of a text, or its lexical fault or the token to blame, with the law that the sentences
//! of the grammar's rows are those of its definition by subject.
#![tactic(auto)]

pub mod behaviours_values;
pub mod definitions_values;
mod derivations;
mod end;
pub mod equations_values;
pub mod fault;
pub mod kind;
pub mod laws;
pub mod names;
pub mod names_values;
pub mod reading_laws;
pub mod renamings_values;
pub mod starts_values;
pub mod terms;
pub mod terms_values;
pub mod types_values;
pub mod value;

pub use derivations::{Derived, derive};
pub use fault::ReadFault;
pub use kind::TextKind;
pub use value::{Part, Value};

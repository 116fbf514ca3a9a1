//! The presentation of a type that actualises another one, the formal equations of types, and what
//! an actualisation requires: the images of the formal equations of its base (ISO 8807:1989, data
//! part).
#![tactic(auto)]

pub mod actualisation_laws;
pub mod actualising;
pub mod bringing;
pub mod equation_bringing;
pub mod formal_lists;
pub mod formal_types;
pub mod own_formals;
pub mod refusals;
pub mod type_formals;

pub use actualisation_laws::actualised_data_are_well_formed;
pub use actualising::{actualise, actualise_into};
pub use bringing::NewNumbers;
pub use equation_bringing::bring_equations;
pub use formal_lists::FormalUnion;
pub use formal_types::FormalTypes;
pub use type_equations::{declare_equations, signature_with_twins};
pub use type_formals::{formals_of_type, required_of_type};
pub use type_renaming::rename;

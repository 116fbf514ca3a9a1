//! The flattening of the types of a text (ISO 8807:1989, data part): the presentation of each type,
//! the data of those in which nothing is formal, and what actualisations require. Laws say of
//! unions, renamings and actualisations what their definitions come to; flattened data are well
//! formed, and flattening comes to one thing. Each fault of types comes where its cause stands and
//! none stands before it; types are flattened in the order of the text as far as mentions allow;
//! and the variables of an equation are renamed apart and numbered by first appearance.
#![tactic(auto)]

ghost use Rattle.type_flatten.specs.Contributions.{ContributionsAreExact};
ghost use Rattle.type_flatten.specs.ImagesOfRenamings.{RenamingsAreImages};
ghost use Rattle.type_flatten.specs.PartsOfActualisations.{ActualisationsContain};
ghost use Rattle.type_flatten.specs.UnionBounds.{UnionsAreBounds};

pub mod equation_laws;
pub mod fault_laws;
pub mod flat_data;
pub mod flattened_data_laws;
pub mod flattening;
pub mod flattening_laws;
pub mod one_type;
pub mod order_laws;
pub mod requiring;

pub use flattened_data_laws::flattened_data_are_well_formed;
pub use flattening::flatten;
pub use requiring::requirements;
pub use type_definitions::TypeFault;

/// The union of what is mentioned has each presentation under maps that are one to one, keeps first
/// appearances, and has nothing else.
pub fn unions_are_bounds()
    ensures { UnionsAreBounds }
{}

/// The types whose union is made are those in which nothing is formal; one alone gives its own
/// signature.
pub fn contributions_are_exact()
    ensures { ContributionsAreExact }
{}

/// The presentation of a renaming is the image of its base, in which what is different stays so.
pub fn renamings_are_images()
    ensures { RenamingsAreImages }
{}

/// The presentation of an actualisation has that of the actual types and the image of what is not
/// formal in the base, and nothing else.
pub fn actualisations_contain()
    ensures { ActualisationsContain }
{}

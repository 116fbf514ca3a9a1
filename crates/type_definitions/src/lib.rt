//! Definitions of presentations and of what flattening the types of a text gives or refuses
//! (ISO 8807:1989, data part), the faults as the code answers them, images of terms, operations and
//! equations under new numbers, and the order in which types that mention one another are
//! flattened.
#![tactic(auto)]

pub mod cycles;
pub mod equation_images;
pub mod examples;
pub mod graph;
pub mod images;
pub mod laws;
pub mod name_faults;
pub mod operation_images;
pub mod order;
mod reach;
pub mod resolving;
pub mod type_faults;
pub mod type_names;
pub mod type_order;
pub mod type_texts;
pub mod walk;

ghost use Rattle.type_definitions.specs.ActualisationExamples.{ActualisationExamples};
ghost use Rattle.type_definitions.specs.DeclarationExamples.{DeclarationExamples};
ghost use Rattle.type_definitions.specs.MentionFaults.{MentionFaultsAreUnique};
ghost use Rattle.type_definitions.specs.RenamingExamples.{RenamingExamples};
ghost use Rattle.type_definitions.specs.RequirementExamples.{RequirementExamples};
ghost use Rattle.type_definitions.specs.UnionExamples.{UnionExamples};
ghost use Rattle.type_definitions.specs.UnionLaws.{FirstAppearancesAreKept, UnionsKeepAndAdd};

pub use equation_images::image_of_equation;
pub use graph::MentionGraph;
pub use images::image;
pub use name_faults::TypeNameFault;
pub use operation_images::{number_at, op_image};
pub use order::{Ordered, flattening_order};
pub use type_faults::TypeFault;
pub use type_names::TypeNames;
pub use type_order::{TypeOrder, order_types};
pub use type_texts::TypeText;

/// Lists that keep first appearances keep what was there at its position, have each that comes,
/// and nothing else.
pub fn with_new_keeps_first_appearances()
    ensures { FirstAppearancesAreKept }
{}

/// A union keeps the numbers of its first presentation, has the sorts and operations of the second,
/// and nothing else.
pub fn unions_keep_and_add()
    ensures { UnionsKeepAndAdd }
{}

/// The union of two small presentations, and the fault of one with a clash.
pub fn union_examples()
    ensures { UnionExamples }
{}

/// A small renaming and a small actualisation, and the faults of some others.
pub fn renaming_examples()
    ensures { RenamingExamples }
{}

/// What a small type declares, the faults of some others, and the variables of an equation.
pub fn declaration_examples()
    ensures { DeclarationExamples }
{}

/// Formal operations with their actual ones, and two formal sorts that get one actual sort.
pub fn actualisation_examples()
    ensures { ActualisationExamples }
{}

/// The fault of the names of types that counts is one alone.
pub fn mention_faults_are_unique()
    ensures { MentionFaultsAreUnique }
{}

/// What a bag of elements requires once numbers fill it, and the formal equations of unions, of a
/// renaming and of an actualisation by what is formal.
pub fn requirement_examples()
    ensures { RequirementExamples }
{}

//! The presentations of types: their sorts, operations and equations, each once and found by keys,
//! and what is formal; what a type declares itself, the union of those that it mentions, and the
//! pairs of a renaming or an actualisation (ISO 8807:1989, data part).
#![tactic(auto)]

ghost use Rattle.type_presentations.specs.ImagesOfEquations.{EquationImagesAreWellFormed};

pub mod actual_sort_pairs;
pub mod checking;
pub mod clashes;
pub mod declaring;
pub mod equation_keys;
pub mod equation_list;
pub mod equation_list_laws;
pub mod faults;
pub mod growing_equations;
pub mod growing_operations;
pub mod growing_sorts;
pub mod key_laws;
pub mod key_set;
pub mod keys;
pub mod marking;
pub mod marks;
pub mod member_list;
pub mod members;
pub mod mentions;
pub mod names;
pub mod new_names;
pub mod operation_pairs;
pub mod operations;
pub mod pair_index;
pub mod presentations;
pub mod presented;
pub mod sections;
pub mod sort_numbers;
pub mod sort_pairs;
pub mod sorts;
pub mod unions;

pub use actual_sort_pairs::look_at_actual_sort_pairs;
pub use declaring::declare;
pub use equation_keys::equation_key;
pub use equation_list::EquationList;
pub use equation_list_laws::equation_keys_tell;
pub use growing_equations::grow_by_equation;
pub use growing_operations::grow_by_op;
pub use growing_sorts::grow_by_sort;
pub use key_laws::keys_tell;
pub use key_set::KeySet;
pub use keys::{profile_key, twin_key};
pub use marking::{mark_op, mark_sort};
pub use marks::Marks;
pub use member_list::{MemberList, OperationList, SortList};
pub use members::Keyed;
pub use mentions::{Mention, union_of_mentions};
pub use names::NamePositions;
pub use operation_pairs::look_at_op_pairs;
pub use pair_index::PairIndex;
pub use presentations::Presentation;
pub use presented::PresentedTypes;
pub use sections::SectionTexts;
pub use sort_pairs::look_at_sort_pairs;
pub use unions::join;

/// Under maps from one signature to another the image of a well-formed equation of the one is a
/// well-formed equation of the other; where the numbers stay, it is the same.
pub fn equation_images_are_well_formed()
    ensures { EquationImagesAreWellFormed }
{}

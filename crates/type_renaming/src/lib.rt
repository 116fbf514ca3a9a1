//! The presentation of a type that renames another one; what an actualisation brings from its base,
//! and the actual sorts and operations of what is formal there (ISO 8807:1989, data part).
#![tactic(auto)]

pub mod actual_ops;
pub mod actual_sorts;
pub mod actuals;
pub mod came;
pub mod coming_laws;
pub mod coming_operations;
pub mod coming_sorts;
pub mod equations;
pub mod formal_names;
pub mod makers;
pub mod operations;
pub mod profile_index;
pub mod renamer;
pub mod renaming;
pub mod sorts;
pub mod sought;
pub mod source;

pub use actual_ops::actual_op_numbers;
pub use actual_sorts::actual_sort_numbers;
pub use came::Came;
pub use coming_laws::condensed_members_tell_clashes;
pub use coming_operations::bring_ops;
pub use coming_sorts::bring_sorts;
pub use equations::numbers_below;
pub use formal_names::{formal_op_names, formal_sort_names};
pub use makers::Makers;
pub use profile_index::ProfileIndex;
pub use renaming::rename;
pub use source::Source;

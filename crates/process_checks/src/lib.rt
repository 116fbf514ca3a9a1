//! Checks of the processes of a specification: whether functionalities agree (ISO 8807:1989, static
//! semantics), and whether recursion is guarded, with ranks that show it. Its tests are whole
//! texts, in `resolution_cases`.
#![tactic(auto)]

pub mod calls;
pub mod cycles;
pub mod distances;
pub mod functionalities;
pub mod graph;
pub mod laws;
pub mod mismatches;
pub mod rank_table;
pub mod ranking;
pub mod search;

pub use mismatches::{ExitFault, exits};
pub use rank_table::{RankFault, Ranks};
pub use ranking::ranks;

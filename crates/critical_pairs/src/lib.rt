//! The critical pairs of rules: the superpositions of one left side on another, and whether all
//! pairs join (Baader and Nipkow, "Term Rewriting and All That", chapter 6).
#![tactic(auto)]

pub mod candidates;
pub mod contracting;
pub mod finding;
pub mod joined;
pub mod joining;
pub mod listing;
pub mod overlapping;
pub mod overlaps;
pub mod pair;
pub mod pair_fault;
pub mod places;

pub use joined::Joined;
pub use joining::all_join;
pub use listing::pairs;
pub use overlapping::overlap;
pub use overlaps::Overlap;
pub use pair::Pair;
pub use pair_fault::PairFault;

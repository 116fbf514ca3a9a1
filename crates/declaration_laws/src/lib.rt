//! Nothing executable: laws of what texts declare, and of the places in them. Gates and variables
//! are numbered in the order of the text, and the events of a specification are at gates that it
//! declares; in texts that were read the places rise along them, and each list of gates has a gate.
#![tactic(auto)]

pub mod gate_lists;
pub mod gates;
pub mod numbers;
pub mod rising_places;
pub mod same_data;

//! The theory of certificates: when behaviours of two specifications are strongly bisimilar, what a
//! certificate of it is, and what one of an induction is; when each is right, and what it shows.
//! The definitions stand in `specs/`. The functions here carry laws about them as their contracts
//! and do nothing.
#![tactic(auto)]

pub mod agreement;
pub mod bisimulations;
pub mod certificates;
pub mod identity;
pub mod induction_cases;
pub mod induction_certificates;
pub mod same_data;

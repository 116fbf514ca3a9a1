//! Certificates of induction that were read, and whether they are right: each line of a tree of
//! patterns and of a proof by cases deals with what is left first (ISO 8807:1989, data part; Baader
//! and Nipkow, "Term Rewriting and All That", 4.2).
#![tactic(auto)]

pub mod at_line;
pub mod cases;
pub mod certificates;
pub mod checking;
pub mod covers;
pub mod hypotheses;
pub mod lacks;
pub mod lemmas;
pub mod line_fault;
pub mod meeting;
pub mod operations;
pub mod patterns;
pub mod piles;
pub mod setting;
pub mod shown;
pub mod splits;
pub mod statements;
pub mod trees;
pub mod uses;

pub use certificate_theory::induction_certificates::{
    first_faults_are_one, met_requirements_hold, right_certificates_hold,
};

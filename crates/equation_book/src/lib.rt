//! Data whose equality is decided: the equations as rules that end and all of whose critical pairs
//! join, and the book that says which terms are equal (ISO 8807:1989, data part: equality; Baader
//! and Nipkow, "Term Rewriting and All That", chapters 4 and 6).
#![tactic(auto)]

pub mod book;
pub mod book_fault;
pub mod deciding;
mod depths;
pub mod opening;

pub use book::Book;
pub use book_fault::{BookFault, NotOpened};
pub use term_store::{Store, normalise};

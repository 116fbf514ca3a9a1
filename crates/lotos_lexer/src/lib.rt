//! The tokens of a text, each with its kind, its place and its bytes.
#![tactic(auto)]

pub mod kinds;
pub mod laws;
mod lexemes;
mod lexing;
mod pieces;
mod positions;
mod spellings;
pub mod tokens;

pub use lexing::lex;
pub use tokens::{LexFault, Token};

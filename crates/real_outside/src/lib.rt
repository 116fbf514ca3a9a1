//! The real files, input and output, as the shelf, the source and the sink of a run.
#![tactic(auto)]

pub mod file_shelf;
pub mod in_source;
pub mod loops;
pub mod out_sink;

pub use file_shelf::FileShelf;
pub use in_source::InSource;
pub use out_sink::OutSink;

#[cfg(test)]
mod tests;

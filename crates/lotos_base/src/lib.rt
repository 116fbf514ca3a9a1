//! What every crate of `lotos` stands on: the outside (a source, a sink, a shelf of texts) as
//! traits whose contracts say what each call does, the three objects in memory that meet them,
//! places, names, written terms and the limit on texts, and the algebra of terms: signatures,
//! terms, the equality that equations derive, and the laws of a canon. Its `proofs/` also have the
//! laws of lists, options, numbers and truth values that the standard library does not have and
//! several crates need, a file a subject (`Truth`, `Options`, `Numbers`, `Digits`, `Bytes`,
//! `Members`, `Tests`, `Pieces`).
#![tactic(auto)]

pub mod canons;
pub mod counts;
pub mod equality;
pub mod examples;
pub mod faults;
pub mod limits;
pub mod memory_shelf;
pub mod memory_sink;
pub mod memory_source;
pub mod names;
pub mod outside;
pub mod paths;
pub mod places;
pub mod plain;
mod schedule;
pub mod signatures;
pub mod substitutions;
pub mod tally;
pub mod terms;
pub mod written_laws;
pub mod written_terms;

pub use counts::counted;
pub use faults::{Failed, GetFault, NoMemory, PutFault};
pub use limits::TEXT_LIMIT;
pub use memory_shelf::MemShelf;
pub use memory_sink::MemSink;
pub use memory_source::MemSource;
pub use names::Name;
pub use outside::{Shelf, Sink, Source};
pub use places::Place;
pub use tally::Tally;
pub use written_terms::{Form, OrderItem, Profile, Written};

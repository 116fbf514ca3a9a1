//! Precedences of operations, the lexicographic path order and orientation (Baader and Nipkow,
//! "Term Rewriting and All That", 5.4 and 7.1).
#![tactic(auto)]

pub mod compared;
pub mod comparing;
pub mod head_index;
pub mod heads;
mod indexing;
pub mod items;
pub mod laws;
pub mod listing;
pub mod listings;
pub mod order_fault;
pub mod orient_fault;
pub mod orienting;
pub mod precedence;
pub mod ranking;
pub mod rule;
pub mod rules;
pub mod status;
pub mod suiting;
pub mod turning;

pub use comparing::greater;
pub use order_fault::OrderFault;
pub use orient_fault::OrientFault;
pub use orienting::orient;
pub use precedence::Precedence;
pub use ranking::ranks;
pub use rule::Rule;
pub use rules::Rules;
pub use status::Status;

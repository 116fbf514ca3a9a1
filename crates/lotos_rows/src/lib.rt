//! The grammar of LOTOS: as a definition, which tokens of a text are which tree; its rows, by
//! subject; and the four grammars of its texts.
#![tactic(auto)]

pub mod behaviours;
pub mod definitions;
pub mod equations;
mod grammars;
mod kept;
pub mod names;
pub mod renamings;
mod row_names;
pub mod specification;
pub mod starts;
mod table;
pub mod terms;
pub mod types;

pub use grammars::{order_grammar, specification_grammar, terms_grammar, types_grammar};
pub use kept::{KEPT, is_kept_kind, kept_tokens_stand_in_front};
pub use lotos_lexer::Token;
use lotos_lexer::kinds;
pub use row_names::{RowName, row_name};

/// The bit of the end in the set of tokens that predict a row, behind those of the tokens.
const END: u64 = 1 << kinds::COUNT;

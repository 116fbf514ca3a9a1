//! The reading of texts of LOTOS (ISO 8807:1989, syntax; ACT ONE's types with it): specifications,
//! the items of libraries, order files and lists of terms; the types of a text with those of the
//! libraries that it mentions.
#![tactic(auto)]

mod faults;
mod gathered;
mod gathering;
pub mod laws;
mod reading;
mod texts;

pub use faults::LibraryFault;
pub use gathered::Gathered;
pub use gathering::gather_types;
pub use reading::{read_order, read_spec, read_terms, read_types};
pub use syntax_trees::{
    BehForm, BehText, EqText, EqnsText, ExitText, GateText, GroupText, InnerText, ItemBody,
    ItemText, Named, OfferText, OpText, PairText, ProcessText, Sign, SpecText, TestText, VarText,
    discard, group,
};
pub use text_depth::{ReadFault, texts_have_one_outcome};

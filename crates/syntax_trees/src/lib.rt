//! The syntax trees of a text of LOTOS (ISO 8807:1989, syntax; ACT ONE's types with it), as they
//! are read and before anything is resolved, and how deep their nodes stand, which is found before
//! any tree is made. Names stand as they are spelled, terms as they are written.
#![tactic(auto)]

mod behaviour_grouping;
pub mod behaviours;
pub mod definitions;
mod depth_grouping;
pub mod depth_laws;
mod discarding;
pub mod equations;
pub mod firsts;
pub mod grouping;
pub mod items;
pub mod laws;
mod levels;
pub mod named;
mod taking;

pub use behaviour_grouping::group;
pub use behaviours::{BehForm, BehText, ExitText, GateText, OfferText, Sign};
pub use definitions::{InnerText, ProcessText, SpecText};
pub use discarding::discard;
pub use equations::{EqText, EqnsText, GroupText, TestText};
pub use firsts::FirstNodes;
pub use items::{ItemBody, ItemText, OpText, PairText};
pub use named::{Named, VarText};

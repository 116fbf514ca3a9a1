//! Drafts of the moves of a behaviour: what each rule of the dynamic semantics makes of the drafts
//! of its parts, and their lists (ISO 8807:1989, behaviour expressions).
#![tactic(auto)]

pub mod action_laws;
pub mod actions;
pub mod copies;
pub mod draft_list_laws;
pub mod environments;
pub mod exits;
pub mod form_laws;
pub mod gates;
pub mod laws;
pub mod listing_laws;
pub mod meeting;
pub mod offers;
pub mod parting;
pub mod parts;
pub mod rows;
pub mod rule;
pub mod rules;
pub mod sides;
pub mod turned;
pub mod variants;

pub use actions::action_draft;
pub use event_offers::labels::{label_copy, values};
pub use event_offers::renaming::Renaming;
pub use event_offers::{Draft, Entry, Menu};
pub use exits::exit_draft;
pub use gates::{Call, at_gates, calls_beside, copies_beside};
pub use parting::{SideDrafts, parted};
pub use parts::{beside, either, inner_draft, one};
pub use rule::Rule;
pub use sides::both_sides;
pub use variants::Variant;

//! A session that answers lines.

use session_log::{Book, MenuMaker, Session};
use sort_terms::{Reader, Signature};

/// A session that answers lines.
#[derive(Drop)]
pub struct HistoryLines<'a, M: MenuMaker> {
    /// The signature of the data, by which terms are printed.
    pub signature: &'a Signature,
    /// What reads terms over it.
    pub reader: Reader<'a>,
    /// The specification, the state with its menu, and the steps that led there.
    pub session: Session<M>,
    /// The data, whose equality is decided.
    pub book: Book,
}

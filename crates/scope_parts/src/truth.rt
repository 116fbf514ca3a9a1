//! The sort `Bool` with its constant `true`.

use sort_terms::Op;
use std::rc::Rc;

/// The sort `Bool` and the constant `true`, with its profile.
#[derive(Drop)]
pub struct Truth {
    /// The sort.
    pub sort: u32,
    /// The number of the constant.
    pub constant: u32,
    /// The constant.
    pub profile: Rc<Op>,
}

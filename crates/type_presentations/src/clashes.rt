//! What clashes in two presentations together.

/// Which members clash in two presentations that were put together.
#[derive(Clone, Copy)]
pub struct Clashes {
    /// Whether two different sorts have one name.
    pub sorts: bool,
    /// Whether two different operations have one name, form and profile.
    pub ops: bool,
}

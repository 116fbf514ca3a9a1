//! One binding of a name.

/// A name in small letters with the number that it is bound to, and the number that it was bound to
/// before, if it was.
#[derive(Drop)]
pub struct Bound {
    /// The name.
    pub key: Vec<u8>,
    /// The number.
    pub number: usize,
    /// What this binding hides.
    pub hidden: Option<usize>,
}

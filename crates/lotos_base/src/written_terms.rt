//! Terms as they are written, before any sort is known.

use crate::names::Name;
use crate::places::Place;

/// Where an operation stands: before its arguments, or between two of them.
#[derive(Clone, Copy, Debug, PartialEq, Eq)]
pub enum Form {
    /// `f(x, y)`, or a constant.
    Prefix,
    /// `x + y`.
    Infix,
}

/// A term as it is written.
#[derive(Debug, Drop)]
pub struct Written {
    /// The place of the operation's name.
    pub place: Place,
    /// The name of a variable or of an operation.
    pub name: Name,
    /// How the name is used here.
    pub form: Form,
    /// The arguments in text order.
    pub args: Vec<Written>,
    /// Every sort that an `of` put on this term, inner brackets first.
    pub sorts: Vec<(Place, Name)>,
}

/// The argument sorts and the result sort of an operation, by name.
#[derive(Debug, Drop)]
pub struct Profile {
    /// The argument sorts in order.
    pub arguments: Vec<Name>,
    /// The result sort.
    pub result: Name,
}

/// One item of an order file: an operation's name, with a profile and a status where they were
/// given.
#[derive(Debug, Drop)]
pub struct OrderItem {
    /// The place of the name.
    pub place: Place,
    /// The name, without underscores round it.
    pub name: Name,
    /// Whether the item was written `f` or `_f_`.
    pub form: Form,
    /// The profile, or none where the item stands for every operation of the name and form.
    pub profile: Option<Profile>,
    /// The name of the status and its place, or none where no status was written.
    pub status: Option<(Place, Name)>,
}

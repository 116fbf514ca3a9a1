//! The law of the order of flattening. The function carries it as its contract and does nothing.

ghost use Rattle.type_flatten.specs.TextOrder.{FlatteningFollowsTheText};

/// In the order of flattening each type stands once, behind all that it mentions; and of two types
/// the one that stands first in the text stands first, unless the other is mentioned, at once or by
/// others, by a type up to there.
pub fn flattening_follows_the_text()
    ensures { FlatteningFollowsTheText }
{}

//! How deep the walk of a step may go.

use behaviour_tree::Shape;
use lotos_base::NoMemory;

// A rule of a step takes up to 2,400 bytes of the stack, a call twice as much, so that 8 MiB hold
// these.
const MOST: u32 = 2_500;

/// Answers `NoMemory` where more rules nest in the shape than a stack of 8 MiB surely holds on the
/// walk through a state: more than 2,500, each call counted twice.
pub fn checked_depth(shape: &Shape) -> Result<(), NoMemory> {
    if nests_within(shape, MOST) {
        Ok(())
    } else {
        Err(NoMemory)
    }
}

// Whether the rules of the shape nest within so many levels.
fn nests_within(shape: &Shape, levels: u32) -> bool {
    let Some(below) = levels.checked_sub(taken(shape)) else {
        return false;
    };
    match shape {
        Shape::Act | Shape::Quit | Shape::Inner => true,
        Shape::Both(left, right) => nests_within(left, below) && nests_within(right, below),
        Shape::Guarded(part)
        | Shape::Left(part)
        | Shape::Right(part)
        | Shape::Hidden(part)
        | Shape::Enabled(part)
        | Shape::Passed(part)
        | Shape::Bound(part)
        | Shape::Value(part)
        | Shape::Gate(_, part)
        | Shape::Called(part)
        | Shape::Relabelled(part) => nests_within(part, below),
    }
}

// How many levels the rule at the head of the shape counts.
fn taken(shape: &Shape) -> u32 {
    match shape {
        Shape::Called(_) => 2,
        _ => 1,
    }
}

//! The variants of shapes with one part.

ghost use Rattle.behaviour_tree.specs.MoveView.{shape_of};
ghost use Rattle.draft_parts.specs.VariantView.{variant_of};
ghost use Rattle.std.specs.Prelude.{◌≡◌, IfOk};

use behaviour_tree::Shape;
use behaviour_tree::boxes::shared;
use lotos_base::NoMemory;
use std::alloc::Global;
use std::rc::Rc;

/// A variant of shapes with one part.
#[derive(Clone, Copy, Debug)]
pub enum Variant {
    /// A guard that holds.
    Guarded,
    /// The left side of a binary behaviour.
    Left,
    /// Its right side.
    Right,
    /// Under `hide`.
    Hidden,
    /// A left side of `>>` that ended.
    Enabled,
    /// A left side of `>>` that goes on.
    Passed,
    /// Under `let`.
    Bound,
    /// Under a value choice.
    Value,
    /// A gate choice, by the position of the gate from 0.
    Gate(u32),
    /// A called process.
    Called,
    /// Under a relabelling.
    Relabelled,
}

impl Variant {
    /// The shape of this variant with this part.
    pub fn over(self, alloc: Global, part: Shape) -> Result<Shape, NoMemory>
        ensures { IfOk result (λ s. shape_of s ≡ variant_of self (shape_of part)) }
    {
        let part = shared(alloc, part)?;
        Ok(self.around(part))
    }

    /// The shape of this variant with this part, which others may have too.
    pub fn around(self, part: Rc<Shape>) -> Shape
        ensures { shape_of result ≡ variant_of self (shape_of part.value) }
    {
        match self {
            Variant::Guarded => Shape::Guarded(part),
            Variant::Left => Shape::Left(part),
            Variant::Right => Shape::Right(part),
            Variant::Hidden => Shape::Hidden(part),
            Variant::Enabled => Shape::Enabled(part),
            Variant::Passed => Shape::Passed(part),
            Variant::Bound => Shape::Bound(part),
            Variant::Value => Shape::Value(part),
            Variant::Gate(position) => Shape::Gate(position, part),
            Variant::Called => Shape::Called(part),
            Variant::Relabelled => Shape::Relabelled(part),
        }
    }
}

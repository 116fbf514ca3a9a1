//! Copies of shapes.

ghost use Rattle.behaviour_tree.specs.MoveView.{shape_of};
ghost use Rattle.std.specs.Prelude.{◌≡◌, IfOk};

use crate::boxes::owner;
use crate::moves::Shape;
use lotos_base::NoMemory;

impl Shape {
    /// The same shape. Its parts are shared.
    pub fn copy(&self) -> Result<Shape, NoMemory>
        ensures { IfOk result (λ s. shape_of s ≡ shape_of self.now) }
    {
        match self {
            Shape::Act => Ok(Shape::Act),
            Shape::Quit => Ok(Shape::Quit),
            Shape::Inner => Ok(Shape::Inner),
            Shape::Guarded(part) => Ok(Shape::Guarded(owner(part)?)),
            Shape::Left(part) => Ok(Shape::Left(owner(part)?)),
            Shape::Right(part) => Ok(Shape::Right(owner(part)?)),
            Shape::Both(left, right) => {
                let left = owner(left)?;
                Ok(Shape::Both(left, owner(right)?))
            }
            Shape::Hidden(part) => Ok(Shape::Hidden(owner(part)?)),
            Shape::Enabled(part) => Ok(Shape::Enabled(owner(part)?)),
            Shape::Passed(part) => Ok(Shape::Passed(owner(part)?)),
            Shape::Bound(part) => Ok(Shape::Bound(owner(part)?)),
            Shape::Value(part) => Ok(Shape::Value(owner(part)?)),
            Shape::Gate(position, part) => Ok(Shape::Gate(*position, owner(part)?)),
            Shape::Called(part) => Ok(Shape::Called(owner(part)?)),
            Shape::Relabelled(part) => Ok(Shape::Relabelled(owner(part)?)),
        }
    }
}

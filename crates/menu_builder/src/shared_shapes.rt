//! Shapes below the sides of choices, each made once, so that those with a part in common share it.

ghost use Rattle.behaviour_semantics.specs.Shape.{act, inner_step, quit, Shape as ShapeValue};
ghost use Rattle.behaviour_tree.specs.MoveView.{shape_of};
ghost use Rattle.menu_builder.specs.SharedShapes.{
  AreShared,
  AreTold,
  below_all,
  IsSharedShape,
  IsToldIn,
  ReachesShape,
  shape_in,
  shapes_in,
};
ghost use Rattle.draft_parts.specs.VariantView.{variant_of};
ghost use Rattle.std.specs.Prelude.{◌≡◌, ◌<◌, ◌∷◌, ◌++◌, [], IfOk, IfSome, List, OnOk, Some, ℕ, length, slice_get};

use behaviour_tree::Shape;
use behaviour_tree::boxes::{owner, shared};
use draft_parts::Variant;
use lotos_base::NoMemory;
use std::alloc::Global;
use std::rc::Rc;

// So many shapes are made to be shared for one that is asked for. A choice in a row asks for one
// that is missing, and a choice of such choices for two.
const MOST_MADE: usize = 8;

/// A shape, and where the shapes stand of which it is the left or the right side.
#[derive(Debug, Drop)]
pub struct SharedShape {
    shape: Rc<Shape>,
    left: Option<usize>,
    right: Option<usize>,
}

/// The shapes without parts: those of an action, of `exit` and of `i`.
pub fn first_shapes(alloc: Global) -> Result<Vec<SharedShape>, NoMemory>
    ensures { IfOk result (λ made. AreShared made.items) }
{
    let mut shapes = Vec::new(alloc);
    push_shape(&mut shapes, Shape::Act)?;
    push_shape(&mut shapes, Shape::Quit)?;
    push_shape(&mut shapes, Shape::Inner)?;
    Ok(shapes)
}

/// The shape below the variants, the first of which is the outermost. What it has in common with
/// those that were asked for before is shared.
pub fn below_path(
    shapes: &mut Vec<SharedShape>,
    path: &[Variant],
    shape: Shape,
) -> Result<Shape, NoMemory>
    requires { AreShared shapes.old.items }
    ensures { IfOk result (λ s. IsSharedShape shapes.new.items
        (below_all path.now (shape_of shape)) (shape_of s)) }
{
    match shape {
        Shape::Act => shared_below(shapes, path, 0),
        Shape::Quit => shared_below(shapes, path, 1),
        Shape::Inner => shared_below(shapes, path, 2),
        other => all_over(*shapes.allocator(), path, other),
    }
}

// The shape that stands there, below the variants. Only the innermost of those that are missing are
// made to be shared, so that where few have a part in common few are kept.
fn shared_below(
    shapes: &mut Vec<SharedShape>,
    path: &[Variant],
    start: usize,
) -> Result<Shape, NoMemory>
    requires shared { AreShared shapes.old.items }
    requires within { start < length shapes.old.items }
    ensures { IfOk result (λ made. (s : ShapeValue)
        → slice_get (shapes_in shapes.old.items) start ≡ Some s
        → IsSharedShape shapes.new.items (below_all path.now s) (shape_of made)) }
{
    let most = shapes.len().saturating_add(MOST_MADE);
    let mut reached = start;
    let mut left = path.len();
    while left > 0 && shapes.len() < most {
        left -= 1;
        reached = over(shapes, reached, path[left])?;
    }
    let shape = shapes[reached].shape.copy()?;
    all_over(*shapes.allocator(), &path[..left], shape)
}

// The shape below the variants, with nothing shared.
fn all_over(alloc: Global, path: &[Variant], shape: Shape) -> Result<Shape, NoMemory>
    ensures { IfOk result (λ s. shape_of s ≡ below_all path.now (shape_of shape)) }
{
    let mut made = shape;
    let mut left = path.len();
    while left > 0 {
        left -= 1;
        made = path[left].over(alloc, made)?;
    }
    Ok(made)
}

// Where the shape of the variant stands whose part stands there. It is made where it is missing.
fn over(shapes: &mut Vec<SharedShape>, part: usize, variant: Variant) -> Result<usize, NoMemory>
    requires shared { AreShared shapes.old.items }
    requires within { part < length shapes.old.items }
    ensures { IfOk result (λ k. ReachesShape (variant_of variant) shapes.old.items part
        shapes.new.items k) }
{
    match shapes[part].told(variant) {
        Some(found) => Ok(found),
        None => made_over(shapes, part, variant),
    }
}

// The shape of the variant is made whose part stands there, and told of there.
fn made_over(
    shapes: &mut Vec<SharedShape>,
    part: usize,
    variant: Variant,
) -> Result<usize, NoMemory>
    requires shared { AreShared shapes.old.items }
    requires within { part < length shapes.old.items }
    ensures { IfOk result (λ k. ReachesShape (variant_of variant) shapes.old.items part
        shapes.new.items k) }
{
    let made = shapes.len();
    let owned = owner(&shapes[part].shape)?;
    push_shape(shapes, variant.around(owned))?;
    shapes[part].tell(variant, made);
    Ok(made)
}

// One more shape, which tells of no other.
fn push_shape(shapes: &mut Vec<SharedShape>, shape: Shape) -> Result<(), NoMemory>
    ensures kept { OnOk result (shapes_in shapes.new.items
        ≡ shapes_in shapes.old.items ++ shape_of shape ∷ []) }
    ensures told { OnOk result (AreTold shapes.old.items → AreTold shapes.new.items) }
{
    let shape = shared(*shapes.allocator(), shape)?;
    shapes.push(SharedShape {
        shape,
        left: None,
        right: None,
    })?;
    Ok(())
}

impl SharedShape {
    // Where the shape of the variant over this one stands, if that is told.
    fn told(&self, variant: Variant) -> Option<usize>
        ensures { (shapes : List ShapeValue) → IsToldIn shapes self.now
            → IfSome result (λ k. slice_get shapes k
            ≡ Some (variant_of variant (shape_in self.now))) }
    {
        match variant {
            Variant::Left => self.left,
            Variant::Right => self.right,
            _ => None,
        }
    }

    // Tells of the shape of the variant over this one, which stands there.
    fn tell(&mut self, variant: Variant, made: usize)
        ensures shape { shape_in self.new ≡ shape_in self.old }
        ensures told { (shapes : List ShapeValue) → IsToldIn shapes self.old
            → slice_get shapes made ≡ Some (variant_of variant (shape_in self.old))
            → IsToldIn shapes self.new }
    {
        match variant {
            Variant::Left => {
                self.left = Some(made);
            }
            Variant::Right => {
                self.right = Some(made);
            }
            _ => {}
        }
    }
}

//! Shapes written letter by letter, each rule before the parts below it: `a` an action, `q` an
//! `exit`, `i` an inner event, `g` a guard, `l` and `r` one side, `&` both sides, `h` a hiding,
//! `e` and `p` an enabling after and before its left side has ended, `b` a `let`, `v` a value
//! choice, `0` to `9` a gate choice, `c` a call, `m` a relabelling.

use behaviour_tree::Shape;
use behaviour_tree::boxes::shared;
use lotos_base::NoMemory;
use std::alloc::Global;
use std::rc::Rc;

/// The shape that the letters write. A part that is not written is an inner event.
pub fn shape(alloc: Global, letters: &[u8]) -> Result<Shape, NoMemory> {
    let mut parts = Vec::new(alloc);
    for letter in letters.iter().rev() {
        push_shape(alloc, *letter, &mut parts)?;
    }
    Ok(first_part(&mut parts))
}

// The parts with the shape of one more letter in place of those below it.
fn push_shape(alloc: Global, letter: u8, parts: &mut Vec<Shape>) -> Result<(), NoMemory> {
    let shape = match letter {
        b'a' => Shape::Act,
        b'q' => Shape::Quit,
        b'i' => Shape::Inner,
        b'&' => {
            let left = shared(alloc, first_part(parts))?;
            let right = shared(alloc, first_part(parts))?;
            Shape::Both(left, right)
        }
        _ => one_part(letter, shared(alloc, first_part(parts))?),
    };
    Ok(parts.push(shape)?)
}

// A rule with one part.
fn one_part(letter: u8, part: Rc<Shape>) -> Shape {
    match letter {
        b'g' => Shape::Guarded(part),
        b'l' => Shape::Left(part),
        b'r' => Shape::Right(part),
        b'h' => Shape::Hidden(part),
        b'e' => Shape::Enabled(part),
        b'p' => Shape::Passed(part),
        b'b' => Shape::Bound(part),
        b'v' => Shape::Value(part),
        b'c' => Shape::Called(part),
        b'm' => Shape::Relabelled(part),
        _ => Shape::Gate((letter % 16) as u32, part),
    }
}

// The part that comes first.
fn first_part(parts: &mut Vec<Shape>) -> Shape {
    match parts.pop() {
        None => Shape::Inner,
        Some(part) => part,
    }
}

//! Keys of terms.

ghost use Rattle.std.specs.Option.{option_map};
ghost use Rattle.std.specs.Prelude.{◌≡◌, IfOk, None};
ghost use Rattle.term_store.specs.Cells.{numbered_operation_key, operation_in, variable_key};
ghost use Rattle.term_store.specs.KeyView.{variable_in, words_of};

use lotos_base::NoMemory;
use std::alloc::Global;

/// What a term is made of: a variable, or an operation with the numbers of its arguments. Up to
/// three of them stand in the key itself.
#[derive(PartialEq, Eq, Hash, Drop)]
pub enum Key {
    /// A variable, with its sort and its number.
    Variable(u32, u64),
    /// An operation without arguments.
    Constant(u32),
    /// An operation with one.
    Unary(u32, [u32; 1]),
    /// With two.
    Binary(u32, [u32; 2]),
    /// With three.
    Ternary(u32, [u32; 3]),
    /// With more.
    Many(u32, Box<Vec<u32>>),
}

impl Key {
    /// The key of the operation on the terms with these numbers.
    pub fn of(alloc: Global, op: u32, numbers: &[u32]) -> Result<Key, NoMemory>
        ensures { IfOk result (λ key. words_of key ≡ numbered_operation_key op numbers.now) }
    {
        match numbers.len() {
            0 => Ok(Key::Constant(op)),
            1 => Ok(Key::Unary(op, [numbers[0]])),
            2 => Ok(Key::Binary(op, [numbers[0], numbers[1]])),
            3 => Ok(Key::Ternary(op, [numbers[0], numbers[1], numbers[2]])),
            _ => Ok(Key::Many(op, Box::new(alloc, Vec::from_slice(alloc, numbers)?)?)),
        }
    }

    /// The operation and the numbers of its arguments, or none where it is the key of a variable.
    pub fn operation(&self) -> Option<(u32, &[u32])>
        ensures { option_map (λ found. (found.0, found.1.now)) result
            ≡ operation_in (words_of self.now) }
    {
        match self {
            Key::Variable(_, _) => None,
            Key::Constant(op) => Some((*op, &[])),
            Key::Unary(op, numbers) => Some((*op, &numbers[..])),
            Key::Binary(op, numbers) => Some((*op, &numbers[..])),
            Key::Ternary(op, numbers) => Some((*op, &numbers[..])),
            Key::Many(op, numbers) => Some((*op, numbers.as_slice())),
        }
    }

    /// The number and the sort of a variable, or none where it is the key of an operation.
    pub fn variable(&self) -> Option<(u64, u32)>
        ensures { variable_in (words_of self.now) ≡ result }
    {
        match self {
            Key::Variable(sort, number) => Some((*number, *sort)),
            _ => None,
        }
    }
}

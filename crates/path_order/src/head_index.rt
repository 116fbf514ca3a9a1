//! Numbers by operations: what is under an operation is found without looking through a list.

ghost use Rattle.path_order.specs.HeadIndexView.{numbers_at};
ghost use Rattle.std.specs.Prelude.{◌≡◌, ◌∷◌, ◌++◌, ◌<◌, [], ℕ, IfOk, OnOk, if◌then◌else◌, length, nat_eq};

use lotos_base::NoMemory;
use std::alloc::Global;

/// Lists of numbers, each under the number of an operation.
#[derive(Debug, Drop)]
pub struct HeadIndex {
    numbers: Vec<Vec<usize>>,
}

impl HeadIndex {
    /// Nothing under any of so many operations.
    pub fn new(alloc: Global, count: usize) -> Result<HeadIndex, NoMemory>
        ensures empty { IfOk result (λ index. (f : ℕ) → numbers_at index f ≡ []) }
        ensures room { IfOk result (λ index. length index.numbers.items ≡ count) }
    {
        let mut numbers = Vec::with_capacity(alloc, count)?;
        for _ in 0..count {
            numbers.push(Vec::new(alloc))?;
        }
        Ok(HeadIndex { numbers })
    }

    /// Adds a number at the end of those under the operation.
    pub fn add(&mut self, op: usize, number: usize) -> Result<(), NoMemory>
        requires { op < length self.old.numbers.items }
        ensures added { OnOk result ((f : ℕ) → numbers_at self.new f
            ≡ numbers_at self.old f ++ (if nat_eq op f then number ∷ [] else [])) }
        ensures room { length self.new.numbers.items ≡ length self.old.numbers.items }
    {
        self.numbers[op].push(number)?;
        Ok(())
    }

    /// The numbers under the operation, in the order in which they were added.
    pub fn under(&self, op: u32) -> &[usize]
        ensures { result.now ≡ numbers_at self.now op }
    {
        match self.numbers.get(op as usize) {
            Some(numbers) => numbers.as_slice(),
            None => &[],
        }
    }
}

//! Sorts and operations, as a signature lists them.

ghost use Rattle.sort_terms.specs.Operations.{operation_of, sort_of};
ghost use Rattle.std.specs.Prelude.{◌≡◌, IfOk};

use lotos_base::{Form, Name, NoMemory};
use std::alloc::Global;

/// A sort.
#[derive(Debug, Drop)]
pub struct Sort {
    /// The name as it was first spelled.
    pub name: Name,
    /// The name of the type that declared it.
    pub origin: Name,
}

impl Sort {
    /// The same sort.
    pub fn copy(&self, alloc: Global) -> Result<Sort, NoMemory>
        ensures { IfOk result (λ s. sort_of s ≡ sort_of self.now) }
    {
        Ok(Sort {
            name: self.name.copy(alloc)?,
            origin: self.origin.copy(alloc)?,
        })
    }
}

/// An operation. Sorts are numbers: positions among the sorts of the signature, from 0.
#[derive(Debug, Drop)]
pub struct Op {
    /// The name as it was first spelled, without underscores round it.
    pub name: Name,
    /// Whether it stands before its arguments or between two of them.
    pub form: Form,
    /// The sorts of its arguments.
    pub arguments: Vec<u32>,
    /// The sort of its result.
    pub result: u32,
    /// The name of the type that declared it.
    pub origin: Name,
}

impl Op {
    /// The same operation.
    pub fn copy(&self) -> Result<Op, NoMemory>
        ensures { IfOk result (λ op. operation_of op ≡ operation_of self.now) }
    {
        let alloc = *self.arguments.allocator();
        Ok(Op {
            name: self.name.copy(alloc)?,
            form: self.form,
            arguments: Vec::from_slice(alloc, self.arguments.as_slice())?,
            result: self.result,
            origin: self.origin.copy(alloc)?,
        })
    }
}

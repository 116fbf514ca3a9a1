//! What is left to do until a chosen form is kept.

use std::alloc::Global;

/// A task. Terms are numbers.
#[derive(Clone, Copy, Debug)]
pub enum Task {
    /// To find the chosen form of a term.
    Form(u32),
    /// To find that of an operation; the forms of its arguments are kept.
    Apply(u32),
    /// To keep the form of another term, which is kept for that one, for two terms.
    Keep {
        /// A term.
        term: u32,
        /// The operation at its head on the forms of its arguments.
        whole: u32,
        /// What the first rule makes of that operation.
        next: u32,
    },
}

/// Lists that are used over and over: what they have between two uses says nothing.
#[derive(Drop)]
pub struct Lists {
    /// The numbers of the arguments of an operation.
    pub numbers: Vec<u32>,
    /// What the variables of the left side that matches have.
    pub pairs: Vec<(u64, u32)>,
    /// What those of another left side have.
    pub others: Vec<(u64, u32)>,
}

impl Lists {
    /// Empty lists.
    pub fn new(alloc: Global) -> Lists {
        Lists {
            numbers: Vec::new(alloc),
            pairs: Vec::new(alloc),
            others: Vec::new(alloc),
        }
    }
}

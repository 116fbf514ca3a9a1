//! Relations of parts to the columns of symbols, and their closure.

ghost use Rattle.std.specs.Prelude.{◌≡◌, ℕ, ◌+◌, ◌*◌, ◌/◌, ◌%◌, ◌<◌, ◌≤◌, vec_len, IfOk, false};
ghost use Rattle.ll_engine.specs.Computed.{part_column, leads, leads_by};

use crate::marks::count_set;
use std::alloc::{AllocError, Global};

/// Which columns each part has: one for each token, one for the end and one for each part.
#[derive(Drop)]
pub struct Relation {
    /// The bits, part by part and in each column by column.
    pub bits: Vec<bool>,
    /// How many parts there are.
    pub parts: u16,
    /// How many tokens there are.
    pub tokens: u16,
    ghost full: { vec_len bits ≡ parts * part_column tokens parts },
}

/// The column of a part, behind those of the tokens and of the end.
pub fn part_column(tokens: u16, part: u16) -> usize
    ensures { result ≡ part_column tokens part }
{
    usize::from(tokens) + 1 + usize::from(part)
}

/// The number of bits for so many parts and tokens.
pub fn cell_count(parts: u16, tokens: u16) -> usize
    ensures { result ≡ parts * part_column tokens parts }
{
    usize::from(parts) * part_column(tokens, parts)
}

impl Relation {
    ghost use Rattle.ll_engine.specs.Related.{
      related,
      next_related,
      width_of,
      cells,
      HasCells,
      IsClosureOf,
    };

    /// The relation of no part.
    pub fn empty(alloc: Global, tokens: u16) -> Self
        ensures shape { result.tokens ≡ tokens }
        ensures none { (part column : ℕ) → related result part column ≡ false }
    {
        Relation {
            bits: Vec::new(alloc),
            parts: 0,
            tokens,
        }
    }

    /// How many columns there are.
    pub fn width(&self) -> usize
        ensures { result ≡ width_of self.now }
    {
        part_column(self.tokens, self.parts)
    }

    /// Whether the part has the column.
    pub fn has(&self, part: u16, column: usize) -> bool
        ensures { result ≡ related self.now part column }
    {
        let width = self.width();
        if column < width {
            let cell = usize::from(part) * width + column;
            self.bits.get(cell).copied().unwrap_or(false)
        } else {
            false
        }
    }

    /// Whether the part has the column of the other, and that one has the column.
    fn leads_by(&self, part: u16, column: usize, middle: u16) -> bool
        ensures { result ≡ leads_by (related self.now) self.now.tokens part column middle }
    {
        self.has(part, part_column(self.tokens, middle)) && self.has(middle, column)
    }

    /// Whether the part has the column of a part that has the column.
    fn leads(&self, part: u16, column: usize) -> bool
        ensures { result ≡ leads (related self.now) self.now.tokens self.now.parts part column }
    {
        for middle in 0..self.parts {
            if self.leads_by(part, column, middle) {
                return true;
            }
        }
        false
    }

    /// Whether the part has the column one round later.
    fn next_has(&self, part: u16, column: usize) -> bool
        ensures { result ≡ next_related self.now part column }
    {
        self.has(part, column) || self.leads(part, column)
    }

    /// The relation one round later.
    fn next(&self, alloc: Global) -> Result<Relation, AllocError>
        ensures { IfOk result (λ next. HasCells next (next_related self.now) self.now.parts
            self.now.tokens) }
    {
        let parts = self.parts;
        let tokens = self.tokens;
        let width = part_column(tokens, parts);
        let mut bits = Vec::new(alloc);
        for cell in 0..cell_count(parts, tokens) {
            bits.push(self.next_has((cell / width) as u16, cell % width))?;
        }
        Ok(Relation {
            bits,
            parts,
            tokens,
        })
    }

    /// The relation that also has whatever it leads to.
    pub fn closed(self, alloc: Global) -> Result<Relation, AllocError>
        ensures { IfOk result (λ closed. IsClosureOf self closed) }
    {
        let mut relation = self;
        let mut count = count_set(&relation.bits);
        loop {
            let next = relation.next(alloc)?;
            let next_count = count_set(&next.bits);
            if next_count == count {
                return Ok(relation);
            }
            relation = next;
            count = next_count;
        }
    }
}

//! How deep the rules of a menu may nest.

use lotos_base::NoMemory;

// A level of a menu takes up to 1,800 bytes of the stack, so that 8 MiB hold these.
const MOST: u32 = 4_000;

// The shape of an event in which the sides of a gate `par` meet is as deep as they are many, and is
// let go by recursion.
const MOST_SIDES: usize = 100_000;

/// How many rules may still nest, one in the premiss of another. The rules of a behaviour nest as
/// its parts do, and on along the calls that stand before its first event. Each level takes some
/// of the stack, so that more of them than it surely holds are want of memory.
#[derive(Clone, Copy, Debug)]
pub struct Levels {
    left: u32,
}

impl Levels {
    /// All that there are: 4,000.
    pub fn all() -> Levels {
        Levels { left: MOST }
    }

    /// Those below one more. It answers `NoMemory` where none is left.
    pub fn below(self) -> Result<Levels, NoMemory> {
        self.below_many(1)
    }

    /// Those below so many more. It answers `NoMemory` where fewer are left.
    pub fn below_many(self, levels: u32) -> Result<Levels, NoMemory> {
        match self.left.checked_sub(levels) {
            None => Err(NoMemory),
            Some(left) => Ok(Levels { left }),
        }
    }

    /// Those below a gate `par` with so many sides. It answers `NoMemory` where none is left, or
    /// where there are more than 100,000 sides.
    pub fn below_sides(self, sides: usize) -> Result<Levels, NoMemory> {
        if sides > MOST_SIDES {
            Err(NoMemory)
        } else {
            self.below()
        }
    }
}

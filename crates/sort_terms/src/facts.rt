//! What is known of a term without a look at it.

ghost use Rattle.sort_terms.specs.Known.{
  known_above,
  known_with,
  levels_among,
  may_be_one,
  no_terms_known,
  nothing_known,
  variable_known,
};
ghost use Rattle.std.specs.Prelude.{◌≡◌, ◌^◌, ◌%◌};

/// What is known of a term. Each part says one thing or nothing.
#[derive(Clone, Copy, Debug)]
pub struct Facts {
    /// Whether it is known that the term has no variable.
    pub is_ground: bool,
    /// How many variables and operations the term has. The last number of the type says nothing.
    pub size: u64,
    /// Where bit `n` is not set, no operation of the term has a number that is `n` modulo 64.
    pub heads: u64,
    /// How many operations stand one in another at most, where a last argument counts as no deeper
    /// than its operation. The last number of the type says nothing.
    pub levels: u64,
}

impl Facts {
    /// Nothing is known.
    pub fn nothing() -> Facts
        ensures { result ≡ nothing_known }
    {
        Facts {
            is_ground: false,
            size: u64::MAX,
            heads: u64::MAX,
            levels: u64::MAX,
        }
    }

    /// What is known of a list without terms.
    pub fn of_no_terms() -> Facts
        ensures { result ≡ no_terms_known }
    {
        Facts {
            is_ground: true,
            size: 0,
            heads: 0,
            levels: 0,
        }
    }

    /// What is known of a variable.
    pub fn of_variable() -> Facts
        ensures { result ≡ variable_known }
    {
        Facts {
            is_ground: false,
            size: 1,
            heads: 0,
            levels: 0,
        }
    }

    /// What is known of a list with one term more, the last one or not, of which that is known.
    pub fn with(self, other: Facts, is_last: bool) -> Facts
        ensures { result ≡ known_with self other is_last }
    {
        Facts {
            is_ground: self.is_ground && other.is_ground,
            size: self.size.saturating_add(other.size),
            heads: self.heads | other.heads,
            levels: self.levels.max(other.levels_among(is_last)),
        }
    }

    // The levels of the term in a list where it is the last one or not.
    fn levels_among(self, is_last: bool) -> u64
        ensures { result ≡ levels_among self is_last }
    {
        if is_last {
            return self.levels;
        }
        self.levels.saturating_add(1)
    }

    /// What is known of the operation with this number, where this is known of its arguments.
    pub fn below(self, op: u32) -> Facts
        ensures { result ≡ known_above op self }
    {
        Facts {
            is_ground: self.is_ground,
            size: self.size.saturating_add(1),
            heads: self.heads | head_bit(op),
            levels: self.levels,
        }
    }

    /// Whether a term of which this is known can be one of which the other is known, by their
    /// sizes.
    pub fn may_be_one(self, other: Facts) -> bool
        ensures { result ≡ may_be_one self other }
    {
        self.size == other.size || self.size == u64::MAX || other.size == u64::MAX
    }
}

/// The bit of the operation with this number.
pub fn head_bit(op: u32) -> u64
    ensures { result ≡ 2 ^ (op % 64) }
{
    1 << (op % 64)
}

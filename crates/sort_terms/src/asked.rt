//! The sort that the `of`s on a node ask for.

ghost use Rattle.sort_terms.specs.Asked.{allows, is_sort};
ghost use Rattle.std.specs.Prelude.{◌≡◌, ◌&&◌, ℕ};

/// What the `of`s on a node allow.
#[derive(Clone, Copy, Debug, PartialEq, Eq)]
pub enum Asked {
    /// Any sort: there is no `of`.
    Any,
    /// The sort with this number alone.
    Only(u32),
    /// No sort: two `of`s disagree, or one names no sort.
    Nothing,
}

impl Asked {
    /// Whether the sort is allowed.
    pub fn allows(self, sort: u32) -> bool
        ensures { result ≡ allows self sort }
    {
        match self {
            Asked::Any => true,
            Asked::Only(asked) => sort == asked,
            Asked::Nothing => false,
        }
    }

    /// What one `of` more allows: the sort that it names, or none.
    pub fn and(self, sort: Option<u32>) -> Asked
        ensures { (s : ℕ) → allows result s ≡ (allows self s && is_sort sort s) }
    {
        match sort {
            Some(sort) if self.allows(sort) => Asked::Only(sort),
            _ => Asked::Nothing,
        }
    }
}

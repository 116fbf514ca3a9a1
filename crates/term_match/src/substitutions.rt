//! Substitutions.

ghost use Rattle.std.specs.Prelude.{◌≡◌, map};
ghost use Rattle.term_match.specs.Numbers.{AreDistinctNumbers, AreDistinct-prop};

use sort_terms::Sorted;

/// Terms for variables: pairs of a variable number and a term, no two with one number.
#[derive(Debug, Drop)]
pub struct Subst {
    pairs: Vec<(u64, Sorted)>,
    pub ghost distinct: { AreDistinctNumbers (map (λ pair. pair.0) pairs.items) } by { AreDistinct-prop (map (λ pair. pair.0) pairs.items) },
}

impl Subst {
    /// The substitution with these pairs.
    pub fn of(pairs: Vec<(u64, Sorted)>) -> Subst
        requires { AreDistinctNumbers (map (λ pair. pair.0) pairs.items) }
        ensures { result.pairs ≡ pairs }
    {
        Subst { pairs }
    }

    /// The pairs.
    pub fn pairs(&self) -> &[(u64, Sorted)]
        ensures { result.now ≡ self.now.pairs.items }
    {
        self.pairs.as_slice()
    }
}

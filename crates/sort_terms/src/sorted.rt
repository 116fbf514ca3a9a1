//! Terms whose sort is known.

ghost use Rattle.sort_terms.specs.ProfiledTerm.{FitsProfiles, head_sort};
ghost use Rattle.sort_terms.specs.SignatureLemmas.{FitsProfiles-prop};
ghost use Rattle.sort_terms.specs.TermView.{profiled_of};
ghost use Rattle.std.specs.Prelude.{◌≡◌, ◌↔◌, IfOk, IsTrue};

use crate::facts::Facts;
use crate::terms::Term;
use lotos_base::NoMemory;

/// A term with its sort. Each operation in it has the arguments of its profile.
#[derive(Debug, Drop)]
pub struct Sorted {
    term: Term,
    sort: u32,
    pub ghost fits: { FitsProfiles (profiled_of term) } by { FitsProfiles-prop (profiled_of term) },
    pub ghost headed: { head_sort (profiled_of term) ≡ sort },
}

impl Sorted {
    ghost use Rattle.sort_terms.specs.SortedView.{profiled_in, term_in};
    ghost use Rattle.lotos_base.specs.Sorting.{IsGround};
    ghost use Rattle.sort_terms.specs.Known.{HoldOf};

    /// The term with its sort.
    pub fn of(term: Term) -> Sorted
        requires { FitsProfiles (profiled_of term) }
        ensures { result.term ≡ term }
    {
        let sort = term.sort();
        Sorted { term, sort }
    }

    /// The term inside.
    pub fn term(&self) -> &Term
        ensures { result.now ≡ self.now.term }
    {
        &self.term
    }

    /// What is known of the term without a look at it.
    pub fn facts(&self) -> Facts
        ensures { HoldOf result (term_in self.now) }
    {
        self.term.facts()
    }

    /// The term taken out.
    pub fn into_term(self) -> Term
        ensures { result ≡ self.term }
    {
        self.term
    }

    /// The number of the term's sort.
    pub fn sort(&self) -> u32
        ensures { result ≡ self.now.sort }
    {
        self.sort
    }

    /// Whether the two terms are identical.
    pub fn same(&self, other: &Sorted) -> bool
        ensures { IsTrue result ↔ (term_in self.now ≡ term_in other.now) }
    {
        self.term.same(&other.term)
    }

    /// Whether the term has no variable.
    pub fn ground(&self) -> bool
        ensures { IsTrue result ↔ IsGround (term_in self.now) }
    {
        self.term.is_ground()
    }

    /// The same term.
    pub fn copy(&self) -> Result<Sorted, NoMemory>
        ensures { IfOk result (λ s. profiled_in s ≡ profiled_in self.now) }
    {
        Ok(Sorted::of(self.term.copy()?))
    }
}

//! The equality of a book's data.

ghost use Rattle.equation_book.specs.BookCanon.{book_canon};
ghost use Rattle.equation_book.specs.BookCanonFacts.{book_is_canon};
ghost use Rattle.sort_terms.specs.EquationView.{data_of};
ghost use Rattle.sort_terms.specs.ProfiledTerm.{IsOf};
ghost use Rattle.sort_terms.specs.SignatureView.{signature_of};
ghost use Rattle.sort_terms.specs.SortedView.{profiled_in, term_in};
ghost use Rattle.std.specs.Prelude.{◌≡◌, ◌↔◌, IfOk, IsTrue};
ghost use Rattle.lotos_base.specs.Equality.{Equal};
ghost use Rattle.lotos_base.specs.Sorting.{IsGround};

use crate::book::Book;
use crate::depths::of_held_depth;
use lotos_base::NoMemory;
use sort_terms::{Deciding, Sorted};

impl Deciding for Book {
    ghost known_data = { λ it. data_of it.flat };

    ghost canon = { λ it t. book_canon it t };

    ghost is_canon = { λ it. book_is_canon it };

    fn normal(&mut self, term: &Sorted) -> Result<Sorted, NoMemory> {
        self.value_form(term)
    }
}

impl Book {
    /// The normal form of the term, however deep. The data and the rules stay as they are.
    pub fn normal_form(&mut self, term: &Sorted) -> Result<Sorted, NoMemory>
        requires { IsOf (signature_of self.old.flat.signature) (profiled_in term.now) }
        ensures canonical { IfOk result
            (λ form. term_in form ≡ book_canon self.old (term_in term.now)) }
        ensures is_of { IfOk result
            (λ form. IsOf (signature_of self.old.flat.signature) (profiled_in form)) }
        ensures flat { self.new.flat ≡ self.old.flat }
        ensures joined { self.new.joined ≡ self.old.joined }
    {
        self.store.canonical_term(term)
    }

    /// The normal form of a value that a menu or a state is to have. Where it has more than
    /// 10,000,000 operations and variables, or more than 10,000 operations stand one in another,
    /// this is want of memory. In a value without variables a last argument counts as no deeper
    /// than its operation. The data and the rules stay as they are.
    pub fn value_form(&mut self, term: &Sorted) -> Result<Sorted, NoMemory>
        requires { IsOf (signature_of self.old.flat.signature) (profiled_in term.now) }
        ensures canonical { IfOk result
            (λ form. term_in form ≡ book_canon self.old (term_in term.now)) }
        ensures is_of { IfOk result
            (λ form. IsOf (signature_of self.old.flat.signature) (profiled_in form)) }
        ensures flat { self.new.flat ≡ self.old.flat }
        ensures joined { self.new.joined ≡ self.old.joined }
    {
        of_held_depth(self.normal_form(term)?)
    }

    /// Whether the equations derive the equality of the two ground terms.
    pub fn equal(&mut self, left: &Sorted, right: &Sorted) -> Result<bool, NoMemory>
        requires left { IsOf (signature_of self.old.flat.signature) (profiled_in left.now) }
        requires right { IsOf (signature_of self.old.flat.signature) (profiled_in right.now) }
        requires left_ground { IsGround (term_in left.now) }
        requires right_ground { IsGround (term_in right.now) }
        requires one_sort { left.now.sort ≡ right.now.sort }
        ensures exactly { IfOk result (λ equal. IsTrue equal
            ↔ Equal (data_of self.old.flat) (term_in left.now) (term_in right.now)) }
        ensures same_data { data_of self.new.flat ≡ data_of self.old.flat }
        ensures same_canon { book_canon self.new ≡ book_canon self.old }
    {
        self.store.same(left, right)
    }
}

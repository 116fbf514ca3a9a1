//! Objects that know the canon of terms over some data.

ghost use Rattle.sort_terms.specs.ProfiledTerm.{IsOf};
ghost use Rattle.sort_terms.specs.SortedView.{profiled_in, term_in};
ghost use Rattle.std.specs.Prelude.{◌≡◌, IfOk};
ghost use Rattle.lotos_base.specs.Canon.{IsCanon};
ghost use Rattle.lotos_base.specs.Equation.{Data};
ghost use Rattle.lotos_base.specs.Term.{Term};

use crate::sorted::Sorted;
use lotos_base::NoMemory;

/// An object that has data and a canon of them: a function that gives terms which are equal by the
/// equations one form.
pub trait Deciding {
    ghost known_data: { Self → Data };

    ghost canon: { Self → Term → Term };

    /// The canon of a term of the object's data. No call changes the data or the canon.
    fn normal(&mut self, term: &Sorted) -> Result<Sorted, NoMemory>
        requires { IsOf (known_data self.old).signature (profiled_in term.now) }
        ensures same_data { known_data self.new ≡ known_data self.old }
        ensures same_canon { canon self.new ≡ canon self.old }
        ensures is_of { IfOk result (λ t. IsOf (known_data self.old).signature (profiled_in t)) }
        ensures is_canon { IfOk result (λ t. term_in t ≡ canon self.old (term_in term.now)) };

    ghost is_canon: { (it : Self) → IsCanon (known_data it) (canon it) };
}

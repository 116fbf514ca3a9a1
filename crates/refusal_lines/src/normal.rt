//! Start values in normal form.

ghost use Rattle.behaviour_tree.specs.BehaviourTerms.{profiles_of};
ghost use Rattle.behaviour_tree.specs.BehaviourView.{terms_of};
ghost use Rattle.behaviour_tree.specs.Over.{AreTermsOf};
ghost use Rattle.equation_book.specs.BookCanon.{book_canon};
ghost use Rattle.sort_terms.specs.EquationView.{data_of};
ghost use Rattle.std.specs.Prelude.{◌≡◌, IfOk, map};

use equation_book::Book;
use lotos_base::NoMemory;
use sort_terms::Sorted;
use std::alloc::Global;

/// The normal forms of the values; want of memory where one is deeper than a state may have it. The
/// data and the rules of the book stay as they are.
pub fn normal_values(
    alloc: Global,
    book: &mut Book,
    values: &[Sorted],
) -> Result<Vec<Sorted>, NoMemory>
    requires { AreTermsOf (data_of book.old.flat).signature (profiles_of values.now) }
    ensures normal { IfOk result
        (λ made. terms_of made.items ≡ map (book_canon book.old) (terms_of values.now)) }
    ensures profiles { IfOk result
        (λ made. AreTermsOf (data_of book.old.flat).signature (profiles_of made.items)) }
    ensures flat { book.new.flat ≡ book.old.flat }
    ensures joined { book.new.joined ≡ book.old.joined }
{
    let mut made = Vec::with_capacity(alloc, values.len())?;
    for value in values {
        made.push(book.value_form(value)?)?;
    }
    Ok(made)
}

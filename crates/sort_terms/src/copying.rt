//! Lists of terms.

ghost use Rattle.sort_terms.specs.MadeTerms.{made_of};
ghost use Rattle.sort_terms.specs.TermView.{all_profiled, profiled_of};
ghost use Rattle.std.specs.Prelude.{◌≡◌, ◌++◌, IfOk, length, map};

use crate::terms::Term;
use lotos_base::NoMemory;
use std::alloc::Global;

/// The same terms, with the same profiles, each of which shares its arguments.
pub fn copies(terms: &Vec<Term>) -> Result<Vec<Term>, NoMemory>
    ensures { IfOk result (λ ts. all_profiled ts.items ≡ all_profiled terms.now.items) }
{
    let mut made = Vec::with_capacity(*terms.allocator(), terms.len())?;
    for term in terms {
        made.push(term.copy()?)?;
    }
    Ok(made)
}

/// So many of the last terms, the last one first.
pub fn taken(alloc: Global, count: usize, made: &mut Vec<Term>) -> Result<Vec<Term>, NoMemory>
    ensures { IfOk result (λ ts. (length ts.items ≡ count)
        × (made_of made.old.items ≡ map profiled_of ts.items ++ made_of made.new.items)) }
{
    let mut terms = Vec::with_capacity(alloc, count)?;
    for _index in 0..count {
        let Some(term) = made.pop() else {
            return Err(NoMemory);
        };
        terms.push(term)?;
    }
    Ok(terms)
}

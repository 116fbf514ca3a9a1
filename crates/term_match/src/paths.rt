//! Parts of terms, by paths. A path lists argument positions, counted from 0, from the root down.

ghost use Rattle.sort_terms.specs.ProfiledTerm.{bare, head_sort};
ghost use Rattle.sort_terms.specs.SortedView.{profiled_in, term_in};
ghost use Rattle.sort_terms.specs.TermView.{all_profiled, profiled_of};
ghost use Rattle.std.specs.Option.{option_map};
ghost use Rattle.std.specs.Prelude.{
  ◌≡◌,
  ◌↔◌,
  ◌∷◌,
  ◌++◌,
  ◌<◌,
  [],
  IfOk,
  IfSome,
  None,
  Some,
  length,
  map,
};
ghost use Rattle.lotos_base.specs.Path.{put_at as part_put_at, subterm as subterm_at};
ghost use Rattle.term_match.specs.ProfiledPath.{
  LeadsToSort,
  profiled_put_at,
  profiled_subterm,
  with_part_replaced,
  with_profiled_argument,
};

use lotos_base::NoMemory;
use sort_terms::{Sorted, Term};

/// The subterm at the path, or `None` exactly where the path leads to no subterm.
pub fn subterm(term: &Sorted, path: &[u32]) -> Result<Option<Sorted>, NoMemory>
    ensures part { IfOk result
        (λ o. option_map (λ t. term_in t) o ≡ subterm_at path.now (term_in term.now)) }
    ensures profiles { IfOk result
        (λ o. option_map (λ t. profiled_in t) o
        ≡ profiled_subterm path.now (profiled_in term.now)) }
{
    match part_at(term.term(), path) {
        Some(part) => Ok(Some(Sorted::of(part.copy()?))),
        None => Ok(None),
    }
}

/// The term with the part put at the path, or `None` exactly where the path leads to no subterm or
/// to one of another sort than the part.
pub fn put_at(term: &Sorted, path: &[u32], part: &Sorted) -> Result<Option<Sorted>, NoMemory>
    ensures profiles { IfOk result (λ o. option_map (λ t. profiled_in t) o
        ≡ with_part_replaced path.now (profiled_in part.now) (profiled_in term.now)) }
    ensures none { IfOk result (λ o. (o ≡ None)
        ↔ (¬ LeadsToSort path.now (profiled_in part.now) (profiled_in term.now))) }
    ensures plain { IfOk result (λ o. IfSome o (λ whole.
        part_put_at path.now (term_in part.now) (term_in term.now) ≡ Some (term_in whole))) }
{
    replacement(term, path, part)
}

// The same, by what it is with its profiles.
fn replacement(term: &Sorted, path: &[u32], part: &Sorted) -> Result<Option<Sorted>, NoMemory>
    ensures { IfOk result (λ o. option_map (λ t. profiled_in t) o
        ≡ with_part_replaced path.now (profiled_in part.now) (profiled_in term.now)) }
{
    let Some(old) = part_at(term.term(), path) else {
        return Ok(None);
    };
    if old.sort() != part.sort() {
        return Ok(None);
    }
    match with_part(term.term(), path, part.term())? {
        Some(whole) => Ok(Some(Sorted::of(whole))),
        None => Ok(None),
    }
}

/// The subterm at the path, if the path leads to one. It takes no memory.
pub fn part_at<'a>(term: &'a Term, path: &[u32]) -> Option<&'a Term>
    ensures { option_map (λ t. profiled_of t.now) result
        ≡ profiled_subterm path.now (profiled_of term.now) }
{
    let mut part = term;
    for position in path {
        part = argument(part, *position)?;
    }
    Some(part)
}

// The argument at the position, if there is one.
fn argument(term: &Term, position: u32) -> Option<&Term>
    ensures { option_map (λ t. profiled_of t.now) result
        ≡ profiled_subterm (position ∷ []) (profiled_of term.now) }
{
    match term {
        Term::Var { .. } => None,
        Term::Node { arguments, .. } => arguments.items().get(position as usize),
    }
}

// The term with the part put at the path, if the path leads to a subterm.
fn with_part(term: &Term, path: &[u32], part: &Term) -> Result<Option<Term>, NoMemory>
    ensures { IfOk result (λ o. option_map (λ t. profiled_of t) o
        ≡ profiled_put_at path.now (profiled_of part.now) (profiled_of term.now)) }
{
    let [position, rest @ ..] = path else {
        return Ok(Some(part.copy()?));
    };
    let Term::Node {
        op,
        profile,
        arguments,
    } = term
    else {
        return Ok(None);
    };
    let position = *position as usize;
    let arguments = arguments.items();
    let Some(argument) = arguments.get(position) else {
        return Ok(None);
    };
    let Some(changed) = with_part(argument, rest, part)? else {
        return Ok(None);
    };
    let made = with_argument(arguments, position, changed)?;
    Ok(Some(Term::node(*op, profile.clone()?, made)?))
}

// The same terms with another one at the position.
fn with_argument(terms: &Vec<Term>, position: usize, part: Term) -> Result<Vec<Term>, NoMemory>
    requires { position < length terms.now.items }
    ensures { IfOk result (λ ts. all_profiled ts.items
        ≡ with_profiled_argument position (profiled_of part) (all_profiled terms.now.items)) }
{
    let mut made = with_copies(Vec::new(*terms.allocator()), &terms[..position])?;
    made.push(part)?;
    with_copies(made, &terms[position + 1..])
}

// The terms, and after them copies of others.
fn with_copies(mut made: Vec<Term>, terms: &[Term]) -> Result<Vec<Term>, NoMemory>
    ensures { IfOk result (λ more.
        map profiled_of more.items ≡ map profiled_of made.items ++ map profiled_of terms.now) }
{
    for term in terms {
        made.push(term.copy()?)?;
    }
    Ok(made)
}

//! Terms rebuilt with others for their variables, by a loop.

ghost use Rattle.event_offers.specs.Rebuilt.{rebuilt_by, turns, turns_of, with_rebuilt};
ghost use Rattle.sort_terms.specs.MadeTerms.{made_of};
ghost use Rattle.sort_terms.specs.TermSize.{size_of, sizes_of};
ghost use Rattle.sort_terms.specs.TermView.{all_profiled, profiled_of};
ghost use Rattle.std.specs.Prelude.{◌≡◌, ◌+◌, ◌*◌, ◌<◌, ◌∷◌, ◌++◌, IfOk, OnOk, map, take};
ghost use Rattle.term_match.specs.ProfiledInstance.{
  ProfiledSubstitution,
  profiled_instance,
  profiled_instances,
};

use lotos_base::NoMemory;
use sort_terms::copying::taken;
use sort_terms::{Op, Term};
use std::alloc::Global;
use std::rc::Rc;

/// What is put for the variables of terms.
pub trait Replacing {
    ghost put_for: { Self → ProfiledSubstitution };

    /// What is put for the variable with this number and sort.
    fn put(&self, number: u64, sort: u32) -> Result<Term, NoMemory>
        ensures { IfOk result (λ t. profiled_of t ≡ put_for self.now number sort) };
}

/// What is still to be done until terms are rebuilt.
#[derive(Clone, Copy, Debug)]
pub enum Rebuilding<'a> {
    /// To rebuild the first terms of a list, so many, the last one of them first.
    First(&'a Vec<Term>, usize),
    /// The operation with this number and profile, whose arguments, so many, are the last terms
    /// made, the first one last.
    Head(u32, &'a Rc<Op>, usize),
}

/// The term with what is put for its variables, however deep it is. A part that is known to have no
/// variable is shared.
pub fn rebuilt<R: Replacing>(term: &Term, values: &R) -> Result<Term, NoMemory>
    ensures { IfOk result (λ t. profiled_of t
        ≡ profiled_instance (R.put_for values.now) (profiled_of term.now)) }
{
    match term {
        Term::Var { number, sort } => values.put(*number, *sort),
        Term::Node {
            op,
            profile,
            arguments,
        } => {
            if arguments.facts().is_ground {
                return term.copy();
            }
            let made = all_rebuilt(arguments.items(), values)?;
            Term::node(*op, profile.clone()?, made)
        }
    }
}

// The terms with what is put for their variables.
fn all_rebuilt<R: Replacing>(terms: &Vec<Term>, values: &R) -> Result<Vec<Term>, NoMemory>
    ensures { IfOk result (λ ts. all_profiled ts.items
        ≡ profiled_instances (R.put_for values.now) (all_profiled terms.now.items)) }
{
    let alloc = *terms.allocator();
    let mut left = Vec::new(alloc);
    let mut made = Vec::new(alloc);
    left.push(Rebuilding::First(terms, terms.len()))?;
    while let Some(next) = left.pop() {
        rebuild(alloc, values, next, &mut left, &mut made)?;
    }
    taken(alloc, terms.len(), &mut made)
}

// Does what comes next.
fn rebuild<'a, R: Replacing>(
    alloc: Global,
    values: &R,
    next: Rebuilding<'a>,
    left: &mut Vec<Rebuilding<'a>>,
    made: &mut Vec<Term>,
) -> Result<(), NoMemory>
    ensures same { OnOk result
        (rebuilt_by (R.put_for values.now) left.new.items (made_of made.new.items)
        ≡ rebuilt_by (R.put_for values.now) left.old.items
        (with_rebuilt (R.put_for values.now) next.entry (made_of made.old.items))) }
    ensures less { OnOk result (turns_of left.new.items
        < turns next.entry + turns_of left.old.items) }
{
    match next {
        Rebuilding::First(terms, count) => begin_last(values, terms, count, left, made),
        Rebuilding::Head(op, profile, count) => {
            let parts = taken(alloc, count, made)?;
            let term = Term::node(op, profile.clone()?, parts)?;
            Ok(made.push(term)?)
        }
    }
}

// Begins with the last of the first terms, and puts those before it on the list.
fn begin_last<'a, R: Replacing>(
    values: &R,
    terms: &'a Vec<Term>,
    count: usize,
    left: &mut Vec<Rebuilding<'a>>,
    made: &mut Vec<Term>,
) -> Result<(), NoMemory>
    ensures same { OnOk result
        (rebuilt_by (R.put_for values.now) left.new.items (made_of made.new.items)
        ≡ rebuilt_by (R.put_for values.now) left.old.items
        (map (profiled_instance (R.put_for values.now))
        (map profiled_of (take count terms.now.items)) ++ made_of made.old.items)) }
    ensures less { OnOk result (turns_of left.new.items
        < 1 + 3 * sizes_of (take count terms.now.items) + turns_of left.old.items) }
{
    if count == 0 {
        return Ok(());
    }
    let before = count - 1;
    let Some(term) = terms.get(before) else {
        return Err(NoMemory);
    };
    left.push(Rebuilding::First(terms, before))?;
    begin(values, term, left, made)
}

// Makes what is put for a variable, and puts what is to be done for an operation on the list.
fn begin<'a, R: Replacing>(
    values: &R,
    term: &'a Term,
    left: &mut Vec<Rebuilding<'a>>,
    made: &mut Vec<Term>,
) -> Result<(), NoMemory>
    ensures same { OnOk result
        (rebuilt_by (R.put_for values.now) left.new.items (made_of made.new.items)
        ≡ rebuilt_by (R.put_for values.now) left.old.items
        (profiled_instance (R.put_for values.now) (profiled_of term.now)
        ∷ made_of made.old.items)) }
    ensures less { OnOk result (turns_of left.new.items
        < 3 * size_of term.now + turns_of left.old.items) }
{
    match term {
        Term::Var { number, sort } => {
            let value = values.put(*number, *sort)?;
            Ok(made.push(value)?)
        }
        Term::Node {
            op,
            profile,
            arguments,
        } => {
            if arguments.facts().is_ground {
                return Ok(made.push(term.copy()?)?);
            }
            let arguments = arguments.items();
            let count = arguments.len();
            left.push(Rebuilding::Head(*op, profile, count))?;
            Ok(left.push(Rebuilding::First(arguments, count))?)
        }
    }
}

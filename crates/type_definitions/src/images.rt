//! Images of terms.

ghost use Rattle.sort_terms.specs.Operations.{operation_of};
ghost use Rattle.sort_terms.specs.SortedView.{profiled_in, term_in};
ghost use Rattle.sort_terms.specs.TermView.{all_profiled, profiled_of};
ghost use Rattle.std.specs.Prelude.{◌≡◌, IfOk, map};
ghost use Rattle.type_definitions.specs.Images.{term_image};
ghost use Rattle.type_definitions.specs.ProfiledImage.{
  KeepsProfiles,
  number_in,
  profile_in,
  profiled_image,
  profiled_images,
};

use crate::operation_images::number_at;
use lotos_base::NoMemory;
use sort_terms::{Op, Sorted, Term};
use std::rc::Rc;

/// The term with the new number of each sort and operation, by its old one, and with the profiles
/// of the new operations.
pub fn image(
    term: &Sorted,
    sorts: &[u32],
    ops: &[u32],
    profiles: &[Rc<Op>],
) -> Result<Sorted, NoMemory>
    requires { KeepsProfiles (number_in sorts.now) (number_in ops.now)
        (map (λ p. operation_of p.value) profiles.now) (profiled_in term.now) }
    ensures image { IfOk result (λ t. term_in t
        ≡ term_image (number_in sorts.now) (number_in ops.now) (term_in term.now)) }
    ensures profiles { IfOk result (λ t. profiled_in t
        ≡ profiled_image (number_in sorts.now) (number_in ops.now)
        (map (λ p. operation_of p.value) profiles.now) (profiled_in term.now)) }
    ensures sort { IfOk result (λ t. t.sort ≡ number_in sorts.now term.now.sort) }
{
    let made = image_of(term.term(), sorts, ops, profiles)?;
    Ok(Sorted::of(made))
}

// The image of a term.
#[cycle(image)]
fn image_of(term: &Term, sorts: &[u32], ops: &[u32], profiles: &[Rc<Op>]) -> Result<Term, NoMemory>
    ensures { IfOk result (λ t. profiled_of t
        ≡ profiled_image (number_in sorts.now) (number_in ops.now)
        (map (λ p. operation_of p.value) profiles.now) (profiled_of term.now)) }
{
    match term {
        Term::Var { number, sort } => Ok(Term::Var {
            number: *number,
            sort: number_at(sorts, *sort),
        }),
        Term::Node {
            op,
            profile,
            arguments,
        } => {
            let number = number_at(ops, *op);
            let profile = profile_at(profiles, number, profile)?;
            let images = images_of(arguments.items(), sorts, ops, profiles)?;
            Term::node(number, profile, images)
        }
    }
}

// The image of each term of the list.
#[cycle(image)]
fn images_of(
    terms: &Vec<Term>,
    sorts: &[u32],
    ops: &[u32],
    profiles: &[Rc<Op>],
) -> Result<Vec<Term>, NoMemory>
    ensures { IfOk result (λ ts. all_profiled ts.items
        ≡ profiled_images (number_in sorts.now) (number_in ops.now)
        (map (λ p. operation_of p.value) profiles.now) (all_profiled terms.now.items)) }
{
    let mut made = Vec::with_capacity(*terms.allocator(), terms.len())?;
    for term in terms {
        made.push(image_of(term, sorts, ops, profiles)?)?;
    }
    Ok(made)
}

// The profile of the number, or the old one where there is none.
fn profile_at(profiles: &[Rc<Op>], number: u32, old: &Rc<Op>) -> Result<Rc<Op>, NoMemory>
    ensures { IfOk result (λ p. operation_of p.value
        ≡ profile_in (map (λ q. operation_of q.value) profiles.now) number
        (operation_of old.now.value)) }
{
    match profiles.get(number as usize) {
        Some(profile) => Ok(profile.clone()?),
        None => Ok(old.clone()?),
    }
}

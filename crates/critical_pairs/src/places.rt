//! The places of a term at which an operation stands.

ghost use Rattle.critical_pairs.specs.NodePlaces.{argument_places, node_places};
ghost use Rattle.critical_pairs.specs.PairView.{node_place_of};
ghost use Rattle.sort_terms.specs.TermView.{term_of, bare_terms_of};
ghost use Rattle.std.specs.Prelude.{◌≡◌, ◌∷◌, ◌++◌, [], IfOk, map};

use lotos_base::NoMemory;
use sort_terms::Term;
use std::alloc::Global;
use term_store::first_operation;

/// A place with an operation: its path, the number of the operation, and that of the operation at
/// the head of its first argument.
#[derive(Debug, Drop)]
pub struct NodePlace {
    /// The path: argument positions from 0.
    pub path: Vec<u32>,
    /// The number of the operation.
    pub head: u32,
    /// The number of the operation at the head of its first argument, if one is there.
    pub first: Option<u32>,
}

/// The places of the term at which an operation stands, in preorder.
pub fn places_of(alloc: Global, term: &Term) -> Result<Vec<NodePlace>, NoMemory>
    ensures { IfOk result (λ found. map node_place_of found.items
        ≡ node_places [] (term_of term.now)) }
{
    places_below(alloc, term, &[], Vec::new(alloc))
}

// The places found before and those of the term, which stands at the path.
#[cycle(places)]
fn places_below(
    alloc: Global,
    term: &Term,
    path: &[u32],
    mut found: Vec<NodePlace>,
) -> Result<Vec<NodePlace>, NoMemory>
    ensures { IfOk result (λ more. map node_place_of more.items
        ≡ map node_place_of found.items ++ node_places path.now (term_of term.now)) }
{
    match term {
        Term::Var { .. } => Ok(found),
        Term::Node { op, arguments, .. } => {
            found.push(NodePlace {
                path: Vec::from_slice(alloc, path)?,
                head: *op,
                first: first_operation(arguments.items()),
            })?;
            places_among(alloc, arguments.items(), path, found)
        }
    }
}

// The places found before and those of the terms, the arguments of what stands at the path.
#[cycle(places)]
fn places_among(
    alloc: Global,
    terms: &Vec<Term>,
    path: &[u32],
    mut found: Vec<NodePlace>,
) -> Result<Vec<NodePlace>, NoMemory>
    ensures { IfOk result (λ more. map node_place_of more.items
        ≡ map node_place_of found.items
        ++ argument_places path.now 0 (bare_terms_of terms.now.items)) }
{
    for i in 0..terms.len() {
        let below = with_position(alloc, path, i)?;
        found = places_below(alloc, &terms[i], below.as_slice(), found)?;
    }
    Ok(found)
}

// The path with one more position. So many arguments that their positions are no `u32` do not fit
// into memory.
fn with_position(alloc: Global, path: &[u32], position: usize) -> Result<Vec<u32>, NoMemory>
    ensures { IfOk result (λ longer. longer.items ≡ path.now ++ position ∷ []) }
{
    if position > u32::MAX as usize {
        return Err(NoMemory);
    }
    let mut longer = Vec::from_slice(alloc, path)?;
    longer.push(position as u32)?;
    Ok(longer)
}
